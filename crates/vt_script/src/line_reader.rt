//! The lines of an input, read piece by piece.
ghost use Rattle.std.specs.Prelude.{◌≡◌, ◌≢◌, ◌≤◌, ◌<◌, ◌+◌, ◌-◌, ◌++◌, [], List, ℕ, true, false, IsTrue, IfOk, OnErr, IsOk, MatchOption, MatchResult, length, vec_len, take, slice_range};
ghost use Rattle.std.specs.Io.KnownBytes.{prepend_known, Consumes, Keeps, IsAtEnd};
ghost use Rattle.vt_base.specs.Faults.{Counts};
ghost use Rattle.vt_script.specs.Reading.{line_length, first_line, after_line, has_line, Says, SaysOf, CountsLine, CountsFault};

use crate::parts::{LINE_FEED, place_of};
use std::alloc::{AllocError, Global};
use std::marker::Model;
use vt_base::{Failed, Source};

/// How many bytes a line has at most, without its LF.
const LONGEST_LINE: usize = 8256;

/// How many lines an input has at most.
const MOST_LINES: u32 = 1_000_000;

/// How many bytes are kept: those of the longest line, and one more, which is its LF or shows that a line is too long.
const ROOM: usize = 8257;

/// What comes next in an input.
#[derive(Clone, Copy, Debug, PartialEq, Eq)]
pub enum Next {
    /// A line.
    Line,
    /// The end of the input.
    End,
    /// The line of this number, which has too many bytes.
    TooLong(u32),
    /// One line more than an input may have.
    TooMany,
    /// A read failed.
    ReadFault,
}

/// The lines of an input, one after the other, each without the LF that ends it. The last line may be ended by the end
/// of the input; where nothing stands behind the last LF, no line begins there. A line has at most 8256 bytes, and an
/// input at most 1,000,000 lines.
///
/// What was read is kept in one buffer, and a line is lent from it. Bytes are read only where no line is whole there,
/// and then as many as there is room for.
#[derive(Drop)]
pub struct Lines {
    buffer: Vec<u8>,
    // The latest line.
    line_start: usize,
    line_end: usize,
    // The bytes that were read and aren't given yet, and the first LF among them, or their end where there is none: so each
    // byte is looked at once, in however many pieces its line comes.
    start: usize,
    feed: usize,
    end: usize,
    number: u32,
}

impl Model for Lines {
    ghost use Rattle.std.specs.Prelude.{◌≡◌, ◌≤◌, ◌+◌, vec_len, slice_range};
    ghost use Rattle.vt_script.specs.Reading.{LineReader, line_length};

    ghost Value = { LineReader };

    ghost view = { λ s. record {
      pending = slice_range s.buffer.items s.start s.end;
      line = slice_range s.buffer.items s.line_start s.line_end;
      number = s.number;
    } };

    ghost invariant = { λ s. (vec_len s.buffer ≡ 8257) × (s.line_start ≤ s.line_end) × (s.line_end ≤ 8257) × (s.start ≤ s.end) × (s.end ≤ 8257)
        × (s.feed ≡ s.start + line_length (slice_range s.buffer.items s.start s.end)) × (s.number ≤ 1000000) };
}

impl Lines {
    /// The lines of an input of which nothing was read. All memory is taken here.
    pub fn new(alloc: Global) -> Result<Lines, AllocError>
        ensures pending { IfOk result (λ s. s.pending ≡ []) }
        ensures number { IfOk result (λ s. s.number ≡ 0) }
    {
        Ok(Lines {
            buffer: vec![in alloc; 0; ROOM]?,
            line_start: 0,
            line_end: 0,
            start: 0,
            feed: 0,
            end: 0,
            number: 0,
        })
    }

    /// The latest line, without its LF.
    pub fn line(&self) -> &[u8]
        ensures { result.now ≡ self.now.line }
    {
        &self.buffer[self.line_start..self.line_end]
    }

    /// The number of the latest line, from 1 on; 0 before the first.
    pub fn number(&self) -> u32
        ensures value { result ≡ self.now.number }
        ensures within_limit { result ≤ 1000000 }
    {
        self.number
    }

    /// Whether the next line was read with its LF. Then the next call of `next` reads nothing, and so can't wait.
    pub fn has_line(&self) -> bool
        ensures { result ≡ has_line self.now.pending }
    {
        self.feed < self.end
    }

    /// Goes on to the next line. Where there is none, or none that may be, it says so, and says it again when it is called again.
    /// After `ReadFault` the bytes that were read before are still there.
    pub fn next<S: Source>(&mut self, _alloc: Global, source: &mut S) -> Result<Next, AllocError>
        // Where the bytes of the source are known: those that are left are the ones that were read and aren't given, and then
        // the source's.
        ensures says { IfOk result (λ next. SaysOf next self.old.number (prepend_known self.old.pending (S.left source.old)) self.new.line (prepend_known self.new.pending (S.left source.new))) }
        ensures counts_lines { IfOk result (λ next. CountsLine next self.old.number self.new.number) }
        ensures ended { IfOk result (λ next. next ≡ Next.End → IsAtEnd (S.left source.new)) }
        ensures no_line { IfOk result (λ next. next ≡ Next.ReadFault → has_line self.new.pending ≡ false) }

        // It reads nothing where a line is there, and fails only where a read fails.
        ensures unread { IsTrue (has_line self.old.pending) → source.new ≡ source.old }
        ensures counts_faults { IfOk result (λ next. CountsFault next (S.faults source.old) (S.faults source.new)) }
        ensures never_fails { IsTrue (S.never_fails source.old) → IfOk result (λ next. next ≢ Next.ReadFault) }
        ensures stays { IsTrue (S.never_fails source.old) → IsTrue (S.never_fails source.new) }

        ensures needs_no_memory { IsOk result }
    {
        loop {
            if let Some(next) = self.in_buffer() {
                return Ok(next);
            }
            match self.fill(source) {
                Err(Failed) => return Ok(Next::ReadFault),
                Ok(0) => return Ok(self.at_end()),
                Ok(_) => {}
            }
        }
    }

    // What comes next, where the bytes that were read decide it.
    fn in_buffer(&mut self) -> Option<Next>
        ensures decided { MatchOption result
            ((self.new ≡ self.old) × (has_line self.old.pending ≡ false) × (length self.old.pending ≤ 8256) × (0 < length self.old.pending → self.old.number < 1000000))
            (λ next. (left : List ℕ) → Says next self.old.number (self.old.pending ++ left) self.new.line (self.new.pending ++ left)) }
        ensures number { MatchOption result (self.new.number ≡ self.old.number) (λ next. CountsLine next self.old.number self.new.number) }
        ensures no_fault { result ≢ Some Next.ReadFault }
        ensures no_end { result ≢ Some Next.End }
    {
        if self.start == self.end {
            return None;
        }
        if self.number == MOST_LINES {
            return Some(Next::TooMany);
        }
        if self.feed < self.end {
            self.cut();
            return Some(Next::Line);
        }
        if self.end - self.start > LONGEST_LINE {
            return Some(Next::TooLong(self.number + 1));
        }
        None
    }

    // What comes next at the end of the input, where no LF was read.
    fn at_end(&mut self) -> Next
        requires no_line { has_line self.old.pending ≡ false }
        requires short { length self.old.pending ≤ 8256 }
        requires more { 0 < length self.old.pending → self.old.number < 1000000 }
        ensures says { Says result self.old.number self.old.pending self.new.line self.new.pending }
        ensures number { CountsLine result self.old.number self.new.number }
        ensures no_fault { result ≢ Next.ReadFault }
    {
        if self.start == self.end {
            return Next::End;
        }
        self.line_start = self.start;
        self.line_end = self.end;
        self.start = self.end;
        self.number += 1;
        Next::Line
    }

    // Takes the first line off.
    fn cut(&mut self)
        requires whole { has_line self.old.pending ≡ true }
        requires more { self.old.number < 1000000 }
        ensures line { self.new.line ≡ first_line self.old.pending }
        ensures after { self.new.pending ≡ after_line self.old.pending }
        ensures number { self.new.number ≡ self.old.number + 1 }
    {
        self.line_start = self.start;
        self.line_end = self.feed;
        self.start = self.feed + 1;
        self.feed = self.start + line_length(&self.buffer[self.start..self.end]);
        self.number += 1;
    }

    // Moves the bytes to the start of the buffer, and reads as many as there is room for behind them. No LF is among them.
    fn fill<S: Source>(&mut self, source: &mut S) -> Result<usize, Failed>
        requires no_line { has_line self.old.pending ≡ false }
        requires room { length self.old.pending ≤ 8256 }
        ensures known { Keeps (prepend_known self.old.pending (S.left source.old)) (prepend_known self.new.pending (S.left source.new)) }
        ensures more { MatchResult result (λ n. (length self.new.pending ≡ length self.old.pending + n) × (length self.new.pending ≤ 8257)) (λ _. self.new.pending ≡ self.old.pending) }
        ensures ended { IfOk result (λ n. n ≡ 0 → IsAtEnd (S.left source.new)) }
        ensures nothing { IfOk result (λ n. n ≡ 0 → self.new.pending ≡ self.old.pending) }
        ensures number { self.new.number ≡ self.old.number }
        ensures counts { Counts (S.faults source.old) (S.faults source.new) result }
        ensures never_fails { IsTrue (S.never_fails source.old) → IsOk result }
        ensures stays { IsTrue (S.never_fails source.old) → IsTrue (S.never_fails source.new) }
    {
        let kept = self.end - self.start;
        let count = refill(source, &mut self.buffer, self.start, self.end);
        self.line_start = 0;
        self.line_end = 0;
        self.start = 0;
        self.feed = kept;
        self.end = kept;
        let count = count?;
        self.end = kept + count;
        self.feed = kept + line_length(&self.buffer[kept..self.end]);
        Ok(count)
    }
}

// Moves a part of the buffer to its start, and reads as many bytes as there is room for behind it.
fn refill<S: Source>(
    source: &mut S,
    buffer: &mut Vec<u8>,
    start: usize,
    end: usize,
) -> Result<usize, Failed>
    requires order { start ≤ end }
    requires within { end ≤ vec_len buffer.old }
    requires room { end - start < vec_len buffer.old }
    ensures len { vec_len buffer.new ≡ vec_len buffer.old }
    ensures kept { slice_range buffer.new.items 0 (end - start) ≡ slice_range buffer.old.items start end }
    ensures fits { IfOk result (λ n. end - start + n ≤ vec_len buffer.new) }
    ensures bytes { MatchResult result
        (λ n. Consumes (S.left source.old) (S.left source.new) (slice_range buffer.new.items (end - start) (end - start + n)) × (n ≡ 0 → IsAtEnd (S.left source.new)))
        (λ _. Keeps (S.left source.old) (S.left source.new)) }
    ensures counts { Counts (S.faults source.old) (S.faults source.new) result }
    ensures never_fails { IsTrue (S.never_fails source.old) → IsOk result }
    ensures stays { IsTrue (S.never_fails source.old) → IsTrue (S.never_fails source.new) }
{
    let bytes = buffer.as_mut_slice();
    move_to_start(bytes, start, end);
    read_behind(source, bytes, end - start)
}

// Moves a part of the bytes to their start.
fn move_to_start(bytes: &mut [u8], start: usize, end: usize)
    requires order { start ≤ end }
    requires within { end ≤ length bytes.old }
    ensures kept { take (end - start) bytes.new ≡ slice_range bytes.old start end }
    ensures length { length bytes.new ≡ length bytes.old }
{
    if start > 0 {
        bytes.copy_within(start..end, 0);
    }
}

// Reads as many bytes as there is room for behind the first ones.
fn read_behind<S: Source>(source: &mut S, bytes: &mut [u8], kept: usize) -> Result<usize, Failed>
    requires room { kept < length bytes.old }
    ensures kept { take kept bytes.new ≡ take kept bytes.old }
    ensures fits { IfOk result (λ n. kept + n ≤ length bytes.new) }
    ensures bytes { MatchResult result
        (λ n. Consumes (S.left source.old) (S.left source.new) (slice_range bytes.new kept (kept + n)) × (n ≡ 0 → IsAtEnd (S.left source.new)))
        (λ _. Keeps (S.left source.old) (S.left source.new)) }
    ensures length { length bytes.new ≡ length bytes.old }
    ensures counts { Counts (S.faults source.old) (S.faults source.new) result }
    ensures never_fails { IsTrue (S.never_fails source.old) → IsOk result }
    ensures stays { IsTrue (S.never_fails source.old) → IsTrue (S.never_fails source.new) }
{
    source.read(&mut bytes[kept..])
}

// How many bytes stand before the first LF, or all.
fn line_length(bytes: &[u8]) -> usize
    ensures { result ≡ line_length bytes.now }
{
    match place_of(LINE_FEED, bytes) {
        Some(at) => at,
        None => bytes.len(),
    }
}
