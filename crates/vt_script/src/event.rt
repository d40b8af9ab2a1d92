//! What a line of a script asks for.
ghost use Rattle.std.specs.Prelude.{◌≡◌, ◌*◌, ◌^◌, ◌<◌, IfSome};
ghost use Rattle.crb_regs.specs.Access.{IsAccessSize};
ghost use Rattle.vt_script.specs.Script.{offset_of, size_of, value_of, host_of, access_event};
ghost use Rattle.vt_script.specs.Script.{parts_of, read_of, write_of, fail_of, only_ordinal, move_word_event, word_event, move_words_event, words_event, event_of, HasNumber, IsOrdinal};

use crate::number::{number, ordinal};
use crate::parts::{SPACE, first_part};
use crb_regs::Access;
use vt_base::HostName;

/// How many digits an offset has at most.
const OFFSET_DIGITS: usize = 3;

/// How many digits each byte of a written value has at most.
const BYTE_DIGITS: usize = 2;

/// The base of offsets and values.
const HEXADECIMAL: u64 = 16;

/// What one line of a script asks for.
#[derive(Clone, Copy, Debug, PartialEq, Eq)]
pub enum Event {
    /// An access of the guest.
    Access(Access),
    /// A step of the worker.
    Work,
    /// A cancel over the control channel of the emulator.
    Ask,
    /// A reset of the device.
    Reset,
    /// The host that runs offers its guest to the other one.
    Offer,
    /// The message of this number is delivered to the host that it names.
    Deliver(u32),
    /// The host that offers its guest takes the offer back.
    GiveUp,
    /// The host that is prepared says so again.
    Again,
    /// The message of this number is shown.
    Show(u32),
    /// The call of this number, from now on, on the wires of this host is to fail.
    Fail { host: HostName, call: u32 },
}

fn size(word: &[u8]) -> Option<u8>
    ensures value { result ≡ size_of word.now }
    ensures sizes { IfSome result IsAccessSize }
{
    match word {
        b"1" => Some(1),
        b"2" => Some(2),
        b"4" => Some(4),
        b"8" => Some(8),
        _ => None,
    }
}

fn offset(word: &[u8]) -> Option<u32>
    ensures { result ≡ offset_of word.now }
{
    let offset = number(HEXADECIMAL, OFFSET_DIGITS, word)?;
    Some(offset as u32)
}

fn value(word: &[u8], size: u8) -> Option<u64>
    requires { IsAccessSize size }
    ensures value { result ≡ value_of size word.now }
    ensures below { IfSome result (λ v. v < 256 ^ size) }
{
    number(HEXADECIMAL, BYTE_DIGITS * usize::from(size), word)
}

// The host that a word names.
fn host(word: &[u8]) -> Option<HostName>
    ensures { result ≡ host_of word.now }
{
    match word {
        b"a" => Some(HostName::A),
        b"b" => Some(HostName::B),
        _ => None,
    }
}

// The access, where it lies within the page.
fn guest_access(offset: u32, size: u8, write: Option<u64>) -> Option<Event>
    requires size { IsAccessSize size }
    requires value { IfSome write (λ v. v < 256 ^ size) }
    ensures { result ≡ access_event offset size write }
{
    let access = Access::new(offset, size, write)?;
    Some(Event::Access(access))
}

// What a line of one word of a move asks for.
fn parse_move_word(word: &[u8]) -> Option<Event>
    ensures { result ≡ move_word_event word.now }
{
    if word == b"offer".as_slice() {
        return Some(Event::Offer);
    }
    if word == b"giveup".as_slice() {
        return Some(Event::GiveUp);
    }
    if word == b"again".as_slice() {
        return Some(Event::Again);
    }
    None
}

// What a line of one word asks for.
fn parse_word(word: &[u8]) -> Option<Event>
    ensures { result ≡ word_event word.now }
{
    match word {
        b"work" => Some(Event::Work),
        b"ask" => Some(Event::Ask),
        b"reset" => Some(Event::Reset),
        _ => parse_move_word(word),
    }
}

// What the words after `r` ask for.
fn parse_read(words: &[u8]) -> Option<Event>
    ensures { result ≡ read_of (parts_of SPACE words.now) }
{
    let (first, rest) = first_part(SPACE, words);
    let (second, rest) = first_part(SPACE, rest?);
    match rest {
        Some(_) => None,
        None => guest_access(offset(first)?, size(second)?, None),
    }
}

// What the words after `w` ask for.
fn parse_write(words: &[u8]) -> Option<Event>
    ensures { result ≡ write_of (parts_of SPACE words.now) }
{
    let (first, rest) = first_part(SPACE, words);
    let (second, rest) = first_part(SPACE, rest?);
    let (third, rest) = first_part(SPACE, rest?);
    match rest {
        Some(_) => None,
        None => {
            let offset = offset(first)?;
            let size = size(second)?;
            guest_access(offset, size, Some(value(third, size)?))
        }
    }
}

// What the words after `fail` ask for.
fn parse_fail(words: &[u8]) -> Option<Event>
    ensures { result ≡ fail_of (parts_of SPACE words.now) }
{
    let (first, rest) = first_part(SPACE, words);
    let (second, rest) = first_part(SPACE, rest?);
    match rest {
        Some(_) => None,
        None => {
            let host = host(first)?;
            let call = ordinal(second)?;
            Some(Event::Fail { host, call })
        }
    }
}

// The one ordinal that these words are.
fn only_ordinal(words: &[u8]) -> Option<u32>
    ensures value { result ≡ only_ordinal (parts_of SPACE words.now) }
    ensures range { IfSome result IsOrdinal }
{
    let (first, rest) = first_part(SPACE, words);
    match rest {
        Some(_) => None,
        None => ordinal(first),
    }
}

// What a line of a name and a message asks for.
fn parse_move_words(name: &[u8], words: &[u8]) -> Option<Event>
    ensures { result ≡ move_words_event name.now (parts_of SPACE words.now) }
{
    if name == b"deliver".as_slice() {
        return Some(Event::Deliver(only_ordinal(words)?));
    }
    if name == b"show".as_slice() {
        return Some(Event::Show(only_ordinal(words)?));
    }
    None
}

// What a line of a name and more words asks for.
fn parse_words(name: &[u8], words: &[u8]) -> Option<Event>
    ensures { result ≡ words_event name.now (parts_of SPACE words.now) }
{
    if name == b"r".as_slice() {
        return parse_read(words);
    }
    if name == b"w".as_slice() {
        return parse_write(words);
    }
    if name == b"fail".as_slice() {
        return parse_fail(words);
    }
    parse_move_words(name, words)
}

/// What a line asks for; a line comes without the LF that ends it. `None` comes where the line isn't in the grammar.
///
/// The lines are `r OFF SIZE`, `w OFF SIZE VALUE`, `work`, `ask`, `reset`, `offer`, `deliver K`, `giveup`, `again`, `show K`
/// and `fail H K`, with one space between words and nothing else. OFF has 1 to 3 and VALUE 1 to `2 * SIZE` hexadecimal
/// digits of either case, SIZE is `1`, `2`, `4` or `8`, and the access ends within the page. H is `a` or `b`. K is a decimal
/// number from 1 to 65535 without a leading zero. The grammar is our own.
#[tactic(auto, unfolding(crate::specs::Script::event_of))]
pub fn parse_line(line: &[u8]) -> Option<Event>
    ensures value { result ≡ event_of line.now }
    ensures numbers { IfSome result HasNumber }
{
    let (name, rest) = first_part(SPACE, line);
    match rest {
        None => parse_word(name),
        Some(words) => parse_words(name, words),
    }
}
