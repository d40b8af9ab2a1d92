//! Commands are read from the left; the first check that fails gives the answer. The checks of the header come first,
//! then whether the TPM is started, whether an authorisation is there, the handle, the authorisation, the parameters,
//! bytes left over, and the locality: an order of our own.

ghost use Rattle.std.specs.Prelude.{◌≡◌, ◌≤◌, ◌<◌, ◌==◌, Ok, Err, length, drop, IfOk, IfErr, IfSome};
ghost use Rattle.std.specs.Int.{w8, w16, w32};
ghost use Rattle.tpm_core.specs.Reading.{Reads, take_number, head_at, check_started_and_sessions, mode_at, startup_at, shutdown_at, get_random_at, handle_at, authorisation_at, algorithm_at, array_at, digest_at, selection_at, many_at, count_at, pcr_read_at, pcr_extend_at, parameters_at, check_locality, command_at};

use crate::algorithm::{Algorithm, Banks, Measurement, SHA256_DIGEST_SIZE};
use crate::array_vec::ArrayVec;
use crate::bank::is_dynamic;
use crate::codes::{RH_NULL, RS_PW, SU_CLEAR, SU_STATE};
use crate::command::{Command, Extension, LIST_SIZE, Mode, SELECT_SIZE, Selection};
use crate::parts::PCR_COUNT;
use crate::refusal::Refusal;
use std::marker::Model;
use tpm_frame::{
    BAD_TAG, COMMAND_SIZE, GET_RANDOM, HEADER_SIZE, Head, PCR_EXTEND, PCR_READ, SHUTDOWN, STARTUP,
    parse,
};
use vt_base::{u16_at, u32_at};

/// How many bytes an authorisation by an empty password has: the session's handle, the size of its nonce, its
/// attributes and the size of the password.
const EMPTY_PASSWORD_SIZE: usize = 9;

/// Reads a command from the left; seen as the bytes that are left. After a refusal it is of no more use.
#[derive(Drop)]
pub struct Reader<'a> {
    rest: &'a [u8],
}

impl<'a> Model for Reader<'a> {
    ghost use Rattle.std.specs.Prelude.{List, ℕ};

    ghost Value = { List ℕ };

    ghost view = { λ r. r.rest.now };
}

impl<'a> Reader<'a> {
    /// Reads from these bytes.
    pub fn new(bytes: &'a [u8]) -> Reader<'a>
        ensures { result ≡ bytes.now }
    {
        Reader { rest: bytes }
    }

    /// Whether each byte was read.
    pub fn is_empty(&self) -> bool
        ensures { result ≡ (length self.now == 0) }
    {
        self.rest.is_empty()
    }

    /// The next byte, or this refusal where there is none.
    pub fn u8(&mut self, cut: Refusal) -> Result<u8, Refusal>
        ensures { Reads result self.old self.new (take_number w8 cut) }
    {
        match self.rest {
            [] => Err(cut),
            [first, rest @ ..] => {
                self.rest = rest;
                Ok(*first)
            }
        }
    }

    /// The number in the next two bytes, or this refusal where they aren't there.
    pub fn u16(&mut self, cut: Refusal) -> Result<u16, Refusal>
        ensures { Reads result self.old self.new (take_number w16 cut) }
    {
        if self.rest.len() < 2 {
            return Err(cut);
        }
        let number = u16_at(self.rest, 0);
        let (_read, rest) = self.rest.split_at(2);
        self.rest = rest;
        Ok(number)
    }

    /// The number in the next four bytes, or this refusal where they aren't there.
    pub fn u32(&mut self, cut: Refusal) -> Result<u32, Refusal>
        ensures { Reads result self.old self.new (take_number w32 cut) }
    {
        if self.rest.len() < 4 {
            return Err(cut);
        }
        let number = u32_at(self.rest, 0);
        let (_read, rest) = self.rest.split_at(4);
        self.rest = rest;
        Ok(number)
    }

    /// So many bytes of the first parameter as they are.
    #[tactic(auto, unfolding(crate::specs::Reading::array_at))]
    pub fn bytes(&mut self, count: usize) -> Result<&'a [u8], Refusal>
        ensures ok { IfOk result (λ bytes. array_at count self.old ≡ Ok (bytes.now, self.new)) }
        ensures err { IfErr result (λ refusal. array_at count self.old ≡ Err refusal) }
    {
        if self.rest.len() < count {
            return Err(Refusal::ParameterCut);
        }
        let (bytes, rest) = self.rest.split_at(count);
        self.rest = rest;
        Ok(bytes)
    }

    #[tactic(auto, unfolding(crate::specs::Reading::array_at))]
    fn array<const N: usize>(&mut self) -> Result<[u8; N], Refusal>
        ensures { Reads result self.old self.new (array_at N) }
    {
        if self.rest.len() < N {
            return Err(Refusal::ParameterCut);
        }
        let (prefix, rest) = self.rest.split_at(N);
        self.rest = rest;
        let mut array = [0; N];
        array.copy_from_slice(prefix);
        Ok(array)
    }

    #[tactic(auto, unfolding(crate::specs::Reading::mode_at))]
    fn mode(&mut self) -> Result<Mode, Refusal>
        ensures { Reads result self.old self.new mode_at }
    {
        match self.u16(Refusal::ParameterCut)? {
            SU_CLEAR => Ok(Mode::Clear),
            SU_STATE => Ok(Mode::State),
            _ => Err(Refusal::ParameterValue),
        }
    }

    #[tactic(auto, unfolding(crate::specs::Reading::startup_at))]
    fn startup(&mut self, has_saved: bool) -> Result<Command, Refusal>
        ensures { Reads result self.old self.new (startup_at has_saved) }
    {
        match self.mode()? {
            Mode::State if !has_saved => Err(Refusal::ParameterValue),
            mode => Ok(Command::Startup(mode)),
        }
    }

    #[tactic(auto, unfolding(crate::specs::Reading::shutdown_at))]
    fn shutdown(&mut self) -> Result<Command, Refusal>
        ensures { Reads result self.old self.new shutdown_at }
    {
        Ok(Command::Shutdown(self.mode()?))
    }

    #[tactic(auto, unfolding(crate::specs::Reading::get_random_at))]
    fn get_random(&mut self) -> Result<Command, Refusal>
        ensures { Reads result self.old self.new get_random_at }
    {
        Ok(Command::GetRandom(self.u16(Refusal::ParameterCut)?))
    }

    #[tactic(auto, unfolding(crate::specs::Reading::handle_at))]
    fn handle(&mut self) -> Result<Option<usize>, Refusal>
        ensures small { IfOk result (λ x. IfSome x (λ i. i < 24)) }
        ensures read { Reads result self.old self.new handle_at }
    {
        let handle = self.u32(Refusal::HandleCut)?;
        if (handle as usize) < PCR_COUNT {
            Ok(Some(handle as usize))
        } else if handle == RH_NULL {
            Ok(None)
        } else {
            Err(Refusal::HandleValue)
        }
    }

    /// Reads an authorisation by the empty password.
    #[tactic(auto, unfolding(crate::specs::Reading::authorisation_at))]
    fn authorisation(&mut self) -> Result<(), Refusal>
        ensures { Reads result self.old self.new authorisation_at }
    {
        let size = self.u32(Refusal::AuthSize)? as usize;
        if size < EMPTY_PASSWORD_SIZE || self.rest.len() < size {
            return Err(Refusal::AuthSize);
        }
        let after = &self.rest[size..];
        if self.u32(Refusal::AuthSize)? != RS_PW {
            return Err(Refusal::SessionValue);
        }
        if self.u16(Refusal::AuthSize)? != 0 {
            return Err(Refusal::AuthSize);
        }
        let _attributes = self.u8(Refusal::AuthSize)?;
        let password = self.u16(Refusal::AuthSize)? as usize;
        if EMPTY_PASSWORD_SIZE + password != size {
            return Err(Refusal::AuthSize);
        }
        if password != 0 {
            return Err(Refusal::BadAuth);
        }
        self.rest = after;
        Ok(())
    }

    #[tactic(auto, unfolding(crate::specs::Reading::algorithm_at))]
    fn algorithm(&mut self, banks: Banks) -> Result<Algorithm, Refusal>
        ensures { Reads result self.old self.new (algorithm_at banks) }
    {
        let identifier = self.u16(Refusal::ParameterCut)?;
        match Algorithm::known(banks, identifier) {
            Some(algorithm) => Ok(algorithm),
            None => Err(Refusal::ParameterHash),
        }
    }

    #[tactic(auto, unfolding(crate::specs::Reading::digest_at))]
    fn digest(&mut self, banks: Banks) -> Result<Measurement, Refusal>
        ensures { Reads result self.old self.new (digest_at banks) }
    {
        match self.algorithm(banks)? {
            Algorithm::Sha256 => Ok(Measurement::Sha256(self.array()?)),
            Algorithm::Sha384 => Ok(Measurement::Sha384(self.array()?)),
        }
    }

    #[tactic(auto, unfolding(crate::specs::Reading::selection_at))]
    fn selection(&mut self, banks: Banks) -> Result<Selection, Refusal>
        ensures { Reads result self.old self.new (selection_at banks) }
    {
        let algorithm = self.algorithm(banks)?;
        if self.u8(Refusal::ParameterCut)? as usize != SELECT_SIZE {
            return Err(Refusal::ParameterValue);
        }
        let bits = self.array::<SELECT_SIZE>()?;
        Ok(Selection { algorithm, bits })
    }

    fn count(&mut self) -> Result<usize, Refusal>
        ensures small { IfOk result (λ n. n ≤ 16) }
        ensures read { Reads result self.old self.new count_at }
    {
        let count = self.u32(Refusal::ParameterCut)? as usize;
        if LIST_SIZE < count {
            return Err(Refusal::ParameterSize);
        }
        Ok(count)
    }

    fn digests(
        &mut self,
        banks: Banks,
        count: usize,
    ) -> Result<ArrayVec<Measurement, LIST_SIZE>, Refusal>
        requires { count ≤ 16 }
        ensures { Reads result self.old self.new (many_at (digest_at banks) count) }
    {
        let mut digests = ArrayVec::new(Measurement::Sha256([0; SHA256_DIGEST_SIZE]));
        for _ in 0..count {
            digests.push(self.digest(banks)?);
        }
        Ok(digests)
    }

    fn selections(
        &mut self,
        banks: Banks,
        count: usize,
    ) -> Result<ArrayVec<Selection, LIST_SIZE>, Refusal>
        requires { count ≤ 16 }
        ensures { Reads result self.old self.new (many_at (selection_at banks) count) }
    {
        let mut selections = ArrayVec::new(Selection {
            algorithm: Algorithm::Sha256,
            bits: [0; SELECT_SIZE],
        });
        for _ in 0..count {
            selections.push(self.selection(banks)?);
        }
        Ok(selections)
    }

    #[tactic(auto, unfolding(crate::specs::Reading::pcr_read_at))]
    fn pcr_read(&mut self, banks: Banks) -> Result<Command, Refusal>
        ensures { Reads result self.old self.new (pcr_read_at banks) }
    {
        let count = self.count()?;
        Ok(Command::PcrRead(self.selections(banks, count)?))
    }

    #[tactic(auto, unfolding(crate::specs::Reading::pcr_extend_at))]
    fn pcr_extend(&mut self, banks: Banks) -> Result<Command, Refusal>
        ensures { Reads result self.old self.new (pcr_extend_at banks) }
    {
        let register = self.handle()?;
        self.authorisation()?;
        let count = self.count()?;
        let digests = self.digests(banks, count)?;
        Ok(Command::PcrExtend(Extension::new(register, digests)))
    }

    #[tactic(auto, unfolding(crate::specs::Reading::parameters_at))]
    fn parameters(&mut self, banks: Banks, has_saved: bool, code: u32) -> Result<Command, Refusal>
        ensures { Reads result self.old self.new (parameters_at banks has_saved code) }
    {
        match code {
            STARTUP => self.startup(has_saved),
            SHUTDOWN => self.shutdown(),
            GET_RANDOM => self.get_random(),
            PCR_READ => self.pcr_read(banks),
            PCR_EXTEND => self.pcr_extend(banks),
            _ => Err(Refusal::CommandCode),
        }
    }
}

#[tactic(auto, unfolding(crate::specs::Reading::head_at))]
fn head_at(bytes: &[u8]) -> Result<Head, Refusal>
    ensures head { result ≡ head_at bytes.now }
    ensures long { IfOk result (λ _. 10 ≤ length bytes.now) }
{
    match parse(bytes) {
        Ok(head) => Ok(head),
        Err(BAD_TAG) => Err(Refusal::BadTag),
        Err(COMMAND_SIZE) => Err(Refusal::CommandSize),
        Err(_) => Err(Refusal::CommandCode),
    }
}

/// A start comes first and once, and an extend alone has sessions.
pub fn check_started_and_sessions(started: bool, head: Head) -> Result<Head, Refusal>
    ensures { result ≡ check_started_and_sessions started head }
{
    if started == (head.code == STARTUP) {
        return Err(Refusal::Initialize);
    }
    if head.code == PCR_EXTEND {
        if head.sessions {
            Ok(head)
        } else {
            Err(Refusal::AuthMissing)
        }
    } else if head.sessions {
        Err(Refusal::AuthContext)
    } else {
        Ok(head)
    }
}

/// A command on a register that is closed to the guest's locality is refused.
fn check_locality(command: Command) -> Result<Command, Refusal>
    ensures { result ≡ check_locality command }
{
    match command {
        Command::PcrExtend(extension) => match extension.register() {
            Some(register) if is_dynamic(register) => Err(Refusal::Locality),
            _ => Ok(Command::PcrExtend(extension)),
        },
        other => Ok(other),
    }
}

/// The command that the bytes are to a TPM with these banks, or the first check that fails.
#[tactic(auto, unfolding(crate::specs::Reading::command_at))]
pub fn command_at(
    banks: Banks,
    started: bool,
    has_saved: bool,
    bytes: &[u8],
) -> Result<Command, Refusal>
    ensures { result ≡ command_at banks started has_saved bytes.now }
{
    let head = check_started_and_sessions(started, head_at(bytes)?)?;
    let mut reader = Reader::new(&bytes[HEADER_SIZE..]);
    let command = reader.parameters(banks, has_saved, head.code)?;
    if !reader.is_empty() {
        return Err(Refusal::ParameterSize);
    }
    check_locality(command)
}
