// Parses control requests field by field.
ghost use Rattle.std.specs.Prelude.{◌≡◌};
ghost use Rattle.vt_base.specs.Parsing.{parsed};
ghost use Rattle.ctrl_codec.specs.Requests.{requests, body_of};
ghost use Rattle.ctrl_codec.specs.RequestRoom.{requests_within};
ghost use Rattle.ctrl_codec.specs.declared.request_code.RequestCode.TheVariants.{GetStateBlob, SetStateBlob};

use crate::codes::{IGNORED, LARGEST_DATA};
use crate::request::{Request, RequestFault};
use crate::request_code::RequestCode;
use vt_base::{Grammar, Missing, byte_of, field_of, number_of};

/// The grammar of control requests.
pub(crate) struct Requests;

type Parsed = Result<Result<Request, RequestFault>, Missing>;

fn asked_for_blob(rest: &[u8]) -> Parsed
    ensures { result ≡ parsed (body_of GetStateBlob) rest.now }
{
    let (flags, rest) = number_of(rest)?;
    let (kind, rest) = number_of(rest)?;
    let (offset, _) = number_of(rest)?;
    Ok(Ok(Request::GetStateBlob {
        flags,
        kind,
        offset,
    }))
}

fn given_blob(rest: &[u8]) -> Parsed
    ensures { result ≡ parsed (body_of SetStateBlob) rest.now }
{
    let (flags, rest) = number_of(rest)?;
    let (kind, rest) = number_of(rest)?;
    let (length, rest) = number_of(rest)?;
    if length as usize > LARGEST_DATA {
        return Ok(Err(RequestFault::Length(length)));
    }
    let _data = field_of(rest, length as usize)?;
    Ok(Ok(Request::SetStateBlob {
        flags,
        kind,
        length,
    }))
}

fn request_of(command: RequestCode, rest: &[u8]) -> Parsed
    ensures { result ≡ parsed (body_of command) rest.now }
{
    Ok(Ok(match command {
        RequestCode::GetCapability => Request::GetCapability,
        RequestCode::Init => {
            let (flags, _) = number_of(rest)?;
            Request::Init { flags }
        }
        RequestCode::Shutdown => Request::Shutdown,
        RequestCode::GetEstablished => Request::GetEstablished,
        RequestCode::SetLocality => {
            let (locality, rest) = byte_of(rest)?;
            let _ignored = field_of(rest, IGNORED)?;
            Request::SetLocality { locality }
        }
        RequestCode::CancelCommand => Request::CancelCommand,
        RequestCode::StoreVolatile => Request::StoreVolatile,
        RequestCode::ResetEstablished => {
            let (locality, rest) = byte_of(rest)?;
            let _ignored = field_of(rest, IGNORED)?;
            Request::ResetEstablished { locality }
        }
        RequestCode::GetStateBlob => return asked_for_blob(rest),
        RequestCode::SetStateBlob => return given_blob(rest),
        RequestCode::Stop => Request::Stop,
        RequestCode::GetConfig => Request::GetConfig,
        RequestCode::SetBufferSize => {
            let (size, _) = number_of(rest)?;
            Request::SetBufferSize { size }
        }
    }))
}

impl Grammar for Requests {
    type End = Result<Request, RequestFault>;

    ghost use Rattle.ctrl_codec.specs.declared.codes.TheConstants.{LARGEST_MESSAGE};

    ghost layout = { λ _. requests };

    ghost room = { λ _. LARGEST_MESSAGE };

    ghost within = { λ _. requests_within };

    #[tactic(auto, unfolding(crate::specs::Requests::requests))]
    fn parse(&self, bytes: &[u8]) -> Parsed {
        let (code, rest) = number_of(bytes)?;
        match RequestCode::from_code(code) {
            Some(command) => request_of(command, rest),
            None => Ok(Err(RequestFault::Code(code))),
        }
    }
}
