//! SelfTest, GetTestResult and Hash, and which command a code is.

ghost use Rattle.std.specs.Prelude.{◌≡◌, ◌≤◌, length};
ghost use Rattle.tpm_core.specs.MoreCommands.{self_test, test_result, hash_body, hash, is_more, body_by};

use crate::capabilities::get_capability;
use crate::codes::{GET_CAPABILITY, GET_TEST_RESULT, HASH, HASH_CHECK, SELF_TEST};
use crate::entry::Body;
use tpm_core::{
    Algorithm, Banks, RH_NULL, Reader, Refusal, SHA256_DIGEST_SIZE, SHA384_DIGEST_SIZE, digest_of,
};

/// How many bytes a message to be hashed has at most.
const LONGEST_MESSAGE: usize = 1024;

/// SelfTest: there is nothing that a test could find.
#[tactic(auto, unfolding(tpm_core::specs::MoreCommands::self_test))]
fn self_test(bytes: &[u8]) -> Result<Body, Refusal>
    ensures { result ≡ self_test bytes.now }
{
    let mut reader = Reader::new(bytes);
    if 1 < reader.u8(Refusal::ParameterCut)? {
        return Err(Refusal::ParameterValue);
    }
    if !reader.is_empty() {
        return Err(Refusal::ParameterSize);
    }
    Ok(Body::new())
}

/// GetTestResult: no data, and success.
#[tactic(auto, unfolding(tpm_core::specs::MoreCommands::test_result))]
fn test_result(bytes: &[u8]) -> Result<Body, Refusal>
    ensures { result ≡ test_result bytes.now }
{
    if !bytes.is_empty() {
        return Err(Refusal::CommandSize);
    }
    let mut body = Body::new();
    body.push(&[0, 0, 0, 0, 0, 0]);
    Ok(body)
}

/// The digest of a message, and a ticket that proves nothing.
#[tactic(auto, unfolding(tpm_core::specs::MoreCommands::hash_body))]
fn hash_body(algorithm: Algorithm, message: &[u8]) -> Body
    ensures { result ≡ hash_body algorithm message.now }
{
    let mut body = Body::new();
    match algorithm {
        Algorithm::Sha256 => {
            body.push(&(SHA256_DIGEST_SIZE as u16).to_be_bytes());
            body.push(&digest_of::<SHA256_DIGEST_SIZE>(algorithm, message, &[]));
        }
        Algorithm::Sha384 => {
            body.push(&(SHA384_DIGEST_SIZE as u16).to_be_bytes());
            body.push(&digest_of::<SHA384_DIGEST_SIZE>(algorithm, message, &[]));
        }
    }
    body.push(&HASH_CHECK.to_be_bytes());
    body.push(&RH_NULL.to_be_bytes());
    body.push(&[0, 0]);
    body
}

/// Hash: a message, an algorithm, and the hierarchy of a ticket, of which there is none.
#[tactic(auto, unfolding(tpm_core::specs::MoreCommands::hash, tpm_core::specs::MoreCommands::message_at))]
fn hash(banks: Banks, bytes: &[u8]) -> Result<Body, Refusal>
    ensures { result ≡ hash banks bytes.now }
{
    let mut reader = Reader::new(bytes);
    let size = reader.u16(Refusal::ParameterCut)? as usize;
    if LONGEST_MESSAGE < size {
        return Err(Refusal::ParameterSize);
    }
    let message = reader.bytes(size)?;
    let identifier = reader.u16(Refusal::Parameter2Cut)?;
    let Some(algorithm) = Algorithm::known(banks, identifier) else {
        return Err(Refusal::Parameter2Hash);
    };
    if reader.u32(Refusal::Parameter3Cut)? != RH_NULL {
        return Err(Refusal::Parameter3Value);
    }
    if !reader.is_empty() {
        return Err(Refusal::Parameter3Size);
    }
    Ok(hash_body(algorithm, message))
}

/// Whether a code is that of one of the four.
pub fn is_more(code: u32) -> bool
    ensures { result ≡ is_more code }
{
    code == SELF_TEST || code == GET_CAPABILITY || code == GET_TEST_RESULT || code == HASH
}

/// The body of the response to the command of a code, whose parameters these bytes are.
#[tactic(auto, unfolding(tpm_core::specs::MoreCommands::body_by))]
pub fn body_by(banks: Banks, code: u32, bytes: &[u8]) -> Result<Body, Refusal>
    ensures { result ≡ body_by banks code bytes.now }
{
    match code {
        SELF_TEST => self_test(bytes),
        GET_CAPABILITY => get_capability(banks, bytes),
        GET_TEST_RESULT => test_result(bytes),
        HASH => hash(banks, bytes),
        _ => Err(Refusal::CommandCode),
    }
}
