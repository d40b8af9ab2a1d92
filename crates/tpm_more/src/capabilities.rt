//! GetCapability: lists of what the TPM can do, a page at a time.

ghost use Rattle.std.specs.Prelude.{◌≡◌, ◌≤◌, ◌+◌, ◌*◌, ◌++◌, length, option_map, IfSome, IsTrue, if◌then◌else◌};
ghost use Rattle.std.specs.List.{flat_map};
ghost use Rattle.tpm_core.specs.Capabilities.{algorithms, commands, bank_selections, properties, capability_list, from_key, page_room, capability_body};
ghost use Rattle.tpm_core.specs.MoreCommands.{get_capability};
ghost use Rattle.tpm_more.specs.Entries.{written, entries_of, is_rising};

use crate::codes::{
    ALGORITHMS, COMMANDS, FAMILY_INDICATOR, GET_CAPABILITY, GET_TEST_RESULT, HASH, MANUFACTURER,
    MAX_COMMAND_SIZE, MAX_RESPONSE_SIZE, ONE_HANDLE, PCR_COUNT, PCRS, SELF_TEST, TOTAL_COMMANDS,
    TPM_PROPERTIES,
};
use crate::entry::{Body, Entry};
use tpm_core::{Banks, Reader, Refusal};
use tpm_frame::{GET_RANDOM, PCR_EXTEND, PCR_READ, SHUTDOWN, STARTUP};

#[tactic(auto, unfolding(tpm_core::specs::Capabilities::algorithms))]
fn algorithms(banks: Banks) -> &'static [Entry]
    ensures list { entries_of result.now ≡ algorithms banks }
    ensures few { length result.now ≤ 9 }
{
    match banks {
        Banks::One => &[Entry::Algorithm(0x000B)],
        Banks::Two => &[Entry::Algorithm(0x000B), Entry::Algorithm(0x000C)],
    }
}

/// In the order of their codes. Attributes beside a code are set for PCR_Extend alone, which has a handle.
#[tactic(auto, unfolding(tpm_core::specs::Capabilities::commands))]
fn commands() -> &'static [Entry]
    ensures list { entries_of result.now ≡ commands }
    ensures few { length result.now ≤ 9 }
{
    &[
        Entry::Command(SELF_TEST),
        Entry::Command(STARTUP),
        Entry::Command(SHUTDOWN),
        Entry::Command(GET_CAPABILITY),
        Entry::Command(GET_RANDOM),
        Entry::Command(GET_TEST_RESULT),
        Entry::Command(HASH),
        Entry::Command(PCR_READ),
        Entry::Command(PCR_EXTEND + ONE_HANDLE),
    ]
}

#[tactic(auto, unfolding(tpm_core::specs::Capabilities::bank_selections))]
fn bank_selections(banks: Banks) -> &'static [Entry]
    ensures list { entries_of result.now ≡ bank_selections banks }
    ensures few { length result.now ≤ 9 }
{
    match banks {
        Banks::One => &[Entry::Bank(0x000B)],
        Banks::Two => &[Entry::Bank(0x000B), Entry::Bank(0x000C)],
    }
}

#[tactic(auto, unfolding(tpm_core::specs::Capabilities::properties))]
fn properties() -> &'static [Entry]
    ensures list { entries_of result.now ≡ properties }
    ensures few { length result.now ≤ 9 }
{
    &[
        // `2.0` and a zero
        Entry::Property(FAMILY_INDICATOR, 0x322E_3000),
        // `CRBT`
        Entry::Property(MANUFACTURER, 0x4352_4254),
        Entry::Property(PCR_COUNT, 24),
        Entry::Property(MAX_COMMAND_SIZE, 3968),
        Entry::Property(MAX_RESPONSE_SIZE, 3968),
        Entry::Property(TOTAL_COMMANDS, 9),
    ]
}

/// The list of a capability, if it is one of the four.
fn list_of(banks: Banks, capability: u32) -> Option<&'static [Entry]>
    ensures list { option_map (λ list. entries_of list.now) result ≡ capability_list banks capability }
    ensures few { IfSome result (λ list. length list.now ≤ 9) }
    ensures rising { IfSome result (λ list. IsTrue (is_rising (entries_of list.now))) }
{
    match capability {
        ALGORITHMS => Some(algorithms(banks)),
        COMMANDS => Some(commands()),
        PCRS => Some(bank_selections(banks)),
        TPM_PROPERTIES => Some(properties()),
        _ => None,
    }
}

/// The entries whose key is at least this one: the keys rise.
#[tactic(auto, unfolding(tpm_core::specs::Capabilities::from_key))]
fn from_key(entries: &[Entry], property: u32) -> &[Entry]
    requires rising { IsTrue (is_rising (entries_of entries.now)) }
    ensures found { entries_of result.now ≡ from_key property (entries_of entries.now) }
    ensures few { length result.now ≤ length entries.now }
{
    match entries {
        [first, rest @ ..] if first.key() < property => from_key(rest, property),
        _ => entries,
    }
}

fn push_entries(entries: &[Entry], body: &mut Body)
    requires room { length body.old + 8 * length entries.now ≤ 81 }
    ensures { body.new ≡ body.old ++ flat_map written entries.now }
{
    for entry in entries {
        entry.push(body);
    }
}

/// TPMI_YES_NO: whether entries are left.
fn more_byte(more: bool) -> u8
    ensures { result ≡ (if more then 1 else 0) }
{
    if more { 1 } else { 0 }
}

/// A page of a list, from a key on, with at most so many entries.
fn page(capability: u32, property: u32, room: usize, entries: &[Entry]) -> Body
    requires few { length entries.now ≤ 9 }
    requires rising { IsTrue (is_rising (entries_of entries.now)) }
    ensures { result ≡ capability_body capability property room (entries_of entries.now) }
{
    let found = from_key(entries, property);
    let given = &found[..room.min(found.len())];
    let mut body = Body::new();
    body.push(&[more_byte(room < found.len())]);
    body.push(&capability.to_be_bytes());
    body.push(&(given.len() as u32).to_be_bytes());
    push_entries(given, &mut body);
    body
}

/// How many entries are given at most: banks come all at once.
fn page_room(capability: u32, count: u32, entries: &[Entry]) -> usize
    ensures { result ≡ page_room capability count (entries_of entries.now) }
{
    if capability == PCRS {
        entries.len()
    } else {
        count as usize
    }
}

/// GetCapability: a capability, the key of the first entry that is asked for, and how many entries are.
#[tactic(auto, unfolding(tpm_core::specs::MoreCommands::get_capability))]
pub fn get_capability(banks: Banks, bytes: &[u8]) -> Result<Body, Refusal>
    ensures { result ≡ get_capability banks bytes.now }
{
    let mut reader = Reader::new(bytes);
    let capability = reader.u32(Refusal::ParameterCut)?;
    let Some(entries) = list_of(banks, capability) else {
        return Err(Refusal::ParameterValue);
    };
    let property = reader.u32(Refusal::Parameter2Cut)?;
    if capability == PCRS && property != 0 {
        return Err(Refusal::Parameter2Value);
    }
    let count = reader.u32(Refusal::Parameter3Cut)?;
    if !reader.is_empty() {
        return Err(Refusal::Parameter3Size);
    }
    let room = page_room(capability, count, entries);
    Ok(page(capability, property, room, entries))
}
