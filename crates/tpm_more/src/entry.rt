//! An entry of a list of capabilities.

ghost use Rattle.std.specs.Prelude.{◌≡◌, ◌≤◌, ◌+◌, ◌++◌, length};
ghost use Rattle.tpm_more.specs.Entries.{entry_of};

use crate::codes::IS_HASH;
use vt_base::ByteBuf;

/// How many bytes an entry has at most.
pub const LONGEST_ENTRY_SIZE: usize = 8;

/// How many entries a list has at most.
pub const LONGEST_LIST_SIZE: usize = 9;

/// How many bytes the body of a response has at most: whether entries are left, the capability, the number of entries,
/// and those of the longest list.
pub const BODY_SIZE: usize = 1 + 4 + 4 + LONGEST_LIST_SIZE * LONGEST_ENTRY_SIZE;

/// The body of a response.
pub type Body = ByteBuf<BODY_SIZE>;

/// An entry of a list of capabilities.
#[derive(Clone, Copy, Debug, PartialEq, Eq)]
pub enum Entry {
    /// A hash algorithm, by its identifier.
    Algorithm(u16),
    /// A command, by its attributes, of which the low half is its code.
    Command(u32),
    /// A bank of 24 registers, by the identifier of its algorithm.
    Bank(u16),
    /// A property and its value.
    Property(u32, u32),
}

impl Entry {
    /// What it is found by.
    pub fn key(self) -> u32
        ensures { result ≡ (entry_of self).key }
    {
        match self {
            Entry::Algorithm(identifier) => identifier as u32,
            Entry::Command(attributes) => attributes % 0x1_0000,
            Entry::Bank(identifier) => identifier as u32,
            Entry::Property(name, _) => name,
        }
    }

    /// Adds its bytes to the body.
    pub fn push(self, body: &mut Body)
        requires room { length body.old + 8 ≤ 81 }
        ensures body { body.new ≡ body.old ++ (entry_of self).bytes }
        ensures size { length body.new ≤ length body.old + 8 }
    {
        match self {
            Entry::Algorithm(identifier) => {
                body.push(&identifier.to_be_bytes());
                body.push(&IS_HASH.to_be_bytes());
            }
            Entry::Command(attributes) => body.push(&attributes.to_be_bytes()),
            Entry::Bank(identifier) => {
                body.push(&identifier.to_be_bytes());
                body.push(&[3, 0xFF, 0xFF, 0xFF]);
            }
            Entry::Property(name, value) => {
                body.push(&name.to_be_bytes());
                body.push(&value.to_be_bytes());
            }
        }
    }
}
