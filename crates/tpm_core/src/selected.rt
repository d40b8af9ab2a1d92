//! Which registers a read reads.

ghost use Rattle.std.specs.Prelude.{◌≡◌, ◌≤◌, ◌<◌, ◌+◌, ◌++◌, All, take, length};
ghost use Rattle.tpm_core.specs.Selected.{AreThere, registers_of, is_selected, selected, bit_of, byte_from, bits_of};

use crate::algorithm::Algorithm;
use crate::array_vec::ArrayVec;
use crate::command::SELECT_SIZE;
use crate::parts::PCR_COUNT;

/// How many registers one read reads at most, of all banks together.
pub const READ_AT_ONCE: usize = 8;

/// A register of a bank.
#[derive(Clone, Copy, Debug, PartialEq, Eq)]
pub struct Register {
    pub algorithm: Algorithm,
    pub index: usize,
}

fn is_selected(bits: &[u8; SELECT_SIZE], i: usize) -> bool
    requires { i < 24 }
    ensures { result ≡ is_selected bits.now i }
{
    (bits[i / 8] >> (i % 8)) % 2 == 1
}

/// The first registers that a map selects, as many as may be read.
pub fn chosen(bits: &[u8; SELECT_SIZE], room: usize) -> ArrayVec<usize, READ_AT_ONCE>
    requires { room ≤ 8 }
    ensures registers { result ≡ take room (selected bits.now) }
    ensures there { All (λ i. i < 24) result }
{
    let mut indices = ArrayVec::new(0);
    for i in 0..PCR_COUNT {
        if indices.len() < room && is_selected(bits, i) {
            indices.push(i);
        }
    }
    indices
}

/// Adds registers of a bank at the end.
pub fn append(all: &mut ArrayVec<Register, READ_AT_ONCE>, algorithm: Algorithm, indices: &[usize])
    requires { length all.old + length indices.now ≤ 8 }
    ensures { all.new ≡ all.old ++ registers_of algorithm indices.now }
{
    for index in indices {
        all.push(Register {
            algorithm,
            index: *index,
        });
    }
}

fn bit_of(indices: &[usize], i: usize) -> u8
    ensures value { result ≡ bit_of indices.now i }
    ensures small { result ≤ 1 }
{
    if indices.contains(&i) { 1 } else { 0 }
}

fn byte_from(indices: &[usize], i: usize) -> u8
    requires { i < 24 }
    ensures { result ≡ byte_from indices.now i }
{
    bit_of(indices, i)
        + 2 * bit_of(indices, i + 1)
        + 4 * bit_of(indices, i + 2)
        + 8 * bit_of(indices, i + 3)
        + 16 * bit_of(indices, i + 4)
        + 32 * bit_of(indices, i + 5)
        + 64 * bit_of(indices, i + 6)
        + 128 * bit_of(indices, i + 7)
}

/// The map that selects these registers.
#[tactic(auto, unfolding(crate::specs::Selected::bits_of))]
pub fn bits_of(indices: &[usize]) -> [u8; SELECT_SIZE]
    ensures { result ≡ bits_of indices.now }
{
    [
        byte_from(indices, 0),
        byte_from(indices, 8),
        byte_from(indices, 16),
    ]
}
