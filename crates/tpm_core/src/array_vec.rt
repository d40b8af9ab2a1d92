//! Values in a room of a fixed size, which take no memory.

ghost use Rattle.std.specs.Prelude.{◌≡◌, ◌<◌, ◌≤◌, ◌++◌, ◌∷◌, [], length};

use std::marker::Model;

/// At most `N` values; seen as a list of them.
#[derive(Drop)]
pub struct ArrayVec<T: Copy, const N: usize> {
    values: [T; N],
    count: usize,
}

impl<T: Copy, const N: usize> Model for ArrayVec<T, N> {
    ghost use Rattle.std.specs.Prelude.{◌≡◌, ◌≤◌, List, length, take};

    ghost Value = { List T };

    ghost view = { λ f. take f.count f.values };

    ghost invariant = { λ f. (f.count ≤ N) × (length f.values ≡ N) };
}

impl<T: Copy, const N: usize> ArrayVec<T, N> {
    /// None; `blank` stands where there is no value.
    pub fn new(blank: T) -> Self
        ensures { result ≡ [] }
    {
        ArrayVec {
            values: [blank; N],
            count: 0,
        }
    }

    /// How many they are.
    pub fn len(&self) -> usize
        ensures size { result ≡ length self.now }
        ensures within_limit { result ≤ N }
    {
        self.count
    }

    /// Adds a value at the end.
    pub fn push(&mut self, value: T)
        requires { length self.old < N }
        ensures { self.new ≡ self.old ++ value ∷ [] }
    {
        self.values[self.count] = value;
        self.count += 1;
    }

    /// The values.
    pub fn as_slice(&self) -> &[T]
        ensures items { result.now ≡ self.now }
        ensures within_limit { length self.now ≤ N }
    {
        &self.values[..self.count]
    }
}
