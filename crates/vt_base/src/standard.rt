// A source and a sink over readers and writers of std. What is known of them is what is known of the reader or the
// writer.
ghost use Rattle.std.specs.Prelude.{◌≡◌, false};

use crate::{Failed, Sink, Source};
use std::io::{Read, Write};
use std::marker::Model;

/// A reader or a writer of std with a count of its faults, which stays at its last value.
#[derive(Drop)]
pub struct Adapter<T> {
    inner: T,
    faults: u64,
}

/// A source over any reader of std.
pub type StdSource<R> = Adapter<R>;

/// A sink over any writer of std.
pub type StdSink<W> = Adapter<W>;

impl<T> Model for Adapter<T> {
    ghost use Rattle.vt_base.specs.Standard.{Adapted};

    ghost Value = { Adapted T };

    ghost view = { λ s. record { inner = s.inner; faults = s.faults } };
}

impl<T> Adapter<T> {
    /// Over this reader or writer, with no fault yet.
    pub fn new(inner: T) -> Self
        ensures start { result ≡ record { inner = inner; faults = 0 } }
    {
        Adapter { inner, faults: 0 }
    }
}

impl<R: Read> Source for Adapter<R> {
    ghost left = { λ s. R.remaining s.inner };

    ghost faults = { λ s. s.faults };

    ghost never_fails = { λ _. false };

    fn read(&mut self, into: &mut [u8]) -> Result<usize, Failed> {
        match self.inner.read(into) {
            Ok(count) => Ok(count),
            Err(_) => {
                self.faults = self.faults.saturating_add(1);
                Err(Failed)
            }
        }
    }
}

impl<W: Write> Sink for Adapter<W> {
    ghost written = { λ s. W.contents s.inner };

    ghost faults = { λ s. s.faults };

    ghost room = { λ _. 0 };

    fn write(&mut self, bytes: &[u8]) -> Result<usize, Failed> {
        match self.inner.write(bytes) {
            Ok(count) if count > 0 || bytes.is_empty() => Ok(count),
            _ => {
                self.faults = self.faults.saturating_add(1);
                Err(Failed)
            }
        }
    }
}
