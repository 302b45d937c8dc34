//! Readers and writers of std, with a count of their failures.
//!
//! `Buffered` is for `BufReader` alone, since only that says what its buffer holds: std's `BufRead`
//! would read to say it.
ghost use Rattle.std.specs.Prelude.{◌≡◌, []};

use crate::input::Input;
use crate::output::Output;
use std::alloc::Global;
use std::io::{BufRead, BufReader, Read, Write};

/// A reader or a writer of std, with a count of its failures. A call that fails is not tried again.
#[derive(Drop)]
pub struct Watched<T> {
    inner: T,
    failures: u64,
}

impl<T> Watched<T> {
    ghost use Rattle.cms_tlv.specs.Watching.{inner_of, failures_of};

    /// A reader or writer that has not failed so far.
    pub fn new(inner: T) -> Watched<T>
        ensures inner { inner_of result ≡ inner }
        ensures failures { failures_of result ≡ 0 }
    {
        Watched { inner, failures: 0 }
    }

    /// The reader or writer itself.
    pub fn into_inner(self) -> T
        ensures { result ≡ inner_of self }
    {
        let Watched { inner, failures: _ } = self;
        inner
    }
}

impl<T: Read> Input for Watched<T> {
    ghost use Rattle.cms_tlv.specs.Watching.{inner_of, failures_of};

    ghost left = { λ w. T.remaining (inner_of w) };

    ghost failures = { λ w. failures_of w };

    ghost held = { λ w. [] };

    fn take(&mut self, octets: &mut [u8]) -> Result<usize, ()> {
        match self.inner.read(octets) {
            Ok(n) => Ok(n),
            Err(_) => {
                self.failures = self.failures.saturating_add(1);
                Err(())
            }
        }
    }

    fn at_hand(&self) -> &[u8] {
        &[]
    }

    fn advance(&mut self, _n: usize) {}
}

/// A buffered reader of std, with a count of its failures. What the buffer holds is at hand.
#[derive(Drop)]
pub struct Buffered<R> {
    watched: Watched<BufReader<R, Global>>,
}

impl<R> Buffered<R> {
    ghost use Rattle.cms_tlv.specs.Watching.{inner_of, failures_of, watched_of};

    /// A reader that has not failed so far.
    pub fn new(inner: BufReader<R, Global>) -> Buffered<R>
        ensures inner { inner_of (watched_of result) ≡ inner }
        ensures failures { failures_of (watched_of result) ≡ 0 }
    {
        Buffered {
            watched: Watched::new(inner),
        }
    }

    /// The reader itself, with what its buffer holds.
    pub fn into_inner(self) -> BufReader<R, Global>
        ensures { result ≡ inner_of (watched_of self) }
    {
        let Buffered { watched } = self;
        watched.into_inner()
    }
}

impl<R: Read> Input for Buffered<R> {
    ghost use Rattle.std.specs.Io.Buffered.{reader_buffer, reader_remaining};
    ghost use Rattle.cms_tlv.specs.Watching.{inner_of, failures_of, watched_of};

    ghost left = { λ b. reader_remaining R.remaining (inner_of (watched_of b)) };

    ghost failures = { λ b. failures_of (watched_of b) };

    ghost held = { λ b. reader_buffer (inner_of (watched_of b)) };

    fn take(&mut self, octets: &mut [u8]) -> Result<usize, ()> {
        self.watched.take(octets)
    }

    fn at_hand(&self) -> &[u8] {
        self.watched.inner.buffer()
    }

    fn advance(&mut self, n: usize) {
        self.watched.inner.consume(n);
    }
}

impl<T: Write> Output for Watched<T> {
    ghost use Rattle.cms_tlv.specs.Watching.{inner_of, failures_of};

    ghost contents = { λ w. T.contents (inner_of w) };

    ghost failures = { λ w. failures_of w };

    fn give(&mut self, octets: &[u8]) -> Result<usize, ()> {
        match self.inner.write(octets) {
            Ok(n) if n > 0 || octets.is_empty() => Ok(n),
            _ => {
                self.failures = self.failures.saturating_add(1);
                Err(())
            }
        }
    }
}
