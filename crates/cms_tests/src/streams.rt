//! Readers and writers for tests: they move few octets at a time, or fail.
//!
//! Those that fail do so once and would succeed at a second try, so that a hidden second try shows.
#![tactic(auto)]

use std::io;
use std::io::{ErrorKind, Read, Write};

/// A reader that gives at most `piece` octets at a time. After it gave `room` octets, it fails once,
/// and then gives the rest.
#[derive(Drop)]
pub struct Reluctant<'a> {
    rest: &'a [u8],
    piece: usize,
    room: usize,
    failure: ErrorKind,
}

impl<'a> Reluctant<'a> {
    /// A reader of `octets`.
    pub fn new(octets: &'a [u8], piece: usize, room: usize, failure: ErrorKind) -> Reluctant<'a> {
        Reluctant {
            rest: octets,
            piece,
            room,
            failure,
        }
    }

    /// The octets that it has not given so far.
    pub fn left(&self) -> &'a [u8] {
        self.rest
    }
}

impl<'a> Read for Reluctant<'a> {
    fn read(&mut self, octets: &mut [u8]) -> io::Result<usize> {
        if self.room == 0 {
            self.room = usize::MAX;
            return Err(io::Error::from(self.failure));
        }
        let most = octets.len().min(self.piece).min(self.room);
        let n = self.rest.read(&mut octets[..most])?;
        self.room -= n;
        Ok(n)
    }
}

/// A reader that gives all that it is asked for. After it gave `uncounted` octets, it counts its calls.
#[derive(Drop)]
pub struct Counting<'a> {
    rest: &'a [u8],
    uncounted: usize,
    pub calls: u64,
    /// The most octets that one of those calls asked for.
    pub most: usize,
}

impl<'a> Counting<'a> {
    /// A reader of `octets`, with no call counted yet.
    pub fn new(octets: &'a [u8], uncounted: usize) -> Counting<'a> {
        Counting {
            rest: octets,
            uncounted,
            calls: 0,
            most: 0,
        }
    }
}

impl<'a> Read for Counting<'a> {
    fn read(&mut self, octets: &mut [u8]) -> io::Result<usize> {
        if self.uncounted == 0 {
            self.calls = self.calls.saturating_add(1);
            self.most = self.most.max(octets.len());
        }
        let n = self.rest.read(octets)?;
        self.uncounted = self.uncounted.saturating_sub(n);
        Ok(n)
    }
}

/// A reader that gives octets, and then gives others again and again, for ever.
#[derive(Drop)]
pub struct Endless<'a> {
    rest: &'a [u8],
    again: &'a [u8],
}

impl<'a> Endless<'a> {
    /// A reader of `octets`, and then of `again` for ever.
    pub fn new(octets: &'a [u8], again: &'a [u8]) -> Endless<'a> {
        Endless {
            rest: octets,
            again,
        }
    }
}

impl<'a> Read for Endless<'a> {
    fn read(&mut self, octets: &mut [u8]) -> io::Result<usize> {
        if self.rest.is_empty() {
            self.rest = self.again;
        }
        self.rest.read(octets)
    }
}

/// A reader that gives octets, says once that it has ended, and then would give others, as a terminal does.
#[derive(Drop)]
pub struct Ended<'a> {
    rest: &'a [u8],
    others: &'a [u8],
    has_ended: bool,
}

impl<'a> Ended<'a> {
    /// A reader of `octets`, and of `others` if it is asked again after its end.
    pub fn new(octets: &'a [u8], others: &'a [u8]) -> Ended<'a> {
        Ended {
            rest: octets,
            others,
            has_ended: false,
        }
    }

    /// The others, as far as it has not given them.
    pub fn others(&self) -> &'a [u8] {
        self.others
    }
}

impl<'a> Read for Ended<'a> {
    fn read(&mut self, octets: &mut [u8]) -> io::Result<usize> {
        if self.has_ended {
            return self.others.read(octets);
        }
        let n = self.rest.read(octets)?;
        self.has_ended = n == 0 && !octets.is_empty();
        Ok(n)
    }
}

/// How a writer that is full refuses octets.
#[derive(Clone, Copy, Debug, PartialEq, Eq)]
pub enum Full {
    Fails,
    IsInterrupted,
    TakesNone,
}

/// A writer that takes at most `piece` octets at a time. After it took `room` octets, it refuses octets
/// once, and then takes the rest.
#[derive(Drop)]
pub struct LimitedWriter {
    pub taken: Vec<u8>,
    piece: usize,
    room: usize,
    full: Full,
}

impl LimitedWriter {
    /// A writer that appends what it takes to `taken`.
    pub fn new(taken: Vec<u8>, piece: usize, room: usize, full: Full) -> LimitedWriter {
        LimitedWriter {
            taken,
            piece,
            room,
            full,
        }
    }
}

impl Write for LimitedWriter {
    fn write(&mut self, octets: &[u8]) -> io::Result<usize> {
        if self.room == 0 {
            self.room = usize::MAX;
            return match self.full {
                Full::Fails => Err(io::Error::from(ErrorKind::Other)),
                Full::IsInterrupted => Err(io::Error::from(ErrorKind::Interrupted)),
                Full::TakesNone => Ok(0),
            };
        }
        let n = octets.len().min(self.piece).min(self.room);
        self.taken.extend_from_slice(&octets[..n])?;
        self.room -= n;
        Ok(n)
    }

    fn flush(&mut self) -> io::Result<()> {
        Ok(())
    }
}
