//! Readers and writers of std, each failure of which is reported, and what readers have at hand.

use crate::asserts::{assert_holds, assert_same};
use crate::streams::{Full, LimitedWriter, Reluctant};
use cms_tlv::{Buffered, Fault, Input, Output, Slice, Watched, pour};
use std::io;
use std::io::{BufReader, ErrorKind, Read, Write};
use std::process::Abort;
use std::test::Fail;

const OCTETS: &[u8] = b"\x61\x62\x63";

/// A read that fails is reported and not tried again: what is left comes at the next call.
#[test]
fn failing_reads(rt: HostRuntime) {
    for failure in [
        ErrorKind::Other,
        ErrorKind::Interrupted,
        ErrorKind::WouldBlock,
        ErrorKind::TimedOut,
    ] {
        let mut reader = Watched::new(Reluctant::new(OCTETS, usize::MAX, 2, failure));
        let mut octets = [0u8; 4];
        assert_same(&rt, reader.take(&mut octets), Ok(2), "before the failure");
        assert_same(&rt, reader.take(&mut octets), Err(()), "the failure");
        assert_same(&rt, reader.take(&mut octets), Ok(1), "behind the failure");
        assert_same(&rt, octets, *b"\x63\x62\x00\x00", "the octets taken last");
        assert_same(&rt, reader.take(&mut octets), Ok(0), "at the end");
    }
}

/// A reader and a writer that counts its calls, and fails at every second one.
#[derive(Drop)]
struct Alternating {
    calls: u64,
}

impl Alternating {
    fn call(&mut self) -> io::Result<usize> {
        self.calls = self.calls.saturating_add(1);
        if self.calls % 2 == 0 {
            return Err(io::Error::from(ErrorKind::Other));
        }
        Ok(1)
    }
}

impl Read for Alternating {
    fn read(&mut self, octets: &mut [u8]) -> io::Result<usize> {
        let n = self.call()?;
        Ok(n.min(octets.len()))
    }
}

impl Write for Alternating {
    fn write(&mut self, octets: &[u8]) -> io::Result<usize> {
        let n = self.call()?;
        Ok(n.min(octets.len()))
    }

    fn flush(&mut self) -> io::Result<()> {
        Ok(())
    }
}

const ALTERNATELY: [Result<usize, ()>; 6] = [Ok(1), Err(()), Ok(1), Err(()), Ok(1), Err(())];

/// Each `take` asks the reader once, and fails just if the reader does.
#[test]
fn reader_asked_once_by_each_take(rt: HostRuntime) {
    let mut reader = Watched::new(Alternating { calls: 0 });
    let mut octets = [0u8; 4];
    for want in ALTERNATELY {
        assert_same(&rt, reader.take(&mut octets), want, "what is taken");
    }
    assert_same(&rt, reader.into_inner().calls, 6, "how often it is asked");
}

/// Each `give` asks the writer once, and fails just if the writer does.
#[test]
fn writer_asked_once_by_each_give(rt: HostRuntime) {
    let mut writer = Watched::new(Alternating { calls: 0 });
    for want in ALTERNATELY {
        assert_same(&rt, writer.give(OCTETS), want, "what is given");
    }
    assert_same(&rt, writer.into_inner().calls, 6, "how often it is asked");
}

/// Takes the next octet that is at hand, and then at most two of those after it.
fn assert_at_hand<R: Input>(
    rt: &(impl Abort + AllocGlobal),
    reader: &mut R,
    next: Option<u8>,
    behind: &[u8],
) {
    assert_same(
        rt,
        reader.at_hand().first().copied(),
        next,
        "the next at hand",
    );
    reader.advance(1);
    let held = reader.at_hand();
    let count = held.len().min(2);
    assert_same(rt, &held[..count], behind, "the octets after it");
    reader.advance(count);
}

/// Octets in memory are all at hand.
#[test]
fn octets_at_hand_in_memory(rt: HostRuntime) {
    let mut slice = Slice::new(b"\x61\x62\x63\x64");
    assert_at_hand(&rt, &mut slice, Some(0x61), b"\x62\x63");
    assert_at_hand(&rt, &mut slice, Some(0x64), b"");
    assert_at_hand(&rt, &mut slice, None, b"");
}

/// The octets that a buffer holds are at hand.
#[test]
fn octets_at_hand_behind_a_buffer(rt: HostRuntime) -> Result<(), Fail> {
    let mut octets = [0u8; 1];
    let mut buffered = Buffered::new(BufReader::with_capacity(rt.alloc(), 3, OCTETS)?);
    assert_at_hand(&rt, &mut buffered, None, b"");
    assert_same(&rt, buffered.take(&mut octets), Ok(1), "octets taken");
    assert_at_hand(&rt, &mut buffered, Some(0x62), b"\x63");
    let is_empty = buffered.into_inner().buffer().is_empty();
    assert_holds(&rt, is_empty, "the buffer is empty");
    Ok(())
}

/// Another reader has none at hand.
#[test]
fn no_octets_at_hand(rt: HostRuntime) {
    let mut octets = [0u8; 1];
    let mut watched = Watched::new(OCTETS);
    assert_at_hand(&rt, &mut watched, None, b"");
    assert_same(&rt, watched.take(&mut octets), Ok(1), "octets taken");
    assert_at_hand(&rt, &mut watched, None, b"");
}

const REFUSALS: [Full; 3] = [Full::Fails, Full::IsInterrupted, Full::TakesNone];

/// A write that fails, or takes nothing, is reported and not tried again: the next call succeeds.
#[test]
fn failing_writes(rt: HostRuntime) {
    for full in REFUSALS {
        let taken = Vec::new(rt.alloc());
        let mut writer = Watched::new(LimitedWriter::new(taken, usize::MAX, 2, full));
        assert_same(&rt, (full, writer.give(OCTETS)), (full, Ok(2)), "room");
        assert_same(
            &rt,
            (full, writer.give(b"\x64")),
            (full, Err(())),
            "no room",
        );
        assert_same(
            &rt,
            (full, writer.give(b"\x65")),
            (full, Ok(1)),
            "behind it",
        );
        let taken = writer.into_inner().taken;
        assert_same(
            &rt,
            (full, taken.as_slice()),
            (full, b"\x61\x62\x65"),
            "taken",
        );
    }
}

/// What a writer with so much room takes of what is poured, however it refuses the octet after that.
fn assert_poured(rt: &(impl Abort + AllocGlobal), room: usize, want: Result<(), Fault>) {
    for full in REFUSALS {
        for piece in [1, 2, usize::MAX] {
            let taken = Vec::new(rt.alloc());
            let mut writer = Watched::new(LimitedWriter::new(taken, piece, room, full));
            let poured = pour(&mut writer, OCTETS);
            assert_same(rt, (full, room, poured), (full, room, want), "poured");
            let taken = writer.into_inner().taken;
            let came = (full, Some(taken.as_slice()));
            assert_same(rt, came, (full, OCTETS.get(..room)), "the octets taken");
        }
    }
}

/// `pour` reports how many octets the writer took, and writes no more after a failure.
#[test]
fn octets_poured(rt: HostRuntime) {
    for written in 0..3 {
        assert_poured(&rt, written as usize, Err(Fault::Write { written }));
    }
    assert_poured(&rt, OCTETS.len(), Ok(()));
}
