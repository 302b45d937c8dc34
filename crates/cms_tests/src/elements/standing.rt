//! Faults that stand: each later call of a source returns the same one, and takes nothing.
ghost use Rattle.std.specs.Prelude.{◌≡◌, None};

use crate::asserts::{assert_holds, assert_same};
use crate::elements::sources::LIMIT;
use crate::streams::Reluctant;
use cms_tlv::{Bound, Fault, Input, Reason, Source, Span, Watched};
use std::alloc::Global;
use std::io::ErrorKind;
use std::process::Abort;

/// A call of a source under no bound.
#[derive(Clone, Copy, Debug, PartialEq, Eq)]
enum Call {
    Peek,
    Header,
    Opaque,
    Enter,
    Primitive,
    Close,
    Refuse,
    OutOfMemory,
}

const CALLS: [Call; 8] = [
    Call::Peek,
    Call::Header,
    Call::Opaque,
    Call::Enter,
    Call::Primitive,
    Call::Close,
    Call::Refuse,
    Call::OutOfMemory,
];

/// A set in which a NULL lies, and two octets after it.
const OCTETS: &[u8] = b"\x31\x02\x05\x00\x05\x00";

/// A source of a reader that fails once after it gave so many octets.
fn source(alloc: Global, room: usize, failure: ErrorKind) -> Source<Watched<Reluctant<'static>>> {
    let reader = Reluctant::new(OCTETS, usize::MAX, room, failure);
    Source::new(alloc, Watched::new(reader), LIMIT)
}

/// The fault that a call returns, if it returns one.
fn fault_of<R: Input>(source: &mut Source<R>, call: Call) -> Option<Fault> {
    let top = Bound::top();
    match call {
        Call::Peek => source.peek(&top).err(),
        Call::Header => source.header(&top).err(),
        Call::Opaque => source.opaque(&top).err(),
        Call::Enter => source.enter(&top, 0x31).err(),
        Call::Primitive => source.primitive(&top, 0x05).err(),
        Call::Close => source.close(top).err(),
        Call::Refuse => Some(source.refuse(Reason::Overrun)),
        Call::OutOfMemory => Some(source.out_of_memory()),
    }
}

/// Each call returns the fault, and nothing is taken.
fn assert_stands<R: Input>(rt: &impl Abort, source: &mut Source<R>, fault: Fault) {
    let position = source.position();
    for call in CALLS {
        let came = fault_of(source, call);
        assert_same(rt, (call, came), (call, Some(fault)), "the call");
        assert_same(rt, source.standing(), Err(fault), "the fault that stands");
        assert_same(rt, source.position(), position, "octets taken");
    }
}

/// How many octets a reader has left.
fn left(reader: Watched<Reluctant<'_>>) -> usize {
    reader.into_inner().left().len()
}

/// A source whose reader fails inside an element, and which has that fault from this call on.
fn assert_read_fault_stands(rt: &(impl Abort + AllocGlobal), call: Call, room: usize) {
    for failure in [ErrorKind::Other, ErrorKind::Interrupted] {
        let mut source = source(rt.alloc(), room, failure);
        let came = fault_of(&mut source, call);
        assert_same(rt, (call, came), (call, Some(Fault::Read)), "the failure");
        assert_stands(rt, &mut source, Fault::Read);
        let (reader, octets) = source.finish();
        assert_same(rt, octets.len(), room, "octets kept");
        let left = left(reader).saturating_add(room);
        assert_same(rt, left, OCTETS.len(), "octets left");
    }
}

/// A read that fails is not tried again by any call, though the reader would give its octets now.
#[test]
fn read_faults_stand(rt: HostRuntime) {
    assert_read_fault_stands(&rt, Call::Peek, 0);
    for room in 0..2 {
        assert_read_fault_stands(&rt, Call::Header, room);
        assert_read_fault_stands(&rt, Call::Enter, room);
        assert_read_fault_stands(&rt, Call::Primitive, room);
    }
    for room in 0..4 {
        assert_read_fault_stands(&rt, Call::Opaque, room);
    }
}

/// A refusal stands: one for what a call read, and one of the caller's.
#[test]
fn refusals_stand(rt: HostRuntime) {
    for (call, reason, at) in [
        (Call::Primitive, Reason::UnexpectedElement, 2),
        (Call::Refuse, Reason::Overrun, 0),
    ] {
        let mut source = source(rt.alloc(), usize::MAX, ErrorKind::Other);
        let fault = Fault::Refused { reason, at };
        let came = fault_of(&mut source, call);
        assert_same(&rt, (call, came), (call, Some(fault)), "the refusal");
        assert_stands(&rt, &mut source, fault);
        let (reader, octets) = source.finish();
        assert_same(&rt, octets.len() as u64, at, "octets kept");
        let left = left(reader).saturating_add(octets.len());
        assert_same(&rt, left, OCTETS.len(), "octets left");
    }
}

/// How many octets were taken, and no contents after them.
fn no_contents<R: Input>(source: &mut Source<R>) -> (u64, Result<Span, Fault>)
    requires { source.old.ahead ≡ None }
{
    (source.position(), source.contents(0))
}

/// The contents of an element whose length is definite, and then no contents.
fn contents_twice<R: Input>(
    source: &mut Source<R>,
) -> Result<(Result<Span, Fault>, u64, Result<Span, Fault>), Fault> {
    let header = source.header(&Bound::top())?;
    match header.len {
        Some(n) => {
            let contents = source.contents(n);
            let (taken, again) = no_contents(source);
            Ok((contents, taken, again))
        }
        None => Err(Fault::OutOfMemory),
    }
}

/// If the reader fails in contents, the fault stands for no contents and for all calls.
#[test]
fn read_fault_in_contents_stands(rt: HostRuntime) {
    for room in 2..4 {
        let mut source = source(rt.alloc(), room, ErrorKind::Interrupted);
        let came = contents_twice(&mut source);
        let failed = Err(Fault::Read);
        let want = Ok((failed, room as u64, failed));
        assert_same(&rt, came, want, "the contents");
        assert_stands(&rt, &mut source, Fault::Read);
        let (reader, octets) = source.finish();
        assert_same(&rt, octets.len(), room, "octets kept");
        let left = left(reader).saturating_add(room);
        assert_same(&rt, left, OCTETS.len(), "octets left");
    }
}

/// A refusal before anything is taken stands when it is asked whether the input ends.
#[test]
fn refusal_at_the_end_stands(rt: HostRuntime) {
    let mut source = source(rt.alloc(), usize::MAX, ErrorKind::Other);
    let fault = source.refuse(Reason::Overrun);
    assert_holds(&rt, source.position() == 0, "no octet is taken");
    assert_same(&rt, source.at_end(), Err(fault), "the refusal");
    assert_same(&rt, source.standing(), Err(fault), "it stands");
    let (reader, octets) = source.finish();
    assert_holds(&rt, octets.is_empty(), "no octet is kept");
    assert_same(&rt, left(reader), OCTETS.len(), "octets left");
}
