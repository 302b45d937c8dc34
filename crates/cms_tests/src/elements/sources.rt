//! Single calls of a source, one after another, and headers written.
ghost use Rattle.std.specs.Prelude.{IfOk};
ghost use Rattle.cms_tlv.specs.Spans.{LiesIn};

use crate::asserts::{assert_holds, assert_same};
use crate::streams::Counting;
use cms_tlv::{
    Bound, Fault, Header, Input, MAX_LIMIT, Reason, Slice, Source, Span, Watched, header_len,
    header_octets, put_header,
};
use std::alloc::{AllocError, Global};
use std::process::Abort;
use std::test::Fail;

/// The limit if a case names none.
pub const LIMIT: u64 = 16_777_216;

/// A call of a source. The bound 0 is the top, and the bound n is the inner bound of the nth header.
#[derive(Clone, Copy)]
enum Call {
    Header(usize),
    /// `header`, and then `contents` if the length is definite.
    Element(usize),
    Opaque(usize),
    /// Enters an element with this identifier octet; its inner bound is then the next bound.
    Enter(usize, u8),
    Primitive(usize, u8),
    Peek(usize),
    Close(usize),
    /// Makes the bound strict; that is then the next bound.
    AlreadyDer(usize),
    Refuse(Reason),
    OutOfMemory,
    Standing,
    Position,
    Consumed,
}

/// Octets, and the calls one after another, each with the text of what it returns.
struct Calls {
    name: &'static str,
    input: &'static str,
    limit: u64,
    steps: &'static [(Call, &'static str)],
}

static CALLS: &[Calls] = &[
    Calls {
        name: "definite",
        input: "3003020105",
        limit: LIMIT,
        steps: &[
            (Call::Header(0), "30 3 shortest"),
            (Call::Peek(1), "02"),
            (Call::Position, "3"),
            (Call::Element(1), "02 1 shortest: 05"),
            (Call::Peek(1), "none"),
            (Call::Close(1), "ok"),
            (Call::Position, "5"),
        ],
    },
    Calls {
        name: "indefinite",
        input: "30800201050000",
        limit: LIMIT,
        steps: &[
            (Call::Header(0), "30 indefinite"),
            (Call::Element(1), "02 1 shortest: 05"),
            (Call::Peek(1), "none"),
            (Call::Position, "6"),
            (Call::Peek(1), "none"),
            (Call::Close(1), "ok"),
            (Call::Position, "7"),
        ],
    },
    Calls {
        name: "indefinite-closed-without-a-peek",
        input: "30800000",
        limit: LIMIT,
        steps: &[
            (Call::Header(0), "30 indefinite"),
            (Call::Close(1), "ok"),
            (Call::Position, "4"),
        ],
    },
    Calls {
        name: "long-length",
        input: "3081020500",
        limit: LIMIT,
        steps: &[(Call::Header(0), "30 2")],
    },
    Calls {
        name: "long-length-with-leading-zero",
        input: "30820080",
        limit: LIMIT,
        steps: &[(Call::Header(0), "30 128")],
    },
    Calls {
        name: "shortest-long-length",
        input: "308180",
        limit: LIMIT,
        steps: &[(Call::Header(0), "30 128 shortest")],
    },
    Calls {
        name: "high-tag",
        input: "3f1f00",
        limit: LIMIT,
        steps: &[(Call::Header(0), "3f 0 shortest")],
    },
    Calls {
        name: "identifier-00",
        input: "0000",
        limit: LIMIT,
        steps: &[(Call::Header(0), "00 0 shortest")],
    },
    Calls {
        name: "kept-identifier-at-the-definite-end",
        input: "300106",
        limit: LIMIT,
        steps: &[
            (Call::Header(0), "30 1 shortest"),
            (Call::Peek(1), "06"),
            (Call::Peek(1), "06"),
            (Call::Position, "3"),
            (Call::Header(1), "refused E6 Overrun at 3"),
        ],
    },
    Calls {
        name: "fault-stands",
        input: "30010600",
        limit: LIMIT,
        steps: &[
            (Call::Header(0), "30 1 shortest"),
            (Call::Peek(1), "06"),
            (Call::Header(1), "refused E6 Overrun at 3"),
            (Call::Peek(1), "refused E6 Overrun at 3"),
            (Call::Header(1), "refused E6 Overrun at 3"),
            (Call::Close(1), "refused E6 Overrun at 3"),
            (
                Call::Refuse(Reason::OpaqueNotDer),
                "refused E6 Overrun at 3",
            ),
            (Call::Position, "3"),
        ],
    },
    Calls {
        name: "early-close",
        input: "3003020105",
        limit: LIMIT,
        steps: &[
            (Call::Header(0), "30 3 shortest"),
            (Call::Close(1), "refused E7 UnexpectedElement at 4"),
            (Call::Peek(1), "refused E7 UnexpectedElement at 4"),
        ],
    },
    Calls {
        name: "early-close-at-a-bad-header",
        input: "300302ff05",
        limit: LIMIT,
        steps: &[
            (Call::Header(0), "30 3 shortest"),
            (Call::Close(1), "refused E3 LengthReserved at 4"),
        ],
    },
    Calls {
        name: "close-at-another-element",
        input: "30800500",
        limit: LIMIT,
        steps: &[
            (Call::Header(0), "30 indefinite"),
            (Call::Close(1), "refused E7 UnexpectedElement at 4"),
        ],
    },
    Calls {
        name: "close-at-a-long-end-of-contents",
        input: "3080008100",
        limit: LIMIT,
        steps: &[
            (Call::Header(0), "30 indefinite"),
            (Call::Peek(1), "none"),
            (Call::Close(1), "refused E7 UnexpectedElement at 5"),
        ],
    },
    Calls {
        name: "close-where-the-outer-end-is-reached",
        input: "300230800000",
        limit: LIMIT,
        steps: &[
            (Call::Header(0), "30 2 shortest"),
            (Call::Header(1), "30 indefinite"),
            (Call::Close(2), "refused E6 Overrun at 4"),
        ],
    },
    Calls {
        name: "header-at-the-definite-end",
        input: "30000500",
        limit: LIMIT,
        steps: &[
            (Call::Header(0), "30 0 shortest"),
            (Call::Header(1), "refused E6 Overrun at 2"),
        ],
    },
    Calls {
        name: "contents-cut",
        input: "04036162",
        limit: LIMIT,
        steps: &[(Call::Element(0), "04 3 shortest: refused E1 Truncated at 4")],
    },
    Calls {
        name: "no-octet-where-the-limit-is-reached",
        input: "30800500",
        limit: 2,
        steps: &[
            (Call::Header(0), "30 indefinite"),
            (Call::Peek(1), "refused E2 TooLarge at 2"),
        ],
    },
    Calls {
        name: "fault-stands-for-opaque",
        input: "ff",
        limit: LIMIT,
        steps: &[
            (
                Call::Refuse(Reason::UnexpectedElement),
                "refused E7 UnexpectedElement at 0",
            ),
            (Call::Opaque(0), "refused E7 UnexpectedElement at 0"),
            (
                Call::Refuse(Reason::OpaqueNotDer),
                "refused E7 UnexpectedElement at 0",
            ),
        ],
    },
    Calls {
        name: "opaque-element-cut-inside-an-identifier",
        input: "3004020105a0",
        limit: LIMIT,
        steps: &[(Call::Opaque(0), "refused E6 Overrun at 6")],
    },
    Calls {
        name: "opaque-element-kept-identifier",
        input: "30053003020105",
        limit: LIMIT,
        steps: &[
            (Call::Header(0), "30 5 shortest"),
            (Call::Peek(1), "30"),
            (Call::Opaque(1), "3003020105"),
            (Call::Peek(1), "none"),
            (Call::Close(1), "ok"),
        ],
    },
    Calls {
        name: "opaque-indefinite",
        input: "30800000",
        limit: LIMIT,
        steps: &[(Call::Opaque(0), "refused E13 OpaqueNotDer at 2")],
    },
    Calls {
        name: "opaque-high-tag",
        input: "bf8100020500",
        limit: LIMIT,
        steps: &[(Call::Opaque(0), "bf8100020500")],
    },
    Calls {
        name: "opaque-primitive-only",
        input: "2c00",
        limit: LIMIT,
        steps: &[(Call::Opaque(0), "refused E13 OpaqueNotDer at 2")],
    },
    Calls {
        name: "opaque-either-form",
        input: "2700",
        limit: LIMIT,
        steps: &[(Call::Opaque(0), "2700")],
    },
    Calls {
        name: "opaque-universal-0-constructed",
        input: "2000",
        limit: LIMIT,
        steps: &[(Call::Opaque(0), "2000")],
    },
    Calls {
        name: "strict-long-length",
        input: "300405810000",
        limit: LIMIT,
        steps: &[
            (Call::Header(0), "30 4 shortest"),
            (Call::AlreadyDer(1), "ok"),
            (Call::Header(2), "refused E15 SignedAttrsNotDer at 5"),
        ],
    },
    Calls {
        name: "strict-indefinite-opaque",
        input: "300430800000",
        limit: LIMIT,
        steps: &[
            (Call::Header(0), "30 4 shortest"),
            (Call::AlreadyDer(1), "ok"),
            (Call::Opaque(2), "refused E15 SignedAttrsNotDer at 4"),
        ],
    },
    Calls {
        name: "strict-reaches-inside",
        input: "30053003028100",
        limit: LIMIT,
        steps: &[
            (Call::Header(0), "30 5 shortest"),
            (Call::AlreadyDer(1), "ok"),
            (Call::Opaque(2), "refused E15 SignedAttrsNotDer at 7"),
        ],
    },
    Calls {
        name: "opaque where an indefinite bound ends",
        input: "30800000",
        limit: LIMIT,
        steps: &[
            (Call::Header(0), "30 indefinite"),
            (Call::Opaque(1), "refused E7 UnexpectedElement at 4"),
        ],
    },
    Calls {
        name: "opaque with the identifier 00 under a definite bound",
        input: "30020000",
        limit: LIMIT,
        steps: &[
            (Call::Header(0), "30 2 shortest"),
            (Call::Opaque(1), "refused E13 OpaqueNotDer at 4"),
        ],
    },
    Calls {
        name: "opaque where a definite bound ends",
        input: "3000",
        limit: LIMIT,
        steps: &[
            (Call::Header(0), "30 0 shortest"),
            (Call::Opaque(1), "refused E7 UnexpectedElement at 2"),
        ],
    },
];

/// Elements that are told by their identifier octets.
static EXPECTED: &[Calls] = &[
    Calls {
        name: "enter-and-primitive",
        input: "3003020105",
        limit: LIMIT,
        steps: &[
            (Call::Enter(0, 0x30), "ok"),
            (Call::Peek(1), "02"),
            (Call::Position, "3"),
            (Call::Consumed, "2"),
            (Call::Primitive(1, 0x02), "05"),
            (Call::Close(1), "ok"),
            (Call::Consumed, "5"),
            (Call::Standing, "ok"),
        ],
    },
    Calls {
        name: "enter-another-element",
        input: "30000500",
        limit: LIMIT,
        steps: &[
            (Call::Enter(0, 0x31), "refused E7 UnexpectedElement at 2"),
            (Call::Standing, "refused E7 UnexpectedElement at 2"),
            (Call::Enter(0, 0x05), "refused E7 UnexpectedElement at 2"),
        ],
    },
    Calls {
        name: "enter where an indefinite bound ends",
        input: "30800000",
        limit: LIMIT,
        steps: &[
            (Call::Enter(0, 0x30), "ok"),
            (Call::Enter(1, 0x30), "refused E7 UnexpectedElement at 4"),
        ],
    },
    Calls {
        name: "enter where a definite bound ends",
        input: "30003000",
        limit: LIMIT,
        steps: &[
            (Call::Enter(0, 0x30), "ok"),
            (Call::Enter(1, 0x30), "refused E7 UnexpectedElement at 2"),
        ],
    },
    Calls {
        name: "primitive with another identifier",
        input: "040161",
        limit: LIMIT,
        steps: &[(
            Call::Primitive(0, 0x02),
            "refused E7 UnexpectedElement at 2",
        )],
    },
    Calls {
        name: "primitive of indefinite length",
        input: "24800000",
        limit: LIMIT,
        steps: &[(
            Call::Primitive(0, 0x24),
            "refused E7 UnexpectedElement at 2",
        )],
    },
    Calls {
        name: "primitive cut",
        input: "04036162",
        limit: LIMIT,
        steps: &[
            (Call::Primitive(0, 0x04), "refused E1 Truncated at 4"),
            (Call::Primitive(0, 0x04), "refused E1 Truncated at 4"),
        ],
    },
    Calls {
        name: "out of memory stands",
        input: "0500",
        limit: LIMIT,
        steps: &[
            (Call::Standing, "ok"),
            (Call::OutOfMemory, "out of memory"),
            (Call::Standing, "out of memory"),
            (Call::Enter(0, 0x05), "out of memory"),
            (Call::Refuse(Reason::OpaqueNotDer), "out of memory"),
            (Call::Consumed, "0"),
        ],
    },
    Calls {
        name: "out of memory after a fault",
        input: "0500",
        limit: LIMIT,
        steps: &[
            (
                Call::Refuse(Reason::OpaqueNotDer),
                "refused E13 OpaqueNotDer at 0",
            ),
            (Call::OutOfMemory, "refused E13 OpaqueNotDer at 0"),
        ],
    },
];

/// The header in words, such as `30 3 shortest`.
fn words(alloc: Global, header: &Header) -> Result<String, AllocError> {
    let ident = header.ident;
    let shortest = if header.shortest { " shortest" } else { "" };
    match header.len {
        Some(n) => format!(in alloc; "{ident:02x} {n}{shortest}"),
        None => format!(in alloc; "{ident:02x} indefinite{shortest}"),
    }
}

/// The text of a header under a bound, and of the contents if they are wanted.
fn header(
    alloc: Global,
    source: &mut Source<Slice<'_>>,
    bounds: &mut Vec<Bound>,
    bound: Bound,
    contents: bool,
) -> Result<String, AllocError> {
    let header = match source.header(&bound) {
        Ok(header) => header,
        Err(fault) => return fault.to_string(alloc),
    };
    bounds.push(header.inner)?;
    let mut text = words(alloc, &header)?;
    if let Some(n) = header.len
        && contents
    {
        let contents = match source.contents(n) {
            Ok(span) => hex::encode(alloc, source.bytes(span))?,
            Err(fault) => fault.to_string(alloc)?,
        };
        text.push_str(": ")?;
        text.push_str(contents.as_str())?;
    }
    Ok(text)
}

fn bound_at(bounds: &[Bound], i: usize) -> Bound {
    bounds.get(i).copied().unwrap_or(Bound::top())
}

/// `ok`, or the text of the fault.
fn ok_or_fault(alloc: Global, done: Result<(), Fault>) -> Result<String, AllocError> {
    match done {
        Ok(()) => String::from_str(alloc, "ok"),
        Err(fault) => fault.to_string(alloc),
    }
}

/// The octets that a call returns, in hexadecimal, or the text of the fault.
fn octets_or_fault(
    alloc: Global,
    source: &Source<Slice<'_>>,
    span: Result<Span, Fault>,
) -> Result<String, AllocError>
    requires { IfOk span (λ s. LiesIn s source.now) }
{
    match span {
        Ok(span) => hex::encode(alloc, source.bytes(span)),
        Err(fault) => fault.to_string(alloc),
    }
}

/// The octet that a call peeks, in hexadecimal, or the text of the fault.
fn octet_or_fault(alloc: Global, octet: Result<Option<u8>, Fault>) -> Result<String, AllocError> {
    match octet {
        Ok(Some(octet)) => format!(in alloc; "{octet:02x}"),
        Ok(None) => String::from_str(alloc, "none"),
        Err(fault) => fault.to_string(alloc),
    }
}

/// The text of what a call returns.
fn answer_to(
    alloc: Global,
    source: &mut Source<Slice<'_>>,
    bounds: &mut Vec<Bound>,
    call: Call,
) -> Result<String, AllocError> {
    match call {
        Call::Header(i) => header(alloc, source, bounds, bound_at(bounds, i), false),
        Call::Element(i) => header(alloc, source, bounds, bound_at(bounds, i), true),
        Call::Opaque(i) => {
            let span = source.opaque(&bound_at(bounds, i));
            octets_or_fault(alloc, source, span)
        }
        Call::Enter(i, ident) => {
            let inner = source.enter(&bound_at(bounds, i), ident);
            bounds.push(inner.unwrap_or(Bound::top()))?;
            ok_or_fault(alloc, inner.map(|_| ()))
        }
        Call::Primitive(i, ident) => {
            let span = source.primitive(&bound_at(bounds, i), ident);
            octets_or_fault(alloc, source, span)
        }
        Call::Peek(i) => octet_or_fault(alloc, source.peek(&bound_at(bounds, i))),
        Call::Close(i) => ok_or_fault(alloc, source.close(bound_at(bounds, i))),
        Call::AlreadyDer(i) => {
            bounds.push(bound_at(bounds, i).strict())?;
            String::from_str(alloc, "ok")
        }
        Call::Refuse(reason) => source.refuse(reason).to_string(alloc),
        Call::OutOfMemory => source.out_of_memory().to_string(alloc),
        Call::Standing => ok_or_fault(alloc, source.standing()),
        Call::Position => source.position().to_string(alloc),
        Call::Consumed => source.consumed().to_string(alloc),
    }
}

/// Makes the calls, and compares what each returns.
fn walk(
    rt: &(impl Abort + AllocGlobal),
    source: &mut Source<Slice<'_>>,
    case: &Calls,
) -> Result<(), AllocError> {
    let mut bounds = vec![in source.allocator(); Bound::top()]?;
    for (i, (call, want)) in case.steps.iter().enumerate() {
        let answer = answer_to(rt.alloc(), source, &mut bounds, *call)?;
        assert_same(rt, (i, answer.as_str()), (i, *want), case.name);
    }
    Ok(())
}

fn assert_calls(rt: &(impl Abort + AllocGlobal), case: &Calls) -> Result<(), Fail> {
    assert_holds(rt, case.limit <= MAX_LIMIT, case.name);
    let input = hex::decode(rt.alloc(), case.input)?;
    let mut source = Source::new(rt.alloc(), Slice::new(&input), case.limit);
    let walked = walk(rt, &mut source, case);
    let _ = source.finish();
    Ok(walked?)
}

#[test]
fn calls_in_turn(rt: HostRuntime) -> Result<(), Fail> {
    for case in CALLS {
        assert_calls(&rt, case)?;
    }
    Ok(())
}

#[test]
fn elements_expected(rt: HostRuntime) -> Result<(), Fail> {
    for case in EXPECTED {
        assert_calls(&rt, case)?;
    }
    Ok(())
}

/// The contents of an element whose length is definite.
fn contents_of<R: Input>(source: &mut Source<R>) -> Result<Span, Fault> {
    let header = source.header(&Bound::top())?;
    match header.len {
        Some(n) => source.contents(n),
        None => Err(Fault::Read),
    }
}

/// After a fault, `contents` too returns the same fault. After a header that was refused it cannot be
/// called, since an identifier may then be kept; so this fault comes from `refuse`.
#[test]
fn contents_after_a_fault(rt: HostRuntime) {
    let mut source = Source::new(rt.alloc(), Slice::new(b"\x04\x02\x61\x62"), LIMIT);
    let header = source.header(&Bound::top());
    assert_holds(&rt, header.is_ok(), "the header is read");
    let want = Fault::Refused {
        reason: Reason::OpaqueNotDer,
        at: 2,
    };
    let fault = source.refuse(Reason::OpaqueNotDer);
    assert_same(&rt, fault, want, "the refusal");
    assert_same(&rt, source.contents(0), Err(want), "contents after it");
    assert_same(&rt, source.position(), 2, "the position");
    let _ = source.finish();
}

/// The contents of an element with so many octets, and how often the reader is asked for them.
fn assert_asked(
    rt: &(impl Abort + AllocGlobal),
    header: &[u8],
    contents: &[u8],
    calls: u64,
) -> Result<(), Fail> {
    let mut input = Vec::from_slice(rt.alloc(), header)?;
    input.extend_from_slice(contents)?;
    let reader = Watched::new(Counting::new(&input, header.len()));
    let mut source = Source::new(rt.alloc(), reader, LIMIT);
    let span = contents_of(&mut source);
    let (reader, octets) = source.finish();
    assert_same(rt, span?.octets(&octets), contents, "the contents");
    assert_same(rt, octets.as_slice(), input.as_slice(), "the octets kept");
    let reader = reader.into_inner();
    assert_same(rt, reader.calls, calls, "calls of the reader");
    assert_holds(rt, reader.most <= 8192, "each call asks for few octets");
    Ok(())
}

/// Contents come in pieces of at most 8,192 octets. If there are none, the reader is asked for nothing.
#[test]
fn contents_in_pieces(rt: HostRuntime) -> Result<(), Fail> {
    assert_asked(&rt, b"\x04\x00", &[], 0)?;
    let contents = vec![in rt.alloc(); 0x61; 65_536]?;
    assert_asked(&rt, b"\x04\x83\x01\x00\x00", &contents, 8)
}

/// Identifier octets and lengths, with their headers and how long those are.
const HEADERS: &[(u8, u64, &str, u64)] = &[
    (0x30, 0, "3000", 2),
    (0x04, 127, "047f", 2),
    (0x04, 128, "048180", 3),
    (0xa0, 255, "a081ff", 3),
    (0x30, 256, "30820100", 4),
    (0x30, 65_535, "3082ffff", 4),
    (0x30, 65_536, "3083010000", 5),
    (0x30, 4_294_967_296, "30850100000000", 7),
    (0x30, 18_446_744_073_709_551_615, "3088ffffffffffffffff", 10),
];

#[test]
fn headers_put(rt: HostRuntime) -> Result<(), Fail> {
    for (ident, n, want, length) in HEADERS {
        let mut out = Vec::new(rt.alloc());
        put_header(&mut out, *ident, *n)?;
        let out = hex::encode(rt.alloc(), out)?;
        assert_same(&rt, out.as_str(), *want, "the header");
        assert_same(&rt, header_len(*n), *length, want);
    }
    Ok(())
}

/// The octets of a header end an array.
#[test]
fn octets_of_headers(rt: HostRuntime) -> Result<(), Fail> {
    for (ident, n, want, length) in HEADERS {
        let (octets, start) = header_octets(*ident, *n);
        assert_same(&rt, octets.len() - start, *length as usize, want);
        let octets = hex::encode(rt.alloc(), octets.get(start..).unwrap_or(&[]))?;
        assert_same(&rt, octets.as_str(), *want, "the header");
    }
    Ok(())
}
