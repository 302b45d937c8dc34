//! Calls that append, and are made again if memory runs out.
//!
//! Each appends to the octets `abc`, for which there is just enough memory, so that they have to grow. If
//! the call fails, a line says whether they are as they were.
ghost use Rattle.std.specs.Prelude.{IfOk, map};
ghost use Rattle.std.specs.List.{All};

use crate::LONGEST;
use cms_canon::{Done, Message, Tail, put_message, read_message, read_rest};
use cms_fields::{Opaque, Received, Tagged, Write, read, spelled_values_are_values};
use cms_message::{CoverFault, SignedData};
use cms_scalars::{GenTime, Oid, TimeFault, put_true};
use cms_setof::SetOf;
use cms_tlv::{Bound, Fault, Input, SEQUENCE, SET, Slice, Source, put_header};
use cms_tsp::{TstFault, TstInfo};
use std::alloc::{AllocError, Global};

/// What is appended.
#[derive(Clone, Copy)]
pub(crate) enum Appended {
    /// A part of a message.
    Part(Part),
    /// A TSTInfo.
    TstInfo,
    /// A GeneralizedTime.
    Time,
    /// A set of any elements.
    Set,
    /// A header.
    Header,
    /// The BOOLEAN that is true.
    Boolean,
}

/// Which part of a message is appended.
#[derive(Clone, Copy)]
pub(crate) enum Part {
    /// The DER of all of it.
    Whole,
    /// What the signature of the first signer covers.
    Cover,
    /// That cover, found by its path.
    CoverAlongPath,
    /// The text of the first digest algorithm's identifier.
    Dotted,
}

/// What a word says is appended.
pub(crate) fn appended_of(word: &str) -> Option<Appended> {
    match word {
        "message" => Some(Appended::Part(Part::Whole)),
        "cover" => Some(Appended::Part(Part::Cover)),
        "cover-path" => Some(Appended::Part(Part::CoverAlongPath)),
        "dotted" => Some(Appended::Part(Part::Dotted)),
        "tst-info" => Some(Appended::TstInfo),
        "time" => Some(Appended::Time),
        "set" => Some(Appended::Set),
        "header" => Some(Appended::Header),
        "boolean" => Some(Appended::Boolean),
        _ => None,
    }
}

/// What is there before a call appends to it.
const BEFORE: &[u8] = b"abc";

/// What calls append to, and a line if one of them failed.
#[derive(Drop)]
struct Growing {
    octets: Vec<u8>,
    told: &'static [u8],
}

impl Growing {
    fn new(alloc: Global) -> Result<Growing, AllocError> {
        let mut octets = Vec::with_capacity(alloc, BEFORE.len())?;
        octets.extend_from_slice(BEFORE)?;
        Ok(Growing { octets, told: b"" })
    }

    /// The line, and the octets.
    fn written(&self, alloc: Global) -> Result<Vec<u8>, AllocError> {
        let mut written = Vec::new(alloc);
        written.extend_from_slice(self.told)?;
        written.extend_from_slice(&self.octets)?;
        Ok(written)
    }

    /// Says after a call that failed whether the octets are as they were.
    fn report_kept(&mut self) {
        self.told = if self.octets.as_slice() == BEFORE {
            b"kept\n"
        } else {
            b"changed\n"
        };
    }

    /// Says after a member was returned whether it is the one that was given, and was not added as well.
    fn report_back(&mut self, is_back: bool) {
        self.told = if is_back { b"back\n" } else { b"lost\n" };
    }
}

fn append_message(alloc: Global, message: &Message, out: &mut Growing) -> Result<(), AllocError> {
    if put_message(alloc, message, &mut out.octets).is_err() {
        out.report_kept();
        put_message(alloc, message, &mut out.octets)?;
    }
    Ok(())
}

/// Appends what the signature of the first signer covers. Nothing is covered if there is no signer, or no
/// content.
fn cover(
    alloc: Global,
    signed_data: &SignedData<'_>,
    along_path: bool,
    out: &mut Vec<u8>,
) -> Result<(), AllocError> {
    let covered = if along_path {
        signed_data.covered_path(alloc, &[0], None, out)
    } else {
        signed_data.covered(alloc, 0, None, out)
    };
    match covered {
        Ok(()) | Err(CoverFault::NoSigner | CoverFault::NoContent) => Ok(()),
        Err(CoverFault::OutOfMemory) => Err(AllocError),
    }
}

fn append_cover(
    alloc: Global,
    signed_data: &SignedData<'_>,
    along_path: bool,
    out: &mut Growing,
) -> Result<(), AllocError> {
    if cover(alloc, signed_data, along_path, &mut out.octets).is_err() {
        out.report_kept();
        cover(alloc, signed_data, along_path, &mut out.octets)?;
    }
    Ok(())
}

/// Appends the text of an identifier, if it has one.
fn dotted(alloc: Global, oid: &Oid<'_>, out: &mut Vec<u8>) -> Result<(), AllocError> {
    match oid.dotted(alloc)? {
        Some(text) => out.extend_from_slice(text.as_bytes()),
        None => Ok(()),
    }
}

fn append_dotted(
    alloc: Global,
    signed_data: &SignedData<'_>,
    out: &mut Growing,
) -> Result<(), AllocError> {
    let Some(algorithm) = signed_data.digest_algorithm(0) else {
        return Ok(());
    };
    let oid = algorithm.algorithm();
    if dotted(alloc, &oid, &mut out.octets).is_err() {
        out.report_kept();
        dotted(alloc, &oid, &mut out.octets)?;
    }
    Ok(())
}

/// Appends a part of a message. A request has none but all of it.
fn append_part(
    alloc: Global,
    message: &Message,
    part: Part,
    out: &mut Growing,
) -> Result<(), AllocError> {
    if let Part::Whole = part {
        return append_message(alloc, message, out);
    }
    let Some(signed_data) = message.signed_data() else {
        return Ok(());
    };
    match part {
        Part::Whole => Ok(()),
        Part::Cover => append_cover(alloc, &signed_data, false, out),
        Part::CoverAlongPath => append_cover(alloc, &signed_data, true, out),
        Part::Dotted => append_dotted(alloc, &signed_data, out),
    }
}

/// Appends the DER of a TSTInfo; nothing if the octets are none.
fn append_tst_info(alloc: Global, octets: &[u8], out: &mut Growing) -> Result<(), AllocError> {
    let tst_info = match TstInfo::from_der(alloc, octets) {
        Ok(tst_info) => tst_info,
        Err(TstFault::NotTst) => return Ok(()),
        Err(TstFault::OutOfMemory) => return Err(AllocError),
    };
    if tst_info.put(alloc, &mut out.octets).is_err() {
        out.report_kept();
        tst_info.put(alloc, &mut out.octets)?;
    }
    Ok(())
}

/// Appends the DER of a time; nothing if the octets are the contents of none.
fn append_time(alloc: Global, octets: &[u8], out: &mut Growing) -> Result<(), AllocError> {
    let time = match GenTime::from_der(alloc, octets) {
        Ok(time) => time,
        Err(TimeFault::OutOfMemory) => return Err(AllocError),
        Err(TimeFault::Form | TimeFault::NoSuchDate | TimeFault::NoSuchTime) => return Ok(()),
    };
    if time.put(&mut out.octets).is_err() {
        out.report_kept();
        time.put(&mut out.octets)?;
    }
    Ok(())
}

fn append_header(out: &mut Growing) -> Result<(), AllocError> {
    if put_header(&mut out.octets, SEQUENCE, 1000).is_err() {
        out.report_kept();
        put_header(&mut out.octets, SEQUENCE, 1000)?;
    }
    Ok(())
}

fn append_boolean(out: &mut Growing) -> Result<(), AllocError> {
    if put_true(&mut out.octets).is_err() {
        out.report_kept();
        put_true(&mut out.octets)?;
    }
    Ok(())
}

// ---- sets

/// Adds a member to a set.
fn push(set: &mut SetOf<Opaque>, member: Opaque, out: &mut Growing) -> Result<(), AllocError> {
    let len = set.len();
    let span = member.0.span;
    let Err(back) = set.push(member) else {
        return Ok(());
    };
    out.report_back(back.0.span == span && set.len() == len);
    match set.push(back) {
        Ok(()) => Ok(()),
        Err(_) => Err(AllocError),
    }
}

/// A set of the same members, which are added one by one.
fn pushed(
    alloc: Global,
    members: &SetOf<Opaque>,
    out: &mut Growing,
) -> Result<SetOf<Opaque>, AllocError> {
    let mut set = SetOf::new(alloc);
    for member in members {
        push(&mut set, Opaque(Received::new(member.0.span)), out)?;
    }
    Ok(set)
}

/// Whether two sets have the same members in the same order.
fn are_same(set: &SetOf<Opaque>, other: &SetOf<Opaque>) -> bool {
    let mut are_same = set.len() == other.len();
    for (member, same) in set.iter().zip(other) {
        are_same = are_same && member.0.span == same.0.span;
    }
    are_same
}

fn put_set(
    alloc: Global,
    set: &SetOf<Opaque>,
    kept: &[u8],
    out: &mut Growing,
) -> Result<(), AllocError>
    requires { All ⟦<Opaque as Write>⟧.grammar.is_value
        (map (⟦<Opaque as Write>⟧.value kept.now) set.now) }
{
    if set.put(alloc, kept, &mut out.octets, SET).is_err() {
        out.report_kept();
        set.put(alloc, kept, &mut out.octets, SET)?;
    }
    Ok(())
}

/// The members of the set that octets begin with, and the octets that are kept of it.
fn set_of(alloc: Global, octets: &[u8]) -> Result<(SetOf<Opaque>, Vec<u8>), Fault>
    ensures { IfOk result (λ r. All ⟦<Opaque as Write>⟧.grammar.is_value
        (map (⟦<Opaque as Write>⟧.value r.1.items) r.0)) }
{
    let mut source = Source::new(alloc, Slice::new(octets), LONGEST);
    let set = read(&mut source, &Bound::top());
    let (_, kept) = source.finish();
    let set: Tagged<SET, SetOf<Opaque>> = set?;
    spelled_values_are_values(&set, &kept);
    let Tagged(members) = set;
    Ok((members, kept))
}

/// Appends the DER of the set that octets begin with. Its members are added to another set first, which has
/// to be the same then.
fn append_set(alloc: Global, octets: &[u8], out: &mut Growing) -> Result<(), Fault> {
    let (set, kept) = set_of(alloc, octets)?;
    let Ok(same) = pushed(alloc, &set, out) else {
        return Err(Fault::OutOfMemory);
    };
    if !are_same(&same, &set) {
        out.report_back(false);
    }
    or_out_of_memory(put_set(alloc, &set, &kept, out))
}

// ---- what is asked

fn or_out_of_memory(done: Result<(), AllocError>) -> Result<(), Fault> {
    match done {
        Ok(()) => Ok(()),
        Err(_) => Err(Fault::OutOfMemory),
    }
}

/// Reads what is appended, and appends it. Returns how many octets were read.
fn read_and_append<I: Input + Drop>(
    alloc: Global,
    input: I,
    what: Appended,
    out: &mut Growing,
) -> Result<u64, Fault> {
    if let Appended::Part(part) = what {
        let (_, message) = read_message(alloc, input, LONGEST, Tail::Refuse);
        let message = message?;
        or_out_of_memory(append_part(alloc, &message, part, out))?;
        return Ok(message.octets().len() as u64);
    }
    let (_, octets) = read_rest(alloc, input, LONGEST);
    let octets = octets?;
    match what {
        Appended::Part(_) => {}
        Appended::TstInfo => or_out_of_memory(append_tst_info(alloc, &octets, out))?,
        Appended::Time => or_out_of_memory(append_time(alloc, &octets, out))?,
        Appended::Set => append_set(alloc, &octets, out)?,
        Appended::Header => or_out_of_memory(append_header(out))?,
        Appended::Boolean => or_out_of_memory(append_boolean(out))?,
    }
    Ok(octets.len() as u64)
}

/// Appends what `input` gives to `abc`, and writes all of it, after a line if the call failed at first.
pub(crate) fn append<I: Input + Drop>(
    alloc: Global,
    input: I,
    what: Appended,
    output: &mut Vec<u8>,
) -> Result<Done, Fault> {
    let Ok(mut out) = Growing::new(alloc) else {
        return Err(Fault::OutOfMemory);
    };
    let read = read_and_append(alloc, input, what, &mut out)?;
    let Ok(written) = out.written(alloc) else {
        return Err(Fault::OutOfMemory);
    };
    *output = written;
    Ok(Done {
        read,
        written: output.len() as u64,
    })
}
