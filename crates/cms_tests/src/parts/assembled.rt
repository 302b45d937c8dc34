//! Which octets of DER are copied from the input, and which are made.
ghost use Rattle.std.specs.Prelude.{◌≡◌, true};

use crate::asserts::assert_same;
use crate::parts::fields::received;
use crate::parts::sources::LIMIT;
use cms_fields::{Field, Last, Opaque, Tagged, Then};
use cms_sample::TextSpan;
use cms_scalars::{Boolean, OctetsSpan};
use cms_setof::{Piece, SetOf, absorbed, pieces};
use std::alloc::{AllocError, Global};
use std::process::Abort;
use std::test::Fail;

/// Pieces: `MADE` and how many octets, or where the octets start and end in the input.
type Shown = &'static [(usize, usize)];

const MADE: usize = usize::MAX;

/// A set of OCTET STRINGs.
type Texts = Tagged<0x31, SetOf<TextSpan>>;

/// A set of opaque elements.
type Elements = Tagged<0x31, SetOf<Opaque>>;

/// A BOOLEAN and an OCTET STRING.
type Fields = Tagged<0x30, Then<Boolean, Last<OctetsSpan<0x04>>>>;

/// What these pieces show.
fn shown(alloc: Global, pieces: &[Piece]) -> Result<Vec<(usize, usize)>, AllocError> {
    let mut all = Vec::new(alloc);
    for piece in pieces {
        match piece {
            Piece::Copied(span) => all.push((span.start, span.end))?,
            Piece::Made(octets) => all.push((MADE, octets.len()))?,
        }
    }
    Ok(all)
}

/// Asserts of which pieces the DER of the field in these octets, in hexadecimal, is made up.
fn assert_assembled<T: Field>(
    rt: &(impl Abort + AllocGlobal),
    input: &str,
    wanted: Shown,
) -> Result<(), Fail>
    requires { T.grammar.is_field ≡ true }
{
    let octets = hex::decode(rt.alloc(), input)?;
    let (field, kept) = received::<T>(rt.alloc(), &octets, 1, LIMIT)?;
    let came = shown(rt.alloc(), &pieces(&field, rt.alloc(), &kept)?)?;
    assert_same(rt, came.as_slice(), wanted, input);
    Ok(())
}

/// Asserts the same if what can be copied beside copied octets is copied too.
fn assert_absorbed<T: Field>(
    rt: &(impl Abort + AllocGlobal),
    input: &str,
    wanted: Shown,
) -> Result<(), Fail>
    requires { T.grammar.is_field ≡ true }
{
    let octets = hex::decode(rt.alloc(), input)?;
    let (field, kept) = received::<T>(rt.alloc(), &octets, 1, LIMIT)?;
    let made = pieces(&field, rt.alloc(), &kept)?;
    let came = shown(rt.alloc(), &absorbed(made, &kept, rt.alloc())?)?;
    assert_same(rt, came.as_slice(), wanted, input);
    Ok(())
}

/// A header is made, and contents are copied. Members go where their octets do.
#[test]
fn headers_made(rt: HostRuntime) -> Result<(), Fail> {
    assert_assembled::<Texts>(&rt, "3100", &[(MADE, 2)])?;
    assert_assembled::<Texts>(
        &rt,
        "31800401620401610000",
        &[(MADE, 4), (7, 8), (MADE, 2), (4, 5)],
    )
}

/// Opaque members that follow each other in the input are one piece.
#[test]
fn opaque_members_copied(rt: HostRuntime) -> Result<(), Fail> {
    assert_assembled::<Elements>(&rt, "3106040161040162", &[(MADE, 2), (2, 8)])?;
    assert_assembled::<Elements>(&rt, "3106040162040161", &[(MADE, 2), (5, 8), (2, 5)])
}

/// A string in segments has a header that is made, and each segment is copied. A BOOLEAN is made.
#[test]
fn strings_copied(rt: HostRuntime) -> Result<(), Fail> {
    assert_assembled::<Fields>(
        &rt,
        "300b0101012406040161040162",
        &[(MADE, 7), (9, 10), (12, 13)],
    )
}

/// What is made is copied if it is the same right before what is copied next, or else right after what is
/// copied before it.
#[test]
fn headers_copied(rt: HostRuntime) -> Result<(), Fail> {
    assert_absorbed::<Texts>(&rt, "31800401620401610000", &[(MADE, 2), (5, 8), (2, 5)])
}
