//! The extent of a message that comes in pieces.
//!
//! A caller that asked for the DER at each piece would have all octets before it read again. It asks for
//! the extent instead, which goes on at the header where it stopped, and converts once all has come.
ghost use Rattle.std.specs.Prelude.{◌≡◌, ◌≢◌, ◌⊎◌, ◌≤◌, ◌<◌, ◌^◌, true, false, drop, length, IfOk, IfErr};
ghost use Rattle.cms_tlv.specs.Frames.{IsEnd};
ghost use Rattle.cms_c.specs.Calls.{limit_of_c};
ghost use Rattle.cms_c.specs.Extents.{BeginsNeither, IsOpenedAt, IsExtent, IsPartOf, IsReachBy, IsReached, Reaches, reach_number};

use cms_tlv::{Bound, Fault, MAX_LIMIT, Reason, Slice, Source};
use std::alloc::Global;

/// How far an element reaches, as the headers say (X.690, 8.1).
#[repr(C)]
#[derive(Clone, Copy)]
pub struct Extent {
    /// How many octets were passed: headers of indefinite length, and whole elements after them. Of a
    /// whole element, its length.
    pub end: u64,
    /// How many elements of indefinite length have not ended there.
    pub unended: u64,
    /// 0: octets are missing. 1: the element is whole. 2: no element within the limit begins so. 3: out
    /// of memory.
    pub reach: u32,
}

/// Whether a whole element is there.
#[derive(Clone, Copy)]
pub enum Reach {
    /// Octets are missing.
    More,
    /// It is.
    Whole,
    /// No element within the limit begins so.
    Nothing,
    /// It is not known: memory ran out.
    Unknown,
}

/// What octets begin with, and how many octets that has.
enum Part {
    /// A header of indefinite length.
    Header(usize),
    /// A whole element of definite length.
    Element(usize),
}

/// Finds the extent of the element that `input` begins with.
///
/// `extent` is what the call before wrote for fewer of these octets, if octets were missing or memory ran
/// out; in the first call all its fields are 0. The element has at most `limit` octets; a limit above 2^40
/// counts as 2^40.
#[unsafe(no_mangle)]
pub extern "C" fn cms_canon_extent(alloc: Global, input: &[u8], limit: u64, extent: &mut Extent)
    ensures { IsOpenedAt input.now extent.old.end extent.old.unended
        → IsExtent input.now (limit_of_c limit) extent.new }
{
    *extent = extended(alloc, input, limit.min(MAX_LIMIT), *extent);
}

fn extended(alloc: Global, input: &[u8], limit: u64, before: Extent) -> Extent
    requires { limit ≤ 2 ^ 40 }
    ensures { IsOpenedAt input.now before.end before.unended
        → IsExtent input.now limit result }
{
    if !is_within(input, before) {
        return before.with(Reach::Nothing);
    }
    let mut extent = before;
    while goes_on(extent) {
        extent = match next(alloc, input, limit, extent) {
            Ok(next) => next,
            Err(reach) => return extent.with(reach),
        };
    }
    extent.with(Reach::Whole)
}

/// Whether `input` has so many octets, and so many elements can have begun in them.
fn is_within(input: &[u8], extent: Extent) -> bool
    ensures yes { result ≡ true → (extent.end ≤ length input.now)
        × (extent.unended ≤ extent.end) }
    ensures no { result ≡ false → extent.end ≤ length input.now → extent.unended ≤ extent.end → ⊥ }
{
    extent.end <= input.len() as u64 && extent.unended <= extent.end
}

/// Whether the element has not ended.
fn goes_on(extent: Extent) -> bool
    ensures yes { result ≡ true → (extent.end ≡ 0) ⊎ (0 < extent.unended) }
    ensures no { result ≡ false → (extent.end ≢ 0) × (extent.unended ≡ 0) }
{
    extent.end == 0 || extent.unended > 0
}

impl Extent {
    fn with(self, reach: Reach) -> Extent
        ensures { result ≡ record self { reach = reach_number reach } }
    {
        Extent {
            reach: match reach {
                Reach::More => 0,
                Reach::Whole => 1,
                Reach::Nothing => 2,
                Reach::Unknown => 3,
            },
            ..self
        }
    }
}

/// The extent after one more header, or after the element that it begins.
fn next(alloc: Global, input: &[u8], limit: u64, before: Extent) -> Result<Extent, Reach>
    requires limit { limit ≤ 2 ^ 40 }
    requires inside { before.end ≤ length input.now }
    requires within { before.unended ≤ before.end }
    ensures moved { IfOk result (λ e. (before.end < e.end) × (e.end ≤ length input.now)
        × (e.unended ≤ e.end)) }
    ensures ok { IsOpenedAt input.now before.end before.unended
        → (before.end ≡ 0) ⊎ (0 < before.unended)
        → IfOk result (λ e. IsReached input.now limit e.end e.unended) }
    ensures err { IsOpenedAt input.now before.end before.unended
        → IfErr result (Reaches input.now limit before.end before.unended) }
{
    let rest = rest_from(input, before.end);
    if ends_inside(rest, before.unended) {
        if limit < before.end + 2 {
            return Err(Reach::Nothing);
        }
        return Ok(Extent {
            end: before.end + 2,
            unended: before.unended - 1,
            ..before
        });
    }
    match part_in(alloc, rest, limit.saturating_sub(before.end)) {
        Ok(Part::Header(length)) => Ok(Extent {
            end: before.end + length as u64,
            unended: before.unended + 1,
            ..before
        }),
        Ok(Part::Element(length)) => Ok(Extent {
            end: before.end + length as u64,
            ..before
        }),
        Err(reach) => Err(reach),
    }
}

fn rest_from(input: &[u8], end: u64) -> &[u8]
    requires { end ≤ length input.now }
    ensures { result.now ≡ drop end input.now }
{
    &input[end as usize..]
}

/// Whether `octets` begin with the end of contents, in an element that has not ended.
fn ends_inside(octets: &[u8], unended: u64) -> bool
    ensures inside { result ≡ true → 0 < unended }
    ensures yes { result ≡ true → IsEnd octets.now }
    ensures no { result ≡ false → 0 < unended → IsEnd octets.now → ⊥ }
{
    unended > 0 && matches!(octets, [0, 0, ..])
}

/// What `octets` begin with, or why it is not known.
fn part_in(alloc: Global, octets: &[u8], limit: u64) -> Result<Part, Reach>
    requires { limit ≤ 2 ^ 40 }
    ensures ok { IfOk result (IsPartOf octets.now limit) }
    ensures err { IfErr result (BeginsNeither octets.now limit) }
{
    let mut source = Source::new(alloc, Slice::new(octets), limit);
    let header = source.header(&Bound::top());
    let taken = source.consumed() as usize;
    let (_, _) = source.finish();
    let header = match header {
        Ok(header) => header,
        Err(fault) => return Err(reach_of(fault)),
    };
    let Some(length) = header.len else {
        return Ok(Part::Header(taken));
    };
    if length > (octets.len() - taken) as u64 {
        return Err(Reach::More);
    }
    Ok(Part::Element(taken + length as usize))
}

/// Why no header was read, by the fault.
fn reach_of(fault: Fault) -> Reach
    ensures { IsReachBy fault result }
{
    match fault {
        Fault::Refused { reason, at: _ } => {
            if reason == Reason::Truncated {
                Reach::More
            } else {
                Reach::Nothing
            }
        }
        _ => Reach::Unknown,
    }
}
