//! Whole elements of an opaque value, among octets that are at hand.
//!
//! Certificates by OpenSSL have 5 elements inside one another, and 8 with an RSASSA-PSS key. All of them
//! are passed in one loop, which takes half the instructions of a call for each.
ghost use Rattle.std.specs.Prelude.{◌≡◌, ◌<◌, ◌≤◌, ◌+◌, ◌*◌, ◌∷◌, ◌++◌, IfSome, length, take, true};
ghost use Rattle.cms_tlv.specs.Headers.{BeginsWithLength};
ghost use Rattle.cms_tlv.specs.internal.Whole.{AreWhole, HasWhole, HasHeader, HasHead, Walks, begins_value, short_below};

use crate::opaque::is_constructed;
use crate::scanner::Scanner;

/// How many nested elements one scan looks into. If an element cannot be taken whole, the elements
/// inside it are scanned by themselves after its header is read. So an octet is scanned in vain at most
/// once for each of these levels, once for the header after the last, and once by the scan of the opaque
/// value that it is in.
pub(crate) const DEPTH: usize = 8;

/// Accepts whole elements of an opaque value, as many as are there.
#[derive(Drop)]
pub(crate) struct WholeElements {
    /// How many octets they may have.
    pub(crate) room: usize,
    /// How many of them may be nested.
    pub(crate) levels: u8,
}

impl Scanner for WholeElements {
    ghost accepts = { λ w b. (length b ≤ w.room) × AreWhole w.levels b };

    fn accept(&self, octets: &[u8]) -> usize {
        let room = self.room.min(octets.len());
        whole(&octets[..room], self.levels)
    }
}

/// How many octets belong to the whole elements that `octets` begin with.
pub(crate) fn whole(octets: &[u8], levels: u8) -> usize
    ensures fits { result ≤ length octets.now }
    ensures whole { AreWhole levels (take result octets.now) }
{
    let mut rest = octets;
    while let Some(behind) = behind_element(rest, levels) {
        rest = behind;
    }
    octets.len() - rest.len()
}

/// What follows the element that `octets` begin with; none if it is not whole, or if it must be judged
/// by reading it octet by octet.
fn behind_element(octets: &[u8], levels: u8) -> Option<&[u8]>
    ensures { IfSome result (λ behind. HasWhole levels octets.now behind.now) }
{
    let element = short_element(octets)?;
    if levels == 0 {
        return None;
    }
    if is_constructed(element.ident) && !are_whole(element.contents, levels - 1, DEPTH - 1) {
        return None;
    }
    Some(element.behind)
}

/// Where a walk over elements and those inside them is.
#[derive(Clone, Copy)]
struct Walk {
    /// How many octets it has passed.
    at: usize,
    /// How many octets are left of the innermost element that it is in.
    room: usize,
    /// How many elements it is in; all octets count as one.
    nested: usize,
}

/// The header of an element.
#[derive(Clone, Copy)]
struct Head {
    ident: u8,
    /// How many octets the header has.
    size: usize,
    /// How many octets the contents have.
    len: usize,
}

/// Whether the octets are whole elements of an opaque value, at most `depth` of them nested; no if one
/// of them must be judged by reading it octet by octet.
// Inlined into a larger function, the loop would not keep all that it needs in registers.
#[inline(never)]
pub(crate) fn are_whole(octets: &[u8], levels: u8, depth: usize) -> bool
    requires { depth ≤ 8 }
    ensures { result ≡ true → AreWhole levels octets.now }
{
    if levels == 0 {
        return false;
    }
    let most = (levels as usize).min(depth + 1);
    // How many octets are left of each element around the innermost one, the outermost at 1. Entry 0
    // stays 1: no element fits into one octet, so the walk stops once it has left all elements.
    let mut around = [1; DEPTH + 1];
    let mut walk = Walk {
        at: 0,
        room: octets.len(),
        nested: 1,
    };
    while let Some(end) = to_end(octets, walk, &mut around, most) {
        if end.room == 1 {
            return end.nested == 0;
        }
        walk = Walk {
            at: end.at,
            room: around[end.nested - 1],
            nested: end.nested - 1,
        };
    }
    false
}

/// Goes on until fewer octets are left of the innermost element than the shortest element has.
#[inline(always)]
fn to_end(octets: &[u8], walk: Walk, around: &mut [usize; DEPTH + 1], most: usize) -> Option<Walk>
    requires few { most ≤ 9 }
    requires walks { Walks most octets.now around.old walk.at walk.room walk.nested }
    ensures ended { IfSome result (λ w. w.room < 2) }
    ensures walks { IfSome result (λ w. Walks most octets.now around.new w.at w.room w.nested) }
    ensures on { IfSome result (λ w. w.nested + 2 * walk.at ≤ walk.nested + 2 * w.at) }
{
    let mut walk = walk;
    while walk.room >= 2 {
        walk = step(octets, walk, around, most)?;
    }
    Some(walk)
}

/// Goes on after a primitive element, or into a constructed one.
#[inline(always)]
fn step(octets: &[u8], walk: Walk, around: &mut [usize; DEPTH + 1], most: usize) -> Option<Walk>
    requires few { most ≤ 9 }
    requires room { 2 ≤ walk.room }
    requires walks { Walks most octets.now around.old walk.at walk.room walk.nested }
    ensures walks { IfSome result (λ w. Walks most octets.now around.new w.at w.room w.nested) }
    ensures on { IfSome result (λ w. w.nested + 2 * walk.at < walk.nested + 2 * w.at) }
{
    let ident = octets[walk.at];
    let first = octets[walk.at + 1];
    if first < short_below(ident) {
        let head = Head {
            ident,
            size: 2,
            len: first as usize,
        };
        return pass(octets, walk, head, around, most);
    }
    let head = long_head(octets, walk.at, walk.room)?;
    pass(octets, walk, head, around, most)
}

/// Goes on after a header: to the end of a primitive element, or into a constructed one.
#[inline(always)]
fn pass(
    octets: &[u8],
    walk: Walk,
    head: Head,
    around: &mut [usize; DEPTH + 1],
    most: usize,
) -> Option<Walk>
    requires few { most ≤ 9 }
    requires walks { Walks most octets.now around.old walk.at walk.room walk.nested }
    requires room { 2 ≤ walk.room }
    requires head { HasHead octets.now walk.at head.ident head.size head.len }
    ensures walks { IfSome result (λ w. Walks most octets.now around.new w.at w.room w.nested) }
    ensures on { IfSome result (λ w. w.nested + 2 * walk.at < walk.nested + 2 * w.at) }
{
    let size = head.size + head.len;
    if size > walk.room {
        return None;
    }
    if !is_constructed(head.ident) {
        return Some(Walk {
            at: walk.at + size,
            room: walk.room - size,
            nested: walk.nested,
        });
    }
    if walk.nested >= most {
        return None;
    }
    around[walk.nested] = walk.room - size;
    Some(Walk {
        at: walk.at + head.size,
        room: head.len,
        nested: walk.nested + 1,
    })
}

/// The header at `at` among `room` octets, if an element of an opaque value may have it and its length
/// has two octets or three.
#[inline(always)]
fn long_head(octets: &[u8], at: usize, room: usize) -> Option<Head>
    requires room { 2 ≤ room }
    requires fits { at + room ≤ length octets.now }
    ensures { IfSome result (λ h. HasHead octets.now at h.ident h.size h.len) }
{
    let ident = octets[at];
    if !begins_value(ident) {
        return None;
    }
    match octets[at + 1] {
        0x81 if room > 2 && octets[at + 2] >= 0x80 => Some(Head {
            ident,
            size: 3,
            len: octets[at + 2] as usize,
        }),
        0x82 if room > 3 && octets[at + 2] > 0 => Some(Head {
            ident,
            size: 4,
            len: 256 * octets[at + 2] as usize + octets[at + 3] as usize,
        }),
        _ => None,
    }
}

/// An element whose octets are all there.
#[derive(Drop)]
struct Element<'a> {
    ident: u8,
    contents: &'a [u8],
    /// What follows it.
    behind: &'a [u8],
}

/// The element that `octets` begin with; none if it is not all there, or if its header is not one that
/// `short_header` reads.
fn short_element(octets: &[u8]) -> Option<Element<'_>>
    ensures { IfSome result (λ e. HasHeader octets.now e.ident (length e.contents.now)
        (e.contents.now ++ e.behind.now)) }
{
    let (ident, len, rest) = short_header(octets)?;
    if len > rest.len() {
        return None;
    }
    let (contents, behind) = rest.split_at(len);
    Some(Element {
        ident,
        contents,
        behind,
    })
}

/// The header of an opaque value that `octets` begin with: its identifier, how many octets the contents
/// have, and what follows the header. None if the identifier has more than one octet, or the length
/// more than three.
#[inline(always)]
fn short_header(octets: &[u8]) -> Option<(u8, usize, &[u8])>
    ensures { IfSome result (λ h. HasHeader octets.now h.0 h.1 h.2.now) }
{
    let (ident, rest) = octets.split_first()?;
    if !begins_value(*ident) {
        return None;
    }
    let (len, rest) = short_length(rest)?;
    Some((*ident, len, rest))
}

/// The shortest length of at most three octets that `octets` begin with (X.690, 8.1.3 and 10.1), and what
/// follows; none if they begin with another.
#[inline(always)]
pub fn short_length(octets: &[u8]) -> Option<(usize, &[u8])>
    ensures { IfSome result (λ h. BeginsWithLength octets.now h.0 h.1.now) }
{
    let (first, rest) = octets.split_first()?;
    match *first {
        0..=0x7f => Some((*first as usize, rest)),
        0x81 => one_octet_length(rest),
        0x82 => two_octet_length(rest),
        _ => None,
    }
}

/// A length of one octet after an 81, and what follows.
#[inline(always)]
fn one_octet_length(octets: &[u8]) -> Option<(usize, &[u8])>
    ensures { IfSome result (λ h. BeginsWithLength (0x81 ∷ octets.now) h.0 h.1.now) }
{
    let (len, rest) = octets.split_first()?;
    if *len < 0x80 {
        return None;
    }
    Some((*len as usize, rest))
}

/// A length of two octets after an 82, and what follows.
#[inline(always)]
fn two_octet_length(octets: &[u8]) -> Option<(usize, &[u8])>
    ensures { IfSome result (λ h. BeginsWithLength (0x82 ∷ octets.now) h.0 h.1.now) }
{
    let (high, rest) = octets.split_first()?;
    let (low, rest) = rest.split_first()?;
    if *high == 0 {
        return None;
    }
    Some((256 * *high as usize + *low as usize, rest))
}

/// Whether an element of an opaque value may begin with this octet and no more identifier octets.
#[inline(always)]
pub(crate) fn begins_value(ident: u8) -> bool
    ensures { result ≡ begins_value ident }
{
    short_below(ident) > 0
}

/// The octets below this are lengths of one octet after this identifier; 0 if no element of an opaque
/// value begins with it. So one comparison tells both.
#[inline(always)]
fn short_below(ident: u8) -> u8
    ensures { result ≡ short_below ident }
{
    SHORT_BELOW[ident as usize]
}

/// 128 for each octet that is not 00, has no high tag number, and has its form; else 0.
static SHORT_BELOW: [u8; 256] = [
    0, 128, 128, 128, 128, 128, 128, 128, 128, 128, 128, 128, 128, 128, 128, 128, 0, 0, 128, 128,
    128, 128, 128, 128, 128, 128, 128, 128, 128, 128, 128, 0, 128, 0, 0, 0, 0, 0, 0, 128, 128, 128,
    0, 128, 0, 128, 128, 128, 128, 128, 0, 0, 0, 0, 0, 0, 0, 0, 0, 0, 0, 128, 0, 0, 128, 128, 128,
    128, 128, 128, 128, 128, 128, 128, 128, 128, 128, 128, 128, 128, 128, 128, 128, 128, 128, 128,
    128, 128, 128, 128, 128, 128, 128, 128, 128, 0, 128, 128, 128, 128, 128, 128, 128, 128, 128,
    128, 128, 128, 128, 128, 128, 128, 128, 128, 128, 128, 128, 128, 128, 128, 128, 128, 128, 128,
    128, 128, 128, 0, 128, 128, 128, 128, 128, 128, 128, 128, 128, 128, 128, 128, 128, 128, 128,
    128, 128, 128, 128, 128, 128, 128, 128, 128, 128, 128, 128, 128, 128, 128, 128, 0, 128, 128,
    128, 128, 128, 128, 128, 128, 128, 128, 128, 128, 128, 128, 128, 128, 128, 128, 128, 128, 128,
    128, 128, 128, 128, 128, 128, 128, 128, 128, 128, 0, 128, 128, 128, 128, 128, 128, 128, 128,
    128, 128, 128, 128, 128, 128, 128, 128, 128, 128, 128, 128, 128, 128, 128, 128, 128, 128, 128,
    128, 128, 128, 128, 0, 128, 128, 128, 128, 128, 128, 128, 128, 128, 128, 128, 128, 128, 128,
    128, 128, 128, 128, 128, 128, 128, 128, 128, 128, 128, 128, 128, 128, 128, 128, 128, 0,
];
