//! OCTET STRING (X.690, 8.7 and 10.2).
//!
//! Nothing is copied or joined before it is written: a string is spans, and a segment takes 8 octets of
//! memory if all of the string lies below 4 GiB. Segments are read by a function that calls itself, and
//! each level is a pure reader over the one below: so its laws are those of a choice, of an element and
//! of members one after another, by induction.
ghost use Rattle.std.specs.Prelude.{◌≡◌, ◌==◌, ◌<◌, ◌∷◌, [], ℕ, List, length, map, min, slice_get, option_map, None, true, IfOk, IfErr, OnOk, bytes_eq};
ghost use Rattle.cms_fields.specs.ReadingCalls.{ReadsField, ReadsSpelled};
ghost use Rattle.cms_tlv.specs.State.{Answers, Progresses, FaultIsSticky};
ghost use Rattle.cms_tlv.specs.Refines.{Refines};
ghost use Rattle.cms_tlv.specs.Headers.{AreOctets};
ghost use Rattle.cms_tlv.specs.Spans.{borrowed_spans, octets_in};
ghost use Rattle.cms_tlv.specs.Clauses.{IsWithin};
ghost use Rattle.cms_tlv.specs.Law.{rules_of};
ghost use Rattle.cms_tlv.specs.RefusalReasons.{SaysWhy};
ghost use Rattle.cms_tlv.specs.Reading.{refuse};
ghost use Rattle.cms_tlv.specs.Spelling.{join};
ghost use Rattle.cms_tlv.specs.declared.fault.Reason.TheVariants.{UnexpectedElement};
ghost use Rattle.cms_fields.specs.Received.{spanned_in};
ghost use Rattle.cms_fields.specs.FirstOctets.{is_primitive_octet};
ghost use Rattle.cms_fields.specs.Indexed.{left};
ghost use Rattle.cms_scalars.specs.Octets.{octets, octet_string_parts};
ghost use Rattle.cms_scalars.specs.Readers.{octet_string_parts_of, segments_of, part_of, parts_of};
ghost use Rattle.cms_scalars.specs.internal.Segments.{SeesSegment, SeesNoSegment};
ghost use Rattle.cms_scalars.specs.Borrowed.{parts_in, added_spans, AddsSpans, borrowed_pieces};
ghost use Rattle.cms_fields.specs.Grammar.{octets_with};
ghost use Rattle.cms_scalars.specs.Grammar.{octet_string_type};

use cms_fields::{
    Field, Indexed, Items, Kind, Primitive, Scalar, Sink, Stop, Tagged, Write, emit_spans,
    spans_len,
};
use cms_tlv::{BorrowedSpans, Bound, Fault, Input, OCTET_STRING, Reason, Source, Span, Spans};
use std::alloc::{AllocError, Global};
use std::slice::from_ref;

/// How many constructed encodings of one string may be nested, the outermost counted.
const LEVELS: u8 = 8;

/// Where the primitive encodings of a string lie, in their order.
#[derive(Drop)]
struct Parts(Spans);

impl Write for Parts {
    ghost Value = { List ℕ };

    ghost grammar = { octets_with AreOctets };

    ghost value = { λ k x. join (spanned_in k x.0) };

    fn emit<S: Sink>(&self, kept: &[u8], sink: &mut S) -> Result<(), Stop> {
        emit_spans(self.0.borrowed(), kept, sink)
    }

    fn law() {}
}

/// Any contents octets.
#[derive(Drop)]
pub struct AnyOctets;

impl Kind for AnyOctets {
    ghost is = { AreOctets };
}

impl Scalar for AnyOctets {
    ghost test = { λ octets. true };

    ghost malformed = { UnexpectedElement };

    fn passes(_: &[u8]) -> bool {
        true
    }

    fn reason() -> Reason {
        Reason::UnexpectedElement
    }

    fn law() {}
}

/// Where an OCTET STRING with the identifier octet `ID` lies that is in one primitive encoding, as it is
/// by DER (X.690, 10.2).
pub type PrimitiveOctetsSpan<const ID: u8> = Primitive<ID, AnyOctets>;

/// Where an OCTET STRING with the identifier octet `ID` lies, in one piece or in segments. `ID` is 04,
/// or 80 if the string is tagged IMPLICIT (X.690, 8.14.3).
#[derive(Drop)]
pub struct OctetsSpan<const ID: u8>(Parts);

impl<const ID: u8> Write for OctetsSpan<ID> {
    ghost Value = { List ℕ };

    ghost grammar = { octet_string_type ID };

    ghost value = { λ k x. join (parts_in k x) };

    fn emit<S: Sink>(&self, kept: &[u8], sink: &mut S) -> Result<(), Stop> {
        Tagged::<ID, _>(&self.0).emit(kept, sink)
    }

    fn law() {}
}

impl<const ID: u8> OctetsSpan<ID> {
    /// Where its primitive encodings lie, in their order.
    pub fn spans(&self) -> BorrowedSpans<'_>
        ensures { (k : List ℕ) → spanned_in k (borrowed_spans result) ≡ parts_in k self.now }
    {
        self.0.0.borrowed()
    }
}

/// Reads an OCTET STRING with the identifier octet `ID`, in one piece or in segments. E12, after the
/// header, at the ninth nested constructed encoding.
pub fn read_octets<R: Input, const ID: u8>(
    source: &mut Source<R>,
    bound: &Bound,
) -> Result<OctetsSpan<ID>, Fault>
    ensures reads { ReadsField (octet_string_parts_of ID bound.now) parts_in
        source.old source.new result }
    ensures spelled { is_primitive_octet ID ≡ true
        → ReadsSpelled (octet_string_parts (rules_of bound.now.strict) ID) bound.now parts_in
        source.old source.new result }
    ensures within { OnOk result (IsWithin bound.now source.new) }
    ensures why { source.old.fault ≡ None
        → IfErr result (SaysWhy true (octet_string_type ID).malformed source.old source.new) }
{
    read_string(source, bound)
}

/// Reads an OCTET STRING.
fn read_string<R: Input, const ID: u8>(
    source: &mut Source<R>,
    bound: &Bound,
) -> Result<OctetsSpan<ID>, Fault>
    ensures sticky { FaultIsSticky source.old source.new result }
    ensures accounted { source.old.fault ≡ None → Answers source.old source.new result }
    ensures ok { OnOk result (Progresses source.old source.new) }
    ensures clear { OnOk result (source.new.ahead ≡ None) }
    ensures refines { source.old.fault ≡ None
        → Refines (λ s x. parts_in s.done x) (octet_string_parts_of ID bound.now)
        source.old source.new result }
{
    if source.peek(bound)? == Some(ID) {
        let contents = source.primitive(bound, ID)?;
        return Ok(OctetsSpan(Parts(Spans::one(source.allocator(), contents))));
    }
    let mut spans = Spans::new(source.allocator());
    read_parts(source, bound, ID, LEVELS, &mut spans)?;
    Ok(OctetsSpan(Parts(spans)))
}

/// Reads a string with the identifier octet `ident`, in which at most `levels` constructed encodings
/// are nested, and adds to `spans` where its primitive encodings lie.
fn read_parts<R: Input>(
    source: &mut Source<R>,
    bound: &Bound,
    ident: u8,
    levels: u8,
    spans: &mut Spans,
) -> Result<(), Fault>
    requires no_fault { source.old.fault ≡ None }
    ensures ok { OnOk result (AddsSpans spans.old spans.new source.old source.new) }
    ensures refines { Refines
        (λ s u. spanned_in s.done (added_spans spans.old spans.new))
        (parts_of ident (segments_of levels) bound.now) source.old source.new result }
{
    if source.peek(bound)? == Some(ident) {
        return read_part(source, bound, ident, spans);
    }
    let inner = source.enter(bound, ident | 0x20)?;
    if levels == 0 {
        return Err(source.refuse(Reason::SegmentsTooDeep));
    }
    while has_more_segments(source, &inner, spans)? {
        read_parts(source, &inner, OCTET_STRING, levels - 1, spans)?;
    }
    source.close(inner)
}

/// Reads the primitive segments that are at hand, adds to `spans` where their contents lie, and says
/// whether another segment follows them.
fn has_more_segments<R: Input>(
    source: &mut Source<R>,
    bound: &Bound,
    spans: &mut Spans,
) -> Result<bool, Fault>
    requires no_fault { source.old.fault ≡ None }
    requires clear { source.old.ahead ≡ None }
    ensures ok { IfOk result (SeesSegment bound.now spans.old spans.new
        source.old source.new) }
    ensures err { IfErr result (SeesNoSegment bound.now source.old source.new) }
{
    source.primitives_at_hand(bound, OCTET_STRING, spans)?;
    Ok(source.peek(bound)?.is_some())
}

/// Reads a primitive string with the identifier octet `ident`, and adds to `spans` where its
/// contents lie.
fn read_part<R: Input>(
    source: &mut Source<R>,
    bound: &Bound,
    ident: u8,
    spans: &mut Spans,
) -> Result<(), Fault>
    requires no_fault { source.old.fault ≡ None }
    ensures ok { OnOk result (AddsSpans spans.old spans.new source.old source.new) }
    ensures refines { Refines
        (λ s u. spanned_in s.done (added_spans spans.old spans.new))
        (part_of ident bound.now) source.old source.new result }
{
    let part = source.primitive(bound, ident)?;
    match spans.push(part) {
        Ok(()) => Ok(()),
        Err(_) => Err(source.out_of_memory()),
    }
}

/// An OCTET STRING, as the octets that its primitive encodings hold; these are borrowed from where they are
/// kept.
#[derive(Clone, Copy)]
pub struct Octets<'a> {
    spans: BorrowedSpans<'a>,
    kept: &'a [u8],
}

impl<'a> Octets<'a> {
    /// The OCTET STRING whose parts `string` names in `kept`.
    pub fn new<const ID: u8>(string: &'a OctetsSpan<ID>, kept: &'a [u8]) -> Octets<'a>
        ensures { borrowed_pieces result ≡ parts_in kept.now string.now }
    {
        Octets {
            spans: string.spans(),
            kept,
        }
    }

    /// The OCTET STRING whose one part `string` names in `kept`.
    pub fn of_primitive<const ID: u8>(
        string: &'a PrimitiveOctetsSpan<ID>,
        kept: &'a [u8],
    ) -> Octets<'a>
        ensures { borrowed_pieces result
            ≡ octets_in kept.now string.now.0.span.start string.now.0.span.end ∷ [] }
    {
        Octets {
            spans: BorrowedSpans::new(from_ref(&string.0.span)),
            kept,
        }
    }

    /// How many pieces there are: one for each primitive encoding.
    pub fn pieces(&self) -> u64
        ensures { result ≡ length (borrowed_pieces self.now) }
    {
        self.spans.len()
    }

    /// The octets of the piece with the index `i`, in the order read; the first is 0.
    pub fn piece(&self, i: u64) -> Option<&'a [u8]>
        ensures { option_map (λ s. s.now) result ≡ slice_get (borrowed_pieces self.now) i }
    {
        let span = self.spans.get(i)?;
        Some(span.octets(self.kept))
    }

    /// The pieces, in the order read.
    pub fn iter(&self) -> Items<Octets<'a>>
        ensures { left borrowed_pieces result ≡ borrowed_pieces self.now }
    {
        Items::new(*self)
    }

    /// All pieces, in the order read. An error means out of memory.
    pub fn all_pieces(&self, alloc: Global) -> Result<Vec<&'a [u8]>, AllocError>
        ensures { IfOk result (λ v. map (λ s. s.now) v.items ≡ borrowed_pieces self.now) }
    {
        let mut pieces = Vec::with_capacity(alloc, self.spans.len() as usize)?;
        for span in Items::new(self.spans) {
            pieces.push(span.octets(self.kept))?;
        }
        Ok(pieces)
    }

    /// How many octets all pieces have together, or `u64::MAX` if there are more.
    pub fn total(&self) -> u64
        ensures { result ≡ min (length (join (borrowed_pieces self.now))) 0xFFFF_FFFF_FFFF_FFFF }
    {
        spans_len(self.spans, self.kept)
    }
}

impl<'a> Indexed for Octets<'a> {
    type Item = &'a [u8];

    ghost Value = { List ℕ };

    ghost value = { λ s. s.now };

    ghost values = { borrowed_pieces };

    fn len(&self) -> u64 {
        self.pieces()
    }

    fn get(&self, i: u64) -> Option<&'a [u8]> {
        self.piece(i)
    }
}

impl<'a> IntoIterator for Octets<'a> {
    type Item = &'a [u8];

    type IntoIter = Items<Octets<'a>>;

    ghost into_iter_gives = { λ string items. left borrowed_pieces items ≡ borrowed_pieces string };

    fn into_iter(self) -> Items<Octets<'a>> {
        self.iter()
    }
}

impl<const ID: u8> Field for OctetsSpan<ID> {
    fn read<R: Input>(source: &mut Source<R>, bound: &Bound) -> Result<OctetsSpan<ID>, Fault> {
        read_octets::<R, ID>(source, bound)
    }

    fn begins_with(octet: u8) -> bool {
        octet == ID || ID < 0xe0 && octet == ID + 0x20
    }
}
