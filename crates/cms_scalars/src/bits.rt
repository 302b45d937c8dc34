//! BIT STRING with a named-bit list (X.690, 8.6 and 11.2).
//!
//! The value is the list of bits up to the last 1, which is not what was received, so that this is no
//! `Primitive`. Any octets show such a list, and so writing asks for nothing.
ghost use Rattle.std.specs.Prelude.{◌≡◌, ◌==◌, ◌↔◌, ◌+◌, ◌++◌, ◌∷◌, [], ◌<◌, OnOk, OnErr, ℕ, List, min, slice_index, IsTrue, IsNone, IfSome, length, false, bytes_eq};
ghost use Rattle.std.specs.Int.{w8, trailing_zeros};
ghost use Rattle.cms_tlv.specs.Headers.{AreOctets};
ghost use Rattle.cms_tlv.specs.Reading.{refuse};
ghost use Rattle.cms_tlv.specs.Spans.{octets_in};
ghost use Rattle.cms_tlv.specs.Spelling.{der};
ghost use Rattle.cms_tlv.specs.declared.tags.TheConstants.{BIT_STRING};
ghost use Rattle.cms_scalars.specs.Scalars.{bits, bits_of};
ghost use Rattle.cms_scalars.specs.Bits.{IsNamedBits, without_trailing_zeros, used_bits, bits_of_contents, bits_in, borrowed_bits, is_bit_string};
ghost use Rattle.cms_fields.specs.Assembly.{all_made, marked, made};
ghost use Rattle.cms_fields.specs.Grammar.{unread};
ghost use Rattle.cms_scalars.specs.Grammar.{named_bits_type};

use cms_fields::{Field, Sink, Stop, Tagged, Write};
use cms_tlv::{BIT_STRING, Bound, Fault, Input, Reason, Source, Span};

/// Where the contents of a BIT STRING with a named-bit list lie.
///
/// Only the primitive form is read. Unused bits may have any value, and zero bits at the end are not
/// part of the value (X.680, 22.7). In DER it is written with no zeros at its end, and the unused bits
/// are 0 (X.690, 11.2). E11, after its contents, if there are none, if they count more than 7 unused
/// bits, or if they count some and have no octet of bits.
#[derive(Drop)]
pub struct NamedBitsSpan {
    pub span: Span,
}

impl Write for NamedBitsSpan {
    ghost Value = { List ℕ };

    ghost grammar = { named_bits_type };

    ghost value = { bits_in };

    fn emit<S: Sink>(&self, kept: &[u8], sink: &mut S) -> Result<(), Stop> {
        Tagged::<BIT_STRING, _>(BitContents(self.span)).emit(kept, sink)
    }

    fn law() {}
}

/// The contents octets of a BIT STRING with a named-bit list. They are part of a field, and are never
/// read by themselves.
#[derive(Drop)]
struct BitContents(Span);

impl Write for BitContents {
    ghost Value = { List ℕ };

    ghost grammar = { record (unread IsNamedBits (λ v. Unit {0}) bytes_eq) {
      assembled = all_made (IsNamedBits der);
    } };

    ghost value = { λ k x. bits_of_contents (octets_in k x.0.start x.0.end) };

    fn emit<S: Sink>(&self, kept: &[u8], sink: &mut S) -> Result<(), Stop> {
        match significant(self.0.octets(kept)) {
            Some(octets) => octets.emit_contents(kept, sink),
            None => sink.octets(kept, &[0]),
        }
    }

    fn law() {}
}

impl Field for NamedBitsSpan {
    fn read<R: Input>(source: &mut Source<R>, bound: &Bound) -> Result<NamedBitsSpan, Fault> {
        let span = source.primitive(bound, BIT_STRING)?;
        if is_bit_string(source.bytes(span)) {
            Ok(NamedBitsSpan { span })
        } else {
            Err(source.refuse(Reason::BitsMalformed))
        }
    }

    fn begins_with(octet: u8) -> bool {
        octet == BIT_STRING
    }
}

/// A BIT STRING with a named-bit list, by its contents octets.
#[derive(Clone, Copy, Debug)]
pub struct NamedBits<'a> {
    octets: &'a [u8],
}

impl<'a> NamedBits<'a> {
    /// The BIT STRING whose contents `span` names in `kept`.
    pub fn new(span: &NamedBitsSpan, kept: &'a [u8]) -> NamedBits<'a>
        ensures { borrowed_bits result ≡ bits_in kept.now span.now }
    {
        NamedBits {
            octets: span.span.octets(kept),
        }
    }

    /// Whether the bit with this number is set. Bit 0 is the first.
    pub fn has(&self, number: u64) -> bool
        ensures { IsTrue result ↔ (slice_index (borrowed_bits self.now) number ≡ 1) }
    {
        match used(self.octets) {
            Some(octets) => is_set(octets.octet((number / 8) as usize), (number % 8) as u8),
            None => false,
        }
    }

    /// One more than the number of the last bit that is set; 0 if no bit is set; `u64::MAX` if the
    /// number would be larger.
    pub fn width(&self) -> u64
        ensures { result ≡ min (length (borrowed_bits self.now)) u64.MAX }
    {
        match significant(self.octets) {
            Some(octets) => (octets.front.len() as u64)
                .saturating_mul(8)
                .saturating_add(8 - u64::from(octets.last.trailing_zeros())),
            None => 0,
        }
    }
}

/// Octets of bits that end in `last`.
#[derive(Clone, Copy)]
struct BitOctets<'a> {
    front: &'a [u8],
    last: u8,
}

impl<'a> BitOctets<'a> {
    /// The octet with this number, or 0 after the last.
    fn octet(&self, number: usize) -> u8
        ensures { result ≡ slice_index (self.now.front.now ++ self.now.last ∷ []) number }
    {
        match self.front.get(number) {
            Some(octet) => *octet,
            None if number == self.front.len() => self.last,
            None => 0,
        }
    }

    /// Gives a sink these octets after the number of zeros at their end.
    fn emit_contents<S: Sink>(&self, kept: &[u8], sink: &mut S) -> Result<(), Stop>
        ensures ok { OnOk result (S.taking.puts kept.now sink.old (marked made
            (trailing_zeros w8 self.now.last ∷ (self.now.front.now ++ self.now.last ∷ [])))
            sink.new) }
        ensures stops { OnErr result (S.taking.stops (S.taking.count sink.old + length
            (trailing_zeros w8 self.now.last ∷ (self.now.front.now ++ self.now.last ∷ [])))) }
    {
        S::law();
        sink.octets(kept, &[self.last])?;
        sink.octets(kept, self.front)?;
        sink.octets(kept, &[self.last.trailing_zeros() as u8])
    }
}

/// Whether the bit of this number is set in an octet. Bit 0 is the highest.
fn is_set(octet: u8, number: u8) -> bool
    requires { number < 8 }
    ensures { IsTrue result ↔ (slice_index (bits_of octet) number ≡ 1) }
{
    (octet >> (7 - number)) % 2 == 1
}

/// Whether the octets are a count of unused bits, at most 7, and at least one more octet; or are a
/// single 0.
fn is_bit_string(octets: &[u8]) -> bool
    ensures { result ≡ is_bit_string octets.now }
{
    match octets {
        [] => false,
        [unused] => *unused == 0,
        [unused, ..] => *unused < 8,
    }
}

/// The octets of bits among the contents, of which the unused bits are 0; none if there are no octets.
/// Takes the same time however many there are.
fn used(contents: &[u8]) -> Option<BitOctets<'_>>
    ensures none { IsNone result → bits_of_contents contents.now ≡ [] }
    ensures some { IfSome result (λ s. bits_of_contents contents.now
        ≡ without_trailing_zeros (bits (s.front.now ++ s.last ∷ []))) }
{
    match contents {
        [unused, front @ .., last] if *unused < 8 => Some(BitOctets {
            front,
            last: *last >> *unused << *unused,
        }),
        _ => None,
    }
}

/// The octets of bits among the contents, without unused bits, up to the last octet that has a bit set,
/// which comes last; none if no bit is set.
fn significant(contents: &[u8]) -> Option<BitOctets<'_>>
    ensures none { IsNone result → bits_of_contents contents.now ≡ [] }
    ensures octets { IfSome result (λ s. AreOctets (s.front.now ++ s.last ∷ [])) }
    ensures some { IfSome result (λ s. (0 < s.last)
        × (bits_of_contents contents.now
        ≡ without_trailing_zeros (bits (s.front.now ++ s.last ∷ [])))) }
{
    match contents {
        [unused, octets @ ..] if *unused < 8 => significant_of(*unused, octets),
        _ => None,
    }
}

/// The significant bits of `octets`, of which the last `count` bits are unused.
fn significant_of(count: u8, octets: &[u8]) -> Option<BitOctets<'_>>
    requires { count < 8 }
    ensures none { IsNone result → used_bits count octets.now ≡ [] }
    ensures octets { IfSome result (λ s. AreOctets (s.front.now ++ s.last ∷ [])) }
    ensures some { IfSome result (λ s. (0 < s.last)
        × (used_bits count octets.now
        ≡ without_trailing_zeros (bits (s.front.now ++ s.last ∷ [])))) }
{
    let mut unused = count;
    let mut rest = octets;
    while let [front @ .., octet] = rest {
        let last = *octet >> unused << unused;
        if last != 0 {
            return Some(BitOctets { front, last });
        }
        unused = 0;
        rest = front;
    }
    None
}
