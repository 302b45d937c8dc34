//! Opaque elements: kept octet for octet, with the framing of DER.
//!
//! Elements that are not at hand are read by recursion, with the levels left as its measure: a stack of
//! ends would be as fast, and its invariant would say the definition again. A length that is not the
//! shortest is E15 inside signed attributes, at every depth, since E15 is judged before E13.
ghost use Rattle.std.specs.Prelude.{◌≡◌, ◌%◌, ◌/◌, ◌==◌};
ghost use Rattle.cms_tlv.specs.Reading.{framing_fault, is_framed, has_its_form};

use crate::bound::{Bound, Header};
use crate::fault::{Fault, Reason};
use crate::found::ElementIn;
use crate::input::Input;
use crate::source::Source;
use crate::span::Span;
use crate::whole::WholeElements;

/// How many elements may be nested, the outermost counted.
pub(crate) const MAX_LEVELS: u8 = 64;

impl<R: Input> Source<R> {
    ghost use Rattle.std.specs.Prelude.{◌≡◌, ◌<◌, ◌≤◌, ◌+◌, true, false, None, length, IfOk, IfErr, OnOk, OnErr, IfSome};
    ghost use Rattle.cms_tlv.specs.Spans.{LiesIn};
    ghost use Rattle.cms_tlv.specs.State.{Answers, KeepsNoneAhead, KeepsNoMoreAhead, LacksMemory, Progresses, FaultIsSticky, TakesAccepted, position};
    ghost use Rattle.cms_tlv.specs.Refines.{Refines, plain, seen};
    ghost use Rattle.cms_tlv.specs.Clauses.{Found, Faults, IsWithin, FitsLimit};
    ghost use Rattle.cms_tlv.specs.Opaque.{opaque};
    ghost use Rattle.cms_tlv.specs.internal.Whole.{FitIn};
    ghost use Rattle.cms_tlv.specs.internal.Found.{HasElementOf, WantsMemory};
    ghost use Rattle.cms_tlv.specs.RefusalReasons.{TiedLast};
    ghost use Rattle.cms_tlv.specs.Reading.{to_end_of, framed_header_of, framed_of, opaque_of};

    /// The next element, octet for octet, whatever its identifier is. In its header and in the headers
    /// of the elements inside it, each length is definite and in the fewest octets, no identifier is
    /// 00, and a universal identifier has the form of its type. At most 64 elements are nested, the
    /// outermost counted.
    ///
    /// E7 if the end of `bound` is here, as for `enter`. After each header, whose own faults come
    /// first: E13 if its framing is not that of DER, and E14 at depth 65.
    pub fn opaque(&mut self, bound: &Bound) -> Result<Span, Fault>
        ensures sticky { FaultIsSticky self.old self.new result }
        ensures accounted { self.old.fault ≡ None → Answers self.old self.new result }
        ensures ok { OnOk result (Progresses self.old self.new) }
        ensures clear { OnOk result (self.new.ahead ≡ None) }
        ensures within { OnOk result (IsWithin bound.now self.new) }
        ensures kept { self.old.fault ≡ None → OnErr result (KeepsNoMoreAhead self.old self.new) }
        ensures span { IfOk result (λ s. LiesIn s self.new) }
        ensures refines { self.old.fault ≡ None
            → Refines seen (opaque_of bound.now) self.old self.new result }
        ensures found { IfOk result (λ s. Found opaque self.old self.new (seen self.new s)) }
        ensures faults { self.old.fault ≡ None
            → IfErr result (Faults opaque bound.now self.old self.new) }
        ensures reasons { self.old.fault ≡ None → IfErr result (TiedLast true self.old self.new) }
    {
        self.standing()?;
        self.opaque_without_fault(bound)
    }

    fn opaque_without_fault(&mut self, bound: &Bound) -> Result<Span, Fault>
        requires sound { self.old.fault ≡ None }
        ensures clear { OnOk result (self.new.ahead ≡ None) }
        ensures still_clear { self.old.ahead ≡ None → self.new.ahead ≡ None }
        ensures none_kept { KeepsNoneAhead self.old self.new }
        ensures moved { OnOk result (length self.old.done < length self.new.done) }
        ensures span { IfOk result (λ s. LiesIn s self.new) }
        ensures refines { Refines seen (opaque_of bound.now) self.old self.new result }
    {
        let start = self.consumed() as usize;
        self.element(bound)?;
        Ok(Span {
            start,
            end: self.consumed() as usize,
        })
    }

    /// Reads an element; at most `MAX_LEVELS` elements may be nested, itself counted.
    fn element(&mut self, bound: &Bound) -> Result<(), Fault>
        requires sound { self.old.fault ≡ None }
        ensures clear { OnOk result (self.new.ahead ≡ None) }
        ensures still_clear { self.old.ahead ≡ None → self.new.ahead ≡ None }
        ensures none_kept { KeepsNoneAhead self.old self.new }
        ensures moved { OnOk result (length self.old.done < length self.new.done) }
        ensures refines { Refines plain (framed_of 64 bound.now) self.old self.new result }
    {
        if self.element_at_hand(bound)? {
            return Ok(());
        }
        self.opaque_element(bound, MAX_LEVELS)
    }

    /// Consumes the next element, if it is all at hand and fits. Says whether it was.
    fn element_at_hand(&mut self, bound: &Bound) -> Result<bool, Fault>
        requires sound { self.old.fault ≡ None }
        ensures yes { IfOk result (λ b. b ≡ true → HasElementOf bound.now self.old self.new) }
        ensures no { IfOk result (λ b. b ≡ false → self.new ≡ self.old) }
        ensures err { IfErr result (WantsMemory self.old self.new) }
    {
        let seek = ElementIn {
            room: self.room(bound),
        };
        match self.take_found(&seek)? {
            Some(_) => Ok(true),
            None => Ok(false),
        }
    }

    /// Reads an element; at most `levels` elements may be nested, itself counted.
    #[cycle(opaque_element)]
    fn opaque_element(&mut self, bound: &Bound, levels: u8) -> Result<(), Fault>
        requires sound { self.old.fault ≡ None }
        requires few { levels ≤ 64 }
        ensures clear { OnOk result (self.new.ahead ≡ None) }
        ensures still_clear { self.old.ahead ≡ None → self.new.ahead ≡ None }
        ensures none_kept { KeepsNoneAhead self.old self.new }
        ensures moved { OnOk result (length self.old.done < length self.new.done) }
        ensures before_limit { OnOk result (length self.old.done < self.old.limit) }
        ensures refines { Refines plain (framed_of levels bound.now) self.old self.new result }
    {
        let header = self.framed_header(bound)?;
        if levels == 0 {
            return Err(self.refused(Reason::OpaqueTooDeep));
        }
        match header.len {
            Some(n) if !is_constructed(header.ident) => {
                self.contents_without_fault(n)?;
                Ok(())
            }
            _ => self.opaque_elements(&header.inner, levels - 1),
        }
    }

    /// Reads elements up to the end; at most `levels` of them may be nested.
    #[cycle(opaque_element)]
    fn opaque_elements(&mut self, bound: &Bound, levels: u8) -> Result<(), Fault>
        requires sound { self.old.fault ≡ None }
        requires clear { self.old.ahead ≡ None }
        requires few { levels ≤ 64 }
        ensures clear { self.new.ahead ≡ None }
        ensures grown { OnOk result (length self.old.done ≤ length self.new.done) }
        ensures refines { Refines plain (to_end_of (framed_of levels) bound.now)
            self.old self.new result }
    {
        while !self.ends(bound) {
            if self.whole_at_hand(bound, levels)? == 0 {
                self.opaque_element(bound, levels)?;
            }
        }
        Ok(())
    }

    /// Takes whole elements that the reader has at hand. Returns how many octets they have.
    fn whole_at_hand(&mut self, bound: &Bound, levels: u8) -> Result<usize, Fault>
        requires sound { self.old.fault ≡ None }
        requires clear { self.old.ahead ≡ None }
        ensures clear { self.new.ahead ≡ None }
        ensures ok { IfOk result
            (TakesAccepted (FitIn bound.now.end self.old levels) self.old self.new) }
        ensures err { IfErr result (LacksMemory self.old self.new) }
    {
        let Some(end) = bound.end else {
            return Ok(0);
        };
        let whole = WholeElements {
            room: end.min(self.limit()).saturating_sub(self.consumed()) as usize,
            levels,
        };
        self.take_prefix(&whole)
    }

    #[inline(always)]
    fn framed_header(&mut self, bound: &Bound) -> Result<Header, Fault>
        requires sound { self.old.fault ≡ None }
        ensures clear { OnOk result (self.new.ahead ≡ None) }
        ensures still_clear { self.old.ahead ≡ None → self.new.ahead ≡ None }
        ensures none_kept { KeepsNoneAhead self.old self.new }
        ensures moved { OnOk result (length self.old.done < length self.new.done) }
        ensures room { IfOk result (FitsLimit self.new) }
        ensures refines { Refines plain (framed_header_of bound.now) self.old self.new result }
    {
        let header = self.expected_header(bound)?;
        if is_framed(&header) {
            return Ok(header);
        }
        Err(self.refused(framing_fault(bound, header.ident)))
    }
}

/// Why an element with another framing is refused: at a place where `00 00` may end contents, the
/// identifier 00 is not that of an element.
fn framing_fault(bound: &Bound, ident: u8) -> Reason
    ensures { result ≡ framing_fault bound.now ident }
{
    if bound.indefinite && ident == 0 {
        Reason::UnexpectedElement
    } else {
        Reason::OpaqueNotDer
    }
}

/// Whether an opaque element may have this header.
fn is_framed(header: &Header) -> bool
    ensures { result ≡ is_framed header.now }
{
    header.shortest && header.ident != 0 && has_its_form(header.ident)
}

/// Whether a universal identifier has the form that its type has: 1 to 6, 10, 12, 18 to 28 and 30
/// are primitive, and 16 and 17 constructed.
pub(crate) fn has_its_form(ident: u8) -> bool
    ensures { result ≡ has_its_form ident }
{
    if is_constructed(ident) {
        ident >= 64 || !matches!(ident % 32, 1..=6 | 10 | 12 | 18..=28 | 30)
    } else {
        ident != 16 && ident != 17
    }
}

/// Bit 6 of an identifier's first octet (X.690, 8.1.2.5).
pub(crate) fn is_constructed(ident: u8) -> bool
    ensures { result ≡ (ident / 32 % 2 == 1) }
{
    ident / 32 % 2 == 1
}
