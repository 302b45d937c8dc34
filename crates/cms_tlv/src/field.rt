//! Fields that must be there.
ghost use Rattle.std.specs.Prelude.{◌≡◌};

use crate::bound::{Bound, Header};
use crate::fault::{Fault, Reason};
use crate::found::PrimitiveIn;
use crate::input::Input;
use crate::source::Source;
use crate::span::Span;

impl<R: Input> Source<R> {
    ghost use Rattle.std.specs.Prelude.{◌≡◌, ◌<◌, None, length, IfOk, IfErr, IfSome, OnOk, OnErr};
    ghost use Rattle.cms_tlv.specs.internal.Found.{HasPrimitiveOf, WantsMemory};
    ghost use Rattle.cms_tlv.specs.Spans.{LiesIn};
    ghost use Rattle.cms_tlv.specs.State.{Answers, KeepsNoneAhead, KeepsNoMoreAhead, Progresses, FaultIsSticky};
    ghost use Rattle.cms_tlv.specs.Clauses.{Found, Faults, IsWithin, Enters, Contains, frame_of};
    ghost use Rattle.cms_tlv.specs.RefusalReasons.{Tied};
    ghost use Rattle.cms_tlv.specs.Refines.{Refines, plain, seen};
    ghost use Rattle.cms_tlv.specs.Reading.{enter_of, enter_next, primitive_of};

    /// Takes the header of an element with the identifier octet `ident`, and returns where its
    /// contents end (X.690, 8.1.2 and 8.1.3).
    ///
    /// E7 if the end of `bound` is here: nothing more is taken at a definite end, and `00 00` is taken
    /// first at an indefinite end. E7 also after the header of another element; the faults of that
    /// header come first.
    pub fn enter(&mut self, bound: &Bound, ident: u8) -> Result<Bound, Fault>
        ensures sticky { FaultIsSticky self.old self.new result }
        ensures accounted { self.old.fault ≡ None → Answers self.old self.new result }
        ensures ok { OnOk result (Progresses self.old self.new) }
        ensures clear { OnOk result (self.new.ahead ≡ None) }
        ensures within { OnOk result (IsWithin bound.now self.new) }
        ensures kept { self.old.fault ≡ None → OnErr result (KeepsNoMoreAhead self.old self.new) }
        ensures refines { self.old.fault ≡ None
            → Refines plain (enter_of ident bound.now) self.old self.new result }
        ensures found { IfOk result
            (Found (Enters bound.now ident self.new.limit (length self.new.done))
            self.old self.new) }
        ensures faults { self.old.fault ≡ None
            → IfErr result (Faults (frame_of ident bound.now.strict) bound.now self.old self.new) }
        ensures reasons { self.old.fault ≡ None → IfErr result (Tied self.old self.new) }
    {
        self.standing()?;
        self.enter_without_fault(bound, ident)
    }

    fn enter_without_fault(&mut self, bound: &Bound, ident: u8) -> Result<Bound, Fault>
        requires sound { self.old.fault ≡ None }
        ensures clear { OnOk result (self.new.ahead ≡ None) }
        ensures still_clear { self.old.ahead ≡ None → self.new.ahead ≡ None }
        ensures none_kept { KeepsNoneAhead self.old self.new }
        ensures moved { OnOk result (length self.old.done < length self.new.done) }
        ensures refines { Refines plain (enter_of ident bound.now) self.old self.new result }
    {
        if let Some(header) = self.header_at_hand(bound)? {
            return self.inner_of(&header, ident);
        }
        self.enter_by_octets(bound, ident)
    }

    /// `enter`, but the header is read octet by octet.
    fn enter_by_octets(&mut self, bound: &Bound, ident: u8) -> Result<Bound, Fault>
        requires sound { self.old.fault ≡ None }
        ensures clear { OnOk result (self.new.ahead ≡ None) }
        ensures still_clear { self.old.ahead ≡ None → self.new.ahead ≡ None }
        ensures none_kept { KeepsNoneAhead self.old self.new }
        ensures moved { OnOk result (length self.old.done < length self.new.done) }
        ensures refines { Refines plain (enter_of ident bound.now) self.old self.new result }
    {
        let header = self.expected_by_octets(bound)?;
        self.inner_of(&header, ident)
    }

    /// Returns where the contents after `header` end, if its identifier octet is `ident`.
    #[inline(always)]
    fn inner_of(&mut self, header: &Header, ident: u8) -> Result<Bound, Fault>
        requires sound { self.old.fault ≡ None }
        ensures same { (self.new.done ≡ self.old.done) × (self.new.ahead ≡ self.old.ahead) }
        ensures refines { Refines plain (enter_next ident header.now) self.old self.new result }
    {
        if header.ident != ident {
            return Err(self.refused(Reason::UnexpectedElement));
        }
        Ok(header.inner)
    }

    /// The contents of an element of definite length with the identifier octet `ident`.
    ///
    /// Its faults are those of `enter`; E7 also after a header of indefinite length; then those of
    /// `contents`.
    pub fn primitive(&mut self, bound: &Bound, ident: u8) -> Result<Span, Fault>
        ensures sticky { FaultIsSticky self.old self.new result }
        ensures accounted { self.old.fault ≡ None → Answers self.old self.new result }
        ensures ok { OnOk result (Progresses self.old self.new) }
        ensures clear { OnOk result (self.new.ahead ≡ None) }
        ensures within { OnOk result (IsWithin bound.now self.new) }
        ensures kept { self.old.fault ≡ None → OnErr result (KeepsNoMoreAhead self.old self.new) }
        ensures span { IfOk result (λ s. LiesIn s self.new) }
        ensures refines { self.old.fault ≡ None
            → Refines seen (primitive_of ident bound.now) self.old self.new result }
        ensures found { IfOk result (λ s. Found (Contains ident bound.now.strict)
            self.old self.new (seen self.new s)) }
        ensures faults { self.old.fault ≡ None
            → IfErr result (Faults (Contains ident bound.now.strict) bound.now self.old self.new) }
        ensures reasons { self.old.fault ≡ None → IfErr result (Tied self.old self.new) }
    {
        self.standing()?;
        self.primitive_without_fault(bound, ident)
    }

    fn primitive_without_fault(&mut self, bound: &Bound, ident: u8) -> Result<Span, Fault>
        requires sound { self.old.fault ≡ None }
        ensures clear { OnOk result (self.new.ahead ≡ None) }
        ensures still_clear { self.old.ahead ≡ None → self.new.ahead ≡ None }
        ensures none_kept { KeepsNoneAhead self.old self.new }
        ensures moved { OnOk result (length self.old.done < length self.new.done) }
        ensures span { IfOk result (λ s. LiesIn s self.new) }
        ensures refines { Refines seen (primitive_of ident bound.now) self.old self.new result }
    {
        if let Some(span) = self.primitive_at_hand(bound, ident)? {
            return Ok(span);
        }
        self.primitive_after_header(bound, ident)
    }

    /// Takes the next element if it is all at hand, its identifier octet is `ident`, and its length is the
    /// shortest, in at most three octets; else takes nothing, and returns none.
    #[inline(always)]
    fn primitive_at_hand(&mut self, bound: &Bound, ident: u8) -> Result<Option<Span>, Fault>
        requires sound { self.old.fault ≡ None }
        ensures some { IfOk result
            (λ o. IfSome o (HasPrimitiveOf ident bound.now self.old self.new)) }
        ensures none { IfOk result (λ o. o ≡ None → self.new ≡ self.old) }
        ensures err { IfErr result (WantsMemory self.old self.new) }
    {
        let seek = PrimitiveIn {
            room: self.room(bound),
            ident,
        };
        let Some(found) = self.take_found(&seek)? else {
            return Ok(None);
        };
        let end = self.consumed() as usize;
        Ok(Some(Span {
            start: end - found.len,
            end,
        }))
    }

    /// `primitive`, but the header is read before its contents.
    fn primitive_after_header(&mut self, bound: &Bound, ident: u8) -> Result<Span, Fault>
        requires sound { self.old.fault ≡ None }
        ensures clear { OnOk result (self.new.ahead ≡ None) }
        ensures still_clear { self.old.ahead ≡ None → self.new.ahead ≡ None }
        ensures none_kept { KeepsNoneAhead self.old self.new }
        ensures moved { OnOk result (length self.old.done < length self.new.done) }
        ensures span { IfOk result (λ s. LiesIn s self.new) }
        ensures refines { Refines seen (primitive_of ident bound.now) self.old self.new result }
    {
        let header = self.expected_header(bound)?;
        if header.ident != ident {
            return Err(self.refused(Reason::UnexpectedElement));
        }
        match header.len {
            Some(n) => self.contents_without_fault(n),
            None => Err(self.refused(Reason::UnexpectedElement)),
        }
    }
}
