//! Headers: identifiers and lengths, as they are read (X.690, 8.1.2 and 8.1.3).
//!
//! A peeked identifier goes before the test of the end, so that `30 01 06`, peeked, is E6 at 3 and not
//! a missing element. A missing field is E7 by `enter` and `primitive`, which test the end first.
ghost use Rattle.std.specs.Prelude.{◌≡◌, ◌≤◌, ◌&&◌};
ghost use Rattle.cms_tlv.specs.Reading.{is_shortest, is_zeros};

use crate::bound::{Bound, Header};
use crate::fault::{Fault, Reason};
use crate::found::HeaderIn;
use crate::input::Input;
use crate::source::Source;

impl<R: Input> Source<R> {
    ghost use Rattle.std.specs.Prelude.{◌≡◌, ◌≤◌, ◌<◌, ◌+◌, None, Some, false, length, IfOk, IfErr, OnOk, OnErr, IfSome};
    ghost use Rattle.cms_tlv.specs.State.{Answers, Succeeds, KeepsNoneAhead, KeepsNoMoreAhead, Progresses, FaultIsSticky, position};
    ghost use Rattle.cms_tlv.specs.Refines.{Refines, plain};
    ghost use Rattle.cms_tlv.specs.Clauses.{Found, Consumed, Faults, FitsLimit, IsWithin, Peeks, SpellsHeader, frame_by, end_of};
    ghost use Rattle.cms_tlv.specs.internal.Found.{HasHeaderOf, WantsMemory};
    ghost use Rattle.cms_tlv.specs.RefusalReasons.{Tied};
    ghost use Rattle.cms_tlv.specs.Reading.{is_over, tag_of, number_of, definite_length_of, long_of, indefinite_length_of, after_first, rest_of_tag, ends_here, header_of, expected_of, end_in, peek_of, close_of};

    /// The next identifier octet, which is left for the next header; none at the end of `bound`. Under
    /// an indefinite bound the end is at an octet 00, and `close` takes the rest of it.
    ///
    /// E6 at the innermost definite end, else E2 at the limit, else E1 at the end of the input.
    pub fn peek(&mut self, bound: &Bound) -> Result<Option<u8>, Fault>
        ensures sticky { FaultIsSticky self.old self.new result }
        ensures accounted { self.old.fault ≡ None → Answers self.old self.new result }
        ensures ok { OnOk result (Succeeds self.old self.new) }
        ensures kept { self.old.fault ≡ None → OnErr result (KeepsNoMoreAhead self.old self.new) }
        ensures refines { self.old.fault ≡ None
            → Refines plain (peek_of bound.now) self.old self.new result }
        ensures found { IfOk result (Peeks bound.now self.old self.new) }
        ensures faults { self.old.fault ≡ None
            → IfErr result (Faults (frame_by false) bound.now self.old self.new) }
        ensures reasons { self.old.fault ≡ None → IfErr result (Tied self.old self.new) }
        ensures ahead { IfOk result (λ o. IfSome o (λ b. (self.new.ahead ≡ Some b)
            × (length self.new.done < self.new.limit))) }
        ensures at_end { IfOk result (λ o. o ≡ None
            → bound.now.indefinite ≡ false → self.new ≡ self.old) }
    {
        self.standing()?;
        self.peek_without_fault(bound)
    }

    /// The next header, up to and including its last length octet (X.690, 8.1.2 and 8.1.3).
    ///
    /// Faults in their order: E7 as soon as an octet shows that the identifier is malformed; E3, E4 and
    /// E5 after the first length octet; E6, E2 and, under a strict bound, E15 after the last length
    /// octet. When an octet is needed: E6 at the innermost definite end, else E2 at the limit, else E1
    /// at the end of the input.
    pub fn header(&mut self, bound: &Bound) -> Result<Header, Fault>
        ensures sticky { FaultIsSticky self.old self.new result }
        ensures accounted { self.old.fault ≡ None → Answers self.old self.new result }
        ensures ok { OnOk result (Progresses self.old self.new) }
        ensures kept { self.old.fault ≡ None → OnErr result (KeepsNoMoreAhead self.old self.new) }
        ensures refines { self.old.fault ≡ None
            → Refines plain (header_of bound.now) self.old self.new result }
        ensures found { IfOk result
            (Found (SpellsHeader bound.now self.new.limit (length self.new.done))
            self.old self.new) }
        ensures faults { self.old.fault ≡ None
            → IfErr result (Faults (frame_by bound.now.strict) bound.now self.old self.new) }
        ensures reasons { self.old.fault ≡ None → IfErr result (Tied self.old self.new) }
        ensures clear { OnOk result (self.new.ahead ≡ None) }
        ensures within { OnOk result (IsWithin bound.now self.new) }
        ensures room { IfOk result (FitsLimit self.new) }
    {
        self.standing()?;
        self.header_without_fault(bound)
    }

    /// Closes an element: takes nothing at a definite end, and `00 00` at an indefinite one (X.690,
    /// 8.1.5).
    ///
    /// E7 after the header of another element; the faults of that header come first.
    pub fn close(&mut self, bound: Bound) -> Result<(), Fault>
        ensures sticky { FaultIsSticky self.old self.new result }
        ensures accounted { self.old.fault ≡ None → Answers self.old self.new result }
        ensures ok { OnOk result (Succeeds self.old self.new) }
        ensures clear { OnOk result ((bound.indefinite ≡ false → self.old.ahead ≡ None)
            → self.new.ahead ≡ None) }
        ensures kept { self.old.fault ≡ None → OnErr result (KeepsNoMoreAhead self.old self.new) }
        ensures refines { self.old.fault ≡ None
            → Refines plain (close_of bound) self.old self.new result }
        ensures found { OnOk result
            (Consumed (end_of bound (length self.old.done)) self.old self.new tt) }
        ensures faults { self.old.fault ≡ None
            → IfErr result (Faults (end_of bound (length self.old.done)) bound self.old self.new) }
        ensures reasons { self.old.fault ≡ None → IfErr result (Tied self.old self.new) }
    {
        self.standing()?;
        self.close_without_fault(&bound)
    }

    fn close_without_fault(&mut self, bound: &Bound) -> Result<(), Fault>
        requires { self.old.fault ≡ None }
        ensures still_clear { self.old.ahead ≡ None → self.new.ahead ≡ None }
        ensures none_kept { KeepsNoneAhead self.old self.new }
        ensures clear { OnOk result ((bound.now.indefinite ≡ false → self.old.ahead ≡ None)
            → self.new.ahead ≡ None) }
        ensures refines { Refines plain (close_of bound.now) self.old self.new result }
    {
        if self.ends(bound) {
            return Ok(());
        }
        self.end_of_contents(bound)
    }

    fn peek_without_fault(&mut self, bound: &Bound) -> Result<Option<u8>, Fault>
        requires sound { self.old.fault ≡ None }
        ensures none_kept { KeepsNoneAhead self.old self.new }
        ensures still { OnErr result ((self.new.ahead ≡ self.old.ahead)
            × (self.new.done ≡ self.old.done)) }
        ensures ahead { IfOk result (λ o. IfSome o (λ b. (self.new.ahead ≡ Some b)
            × (length self.new.done < self.new.limit))) }
        ensures at_end { IfOk result (λ o. o ≡ None
            → bound.now.indefinite ≡ false → self.new ≡ self.old) }
        ensures found { IfOk result (Peeks bound.now self.old self.new) }
        ensures refines { Refines plain (peek_of bound.now) self.old self.new result }
    {
        if self.ends(bound) {
            return Ok(None);
        }
        let octet = self.look(bound.end)?;
        if bound.indefinite && octet == 0 {
            return Ok(None);
        }
        Ok(Some(octet))
    }

    /// Takes the two octets `00 00`.
    fn end_of_contents(&mut self, bound: &Bound) -> Result<(), Fault>
        requires sound { self.old.fault ≡ None }
        ensures clear { OnOk result (self.new.ahead ≡ None) }
        ensures still_clear { self.old.ahead ≡ None → self.new.ahead ≡ None }
        ensures none_kept { KeepsNoneAhead self.old self.new }
        ensures refines { Refines plain (end_in bound.now) self.old self.new result }
    {
        let header = self.expected_header(bound)?;
        if ends_contents(bound, &header) {
            Ok(())
        } else {
            Err(self.refused(Reason::UnexpectedElement))
        }
    }

    /// Takes the next header if it is all at hand, its identifier is one octet, its length is the shortest,
    /// in at most three octets, and there is room for its contents; else takes nothing, and returns none.
    #[inline(always)]
    pub(crate) fn header_at_hand(&mut self, bound: &Bound) -> Result<Option<Header>, Fault>
        requires sound { self.old.fault ≡ None }
        ensures some { IfOk result (λ o. IfSome o (HasHeaderOf bound.now self.old self.new)) }
        ensures none { IfOk result (λ o. o ≡ None → self.new ≡ self.old) }
        ensures err { IfErr result (WantsMemory self.old self.new) }
    {
        let seek = HeaderIn {
            room: self.room(bound),
        };
        let Some(found) = self.take_found(&seek)? else {
            return Ok(None);
        };
        let len = found.len as u64;
        Ok(Some(Header {
            ident: found.ident,
            len: Some(len),
            inner: Bound {
                end: Some(self.consumed() + len),
                indefinite: false,
                ..*bound
            },
            shortest: true,
        }))
    }

    /// The next header. It is missing if the definite end of `bound` is here.
    #[inline(always)]
    pub(crate) fn expected_header(&mut self, bound: &Bound) -> Result<Header, Fault>
        requires sound { self.old.fault ≡ None }
        ensures clear { OnOk result (self.new.ahead ≡ None) }
        ensures still_clear { self.old.ahead ≡ None → self.new.ahead ≡ None }
        ensures none_kept { KeepsNoneAhead self.old self.new }
        ensures moved { OnOk result (length self.old.done < length self.new.done) }
        ensures room { IfOk result (FitsLimit self.new) }
        ensures refines { Refines plain (expected_of bound.now) self.old self.new result }
    {
        if let Some(header) = self.header_at_hand(bound)? {
            return Ok(header);
        }
        self.expected_by_octets(bound)
    }

    /// `expected_header`, but the header is read octet by octet.
    pub(crate) fn expected_by_octets(&mut self, bound: &Bound) -> Result<Header, Fault>
        requires sound { self.old.fault ≡ None }
        ensures clear { OnOk result (self.new.ahead ≡ None) }
        ensures still_clear { self.old.ahead ≡ None → self.new.ahead ≡ None }
        ensures none_kept { KeepsNoneAhead self.old self.new }
        ensures moved { OnOk result (length self.old.done < length self.new.done) }
        ensures room { IfOk result (FitsLimit self.new) }
        ensures refines { Refines plain (expected_of bound.now) self.old self.new result }
    {
        if self.ends(bound) {
            return Err(self.refused(Reason::UnexpectedElement));
        }
        self.header_without_fault(bound)
    }

    /// Whether the definite end of `bound` is here.
    pub(crate) fn ends(&self, bound: &Bound) -> bool
        ensures { result ≡ ends_here bound.now (length self.now.done) }
    {
        match bound.end {
            Some(end) => !bound.indefinite && self.consumed() == end,
            None => false,
        }
    }

    #[inline(always)]
    pub(crate) fn header_without_fault(&mut self, bound: &Bound) -> Result<Header, Fault>
        requires sound { self.old.fault ≡ None }
        ensures clear { OnOk result (self.new.ahead ≡ None) }
        ensures still_clear { self.old.ahead ≡ None → self.new.ahead ≡ None }
        ensures none_kept { KeepsNoneAhead self.old self.new }
        ensures moved { OnOk result (length self.old.done < length self.new.done) }
        ensures room { IfOk result (FitsLimit self.new) }
        ensures refines { Refines plain (header_of bound.now) self.old self.new result }
    {
        let ident = self.next(bound.end)?;
        self.rest_of_identifier(bound.end, ident)?;
        let first = self.next(bound.end)?;
        self.length(bound, ident, first)
    }

    /// What follows the first identifier octet.
    #[inline(always)]
    fn rest_of_identifier(&mut self, end: Option<u64>, ident: u8) -> Result<(), Fault>
        requires sound { self.old.fault ≡ None }
        requires clear { self.old.ahead ≡ None }
        ensures clear { self.new.ahead ≡ None }
        ensures refines { Refines plain (rest_of_tag end ident) self.old self.new result }
    {
        if ident % 32 == 31 {
            return self.tag_number(end);
        }
        Ok(())
    }

    /// The octets of a high tag number: at most four, the first not 80, the number at least 31.
    fn tag_number(&mut self, end: Option<u64>) -> Result<(), Fault>
        requires sound { self.old.fault ≡ None }
        ensures clear { OnOk result (self.new.ahead ≡ None) }
        ensures still_clear { self.old.ahead ≡ None → self.new.ahead ≡ None }
        ensures refines { Refines plain (tag_of end 4 0) self.old self.new result }
    {
        let mut number = 0u64;
        for _ in 0..4u8 {
            let octet = self.next(end)?;
            if octet < 0x80 {
                if number * 128 + (octet as u64) < 31 {
                    return Err(self.refused(Reason::UnexpectedElement));
                }
                return Ok(());
            }
            if octet == 0x80 && number == 0 {
                return Err(self.refused(Reason::UnexpectedElement));
            }
            number = number * 128 + (octet - 0x80) as u64;
        }
        Err(self.refused(Reason::UnexpectedElement))
    }

    /// The length that begins with the octet `first`.
    #[inline(always)]
    fn length(&mut self, bound: &Bound, ident: u8, first: u8) -> Result<Header, Fault>
        requires sound { self.old.fault ≡ None }
        requires clear { self.old.ahead ≡ None }
        ensures clear { self.new.ahead ≡ None }
        ensures room { IfOk result (FitsLimit self.new) }
        ensures refines { Refines plain (after_first bound.now ident first)
            self.old self.new result }
    {
        if first < 0x80 {
            self.definite(bound, ident, first as u64, true)
        } else if first == 0x80 {
            self.indefinite(bound, ident)
        } else if first == 0xff {
            Err(self.refused(Reason::LengthReserved))
        } else if first > 0x88 {
            Err(self.refused(Reason::LengthTooLong))
        } else {
            self.long_length(bound, ident, first - 0x80)
        }
    }

    /// A length in `count` octets.
    fn long_length(&mut self, bound: &Bound, ident: u8, count: u8) -> Result<Header, Fault>
        requires sound { self.old.fault ≡ None }
        requires clear { self.old.ahead ≡ None }
        requires some { 1 ≤ count }
        requires few { count ≤ 8 }
        ensures clear { self.new.ahead ≡ None }
        ensures room { IfOk result (FitsLimit self.new) }
        ensures refines { Refines plain (long_of bound.now ident count) self.old self.new result }
    {
        let n = self.number(bound.end, count)?;
        self.definite(bound, ident, n, fewest(count, n))
    }

    /// A number in `count` octets, the most significant first.
    fn number(&mut self, end: Option<u64>, count: u8) -> Result<u64, Fault>
        requires sound { self.old.fault ≡ None }
        requires clear { self.old.ahead ≡ None }
        requires few { count ≤ 8 }
        ensures clear { self.new.ahead ≡ None }
        ensures refines { Refines plain (number_of end count 0) self.old self.new result }
    {
        let mut number = 0u64;
        for _ in 0..count {
            let octet = self.next(end)?;
            number = 256 * number + octet as u64;
        }
        Ok(number)
    }

    #[inline(always)]
    fn definite(
        &mut self,
        bound: &Bound,
        ident: u8,
        n: u64,
        shortest: bool,
    ) -> Result<Header, Fault>
        requires sound { self.old.fault ≡ None }
        requires clear { self.old.ahead ≡ None }
        ensures clear { self.new.ahead ≡ None }
        ensures room { IfOk result (FitsLimit self.new) }
        ensures refines { Refines plain (definite_length_of bound.now ident shortest n)
            self.old self.new result }
    {
        if self.passes(bound.end, n) {
            return Err(self.refused(Reason::Overrun));
        }
        let at = self.consumed();
        if n > self.limit() - at {
            return Err(self.refused(Reason::TooLarge));
        }
        if bound.strict && !shortest {
            return Err(self.refused(Reason::SignedAttrsNotDer));
        }
        Ok(Header {
            ident,
            len: Some(n),
            inner: Bound {
                end: Some(at + n),
                indefinite: false,
                ..*bound
            },
            shortest,
        })
    }

    /// Whether `n` octets more pass the end.
    fn passes(&self, end: Option<u64>, n: u64) -> bool
        ensures { result ≡ is_over end (length self.now.done) n }
    {
        let at = self.consumed();
        match end {
            Some(end) => at > end || n > end - at,
            None => false,
        }
    }

    fn indefinite(&mut self, bound: &Bound, ident: u8) -> Result<Header, Fault>
        requires sound { self.old.fault ≡ None }
        requires clear { self.old.ahead ≡ None }
        ensures clear { self.new.ahead ≡ None }
        ensures room { IfOk result (FitsLimit self.new) }
        ensures refines { Refines plain (indefinite_length_of bound.now ident)
            self.old self.new result }
    {
        if ident / 32 % 2 == 0 {
            return Err(self.refused(Reason::IndefinitePrimitive));
        }
        if bound.strict {
            return Err(self.refused(Reason::SignedAttrsNotDer));
        }
        Ok(Header {
            ident,
            len: None,
            inner: Bound {
                indefinite: true,
                ..*bound
            },
            shortest: false,
        })
    }
}

/// Whether the header is the two octets `00 00`, at a place where these may end contents.
fn ends_contents(bound: &Bound, header: &Header) -> bool
    ensures { result ≡ (bound.now.indefinite && is_zeros header.now) }
{
    bound.indefinite && header.ident == 0 && header.shortest && header.len == Some(0)
}

/// Whether the length `n` needs at least `count` octets after the first one.
fn fewest(count: u8, n: u64) -> bool
    requires some { 1 ≤ count }
    requires few { count ≤ 8 }
    ensures { result ≡ is_shortest count n }
{
    let mut least = 1u64;
    for _ in 1..count {
        least *= 256;
    }
    n >= 0x80 && n >= least
}
