//! Contents, taken in pieces.
//!
//! A piece is read straight into the kept octets: the room is filled with zeros, the reader writes into
//! it, and what it did not give is cut off. A separate buffer would be cleared at each call, which
//! costs more than the contents of most elements.
ghost use Rattle.std.specs.Prelude.{◌≡◌};

use crate::fault::Fault;
use crate::input::Input;
use crate::source::Source;
use crate::span::Span;

impl<R: Input> Source<R> {
    ghost use Rattle.std.specs.Prelude.{◌≡◌, ◌<◌, ◌≤◌, ◌+◌, None, length, IfOk, IfErr, OnOk, OnErr};
    ghost use Rattle.cms_tlv.specs.Refines.{Refines, seen};
    ghost use Rattle.cms_tlv.specs.Clauses.{Found, EndsEarly, counted};
    ghost use Rattle.cms_tlv.specs.Reading.{octets_of};
    ghost use Rattle.cms_tlv.specs.State.{Answers, Succeeds, KeepsNoMoreAhead, FaultIsSticky, position};

    /// The next `n` octets (X.690, 8.1.4). The reader is asked for no more octets than are still due,
    /// in pieces of at most 8,192 octets, and for nothing if `n` is 0.
    ///
    /// E1 if the input ends before the last of them.
    pub fn contents(&mut self, n: u64) -> Result<Span, Fault>
        requires clear { self.old.ahead ≡ None }
        requires room { position self.old + n ≤ self.old.limit }
        ensures sticky { FaultIsSticky self.old self.new result }
        ensures accounted { self.old.fault ≡ None → Answers self.old self.new result }
        ensures ok { OnOk result (Succeeds self.old self.new) }
        ensures kept { self.old.fault ≡ None → OnErr result (KeepsNoMoreAhead self.old self.new) }
        ensures refines { self.old.fault ≡ None
            → Refines seen (octets_of None n) self.old self.new result }
        ensures found { IfOk result (λ s. Found (counted n) self.old self.new (seen self.new s)) }
        ensures faults { self.old.fault ≡ None → IfErr result (EndsEarly n self.old self.new) }
        ensures clear { self.new.ahead ≡ None }
        ensures span { IfOk result (λ s. (s.start ≡ length self.old.done) × (s.end ≡ s.start + n)
            × (length self.new.done ≡ s.end)) }
    {
        self.standing()?;
        self.contents_without_fault(n)
    }

    pub(crate) fn contents_without_fault(&mut self, n: u64) -> Result<Span, Fault>
        requires sound { self.old.fault ≡ None }
        requires clear { self.old.ahead ≡ None }
        requires room { length self.old.done + n ≤ self.old.limit }
        ensures refines { Refines seen (octets_of None n) self.old self.new result }
        ensures faults { IfErr result (EndsEarly n self.old self.new) }
        ensures clear { self.new.ahead ≡ None }
        ensures span { IfOk result (λ s. (s.start ≡ length self.old.done) × (s.end ≡ s.start + n)
            × (length self.new.done ≡ s.end)) }
    {
        if self.contents_at_hand(n)? {
            let end = self.consumed() as usize;
            return Ok(Span {
                start: end - n as usize,
                end,
            });
        }
        self.contents_by_pieces(n)
    }

    /// `contents`, but the octets are taken in pieces.
    fn contents_by_pieces(&mut self, n: u64) -> Result<Span, Fault>
        requires sound { self.old.fault ≡ None }
        requires clear { self.old.ahead ≡ None }
        requires room { length self.old.done + n ≤ self.old.limit }
        ensures refines { Refines seen (octets_of None n) self.old self.new result }
        ensures faults { IfErr result (EndsEarly n self.old self.new) }
        ensures clear { self.new.ahead ≡ None }
        ensures span { IfOk result (λ s. (s.start ≡ length self.old.done) × (s.end ≡ s.start + n)
            × (length self.new.done ≡ s.end)) }
    {
        let start = self.consumed() as usize;
        let mut due = n;
        while due > 0 {
            let at_hand = self.piece_at_hand(due)?;
            if at_hand == 0 {
                due -= self.piece(due)?;
            } else {
                due -= at_hand;
            }
        }
        Ok(Span {
            start,
            end: start + n as usize,
        })
    }
}
