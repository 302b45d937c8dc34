//! A reader, and the octets taken from it.
//!
//! A call that reads has two kinds of clauses: relations in the words of the definitions, as `found`
//! and `faults`, which are what is promised; and `refines`, which says exactly what the octets to come
//! give, and on which the crates above build, since a record is not hopeless by the hopelessness of its
//! fields alone. That no read failed is said only of success: so calls compose without a premise.
//!
//! Octets that lie in memory anyway are copied, too: to lend them, an invariant in each call would tie
//! what is kept to the reader.
ghost use Rattle.std.specs.Prelude.{◌≡◌, ◌≤◌, ◌<◌, ◌^◌, ◌+◌, ◌++◌, ◌∷◌, [], None, IfOk, IfSome, OnOk, OnErr, take, vec_len, vec_capacity};
ghost use Rattle.std.specs.Io.KnownBytes.{Consumes, IsAtEnd};
ghost use Rattle.cms_tlv.specs.internal.Found.{Heads, found_at_hand};
ghost use Rattle.cms_tlv.specs.Headers.{AreOctets};
ghost use Rattle.cms_tlv.specs.State.{as_list, is_truncated};
ghost use Rattle.cms_tlv.specs.Streams.{Counts, Fills};

use crate::bound::Bound;
use crate::fault::{Fault, Reason};
use crate::found::{Found, Seek};
use crate::input::Input;
use crate::primitives::pass_primitives;
use crate::scanner::{AtMost, Scanner};
use crate::span::Span;
use crate::spans::Spans;
use std::alloc::{AllocError, Global};
use std::marker::Model;

/// The largest limit of a call that reads a whole message, in octets.
pub const MAX_LIMIT: u64 = 1 << 40;

/// A reader, and the octets taken from it. After a fault, every later call that can fail returns the
/// same fault and takes nothing.
pub struct Source<R: Input> {
    reader: R,
    kept: Vec<u8>,
    ahead: Option<u8>,
    limit: u64,
    fault: Option<Fault>,
}

impl<R: Input> Model for Source<R> {
    ghost use Rattle.std.specs.Prelude.{◌<◌, ◌≤◌, ◌^◌, ◌+◌, length, vec_capacity};
    ghost use Rattle.cms_tlv.specs.State.{State, as_list};

    ghost Value = { State };

    ghost view = { λ s. record {
      done = s.kept.items;
      ahead = s.ahead;
      left = R.left s.reader;
      failures = R.failures s.reader;
      limit = s.limit;
      fault = s.fault;
    } };

    ghost invariant = { λ s. (s.limit < 2 ^ 64)
        × (length s.kept.items + length (as_list s.ahead) ≤ s.limit)
        × (length s.kept.items + length (as_list s.ahead) ≤ vec_capacity s.kept) };
}

impl<R: Input> Source<R> {
    ghost use Rattle.std.specs.Prelude.{◌≡◌, ◌≢◌, ℕ, ◌<◌, ◌≤◌, ◌^◌, ◌+◌, ◌++◌, ◌∷◌, [], List, Some, None, true, false, length, IfOk, OnOk, OnErr, IfErr, IfSome};
    ghost use Rattle.std.specs.Io.KnownBytes.{IsAtEnd};
    ghost use Rattle.cms_tlv.specs.State.{State, Answers, FailsWith, FaultIsSticky, Looked, NoOctet, EndUnknown, KeepsNoneAhead, LacksMemory, TakesDue, TakesAccepted, taken, position};
    ghost use Rattle.cms_tlv.specs.Refines.{Refines, Failed, plain};
    ghost use Rattle.cms_tlv.specs.Clauses.{EndsEarly, Room};
    ghost use Rattle.cms_tlv.specs.internal.Found.{TakesFound, WantsMemory};
    ghost use Rattle.cms_tlv.specs.Reading.{octet_of, octets_of, look_of};
    ghost use Rattle.cms_tlv.specs.Primitives.{TakesPrimitives};
    ghost use Rattle.cms_tlv.specs.Spans.{LiesIn, octets_in};

    /// A source that takes at most `limit` octets from `reader`. No memory is taken before the first
    /// octet is taken.
    pub fn new(alloc: Global, reader: R, limit: u64) -> Source<R>
        ensures { result ≡ record {
          done = [];
          ahead = None;
          left = R.left reader;
          failures = R.failures reader;
          limit = limit;
          fault = None;
        } }
    {
        Source::with_buffer(Vec::new(alloc), reader, limit)
    }

    /// A source that keeps the octets taken in the room of `buffer`. What is in `buffer` is dropped.
    pub fn with_buffer(mut buffer: Vec<u8>, reader: R, limit: u64) -> Source<R>
        ensures { result ≡ record {
          done = [];
          ahead = None;
          left = R.left reader;
          failures = R.failures reader;
          limit = limit;
          fault = None;
        } }
    {
        buffer.clear();
        Source {
            reader,
            kept: buffer,
            ahead: None,
            limit,
            fault: None,
        }
    }

    /// How many octets were taken from the reader, including a peeked one.
    pub fn position(&self) -> u64
        ensures value { result ≡ position self.now }
        ensures limit { result ≤ self.now.limit }
        ensures bound { self.now.limit < 2 ^ 64 }
    {
        let ahead = if self.ahead.is_some() { 1 } else { 0 };
        self.consumed() + ahead
    }

    /// The octets that a span names, among those that were consumed.
    pub fn bytes(&self, span: Span) -> &[u8]
        requires { LiesIn span self.now }
        ensures { result.now ≡ octets_in self.now.done span.start span.end }
    {
        span.octets(&self.kept)
    }

    /// The reader, and all octets that were taken from it, including a peeked one.
    pub fn finish(self) -> (R, Vec<u8>)
        ensures left { R.left result.0 ≡ self.left }
        ensures failures { R.failures result.0 ≡ self.failures }
        ensures kept { result.1.items ≡ taken self }
        ensures limit { length result.1.items ≤ self.limit }
    {
        let Source {
            reader,
            mut kept,
            ahead,
            limit: _,
            fault: _,
        } = self;
        if let Some(octet) = ahead {
            match kept.push(octet) {
                Ok(()) => {}
                Err(_) => unreachable!(),
            }
        }
        (reader, kept)
    }

    /// The allocator that the source was made with.
    pub fn allocator(&self) -> Global {
        *self.kept.allocator()
    }

    /// Refuses the octets at the present position. After an earlier fault, it returns that fault
    /// instead.
    pub fn refuse(&mut self, reason: Reason) -> Fault
        ensures sticky { IfSome self.old.fault (λ f. (result ≡ f) × (self.new ≡ self.old)) }
        ensures refused { self.old.fault ≡ None
            → result ≡ Fault.Refused reason (position self.old) }
        ensures state { self.old.fault ≡ None → self.new ≡ record self.old { fault = Some result } }
        ensures stops { self.old.fault ≡ None → FailsWith self.old self.new result }
    {
        match self.fault {
            Some(fault) => fault,
            None => self.refused(reason),
        }
    }

    /// Fails for a caller that ran out of memory. After an earlier fault, it returns that fault
    /// instead.
    pub fn out_of_memory(&mut self) -> Fault
        ensures sticky { IfSome self.old.fault (λ f. (result ≡ f) × (self.new ≡ self.old)) }
        ensures told { self.old.fault ≡ None → result ≡ Fault.OutOfMemory }
        ensures state { self.old.fault ≡ None → self.new ≡ record self.old { fault = Some result } }
        ensures stops { self.old.fault ≡ None → FailsWith self.old self.new result }
    {
        match self.fault {
            Some(standing) => standing,
            None => self.fail(Fault::OutOfMemory),
        }
    }

    /// The fault of an earlier call, if there was one.
    pub fn standing(&self) -> Result<(), Fault>
        ensures sticky { IfSome self.now.fault (λ f. result ≡ Err f) }
        ensures none { OnOk result (self.now.fault ≡ None) }
        ensures sound { self.now.fault ≡ None → result ≡ Ok tt }
    {
        match self.fault {
            Some(fault) => Err(fault),
            None => Ok(()),
        }
    }

    /// How many octets were consumed: those taken, except a peeked one.
    pub fn consumed(&self) -> u64
        ensures value { result ≡ length self.now.done }
        ensures limit { position self.now ≤ self.now.limit }
        ensures bound { self.now.limit < 2 ^ 64 }
    {
        self.kept.len() as u64
    }

    pub(crate) fn limit(&self) -> u64
        ensures value { result ≡ self.now.limit }
        ensures taken { position self.now ≤ result }
    {
        self.limit
    }

    fn fail(&mut self, fault: Fault) -> Fault
        ensures same { result ≡ fault }
        ensures state { self.new ≡ record self.old { fault = Some fault } }
    {
        self.fault = Some(fault);
        fault
    }

    pub(crate) fn refused(&mut self, reason: Reason) -> Fault
        ensures same { result ≡ Fault.Refused reason (position self.old) }
        ensures state { self.new ≡ record self.old { fault = Some result } }
        ensures stops { self.old.fault ≡ None → FailsWith self.old self.new result }
    {
        let at = self.position();
        self.fail(Fault::Refused { reason, at })
    }

    /// The next octet, which is kept ahead and not consumed.
    pub(crate) fn look(&mut self, end: Option<u64>) -> Result<u8, Fault>
        requires { self.old.fault ≡ None }
        ensures ok { IfOk result (λ b. (self.new.ahead ≡ Some b) × (self.new.fault ≡ None)) }
        ensures looked { Looked self.old self.new }
        ensures before_end { OnOk result (IfSome end (λ e. length self.old.done < e)
            × (length self.old.done < self.old.limit)) }
        ensures err { IfErr result (λ f. (self.new.fault ≡ Some f)
            × (self.new.ahead ≡ self.old.ahead) × NoOctet end self.old self.new f) }
    {
        let at = self.consumed();
        if let Some(end) = end {
            if at >= end {
                return Err(self.refused(Reason::Overrun));
            }
        }
        if at >= self.limit {
            return Err(self.refused(Reason::TooLarge));
        }
        match self.ahead {
            Some(octet) => Ok(octet),
            None => self.take_ahead(),
        }
    }

    /// Whether the input ends before anything was taken from it. If it does not, its first octet is kept
    /// for the next header.
    ///
    /// E2 at 0 if the limit is 0, whatever the input is.
    pub fn at_end(&mut self) -> Result<bool, Fault>
        requires { position self.old ≡ 0 }
        ensures sticky { FaultIsSticky self.old self.new result }
        ensures accounted { self.old.fault ≡ None → Answers self.old self.new result }
        ensures looked { Looked self.old self.new }
        ensures ended { IfOk result (λ ended. ended ≡ true
            → IsAtEnd self.new.left × (self.new.ahead ≡ None)) }
        ensures more { IfOk result (λ ended. ended ≡ false → self.new.ahead ≢ None) }
        ensures room { OnOk result (0 < self.new.limit) }
        ensures still { OnErr result (self.new.ahead ≡ self.old.ahead) }
        ensures faults { self.old.fault ≡ None → IfErr result (EndUnknown self.old self.new) }
    {
        self.standing()?;
        match self.look(None) {
            Ok(_) => Ok(false),
            Err(fault) if is_truncated(fault) => {
                self.fault = None;
                Ok(true)
            }
            Err(fault) => Err(fault),
        }
    }

    /// Takes the next octet from the reader, and keeps it ahead.
    #[inline(always)]
    fn take_ahead(&mut self) -> Result<u8, Fault>
        requires sound { self.old.fault ≡ None }
        requires clear { self.old.ahead ≡ None }
        requires room { length self.old.done < self.old.limit }
        ensures ok { IfOk result (λ b. (self.new.ahead ≡ Some b) × (self.new.fault ≡ None)) }
        ensures looked { Looked self.old self.new }
        ensures err { IfErr result (λ f. (self.new.fault ≡ Some f) × (self.new.ahead ≡ None)
            × NoOctet None self.old self.new f) }
    {
        let more = if self.kept.is_empty() { FIRST_ROOM } else { 1 };
        if self.kept.reserve(more).is_err() {
            return Err(self.fail(Fault::OutOfMemory));
        }
        match next_octet(&mut self.reader) {
            Err(()) => Err(self.fail(Fault::Read)),
            Ok(None) => Err(self.refused(Reason::Truncated)),
            Ok(Some(octet)) => {
                self.ahead = Some(octet);
                Ok(octet)
            }
        }
    }

    /// The next octet, consumed.
    pub(crate) fn next(&mut self, end: Option<u64>) -> Result<u8, Fault>
        requires { self.old.fault ≡ None }
        ensures clear { OnOk result (self.new.ahead ≡ None) }
        ensures still_clear { self.old.ahead ≡ None → self.new.ahead ≡ None }
        ensures none_kept { KeepsNoneAhead self.old self.new }
        ensures moved { OnOk result (length self.old.done < length self.new.done) }
        ensures refines { Refines plain (octet_of end) self.old self.new result }
    {
        let octet = self.look(end)?;
        self.consume(octet);
        Ok(octet)
    }

    /// Consumes what `seek` finds, which begins with the octet that is kept ahead, or else with the
    /// first at hand, and goes on with octets at hand. None if it finds nothing.
    #[inline(always)]
    pub(crate) fn take_found<S: Seek>(&mut self, seek: &S) -> Result<Option<Found>, Fault>
        requires sound { self.old.fault ≡ None }
        requires room { (b : List ℕ) (i n : ℕ) → S.finds seek.now b i n
            → length self.old.done + length b ≤ self.old.limit }
        ensures some { IfOk result (λ o. IfSome o (λ f.
            TakesFound (λ b. S.finds seek.now b f.ident f.len) self.old self.new)) }
        ensures none { IfOk result (λ o. o ≡ None → self.new ≡ self.old) }
        ensures err { IfErr result (WantsMemory self.old self.new) }
    {
        let Some((first, held)) = next_and_held(self.ahead, &self.reader) else {
            return Ok(None);
        };
        let Some(found) = seek.find(first, held) else {
            return Ok(None);
        };
        match keep(&mut self.kept, first, &held[..found.behind]) {
            Err(_) => Err(self.fail(Fault::OutOfMemory)),
            Ok(()) => {
                advance_behind(&mut self.reader, self.ahead, found.behind);
                self.ahead = None;
                Ok(Some(found))
            }
        }
    }

    /// How many octets may follow before the innermost definite end and the limit.
    pub(crate) fn room(&self, bound: &Bound) -> usize
        ensures { (n : ℕ) → 0 < n → n ≤ result
            → Room bound.now.end self.now.limit (length self.now.done) n }
    {
        let end = match bound.end {
            Some(end) => end.min(self.limit),
            None => self.limit,
        };
        end.saturating_sub(self.consumed()) as usize
    }

    /// Takes what `scanner` accepts of the octets that the reader has at hand. Returns how many they are.
    pub(crate) fn take_prefix<J: Scanner>(&mut self, scanner: &J) -> Result<usize, Fault>
        requires sound { self.old.fault ≡ None }
        requires clear { self.old.ahead ≡ None }
        requires room { (b : List ℕ) → J.accepts scanner.now b
            → length self.old.done + length b ≤ self.old.limit }
        ensures clear { self.new.ahead ≡ None }
        ensures ok { IfOk result (TakesAccepted (J.accepts scanner.now) self.old self.new) }
        ensures err { IfErr result (LacksMemory self.old self.new) }
    {
        let held = self.reader.at_hand();
        let n = scanner.accept(held);
        if self.kept.extend_from_slice(&held[..n]).is_err() {
            return Err(self.fail(Fault::OutOfMemory));
        }
        self.reader.advance(n);
        Ok(n)
    }

    /// Takes the next `n` octets if they are one piece and all at hand, and says whether they are.
    #[inline(always)]
    pub(crate) fn contents_at_hand(&mut self, n: u64) -> Result<bool, Fault>
        requires sound { self.old.fault ≡ None }
        requires clear { self.old.ahead ≡ None }
        requires room { length self.old.done + n ≤ self.old.limit }
        ensures clear { self.new.ahead ≡ None }
        ensures yes { IfOk result (λ b. b ≡ true → TakesDue self.old self.new n n) }
        ensures no { IfOk result (λ b. b ≡ false → self.new ≡ self.old) }
        ensures err { IfErr result (LacksMemory self.old self.new) }
    {
        let held = self.reader.at_hand();
        if n > PIECE || (held.len() as u64) < n {
            return Ok(false);
        }
        if self.kept.extend_from_slice(&held[..n as usize]).is_err() {
            return Err(self.fail(Fault::OutOfMemory));
        }
        self.reader.advance(n as usize);
        Ok(true)
    }

    /// Takes primitive elements at hand, as many as come one after another with the identifier octet
    /// `ident`, a length of one octet, and room before the end of `bound`. Adds to `spans` where their
    /// contents lie. The reader is asked for nothing.
    pub fn primitives_at_hand(
        &mut self,
        bound: &Bound,
        ident: u8,
        spans: &mut Spans,
    ) -> Result<(), Fault>
        requires clear { self.old.ahead ≡ None }
        ensures sticky { FaultIsSticky self.old self.new result }
        ensures clear { self.new.ahead ≡ None }
        ensures ok { OnOk result (TakesPrimitives ident bound.now spans.old spans.new
            self.old self.new) }
        ensures err { self.old.fault ≡ None → IfErr result (LacksMemory self.old self.new) }
    {
        self.standing()?;
        let at = self.consumed() as usize;
        let room = self.room(bound);
        let held = self.reader.at_hand();
        let held = &held[..room.min(held.len())];
        let Ok(taken) = pass_primitives(held, ident, at, spans) else {
            return Err(self.fail(Fault::OutOfMemory));
        };
        match self.kept.extend_from_slice(&held[..taken]) {
            Err(_) => Err(self.fail(Fault::OutOfMemory)),
            Ok(()) => {
                self.reader.advance(taken);
                Ok(())
            }
        }
    }

    fn consume(&mut self, octet: u8)
        requires { self.old.ahead ≡ Some octet }
        ensures { self.new ≡ record self.old { done = self.old.done ++ octet ∷ []; ahead = None } }
    {
        self.ahead = None;
        match self.kept.push(octet) {
            Ok(()) => {}
            Err(_) => unreachable!(),
        }
    }

    /// Takes at most `due` octets of those that are at hand.
    pub(crate) fn piece_at_hand(&mut self, due: u64) -> Result<u64, Fault>
        requires sound { self.old.fault ≡ None }
        requires clear { self.old.ahead ≡ None }
        requires room { length self.old.done + due ≤ self.old.limit }
        ensures clear { self.new.ahead ≡ None }
        ensures most { IfOk result (λ n. n ≤ 8192) }
        ensures ok { IfOk result (TakesDue self.old self.new due) }
        ensures err { IfErr result (LacksMemory self.old self.new) }
    {
        let most = AtMost {
            octets: due.min(PIECE) as usize,
        };
        Ok(self.take_prefix(&most)? as u64)
    }

    /// Takes at most `due` octets, in one call of the reader.
    pub(crate) fn piece(&mut self, due: u64) -> Result<u64, Fault>
        requires sound { self.old.fault ≡ None }
        requires clear { self.old.ahead ≡ None }
        requires some { 0 < due }
        requires room { length self.old.done + due ≤ self.old.limit }
        ensures clear { self.new.ahead ≡ None }
        ensures some { IfOk result (λ n. 0 < n) }
        ensures most { IfOk result (λ n. n ≤ 8192) }
        ensures ok { IfOk result (TakesDue self.old self.new due) }
        ensures err { IfErr result (Failed (octets_of None due) self.old self.new) }
        ensures early { IfErr result (EndsEarly due self.old self.new) }
    {
        let start = self.kept.len();
        let asked = due.min(PIECE) as usize;
        if self.kept.resize(start + asked, 0).is_err() {
            return Err(self.fail(Fault::OutOfMemory));
        }
        match fill(&mut self.reader, &mut self.kept, start) {
            Err(()) => Err(self.fail(Fault::Read)),
            Ok(0) => Err(self.refused(Reason::Truncated)),
            Ok(n) => Ok(n as u64),
        }
    }
}

/// Whether a fault says that the input ended.
fn is_truncated(fault: Fault) -> bool
    ensures { result ≡ is_truncated fault }
{
    match fault {
        Fault::Refused { reason, at: _ } => reason == Reason::Truncated,
        Fault::Read | Fault::Write { .. } | Fault::OutOfMemory => false,
    }
}

/// The next octet of `reader`; none at its end. The reader is asked for it only if it is not at hand.
#[inline(always)]
fn next_octet<R: Input>(reader: &mut R) -> Result<Option<u8>, ()>
    ensures octet { IfOk result
        (λ o. Consumes (R.left reader.old) (R.left reader.new) (as_list o)) }
    ensures end { IfOk result (λ o. o ≡ None → IsAtEnd (R.left reader.new)) }
    ensures err { OnErr result (Consumes (R.left reader.old) (R.left reader.new) []) }
    ensures failures { Counts (R.failures reader.old) (R.failures reader.new) result }
{
    if let Some(octet) = reader.at_hand().first() {
        let octet = *octet;
        reader.advance(1);
        return Ok(Some(octet));
    }
    let mut octets = [0u8; 1];
    match reader.take(&mut octets) {
        Err(()) => Err(()),
        Ok(0) => Ok(None),
        Ok(_) => Ok(Some(octets[0])),
    }
}

/// The octet that is kept ahead, or else the first at hand, and those at hand after it.
#[inline(always)]
fn next_and_held<R: Input>(ahead: Option<u8>, reader: &R) -> Option<(u8, &[u8])>
    ensures { IfSome result (λ p. Heads ahead (R.held reader.now) p.0 p.1.now) }
{
    match ahead {
        Some(octet) => Some((octet, reader.at_hand())),
        None => {
            let (octet, held) = reader.at_hand().split_first()?;
            Some((*octet, held))
        }
    }
}

/// Takes the octets that were found after the first one, and that one if it is not kept ahead.
#[inline(always)]
fn advance_behind<R: Input>(reader: &mut R, ahead: Option<u8>, behind: usize)
    requires { behind < 2 ^ 63 }
    ensures octets { Consumes (R.left reader.old) (R.left reader.new)
        (found_at_hand ahead behind (R.held reader.old)) }
    ensures failures { R.failures reader.new ≡ R.failures reader.old }
{
    match ahead {
        Some(_) => reader.advance(behind),
        None => reader.advance(behind + 1),
    }
}

/// Keeps an octet and those after it.
#[inline(always)]
fn keep(kept: &mut Vec<u8>, first: u8, behind: &[u8]) -> Result<(), AllocError>
    ensures kept { OnOk result (kept.new.items ≡ kept.old.items ++ first ∷ behind.now) }
    ensures unchanged { OnErr result (kept.new.items ≡ kept.old.items) }
    ensures room { vec_capacity kept.old ≤ vec_capacity kept.new }
{
    first_room(kept)?;
    if let [octet] = behind {
        return kept.extend_from_slice(&[first, *octet]);
    }
    kept.reserve(behind.len() + 1)?;
    kept.push(first)?;
    kept.extend_from_slice(behind)
}

/// Reserves room before the first octet is kept.
#[inline(always)]
fn first_room(kept: &mut Vec<u8>) -> Result<(), AllocError>
    ensures same { kept.new.items ≡ kept.old.items }
    ensures room { vec_capacity kept.old ≤ vec_capacity kept.new }
{
    if kept.is_empty() {
        kept.reserve(FIRST_ROOM)?;
    }
    Ok(())
}

/// Lets one call of the reader fill `kept` from `start` on, and drops what it did not fill.
fn fill<R: Input>(reader: &mut R, kept: &mut Vec<u8>, start: usize) -> Result<usize, ()>
    requires { start ≤ vec_len kept.old }
    ensures ok { IfOk result (Fills (R.left reader.old) (R.left reader.new)
        (take start kept.old.items) kept.new.items) }
    ensures end { IfOk result (λ n. n ≡ 0 → start < vec_len kept.old
        → IsAtEnd (R.left reader.new)) }
    ensures most { IfOk result (λ n. start + n ≤ vec_len kept.old) }
    ensures err { OnErr result (Fills (R.left reader.old) (R.left reader.new)
        (take start kept.old.items) kept.new.items 0) }
    ensures failures { Counts (R.failures reader.old) (R.failures reader.new) result }
    ensures octets { AreOctets kept.new.items }
{
    let given = reader.take(&mut kept[start..]);
    kept.truncate(start + given.unwrap_or(0));
    given
}

/// How many octets there is room for, once the first one is taken.
const FIRST_ROOM: usize = 4096;

/// How many octets of contents are asked for at a time.
pub(crate) const PIECE: u64 = 8192;
