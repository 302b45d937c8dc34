//! Encodings in which a long string is borrowed, not copied.
//!
//! A copy of 8 MiB of content takes as many fresh pages as the octets kept: the whole then takes 1.6
//! times as long as a program that only copies, and 1.2 times without it. One string is enough, since a
//! message has one content. `Count` says which: the longest that is not in a set.
ghost use Rattle.std.specs.Prelude.{◌≡◌, ◌+◌, ◌++◌, ◌<◌, ◌≤◌, ◌^◌, ℕ, List, [], drop, length, min, OnOk, IfOk, IfErr};
ghost use Rattle.std.specs.Io.KnownBytes.{Appends};
ghost use Rattle.cms_tlv.specs.Pouring.{StopsAfter};
ghost use Rattle.cms_tlv.specs.Streams.{Counts};
ghost use Rattle.cms_tlv.specs.Spans.{borrowed_spans, octets_in};
ghost use Rattle.cms_tlv.specs.Spelling.{join};
ghost use Rattle.cms_fields.specs.Received.{spanned_in};
ghost use Rattle.std.specs.List.{AllByRecursion};
ghost use Rattle.cms_tlv.specs.Frames.{IsDerFrame};
ghost use Rattle.cms_setof.specs.Gathering.{Parts, octets_of_parts};
ghost use Rattle.cms_setof.specs.internal.Merging.{AreSorted};

use crate::appending::push_all;
use crate::front::Front;
use crate::pouring::{copy_around, pour_around};
use cms_fields::spans_len;
use cms_tlv::{BorrowedSpans, Fault, Output, Span};
use std::alloc::{AllocError, Global};
use std::marker::Model;
use std::mem;

/// How many octets are collected before they are written.
const ROOM: usize = 0x1_0000;

/// An encoding in which one long string may be borrowed: that string stays in the octets that it was read
/// from.
pub struct Gathered {
    pub(crate) before: Front,
    pub(crate) borrowed: Vec<Span>,
    pub(crate) after: Front,
}

impl Drop for Gathered {
    fn drop(self) {
        let Gathered {
            before: _,
            borrowed: _,
            after: _,
        } = self;
    }
}

impl Model for Gathered {
    ghost Value = { Parts };

    ghost view = { λ x. (x.before, (x.borrowed.items, x.after)) };
}

impl Gathered {
    /// Nothing yet, with room for `n` octets. An error means out of memory.
    pub(crate) fn with_room(alloc: Global, n: usize) -> Result<Gathered, AllocError>
        ensures { (k : List ℕ) → IfOk result (λ g. octets_of_parts k g ≡ []) }
    {
        Ok(Gathered {
            before: Front::with_room(alloc, n)?,
            borrowed: Vec::new(alloc),
            after: Front::new(alloc),
        })
    }

    /// What a span names, borrowed. An error means out of memory.
    pub fn lend(alloc: Global, span: Span) -> Result<Gathered, AllocError>
        ensures { (k : List ℕ)
            → IfOk result (λ g. octets_of_parts k g ≡ octets_in k span.start span.end) }
    {
        let mut borrowed = Vec::with_capacity(alloc, 1)?;
        borrowed.push(span)?;
        Ok(Gathered {
            before: Front::new(alloc),
            borrowed,
            after: Front::new(alloc),
        })
    }

    /// Writes everything; what is borrowed is written from `kept`. After `Fault::Write` the writer has
    /// taken the first `written` octets and no more; there is no other fault.
    pub fn pour<O: Output>(&self, alloc: Global, kept: &[u8], output: &mut O) -> Result<(), Fault>
        requires { length (octets_of_parts kept.now self.now) < 2 ^ 64 }
        ensures ok { OnOk result (Appends (O.contents output.old) (O.contents output.new)
            (octets_of_parts kept.now self.now)) }
        ensures err { IfErr result (StopsAfter (octets_of_parts kept.now self.now)
            (O.contents output.old) (O.contents output.new)) }
        ensures failures { Counts (O.failures output.old) (O.failures output.new) result }
    {
        let room = if self.is_in_one_piece() { 0 } else { ROOM };
        // Without memory for a buffer, each piece is written by itself.
        let mut buffer = match vec![in alloc; 0u8; room] {
            Ok(buffer) => buffer,
            Err(_) => Vec::new(alloc),
        };
        pour_around(
            self.before.octets(),
            &self.borrowed,
            kept,
            self.after.octets(),
            &mut buffer,
            output,
        )
    }

    /// Whether nothing is to be collected before it is written.
    fn is_in_one_piece(&self) -> bool {
        self.borrowed.is_empty()
            || self.borrowed.len() == 1
                && self.before.octets().is_empty()
                && self.after.octets().is_empty()
    }

    /// Copies everything to the beginning of `out`; what is borrowed is copied from `kept`.
    pub fn copy_to(&self, kept: &[u8], out: &mut [u8])
        requires { length (octets_of_parts kept.now self.now) ≤ length out.old }
        ensures { out.new ≡ octets_of_parts kept.now self.now
            ++ drop (length (octets_of_parts kept.now self.now)) out.old }
    {
        copy_around(
            self.before.octets(),
            &self.borrowed,
            kept,
            self.after.octets(),
            out,
        )
    }

    /// How many octets there are, or `u64::MAX` if there are more.
    fn len(&self, kept: &[u8]) -> u64
        ensures { result ≡ min (length (octets_of_parts kept.now self.now)) 0xFFFF_FFFF_FFFF_FFFF }
    {
        let borrowed = spans_len(BorrowedSpans::new(&self.borrowed), kept);
        let before = self.before.octets().len() as u64;
        let after = self.after.octets().len() as u64;
        before.saturating_add(borrowed).saturating_add(after)
    }

    /// All octets; what is borrowed is copied from `kept`. An error means out of memory.
    pub(crate) fn into_octets(self, kept: &[u8], alloc: Global) -> Result<Vec<u8>, AllocError>
        ensures { IfOk result (λ v. v.items ≡ octets_of_parts kept.now self) }
    {
        if self.borrowed.is_empty() && self.after.octets().is_empty() {
            let Gathered {
                before,
                borrowed: _,
                after: _,
            } = self;
            return before.into_octets();
        }
        self.copied(kept, alloc)
    }

    /// A copy of all octets; what is borrowed is copied from `kept`. An error means out of memory.
    fn copied(&self, kept: &[u8], alloc: Global) -> Result<Vec<u8>, AllocError>
        ensures { IfOk result (λ v. v.items ≡ octets_of_parts kept.now self.now) }
    {
        let n = self.len(kept);
        if n == u64::MAX {
            return Err(AllocError);
        }
        let mut octets = vec![in alloc; 0u8; n as usize]?;
        self.copy_to(kept, &mut octets);
        Ok(octets)
    }

    /// Borrows what the spans name, and puts it before all that was gathered. There will be room for
    /// `room` octets before it. An error means out of memory.
    pub(crate) fn borrow(
        &mut self,
        spans: BorrowedSpans<'_>,
        room: usize,
        alloc: Global,
    ) -> Result<(), AllocError>
        requires borrowed { self.old.1.0 ≡ [] }
        requires after { self.old.1.1 ≡ [] }
        ensures { (k : List ℕ) → OnOk result (octets_of_parts k self.new
            ≡ join (spanned_in k (borrowed_spans spans.entry)) ++ octets_of_parts k self.old) }
    {
        let mut borrowed = Vec::with_capacity(alloc, spans.len() as usize)?;
        push_all(spans, &mut borrowed)?;
        let before = Front::with_room(alloc, room)?;
        self.after = mem::replace(&mut self.before, before);
        self.borrowed = borrowed;
        Ok(())
    }

    /// Copies what is borrowed from `kept`, so that everything is in one piece. An error means out of
    /// memory.
    fn settle(&mut self, kept: &[u8], alloc: Global) -> Result<(), AllocError>
        ensures { OnOk result (self.new ≡ (octets_of_parts kept.now self.old, ([], []))) }
    {
        let all = self.copied(kept, alloc)?;
        self.before = Front::of(alloc, all);
        self.borrowed = Vec::new(alloc);
        self.after = Front::new(alloc);
        Ok(())
    }

    /// Sorts the frames that make up the first `n` octets (X.690, 11.6). If they reach into what is
    /// borrowed, that is copied from `kept` first. An error means out of memory, or fewer than `n` octets.
    pub(crate) fn sort_first(
        &mut self,
        n: u64,
        kept: &[u8],
        alloc: Global,
    ) -> Result<(), AllocError>
        ensures { OnOk result ((frames : List (List ℕ)) (rest : List ℕ)
            → AllByRecursion IsDerFrame frames → n ≡ length (join frames)
            → octets_of_parts kept.now self.old ≡ join frames ++ rest
            → (sorted : List ℕ) × AreSorted frames sorted
            × (octets_of_parts kept.now self.new ≡ sorted ++ rest)) }
    {
        if n > self.before.octets().len() as u64 {
            self.settle(kept, alloc)?;
        }
        if n > self.before.octets().len() as u64 {
            return Err(AllocError);
        }
        self.before.sort_first(n as usize)
    }
}
