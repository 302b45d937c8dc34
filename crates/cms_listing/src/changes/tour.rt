//! The walk over a message and its DER.

use super::change::{Change, ChangeKind};
use super::head::{Head, ends_contents, head_at};
use super::members::{Member, members};
use super::origins::Origins;
use super::record::Record;
use super::strings::segments_of;
use cms_tlv::{BIT_STRING, BOOLEAN};
use std::alloc::{AllocError, Global};

/// An element of the message, and the same one of the DER.
#[derive(Clone, Copy)]
struct Pair {
    read: Head,
    made: Head,
    /// Where the element of the DER ends.
    made_end: usize,
    record: Record,
    /// The change that says that it is moved.
    moved: Option<usize>,
}

/// An element that the walk is in.
#[derive(Drop)]
struct Inside {
    pair: Pair,
    /// The change that says that its length is made definite.
    definite: Option<usize>,
    /// How many elements of it in the message are passed.
    count: usize,
    /// Where its next element begins in the DER; of no meaning in a set.
    next: usize,
    /// Its members, if it is a set.
    members: Vec<Member>,
}

/// An element that comes next in the DER.
#[derive(Clone, Copy)]
struct Next {
    at: usize,
    record: Record,
    moved: Option<usize>,
}

/// Where the walk is, and what it has found.
#[derive(Drop)]
pub(super) struct Tour<'a> {
    alloc: Global,
    octets: &'a [u8],
    der: &'a [u8],
    origins: &'a Origins,
    /// How many octets of the message are passed.
    at: usize,
    /// The innermost comes last.
    inside: Vec<Inside>,
    changes: Vec<Change>,
}

/// The changes from a message to its DER, in the order of their places in the message. An error means out
/// of memory.
pub(super) fn walked<'a>(
    alloc: Global,
    octets: &'a [u8],
    der: &'a [u8],
    origins: &'a Origins,
) -> Result<Vec<Change>, AllocError> {
    let mut tour = Tour {
        alloc,
        octets,
        der,
        origins,
        at: 0,
        inside: Vec::new(alloc),
        changes: Vec::new(alloc),
    };
    tour.pass(Next {
        at: 0,
        record: Record::of_message(der),
        moved: None,
    })?;
    for _ in 0..u64::MAX {
        let Some(inside) = tour.inside.pop() else {
            break;
        };
        tour.go_on(inside)?;
    }
    Ok(tour.changes)
}

impl<'a> Tour<'a> {
    /// Passes the end of the element, or one element in it.
    fn go_on(&mut self, inside: Inside) -> Result<(), AllocError> {
        if self.is_at_end(&inside) {
            self.leave(&inside);
            return Ok(());
        }
        match inside.pair.record {
            Record::Set(_) => self.pass_member(inside),
            _ => self.pass_field(inside),
        }
    }

    /// Whether all of the element in the message is passed, but for end-of-contents octets.
    fn is_at_end(&self, inside: &Inside) -> bool {
        match inside.pair.read.end {
            Some(end) => self.at >= end,
            None => self.at >= self.octets.len() || ends_contents(self.octets, self.at),
        }
    }

    /// Leaves an element at its end.
    fn leave(&mut self, inside: &Inside) {
        if let Some(index) = inside.definite {
            if let Some(change) = self.changes.get_mut(index) {
                change.second = self.at as u64;
            }
            self.at = self.at.saturating_add(2);
        }
        self.end_element(&inside.pair);
    }

    /// What is left to do after an element, at its end: a change that says that it is moved has its length.
    fn end_element(&mut self, pair: &Pair) {
        if let Some(index) = pair.moved
            && let Some(change) = self.changes.get_mut(index)
        {
            change.length = self.at.saturating_sub(change.at);
        }
    }

    /// Passes the next member of a set.
    fn pass_member(&mut self, inside: Inside) -> Result<(), AllocError> {
        let mut inside = inside;
        let Some(member) = inside.members.get(inside.count).copied() else {
            return Ok(());
        };
        let number = inside.count as u64;
        let record = inside.pair.record;
        inside.count = inside.count.saturating_add(1);
        self.inside.push(inside)?;
        let mut next = Next {
            at: member.at,
            record: record.field(number, 0),
            moved: None,
        };
        if number != member.number {
            next.moved = Some(self.changes.len());
            let moved = self.moved(&member).with(number, member.number);
            self.changes.push(Change {
                set: record.set(),
                ..moved
            })?;
        }
        self.pass(next)
    }

    /// The change that says that the next member is moved; its length is not known yet.
    fn moved(&self, member: &Member) -> Change {
        let end = match head_at(self.der, member.at) {
            Some(Head { end: Some(end), .. }) => end,
            _ => member.at,
        };
        Change::new(ChangeKind::Moved, (self.at, self.at), (member.at, end))
    }

    /// Passes the next field of a record.
    fn pass_field(&mut self, inside: Inside) -> Result<(), AllocError> {
        let mut inside = inside;
        let Some(read) = head_at(self.octets, self.at) else {
            return Ok(());
        };
        match self.next_in_der(&inside) {
            Some(made) if made.has_type_of(&read) => {
                let next = Next {
                    at: made.at,
                    record: inside.pair.record.field(inside.count as u64, made.ident),
                    moved: None,
                };
                inside.count = inside.count.saturating_add(1);
                inside.next = made.end.unwrap_or(made.begin);
                self.inside.push(inside)?;
                self.pass(next)
            }
            _ => {
                let place = inside.next;
                self.inside.push(inside)?;
                self.omit(&read, place)
            }
        }
    }

    /// The next element of the DER in a record.
    fn next_in_der(&self, inside: &Inside) -> Option<Head> {
        if Some(inside.next) == inside.pair.made.end {
            return None;
        }
        head_at(self.der, inside.next)
    }

    /// Passes a field that is left out of the DER; `place` is where it would be there.
    fn omit(&mut self, read: &Head, place: usize) -> Result<(), AllocError> {
        let end = read.end.unwrap_or(read.begin);
        self.at = end;
        self.changes.push(Change::new(ChangeKind::DefaultOmitted, (read.at, end), (place, place)))?;
        Ok(())
    }

    /// Passes the next element of the message, or its header if something is changed in it.
    fn pass(&mut self, next: Next) -> Result<(), AllocError> {
        let Some(made) = head_at(self.der, next.at) else {
            return Ok(());
        };
        let made_end = made.end.unwrap_or(made.begin);
        let Some(read) = head_at(self.octets, self.at) else {
            return Ok(());
        };
        let pair = Pair {
            read,
            made,
            made_end,
            record: next.record,
            moved: next.moved,
        };
        if self.origins.are_copied(made.at, made_end, self.at) {
            self.at = self.at.saturating_add(made_end.saturating_sub(made.at));
            self.end_element(&pair);
            return Ok(());
        }
        match (read.is_constructed(), made.is_constructed()) {
            (true, true) => self.enter(pair),
            (true, false) => self.join(&pair),
            _ => self.pass_primitive(&pair),
        }
    }

    /// Passes the header of an element that has elements inside.
    fn enter(&mut self, pair: Pair) -> Result<(), AllocError> {
        self.at = pair.read.begin;
        let index = self.changes.len();
        self.add_header(&pair)?;
        let definite = match pair.read.end {
            None => Some(index),
            Some(_) => None,
        };
        let members = match pair.record {
            Record::Set(_) => members(self.alloc, self.der, &pair.made, self.origins)?,
            _ => Vec::new(self.alloc),
        };
        self.inside.push(Inside {
            pair,
            definite,
            count: 0,
            next: pair.made.begin,
            members,
        })?;
        Ok(())
    }

    /// Adds what is changed of a header.
    fn add_header(&mut self, pair: &Pair) -> Result<(), AllocError> {
        let Pair { read, made, .. } = pair;
        let new = made.length().unwrap_or(0);
        let (kind, first, second) = match read.length() {
            None => (ChangeKind::LengthMadeDefinite, new, 0),
            Some(old) if !read.is_shortest() => (ChangeKind::LengthInFewestOctets, old, new),
            Some(old) if old != new => (ChangeKind::LengthOfWhatIsInside, old, new),
            Some(_) => return Ok(()),
        };
        let change = Change::new(kind, (read.at, read.begin), (made.at, made.begin));
        self.changes.push(change.with(first, second))?;
        Ok(())
    }

    /// Passes a string in segments that is primitive in the DER.
    fn join(&mut self, pair: &Pair) -> Result<(), AllocError> {
        let Some(string) = segments_of(self.octets, &pair.read) else {
            return Ok(());
        };
        self.at = string.end;
        self.add_whole(
            ChangeKind::SegmentsJoined,
            pair,
            string.count,
            string.octets,
        )?;
        self.end_element(pair);
        Ok(())
    }

    /// Passes an element that is primitive in both.
    fn pass_primitive(&mut self, pair: &Pair) -> Result<(), AllocError> {
        self.at = pair.read.end.unwrap_or(pair.read.begin);
        match pair.made.ident {
            BIT_STRING => self.add_bits(pair)?,
            BOOLEAN => {
                self.add_header(pair)?;
                self.add_boolean(pair)?;
            }
            _ => self.add_header(pair)?,
        }
        self.end_element(pair);
        Ok(())
    }

    /// Adds a change of a whole element, which is passed.
    fn add_whole(
        &mut self,
        kind: ChangeKind,
        pair: &Pair,
        first: u64,
        second: u64,
    ) -> Result<(), AllocError> {
        let change = Change::new(kind, (pair.read.at, self.at), (pair.made.at, pair.made_end));
        self.changes.push(change.with(first, second))?;
        Ok(())
    }

    /// Adds what is changed of the contents octet of a BOOLEAN.
    fn add_boolean(&mut self, pair: &Pair) -> Result<(), AllocError> {
        let old = octet_at(self.octets, pair.read.begin);
        let new = octet_at(self.der, pair.made.begin);
        if old == new {
            return Ok(());
        }
        let change = Change::new(
            ChangeKind::Boolean,
            (pair.read.begin, self.at),
            (pair.made.begin, pair.made_end),
        );
        self.changes
            .push(change.with(u64::from(old), u64::from(new)))?;
        Ok(())
    }

    /// Adds what is changed of a BIT STRING: of its bits, with its header, or else of its header.
    fn add_bits(&mut self, pair: &Pair) -> Result<(), AllocError> {
        let old = bits_in(self.octets, &pair.read);
        let new = bits_in(self.der, &pair.made);
        if old != new {
            return self.add_whole(ChangeKind::TrailingZeroBitsRemoved, pair, old, new);
        }
        let last = octet_at(self.octets, self.at.saturating_sub(1));
        if last != octet_at(self.der, pair.made_end.saturating_sub(1)) {
            return self.add_whole(ChangeKind::UnusedBitsSetToZero, pair, old, new);
        }
        self.add_header(pair)
    }
}

/// The octet at a place; 0 after the end.
fn octet_at(octets: &[u8], place: usize) -> u8 {
    octets.get(place).copied().unwrap_or(0)
}

/// How many bits a BIT STRING has that is primitive (X.690, 8.6.2).
fn bits_in(octets: &[u8], string: &Head) -> u64 {
    let length = string.length().unwrap_or(0).saturating_sub(1);
    let unused = u64::from(octet_at(octets, string.begin));
    length.saturating_mul(8).saturating_sub(unused)
}
