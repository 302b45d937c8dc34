//! Octets that are written from the last to the first.
ghost use Rattle.std.specs.Prelude.{◌≡◌, ◌≤◌, ◌++◌, ℕ, List, [], drop, take, length, OnOk, IfOk};
ghost use Rattle.std.specs.List.{AllByRecursion};
ghost use Rattle.cms_tlv.specs.Frames.{IsDerFrame};
ghost use Rattle.cms_tlv.specs.Spelling.{join};
ghost use Rattle.cms_setof.specs.internal.Merging.{AreSorted};

use crate::ascending::sort_frames;
use std::alloc::{AllocError, Global};
use std::marker::Model;

/// Octets that grow at their front.
pub(crate) struct Front {
    /// The first `at` are room.
    octets: Vec<u8>,
    at: usize,
    alloc: Global,
}

impl Drop for Front {
    fn drop(self) {
        let Front {
            octets: _,
            at: _,
            alloc: _,
        } = self;
    }
}

impl Model for Front {
    ghost use Rattle.std.specs.Prelude.{◌≤◌, ℕ, List, drop, length};

    ghost Value = { List ℕ };

    ghost view = { λ x. drop x.at x.octets.items };

    ghost invariant = { λ x. x.at ≤ length x.octets.items };
}

impl Front {
    /// No octets, and no room. Takes no memory.
    pub(crate) fn new(alloc: Global) -> Front
        ensures { result ≡ [] }
    {
        Front {
            octets: Vec::new(alloc),
            at: 0,
            alloc,
        }
    }

    /// No octets, and room for `n`. An error means out of memory.
    pub(crate) fn with_room(alloc: Global, n: usize) -> Result<Front, AllocError>
        ensures { IfOk result (λ front. front ≡ []) }
    {
        Ok(Front {
            octets: vec![in alloc; 0u8; n]?,
            at: n,
            alloc,
        })
    }

    /// The octets of a vector.
    pub(crate) fn of(alloc: Global, octets: Vec<u8>) -> Front
        ensures { result ≡ octets.items }
    {
        Front {
            octets,
            at: 0,
            alloc,
        }
    }

    /// The octets.
    pub(crate) fn octets(&self) -> &[u8]
        ensures { result.now ≡ self.now }
    {
        &self.octets[self.at..]
    }

    /// The octets, as a vector. They are copied only if there is room left before them. An error means
    /// out of memory.
    pub(crate) fn into_octets(self) -> Result<Vec<u8>, AllocError>
        ensures { IfOk result (λ v. v.items ≡ self) }
    {
        if self.at > 0 {
            return Vec::from_slice(self.alloc, &self.octets[self.at..]);
        }
        let Front {
            octets,
            at: _,
            alloc: _,
        } = self;
        Ok(octets)
    }

    /// Puts octets before those that are there. An error means out of memory.
    pub(crate) fn put(&mut self, more: &[u8]) -> Result<(), AllocError>
        ensures { OnOk result (self.new ≡ more.now ++ self.old) }
    {
        if more.len() > self.at {
            let (octets, at) = with_more_room(&self.octets[self.at..], more.len(), self.alloc)?;
            self.octets = octets;
            self.at = at;
        }
        let start = self.at - more.len();
        self.octets[start..self.at].copy_from_slice(more);
        self.at = start;
        Ok(())
    }

    /// Sorts the frames that make up the first `n` octets (X.690, 11.6). An error means out of memory.
    pub(crate) fn sort_first(&mut self, n: usize) -> Result<(), AllocError>
        requires { n ≤ length self.old }
        ensures { OnOk result ((frames : List (List ℕ)) → AllByRecursion IsDerFrame frames
            → take n self.old ≡ join frames → (sorted : List ℕ)
            × AreSorted frames sorted × (self.new ≡ sorted ++ drop n self.old)) }
    {
        let end = self.at + n;
        sort_frames(&mut self.octets[self.at..end], self.alloc)
    }
}

/// `octets` after room for `n` more and for as many again, so that they are seldom moved; and how much
/// room that is. An error means out of memory.
fn with_more_room(octets: &[u8], n: usize, alloc: Global) -> Result<(Vec<u8>, usize), AllocError>
    ensures { IfOk result (λ p. (n ≤ p.1) × (p.1 ≤ length p.0.items)
        × (drop p.1 p.0.items ≡ octets.now)) }
{
    let room = n.checked_add(octets.len()).ok_or(AllocError)?;
    let len = room.checked_add(octets.len()).ok_or(AllocError)?;
    let mut larger = vec![in alloc; 0u8; len]?;
    larger[room..].copy_from_slice(octets);
    Ok((larger, room))
}
