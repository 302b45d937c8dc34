//! The headers of elements (X.690, 8.1.2 and 8.1.3), among octets that are accepted: nothing is refused.

use cms_tlv::header_len;

/// A header.
#[derive(Clone, Copy)]
pub(super) struct Head {
    /// The first identifier octet.
    pub(super) ident: u8,
    /// Where the element begins.
    pub(super) at: usize,
    /// Where its contents begin.
    pub(super) begin: usize,
    /// Where its contents end; none if end-of-contents octets say so.
    pub(super) end: Option<usize>,
}

impl Head {
    /// Whether what it is the header of has elements inside.
    pub(super) fn is_constructed(&self) -> bool {
        self.ident / 32 % 2 == 1
    }

    /// Whether the type of both is the same, in whatever form.
    pub(super) fn has_type_of(&self, other: &Head) -> bool {
        self.ident & 0xdf == other.ident & 0xdf
    }

    /// How many octets the contents have; none if the length is indefinite.
    pub(super) fn length(&self) -> Option<u64> {
        match self.end {
            Some(end) => Some(end.saturating_sub(self.begin) as u64),
            None => None,
        }
    }

    /// Whether the length is in as few octets as can be (X.690, 10.1). An indefinite one is not.
    pub(super) fn is_shortest(&self) -> bool {
        match self.length() {
            Some(length) => header_len(length) == self.begin.saturating_sub(self.at) as u64,
            None => false,
        }
    }
}

/// The header at a place; none if there is no whole one, or if its contents would not be all there.
pub(super) fn head_at(octets: &[u8], at: usize) -> Option<Head> {
    let ident = *octets.get(at)?;
    let place = after_identifier(octets, at)?;
    let first = *octets.get(place)?;
    let after_first = place.saturating_add(1);
    let count = if first < 0x80 { 0 } else { first - 0x80 };
    let begin = after_first.saturating_add(count as usize);
    let end = if first == 0x80 {
        None
    } else if first < 0x80 {
        Some(end_of(octets, begin, first as usize)?)
    } else {
        Some(end_of(octets, begin, number_in(octets, after_first, begin)?)?)
    };
    Some(Head {
        ident,
        at,
        begin,
        end,
    })
}

/// Where so many octets end that begin at a place; none if they are not all there.
fn end_of(octets: &[u8], begin: usize, length: usize) -> Option<usize> {
    let end = begin.checked_add(length)?;
    if end > octets.len() {
        return None;
    }
    Some(end)
}

/// Where the identifier octets end that begin at a place.
fn after_identifier(octets: &[u8], at: usize) -> Option<usize> {
    if *octets.get(at)? % 32 != 31 {
        return Some(at.saturating_add(1));
    }
    for place in at.saturating_add(1)..octets.len() {
        if *octets.get(place)? < 0x80 {
            return Some(place.saturating_add(1));
        }
    }
    None
}

/// The number in these octets, the most significant first; none if it is too large.
fn number_in(octets: &[u8], begin: usize, end: usize) -> Option<usize> {
    let mut number: usize = 0;
    for place in begin..end {
        let octet = *octets.get(place)?;
        number = number.checked_mul(256)?.checked_add(octet as usize)?;
    }
    Some(number)
}

/// Whether end-of-contents octets are at a place (X.690, 8.1.5).
pub(super) fn ends_contents(octets: &[u8], at: usize) -> bool {
    octets.get(at) == Some(&0) && octets.get(at.saturating_add(1)) == Some(&0)
}
