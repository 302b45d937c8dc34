//! A change.

/// What is changed.
#[derive(Clone, Copy, Debug, PartialEq, Eq)]
pub enum ChangeKind {
    /// An indefinite length is definite (X.690, 10.1). `first` is the new length, and `second` the place
    /// of the end-of-contents octets, which are left out.
    LengthMadeDefinite,
    /// A length is in the fewest octets (X.690, 10.1). `first` is the old length, and `second` the new
    /// one, which differs if what is inside it is changed.
    LengthInFewestOctets,
    /// A length, in the fewest octets, is that of changed contents. `first` is the old length, and
    /// `second` the new one.
    LengthOfWhatIsInside,
    /// A string in segments is primitive (X.690, 10.2). `first` is the number of its primitive segments,
    /// and `second` the number of their contents octets.
    SegmentsJoined,
    /// A member of a set has another place in it (X.690, 11.6). `first` is its old number, and `second`
    /// the new one, both from 0.
    Moved,
    /// The contents octet of a BOOLEAN is FF (X.690, 11.1). `first` is the old octet, and `second` is 255.
    Boolean,
    /// A field that has its default value is left out (X.690, 11.5). `first` and `second` are 0.
    DefaultOmitted,
    /// The zero bits at the end of a BIT STRING with a named-bit list are removed (X.690, 11.2.2), and
    /// its unused bits are zero. `first` is the old number of bits, and `second` the new one.
    TrailingZeroBitsRemoved,
    /// The unused bits of a BIT STRING are zero (X.690, 11.2.1). `first` and `second` are the number of
    /// its bits.
    UnusedBitsSetToZero,
}

/// A set whose members conversion puts in order, by the name of its field (RFC 5652, sections 5.1 and
/// 5.3).
#[derive(Clone, Copy, Debug, PartialEq, Eq)]
pub enum SetName {
    DigestAlgorithms,
    Certificates,
    Crls,
    SignerInfos,
    UnsignedAttrs,
    AttrValues,
}

/// A change from a message to its DER. Places and lengths are in octets, and places from 0.
#[derive(Clone, Copy, Debug, PartialEq, Eq)]
pub struct Change {
    pub kind: ChangeKind,
    /// Where what is changed begins in the message: a header of which the length is changed, the contents
    /// octet of a BOOLEAN, or else a whole element.
    pub at: usize,
    /// How many octets it has there.
    pub length: usize,
    /// Where it begins in the DER; if it is left out, where it would.
    pub to: usize,
    /// How many octets it has there: 0 if it is left out.
    pub to_length: usize,
    /// A number, by the kind.
    pub first: u64,
    /// Another number, by the kind.
    pub second: u64,
    /// The set whose member is moved; none for another kind.
    pub set: Option<SetName>,
}

impl Change {
    /// A change of these octets of the message to these of its DER.
    pub(super) fn new(kind: ChangeKind, read: (usize, usize), made: (usize, usize)) -> Change {
        Change {
            kind,
            at: read.0,
            length: read.1.saturating_sub(read.0),
            to: made.0,
            to_length: made.1.saturating_sub(made.0),
            first: 0,
            second: 0,
            set: None,
        }
    }

    /// The same with these numbers.
    pub(super) fn with(self, first: u64, second: u64) -> Change {
        Change {
            first,
            second,
            ..self
        }
    }

    /// What is changed, of the octets of the message.
    pub(super) fn before<'a>(&self, octets: &'a [u8]) -> &'a [u8] {
        part_of(octets, self.at, self.length)
    }

    /// What it is changed to, of the octets of the DER.
    pub(super) fn after<'a>(&self, der: &'a [u8]) -> &'a [u8] {
        part_of(der, self.to, self.to_length)
    }
}

/// So many octets from a place on; none if they are not all there.
fn part_of(octets: &[u8], at: usize, length: usize) -> &[u8] {
    if at <= octets.len() && length <= octets.len() - at {
        &octets[at..at + length]
    } else {
        &[]
    }
}
