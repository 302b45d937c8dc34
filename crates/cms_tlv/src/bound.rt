//! Where an element ends, and its header.
//!
//! The two fields of one octet in a `Header` are side by side: seven octets of padding after a field
//! are copied in two stores that overlap, each load after them waits for these, and headers take nearly
//! twice as long.
ghost use Rattle.std.specs.Prelude.{◌≡◌, true, false, None};

/// Where an element ends: at its own definite end or, if its length is indefinite, at the two octets
/// `00 00` (X.690, 8.1.3.6 and 8.1.5).
#[derive(Clone, Copy, Debug, PartialEq, Eq)]
pub struct Bound {
    /// Its own end if that is definite, else the innermost definite end around it: an offset in octets,
    /// counted from 0 at the first octet of the message.
    pub end: Option<u64>,
    /// Its own end is `00 00`.
    pub indefinite: bool,
    /// It lies inside signed attributes, where each length is definite and the shortest.
    pub strict: bool,
}

impl Bound {
    /// The bound outside every element: indefinite, with no definite end around it.
    pub fn top() -> Bound
        ensures { result ≡ record { end = None; indefinite = true; strict = false } }
    {
        Bound {
            end: None,
            indefinite: true,
            strict: false,
        }
    }

    /// A bound with this end, inside signed attributes.
    pub fn strict(self) -> Bound
        ensures { result ≡ record self { strict = true } }
    {
        Bound {
            strict: true,
            ..self
        }
    }
}

/// An identifier and a length (X.690, 8.1.2 and 8.1.3).
#[derive(Clone, Copy, Debug, PartialEq, Eq)]
pub struct Header {
    /// The first identifier octet.
    pub ident: u8,
    /// The length is definite, in the fewest octets.
    pub shortest: bool,
    /// How many octets the contents have; none if the length is indefinite.
    pub len: Option<u64>,
    /// Where the contents end.
    pub inner: Bound,
}
