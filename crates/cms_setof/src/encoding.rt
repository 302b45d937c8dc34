//! What is computed by walking a value.
ghost use Rattle.std.specs.Prelude.{◌≡◌, ◌++◌, length, true, OnOk, OnErr, IfOk};
ghost use Rattle.cms_tlv.specs.Spelling.{element, der};
ghost use Rattle.std.specs.List.{All};
ghost use Rattle.cms_fields.specs.Assembly.{unmarked, IsAssembled};
ghost use Rattle.cms_fields.specs.Writing.{IsWritten, Writes, HasLength};
ghost use Rattle.cms_setof.specs.Gathering.{octets_of_parts};
ghost use Rattle.cms_setof.specs.Pieces.{marked_pieces, HasOctets, AreJoined};

use crate::comparing::Comparing;
use crate::count::Count;
use crate::gathered::Gathered;
use crate::gathering::Gathering;
use crate::joining::in_order;
use crate::piece::Piece;
use crate::tracing::Tracing;
use cms_fields::{Sink, Write, emit_element};
use std::alloc::{AllocError, Global};

/// How many octets a header has at most, if its identifier is one octet.
const MOST_OF_A_HEADER: u64 = 10;

/// How long an encoding is.
#[derive(Clone, Copy)]
pub struct EncodedLen {
    /// How many octets it has, or `u64::MAX` if there are more.
    pub octets: u64,
    /// The string in it that may be borrowed.
    pub long_string: Option<LongString>,
}

/// A long string in an encoding.
#[derive(Clone, Copy)]
pub struct LongString {
    /// How many octets it has.
    pub octets: u64,
    /// How many octets of the encoding come after it.
    pub after: u64,
}

/// How long the encoding of a value is.
pub fn encoded_len<T: Write>(value: &T, kept: &[u8]) -> EncodedLen
    requires { T.grammar.is_value (T.value kept.now value.now) }
    ensures { HasLength (T.grammar.spelled der) T.grammar.same
        (T.value kept.now value.now) result.octets }
{
    let mut count = Count {
        octets: 0,
        long_string: None,
    };
    match value.emit(kept, &mut count) {
        Ok(()) => EncodedLen {
            octets: count.count(),
            long_string: count.long_string,
        },
        Err(_) => EncodedLen {
            octets: u64::MAX,
            long_string: None,
        },
    }
}

/// Whether the kept octets are the encoding of a value. They may be although this says no.
pub fn is_encoding<T: Write>(value: &T, kept: &[u8]) -> bool
    requires { T.grammar.is_value (T.value kept.now value.now) }
    ensures written { result ≡ true → IsWritten (T.grammar.spelled der) T.grammar.same
        (T.value kept.now value.now) kept.now }
    ensures length { result ≡ true → HasLength (T.grammar.spelled der) T.grammar.same
        (T.value kept.now value.now) (length kept.now) }
{
    let mut comparing = Comparing {
        at: kept.len(),
        count: 0,
    };
    value.emit(kept, &mut comparing).is_ok() && comparing.at == 0
}

/// The encoding of a value, in which the long string of `len` may be borrowed. An error means out of
/// memory.
pub fn gather<T: Write>(
    value: &T,
    len: EncodedLen,
    alloc: Global,
    kept: &[u8],
) -> Result<Gathered, AllocError>
    requires { T.grammar.is_value (T.value kept.now value.now) }
    ensures { IfOk result (λ g. IsWritten (T.grammar.spelled der) T.grammar.same
        (T.value kept.now value.now) (octets_of_parts kept.now g)) }
{
    let mut sink = Gathering::new(alloc, len)?;
    match value.emit(kept, &mut sink) {
        Ok(()) => Ok(sink.gathered),
        Err(_) => Err(AllocError),
    }
}

/// Of which octets the encoding of a value is made up: those that are copied from the input, by spans in
/// `kept`, and those that are made, which are headers, the contents of a BOOLEAN, and named bits. No two
/// neighbours could be one piece. An error means out of memory.
pub fn pieces<T: Write>(value: &T, alloc: Global, kept: &[u8]) -> Result<Vec<Piece>, AllocError>
    requires { T.grammar.is_value (T.value kept.now value.now) }
    ensures written { IfOk result (λ v. IsWritten (T.grammar.spelled der) T.grammar.same
        (T.value kept.now value.now) (unmarked (marked_pieces kept.now v.items))) }
    ensures assembled { IfOk result (λ v. IsAssembled T.grammar.assembled T.grammar.same
        (T.value kept.now value.now) (marked_pieces kept.now v.items)) }
    ensures have { IfOk result (λ v. All (HasOctets kept.now) v.items) }
    ensures joined { IfOk result (λ v. AreJoined v.items) }
{
    let mut tracing = Tracing::new(alloc);
    match value.emit(kept, &mut tracing) {
        Ok(()) => in_order(tracing.pieces, kept, alloc),
        Err(_) => Err(AllocError),
    }
}

/// Appends the encoding of a value. An error means out of memory; `out` is then as it was.
pub fn put<T: Write>(
    value: &T,
    alloc: Global,
    kept: &[u8],
    out: &mut Vec<u8>,
) -> Result<(), AllocError>
    requires { T.grammar.is_value (T.value kept.now value.now) }
    ensures ok { OnOk result (Writes (T.grammar.spelled der) T.grammar.same
        (T.value kept.now value.now) out.old.items out.new.items) }
    ensures err { OnErr result (out.new.items ≡ out.old.items) }
{
    put_with_len(value, encoded_len(value, kept), alloc, kept, out)
}

/// `put` for a value whose encoding is so long.
pub fn put_with_len<T: Write>(
    value: &T,
    len: EncodedLen,
    alloc: Global,
    kept: &[u8],
    out: &mut Vec<u8>,
) -> Result<(), AllocError>
    requires { T.grammar.is_value (T.value kept.now value.now) }
    ensures ok { OnOk result (Writes (T.grammar.spelled der) T.grammar.same
        (T.value kept.now value.now) out.old.items out.new.items) }
    ensures err { OnErr result (out.new.items ≡ out.old.items) }
{
    let in_one_piece = EncodedLen {
        octets: len.octets,
        long_string: None,
    };
    let der = gather(value, in_one_piece, alloc, kept)?;
    append(der.into_octets(kept, alloc)?, out)
}

/// Appends an element with the identifier octet `ident` that holds the encoding of `contents`. An error
/// means out of memory; `out` is then as it was.
pub fn put_element<T: Write>(
    ident: u8,
    contents: &T,
    alloc: Global,
    kept: &[u8],
    out: &mut Vec<u8>,
) -> Result<(), AllocError>
    requires { T.grammar.is_value (T.value kept.now contents.now) }
    ensures ok { OnOk result (Writes (element der ident (T.grammar.spelled der)) T.grammar.same
        (T.value kept.now contents.now) out.old.items out.new.items) }
    ensures err { OnErr result (out.new.items ≡ out.old.items) }
{
    let len = EncodedLen {
        octets: encoded_len(contents, kept)
            .octets
            .saturating_add(MOST_OF_A_HEADER),
        long_string: None,
    };
    let mut sink = Gathering::new(alloc, len)?;
    match emit_element(ident, contents, kept, &mut sink) {
        Ok(()) => append(sink.gathered.into_octets(kept, alloc)?, out),
        Err(_) => Err(AllocError),
    }
}

/// Appends `octets`. An error means out of memory; `out` is then as it was.
fn append(octets: Vec<u8>, out: &mut Vec<u8>) -> Result<(), AllocError>
    ensures ok { OnOk result (out.new.items ≡ out.old.items ++ octets.items) }
    ensures err { OnErr result (out.new.items ≡ out.old.items) }
{
    // The octets of a long message are not copied again.
    if out.is_empty() {
        *out = octets;
        return Ok(());
    }
    out.extend_from_slice(&octets)
}
