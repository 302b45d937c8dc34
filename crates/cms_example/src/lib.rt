//! What the library promises, as one contract, and how it is used. Of any two inputs in memory:
//!
//! ```text
//! pub fn both(alloc: Global, a: &[u8], b: &[u8]) -> Option<(Vec<u8>, Vec<u8>)>
//!     ensures der_of_a { IfSome result (λ p. IsAcceptedAs whole_message same_message
//!         (2 ^ 24) a.now p.0.items) }
//!     ensures der_of_b { IfSome result (λ p. IsAcceptedAs whole_message same_message
//!         (2 ^ 24) b.now p.1.items) }
//!     ensures same { IfSome result (λ p. (p.0.items ≡ p.1.items)
//!         ↔ ((v : MessageValue) × Denotes whole_message same_message (2 ^ 24) a.now v
//!         × Denotes whole_message same_message (2 ^ 24) b.now v)) }
//!     ensures kept { IfSome result (λ p. KeepsReceived a.now p.0.items
//!         × KeepsReceived b.now p.1.items) }
//!     ensures again { IfSome result (λ p. IsReadAlone whole_message same_message (2 ^ 24) p.0.items
//!         × IsReadAlone whole_message same_message (2 ^ 24) p.1.items) }
//! ```
//!
//! It follows from the public contracts of the crates below, as those of the other calls here. That of
//! `written_or_refused` says what is true of an input that is refused. docs/HEADLINE.md says both in words,
//! and has each definition that they reach.
//!
//! - **What is read from** is an `Input`: `Slice` over octets in memory, `Buffered` over a `BufReader`, or
//!   `Watched` over another reader of std, which is slower.
//! - **What is written to** is an `Output`: `Watched` over a writer of std, such as a `Vec`. Its
//!   `into_inner` returns that writer.
//! - **`canonicalise`** takes both, a limit of octets (at most `MAX_LIMIT`) for the message and for its
//!   DER, and what may follow the message. It returns the reader as well. `Ok` says how many octets were
//!   read and written; `Err` is a `Fault`, whose text is a line for a user.
//! - To look into a message: `read_message` keeps it, and `Message::view` lends its fields.
//! - **A law** is a function that does nothing: a caller calls it for its contract, as `are_one_message` does.
//!
//! The contract of `canonicalise` is about the reader and the writer, before and after the call. If
//! their octets are known, as octets in memory are, it says which were read and which were written;
//! `proofs/Memory.antt` has the lemmas that this needs.
#![tactic(auto)]

mod sketches;

ghost use Rattle.std.specs.Prelude.{◌≡◌, ◌^◌, ◌↔◌, IfSome, IfOk, IfErr, IsTrue};
ghost use Rattle.cms_canon.specs.Denotes.{Denotes, IsReadAlone, IsAcceptedAs};
ghost use Rattle.cms_canon.specs.Kinds.{MessageValue, whole_message, same_message};
ghost use Rattle.cms_canon.specs.Messages.{FaultOf};
ghost use Rattle.cms_canon.specs.Received.{KeepsReceived};

use cms_canon::{
    Tail, canonicalise, equal_octets_are_the_same_message, message_octets_are_kept, put_message,
    read_message, what_is_written_is_written_again,
};
use cms_tlv::{Fault, Slice, Watched};
pub use sketches::{breaks, content_info_in_der};
use std::alloc::Global;

/// What two inputs in memory are written as, if each is a message of at most 16 MiB whose DER has at most
/// 16 MiB; else none. If memory runs out, it is none too: no clause says when that is.
///
/// What is written for each is DER of a message that is the same. The octets are equal if and only if
/// there is a message that both inputs denote, with sets taken as multisets. The content, what
/// signatures cover and everything else that is opaque are kept. What is written is accepted as
/// itself; and if octets follow it, no others with which the whole begins are a message.
pub fn both(alloc: Global, a: &[u8], b: &[u8]) -> Option<(Vec<u8>, Vec<u8>)>
    ensures der_of_a { IfSome result (λ p. IsAcceptedAs whole_message same_message
        (2 ^ 24) a.now p.0.items) }
    ensures der_of_b { IfSome result (λ p. IsAcceptedAs whole_message same_message
        (2 ^ 24) b.now p.1.items) }
    ensures same { IfSome result (λ p. (p.0.items ≡ p.1.items)
        ↔ ((v : MessageValue) × Denotes whole_message same_message (2 ^ 24) a.now v
        × Denotes whole_message same_message (2 ^ 24) b.now v)) }
    ensures kept { IfSome result (λ p. KeepsReceived a.now p.0.items
        × KeepsReceived b.now p.1.items) }
    ensures again { IfSome result (λ p. IsReadAlone whole_message same_message (2 ^ 24) p.0.items
        × IsReadAlone whole_message same_message (2 ^ 24) p.1.items) }
{
    equal_octets_are_the_same_message();
    message_octets_are_kept();
    what_is_written_is_written_again();
    let a = written(alloc, a)?;
    let b = written(alloc, b)?;
    Some((a, b))
}

/// What is written for a message of at most 16 MiB; none if the octets are not such a message, or if
/// memory runs out.
#[tactic(auto, using(crate::proofs::Memory::of_memory))]
pub fn written(alloc: Global, octets: &[u8]) -> Option<Vec<u8>>
    ensures { IfSome result (λ o. IsAcceptedAs whole_message same_message
        (2 ^ 24) octets.now o.items) }
{
    let mut writer = Watched::new(Vec::new(alloc));
    let reader = Slice::new(octets);
    let (_, done) = canonicalise(alloc, reader, &mut writer, 1 << 24, Tail::Refuse);
    match done {
        Ok(_) => Some(writer.into_inner()),
        Err(_) => None,
    }
}

/// What is written for a message of at most 16 MiB whose DER has at most 16 MiB, or why nothing is.
///
/// The octets that a refusal counts are hopeless: whatever follows them, the whole does not begin with
/// such a message. Or it is E1, and the input is a proper prefix of a frame; or E2, and the octets are a
/// message whose DER is too long; or E18, and they are a message and one octet more.
pub fn written_or_refused(alloc: Global, octets: &[u8]) -> Result<Vec<u8>, Fault>
    ensures der { IfOk result (λ o. IsAcceptedAs whole_message same_message
        (2 ^ 24) octets.now o.items) }
    ensures refused { IfErr result (FaultOf (2 ^ 24) octets.now) }
{
    let (_, message) = read_message(alloc, Slice::new(octets), 1 << 24, Tail::Refuse);
    let message = message?;
    let mut der = Vec::new(alloc);
    match put_message(alloc, &message, &mut der) {
        Ok(()) => Ok(der),
        Err(_) => Err(Fault::OutOfMemory),
    }
}

/// Whether two inputs are the same message, with sets taken as multisets.
pub fn are_one_message(alloc: Global, a: &[u8], b: &[u8]) -> Option<bool>
    ensures { IfSome result (λ same. IsTrue same
        ↔ ((v : MessageValue) × Denotes whole_message same_message (2 ^ 24) a.now v
        × Denotes whole_message same_message (2 ^ 24) b.now v)) }
{
    equal_octets_are_the_same_message();
    let a = written(alloc, a)?;
    let b = written(alloc, b)?;
    Some(a.as_slice() == b.as_slice())
}
