//! Records put together from their parts: how a part is read, how it gives its DER to a sink, and the
//! laws that tie both to its spelling (ITU-T X.690).
//!
//! A record is a type, the term of its parts, and needs no reader, no writer and no proof of its own:
//!
//! ```text
//! // Attribute ::= SEQUENCE { attrType OBJECT IDENTIFIER, attrValue ANY OPTIONAL }
//! pub type AttributeSpans = Tagged<SEQUENCE, Then<OidSpan, Option<Opaque>>>;
//!
//! let mut source = Source::new(alloc, Slice::new(octets), 1 << 24);
//! let attribute = read(&mut source, &Bound::top());
//! let (_, kept) = source.finish();
//! let attribute: AttributeSpans = attribute.ok()?;
//! ```
//!
//! `cms_setof` computes its length and its DER, and whether octets are its DER.
//!
//! One element is a `Field`, and what lies between a header and its end is `Fields`. The laws of both
//! are the contract of `Write::law`:
//!
//! | a field | is |
//! |---|---|
//! | `Tagged<ID, A>` | an element with the identifier octet `ID` that holds the fields `A` |
//! | `Primitive<ID, K>` | a primitive element whose contents are of the kind `K` |
//! | `Constrained<ID, K, C>` | the same, with a further constraint `C` on the value |
//! | `Opaque` | an element of any kind, kept octet for octet |
//! | `OpaqueAmong<I>` | the same, with one of the identifiers `I`; with `ID` alone if `I` is `Only<ID>` |
//! | `AlreadyDer<T>` | the field `T`, which must already be DER, and is written as it was received |
//! | `Choice<A, B>` | the one field or the other, distinguished by the first octet |
//!
//! | fields | are |
//! |---|---|
//! | `Then<A, B>` | the field `A`, then the fields `B` |
//! | `OptionalThen<A, B>` | the field `A` or nothing, then the fields `B` |
//! | `Last<A>`, `Option<A>` | the last field; the last field, which may be absent |
//! | `Box<T>` | the fields `T`, in memory of their own, so that what holds them has one size |
//! | `ContentsChoice<A, R, B>` | the field `A` and the fields `R`, or else the fields `B`, distinguished by the first octet |
//! | `Selected<ID, K, S, A, B>` | a primitive field, then the fields `A` or `B` as `S` selects by its contents octets |
//!
//! Sets of fields are in `cms_setof`. If two parts of a record could not be distinguished, its `is_field`
//! is false, and its first use fails to check.
#![tactic(auto)]

mod among;
mod boxed;
mod choice;
mod contents;
mod contents_choice;
mod der;
mod element;
mod field;
mod indexed;
mod opaque;
mod primitive;
mod received;
mod record;
mod selected;
mod sink;
mod strict;
mod write;

pub use among::{Identifiers, Only, OpaqueAmong, OpaqueAmongOctets};
pub use choice::Choice;
pub use contents::{Last, OptionalThen, Then};
pub use contents_choice::ContentsChoice;
pub use der::read_der;
pub use element::{Tagged, read_after_header};
pub use field::{Field, Fields, read, spelled_values_are_values};
pub use indexed::{Indexed, Items};
pub use opaque::{Opaque, OpaqueOctets};
pub use primitive::{Constrained, Constraint, Primitive, Scalar};
pub use received::{Kind, Received};
pub use record::record_laws;
pub use selected::{Selected, Selector};
pub use sink::{Sink, Stop, emit_spans, spans_len};
pub use strict::{AlreadyDer, read_with_span};
pub use write::{Write, emit_element};
