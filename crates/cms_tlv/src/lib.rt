//! Octets in and out: headers, bounds and contents are read from a reader that may end or fail at any
//! octet; headers and octets are written to a writer.
//!
//! A `Source` takes octets from an `Input`, keeps each of them, and returns the elements that they
//! spell (ITU-T X.690, section 8.1). After a fault, every later call that can fail returns the same
//! fault.
//!
//! ```text
//! pub fn number_in<R: Input>(source: &mut Source<R>) -> Result<Span, Fault>
//! {
//!     let sequence = source.enter(&Bound::top(), SEQUENCE)?;
//!     let number = source.primitive(&sequence, INTEGER)?;
//!     source.close(sequence)?;
//!     Ok(number)
//! }
//!
//! let mut source = Source::new(alloc, Slice::new(b"\x30\x03\x02\x01\x05"), 100);
//! let number = number_in(&mut source);
//! let (_, kept) = source.finish();
//! let octets = number?.octets(&kept);               // 05
//! ```
//!
//! A `Source` is always finished: it is never dropped, and so no `?` returns before `finish`.
#![tactic(auto)]

mod bound;
mod contents;
mod element;
mod fault;
mod field;
mod found;
mod header;
mod input;
mod laws;
mod opaque;
mod output;
mod primitives;
mod scanner;
mod source;
mod span;
mod spans;
mod tags;
mod watched;
mod whole;
mod writing;

pub use bound::{Bound, Header};
pub use element::{first_contents, first_element};
pub use fault::{Fault, Reason};
pub use input::{Input, Slice};
pub use laws::{
    elements_have_one_contents, first_elements_are_elements, framed_values_are_frames,
    frames_end_themselves, hopeless_octets_begin_no_frame, lengths_are_one,
    no_path_enters_a_primitive_element,
};
pub use output::{Output, pour};
pub use scanner::Scanner;
pub use source::{MAX_LIMIT, Source};
pub use span::Span;
pub use spans::{BorrowedSpans, NearSpan, Spans};
pub use tags::{
    BIT_STRING, BOOLEAN, CONTEXT_0, CONTEXT_0_PRIMITIVE, CONTEXT_1, CONTEXT_1_PRIMITIVE, CONTEXT_2,
    CONTEXT_3, GENERALIZED_TIME, INTEGER, OBJECT_IDENTIFIER, OCTET_STRING, SEQUENCE, SET,
};
pub use watched::{Buffered, Watched};
pub use whole::short_length;
pub use writing::{header_len, header_octets, put_header};
