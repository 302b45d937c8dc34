//! Messages one after another.

use crate::{Reading, watched};
use cms_canon::{Many, ManyFault, canonicalise_many};
use cms_tlv::{Buffered, Fault, Input, MAX_LIMIT, Output};
use std::alloc::{AllocError, Global};
use std::io::{BufReader, Read};

/// Canonicalises the messages that a reader gives, and writes the DER of each to `writer`.
pub(crate) fn convert_many<R: Read + Drop, W: Output>(
    alloc: Global,
    input: R,
    limit: u64,
    reading: Reading,
    writer: &mut W,
) -> Result<Many, ManyFault> {
    match reading {
        Reading::AtATime(most) => convert_each(alloc, watched(input, most), limit, writer),
        Reading::Buffer(capacity) => match BufReader::with_capacity(alloc, capacity, input) {
            Ok(buffer) => convert_each(alloc, Buffered::new(buffer), limit, writer),
            Err(_) => Err(ManyFault {
                done: 0,
                written: 0,
                fault: Fault::OutOfMemory,
            }),
        },
    }
}

fn convert_each<I: Input + Drop, W: Output>(
    alloc: Global,
    input: I,
    limit: u64,
    writer: &mut W,
) -> Result<Many, ManyFault> {
    let (_, done) = canonicalise_many(alloc, input, writer, limit.min(MAX_LIMIT));
    done
}

/// What is said of the messages on standard error.
pub(crate) fn told_of_many(
    alloc: Global,
    done: Result<Many, ManyFault>,
) -> Result<String, AllocError> {
    match done {
        Ok(
            Many {
                messages,
                read,
                written,
            },
        ) => format!(in alloc; "messages {messages} read {read} written {written}\n"),
        Err(fault) => format!(in alloc; "written {} {fault}\n", fault.written),
    }
}
