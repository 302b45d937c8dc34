//! The values of members.

use crate::values::{Hex, HexOctets, Listed, append_arcs};
use cms_scalars::{Integer, NamedBits, Octets, Oid};
use std::alloc::AllocError;

/// A value that JSON has.
pub(crate) trait Json {
    /// Appends its JSON to `text`. An error means out of memory.
    fn append_json(&self, text: &mut String) -> Result<(), AllocError>;
}

/// Appends words between quotation marks. There is nothing in them that JSON escapes.
pub(super) fn append_quoted<T: Listed>(words: &T, text: &mut String) -> Result<(), AllocError> {
    text.push('"')?;
    words.append(text)?;
    text.push('"')
}

impl Json for &str {
    fn append_json(&self, text: &mut String) -> Result<(), AllocError> {
        append_quoted(self, text)
    }
}

impl Json for bool {
    fn append_json(&self, text: &mut String) -> Result<(), AllocError> {
        self.append(text)
    }
}

impl Json for u64 {
    fn append_json(&self, text: &mut String) -> Result<(), AllocError> {
        self.append(text)
    }
}

/// A value that may be absent.
impl<T: Json> Json for Option<T> {
    fn append_json(&self, text: &mut String) -> Result<(), AllocError> {
        match self {
            Some(value) => value.append_json(text),
            None => text.push_str("null"),
        }
    }
}

/// An element, in hexadecimal.
impl Json for &[u8] {
    fn append_json(&self, text: &mut String) -> Result<(), AllocError> {
        append_quoted(&Hex(self), text)
    }
}

/// An OCTET STRING, in hexadecimal.
impl Json for Octets<'_> {
    fn append_json(&self, text: &mut String) -> Result<(), AllocError> {
        append_quoted(&HexOctets(*self), text)
    }
}

/// An OBJECT IDENTIFIER, without its name.
impl Json for Oid<'_> {
    fn append_json(&self, text: &mut String) -> Result<(), AllocError> {
        text.push('"')?;
        append_arcs(self, text)?;
        text.push('"')
    }
}

/// In decimal if all readers of JSON keep it; else as text: `0x` and the contents octets.
impl Json for Integer<'_> {
    fn append_json(&self, text: &mut String) -> Result<(), AllocError> {
        match exact(self.octets()) {
            Some(number) => number.append(text),
            None => {
                text.push_str("\"0x")?;
                Hex(self.octets()).append(text)?;
                text.push('"')
            }
        }
    }
}

/// The largest whole number that all readers of JSON keep (RFC 8259, section 6).
const EXACT: i64 = (1 << 53) - 1;

/// The number that octets stand for in two's complement, if all readers of JSON keep it.
fn exact(octets: &[u8]) -> Option<i64> {
    let mut number: i64 = match octets {
        [first, ..] if *first >= 0x80 => -1,
        _ => 0,
    };
    for octet in octets {
        if number < -EXACT || number > EXACT {
            return None;
        }
        number = number * 256 + i64::from(*octet);
    }
    if number < -EXACT || number > EXACT {
        return None;
    }
    Some(number)
}

/// The numbers of the bits that are set, in ascending order.
impl Json for NamedBits<'_> {
    fn append_json(&self, text: &mut String) -> Result<(), AllocError> {
        text.push('[')?;
        let mut between = "";
        for number in 0..self.width() {
            if self.has(number) {
                text.push_str(between)?;
                number.append(text)?;
                between = ", ";
            }
        }
        text.push(']')
    }
}
