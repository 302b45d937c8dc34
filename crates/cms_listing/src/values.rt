//! The values that a listing shows, in words.

use cms_message::{AlgorithmIdentifier, Attribute, SignerIdentifier};
use cms_scalars::{GenTime, Integer, NamedBits, Octets, Oid};
use cms_tsp::{Accuracy, MessageImprint};
use std::alloc::AllocError;
use std::fmt::Write;

/// A value that a listing shows.
pub(crate) trait Listed {
    /// Appends its words to `text`. An error means out of memory.
    fn append(&self, text: &mut String) -> Result<(), AllocError>;
}

impl Listed for &str {
    fn append(&self, text: &mut String) -> Result<(), AllocError> {
        text.push_str(self)
    }
}

impl Listed for bool {
    fn append(&self, text: &mut String) -> Result<(), AllocError> {
        text.push_str(if *self { "true" } else { "false" })
    }
}

impl Listed for u64 {
    fn append(&self, text: &mut String) -> Result<(), AllocError> {
        write!(text, "{self}")
    }
}

impl Listed for i64 {
    fn append(&self, text: &mut String) -> Result<(), AllocError> {
        write!(text, "{self}")
    }
}

/// A value that may be absent.
impl<T: Listed> Listed for Option<T> {
    fn append(&self, text: &mut String) -> Result<(), AllocError> {
        match self {
            Some(value) => value.append(text),
            None => text.push_str("absent"),
        }
    }
}

/// Two values, with a space between them.
impl<A: Listed, B: Listed> Listed for (A, B) {
    fn append(&self, text: &mut String) -> Result<(), AllocError> {
        let (first, second) = self;
        first.append(text)?;
        text.push(' ')?;
        second.append(text)
    }
}

/// Octets of which only the number is listed.
#[derive(Clone, Copy)]
pub(crate) struct OctetCount(u64);

impl OctetCount {
    /// Those of an element, with its header.
    pub(crate) fn of(element: &[u8]) -> OctetCount {
        OctetCount(element.len() as u64)
    }

    /// Those of an OCTET STRING, without its headers.
    pub(crate) fn of_string(string: Octets<'_>) -> OctetCount {
        OctetCount(string.total())
    }
}

impl Listed for OctetCount {
    fn append(&self, text: &mut String) -> Result<(), AllocError> {
        self.0.append(text)?;
        text.push_str(" octets")
    }
}

/// Octets in hexadecimal.
#[derive(Clone, Copy)]
pub(crate) struct Hex<'a>(pub(crate) &'a [u8]);

impl Listed for Hex<'_> {
    fn append(&self, text: &mut String) -> Result<(), AllocError> {
        let digits = hex::encode(*text.allocator(), self.0)?;
        text.push_str(&digits)
    }
}

/// An OCTET STRING in hexadecimal.
#[derive(Clone, Copy)]
pub(crate) struct HexOctets<'a>(pub(crate) Octets<'a>);

impl Listed for HexOctets<'_> {
    fn append(&self, text: &mut String) -> Result<(), AllocError> {
        for piece in self.0 {
            Hex(piece).append(text)?;
        }
        Ok(())
    }
}

/// In decimal, if it is not negative and is below 2^64.
impl Listed for Integer<'_> {
    fn append(&self, text: &mut String) -> Result<(), AllocError> {
        match self.to_u64() {
            Some(number) => number.append(text),
            None => {
                text.push_str("0x")?;
                Hex(self.octets()).append(text)
            }
        }
    }
}

/// Its arcs, and its name.
impl Listed for Oid<'_> {
    fn append(&self, text: &mut String) -> Result<(), AllocError> {
        append_arcs(self, text)?;
        text.push(' ')?;
        text.push_str(self.name().unwrap_or("-"))
    }
}

/// Appends the arcs of an OBJECT IDENTIFIER, or its contents octets if an arc is too large for a `u64`.
/// An error means out of memory.
pub(crate) fn append_arcs(oid: &Oid<'_>, text: &mut String) -> Result<(), AllocError> {
    match oid.dotted(*text.allocator())? {
        Some(arcs) => text.push_str(&arcs),
        None => {
            text.push_str("hex:")?;
            Hex(oid.octets()).append(text)
        }
    }
}

/// NULL (X.690, section 8.8).
const NULL: &[u8] = b"\x05\x00";

/// The parameters of an algorithm, one element.
#[derive(Clone, Copy)]
struct Parameters<'a>(Option<&'a [u8]>);

impl Listed for Parameters<'_> {
    fn append(&self, text: &mut String) -> Result<(), AllocError> {
        match self.0 {
            None => text.push_str("absent"),
            Some(element) if element == NULL => text.push_str("null"),
            Some(element) => Hex(element).append(text),
        }
    }
}

impl Listed for AlgorithmIdentifier<'_> {
    fn append(&self, text: &mut String) -> Result<(), AllocError> {
        (self.algorithm(), Parameters(self.parameters())).append(text)
    }
}

/// Its type, and how many values it has.
impl Listed for Attribute<'_> {
    fn append(&self, text: &mut String) -> Result<(), AllocError> {
        (self.attr_type(), self.count()).append(text)
    }
}

impl Listed for SignerIdentifier<'_> {
    fn append(&self, text: &mut String) -> Result<(), AllocError> {
        match self {
            SignerIdentifier::IssuerAndSerialNumber(issuer, serial_number) => {
                (("issuer", Hex(issuer)), ("serial", *serial_number)).append(text)
            }
            SignerIdentifier::SubjectKeyIdentifier(key) => ("key", HexOctets(*key)).append(text),
        }
    }
}

impl Listed for MessageImprint<'_> {
    fn append(&self, text: &mut String) -> Result<(), AllocError> {
        (self.hash_algorithm(), HexOctets(self.hashed_message())).append(text)
    }
}

/// The numbers of the bits that are set, in ascending order.
impl Listed for NamedBits<'_> {
    fn append(&self, text: &mut String) -> Result<(), AllocError> {
        let width = self.width();
        if width == 0 {
            return text.push_str("none");
        }
        let mut between = "";
        for number in 0..width {
            if self.has(number) {
                text.push_str(between)?;
                number.append(text)?;
                between = " ";
            }
        }
        Ok(())
    }
}

/// What stands before each two digits of a time.
const BEFORE: [&str; 7] = ["", "", "-", "-", "T", ":", ":"];

/// The time, and its seconds since the beginning of 1970.
impl Listed for GenTime {
    fn append(&self, text: &mut String) -> Result<(), AllocError> {
        append_date_and_time(self, text)?;
        if !self.fraction().is_empty() {
            text.push('.')?;
            append_digits(self.fraction(), text)?;
        }
        ("Z", self.unix_seconds()).append(text)
    }
}

/// Appends a time without its fraction, as `2024-02-29T12:00:00`. An error means out of memory.
pub(crate) fn append_date_and_time(time: &GenTime, text: &mut String) -> Result<(), AllocError> {
    for (before, digits) in BEFORE.iter().zip(time.digits().chunks(2)) {
        text.push_str(before)?;
        append_digits(digits, text)?;
    }
    Ok(())
}

/// Appends decimal digits. An error means out of memory.
pub(crate) fn append_digits(digits: &[u8], text: &mut String) -> Result<(), AllocError> {
    for digit in digits {
        text.push(char::from(*digit))?;
    }
    Ok(())
}

/// A part of an accuracy, if it is present.
#[derive(Clone, Copy)]
struct Part<'a>(Option<Integer<'a>>);

impl Listed for Part<'_> {
    fn append(&self, text: &mut String) -> Result<(), AllocError> {
        match self.0 {
            Some(number) => number.append(text),
            None => text.push('-'),
        }
    }
}

/// Its seconds, milliseconds and microseconds.
impl Listed for Accuracy<'_> {
    fn append(&self, text: &mut String) -> Result<(), AllocError> {
        let fraction = (Part(self.millis()), Part(self.micros()));
        (Part(self.seconds()), fraction).append(text)
    }
}
