//! A block as it is written.
ghost use Rattle.std.specs.Prelude.{◌≡◌, ◌++◌, IfOk, OnOk};
ghost use Rattle.cms_pem.specs.Pem.{lines_of, pem_of};

use base64::engine::general_purpose::STANDARD;
use std::alloc::{AllocError, Global};

/// How many characters of base64 are in a line.
const LINE: usize = 64;

/// A block of PEM with these octets (RFC 7468, section 3): its base64 is in lines of 64 characters, and
/// each line ends with LF. An error means out of memory.
pub fn pem_of(alloc: Global, label: &str, octets: &[u8]) -> Result<Vec<u8>, AllocError>
    ensures { IfOk result (λ v. v.items ≡ pem_of label.now octets.now) }
{
    let symbols = STANDARD.encode(alloc, octets)?;
    let mut text = Vec::new(alloc);
    text.extend_from_slice(b"-----BEGIN ")?;
    text.extend_from_slice(label.as_bytes())?;
    text.extend_from_slice(b"-----\n")?;
    put_lines(symbols.as_bytes(), &mut text)?;
    text.extend_from_slice(b"-----END ")?;
    text.extend_from_slice(label.as_bytes())?;
    text.extend_from_slice(b"-----\n")?;
    Ok(text)
}

/// Appends characters in lines.
fn put_lines(symbols: &[u8], text: &mut Vec<u8>) -> Result<(), AllocError>
    ensures { OnOk result (text.new.items ≡ text.old.items ++ lines_of symbols.now) }
{
    let mut rest = symbols;
    while !rest.is_empty() {
        let (line, after) = rest.split_at(LINE.min(rest.len()));
        text.extend_from_slice(line)?;
        text.push(b'\n')?;
        rest = after;
    }
    Ok(())
}
