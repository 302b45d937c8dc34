//! Identifiers and lengths, written.
ghost use Rattle.std.specs.Prelude.{◌≡◌, ℕ, ◌+◌, ◌≤◌, List, drop, length, OnOk, OnErr};
ghost use Rattle.cms_tlv.specs.Headers.{IsShortLength};
ghost use Rattle.cms_tlv.specs.internal.Digits.{AreDigits};
ghost use Rattle.cms_tlv.specs.Writing.{AppendsHeader, IsDerHeader};

use std::alloc::AllocError;

/// A number in the fewest octets, at the end of an array, and where these octets begin.
fn digits(n: u64) -> ([u8; 10], usize)
    ensures digits { AreDigits (drop result.1 result.0) n }
    ensures room { 2 ≤ result.1 }
    ensures end { result.1 ≤ 10 }
    ensures len { length result.0 ≡ 10 }
{
    let mut octets = [0u8; 10];
    let mut start = 10;
    let mut rest = n;
    while rest > 0 {
        start -= 1;
        octets[start] = (rest % 256) as u8;
        rest /= 256;
    }
    (octets, start)
}

/// How many octets a one-octet identifier and the shortest length octets of `n` have together: 2 to 10
/// (X.690, 10.1).
pub fn header_len(n: u64) -> u64
    ensures length { (l : List ℕ) → IsShortLength l n → result ≡ 1 + length l }
    ensures least { 2 ≤ result }
    ensures most { result ≤ 10 }
{
    if n < 0x80 {
        2
    } else {
        let (_, start) = digits(n);
        12 - start as u64
    }
}

/// The identifier octet `ident` and the shortest length octets of `n` (X.690, 10.1), at the end of an
/// array, and where they begin.
pub fn header_octets(ident: u8, n: u64) -> ([u8; 10], usize)
    ensures header { IsDerHeader ident n (drop result.1 result.0) }
    ensures end { result.1 ≤ 8 }
    ensures len { length result.0 ≡ 10 }
{
    if n < 0x80 {
        return ([0, 0, 0, 0, 0, 0, 0, 0, ident, n as u8], 8);
    }
    let (mut octets, start) = digits(n);
    octets[start - 2] = ident;
    octets[start - 1] = 0x8a - start as u8;
    (octets, start - 2)
}

/// Appends the identifier octet `ident` and the shortest length octets of `n` (X.690, 10.1). On an
/// error, `out` is as it was.
pub fn put_header(out: &mut Vec<u8>, ident: u8, n: u64) -> Result<(), AllocError>
    ensures ok { OnOk result (AppendsHeader ident n out.old.items out.new.items) }
    ensures err { OnErr result (out.new.items ≡ out.old.items) }
{
    let (octets, start) = header_octets(ident, n);
    out.extend_from_slice(&octets[start..])
}
