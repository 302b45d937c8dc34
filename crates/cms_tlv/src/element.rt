//! The element that octets in memory begin with.
ghost use Rattle.std.specs.Prelude.{◌≡◌, ◌≤◌, ℕ, length, option_map};
ghost use Rattle.std.specs.Option.{option_copied};
ghost use Rattle.cms_tlv.specs.Headers.{big_endian};
ghost use Rattle.cms_tlv.specs.FirstElement.{split, contents_after, first_element, first_contents};

/// The contents of the element that `octets` begin with, and what follows it; none unless its identifier
/// octet is `ident`, its length is definite, in at most eight octets after the first, and it is whole
/// (X.690, 8.1).
pub fn first_element(octets: &[u8], ident: u8) -> Option<(&[u8], &[u8])>
    ensures { option_map (λ p. (p.0.now, p.1.now)) result ≡ first_element ident octets.now }
{
    match octets {
        [first, length, rest @ ..] if *first == ident => contents_after(*length, rest),
        _ => None,
    }
}

/// The contents of the element that `octets` begin with; none if `first_element` returns none.
pub fn first_contents(octets: &[u8], ident: u8) -> Option<&[u8]>
    ensures { option_copied result ≡ first_contents ident octets.now }
{
    let (contents, _) = first_element(octets, ident)?;
    Some(contents)
}

/// The contents that follow the length octet `length` and those that `octets` begin with, and what
/// follows them.
fn contents_after(length: u8, octets: &[u8]) -> Option<(&[u8], &[u8])>
    ensures { option_map (λ p. (p.0.now, p.1.now)) result ≡ contents_after length octets.now }
{
    match length {
        0..=0x7f => split(octets, length as usize),
        0x81..=0x88 => {
            let (digits, rest) = split(octets, (length - 0x80) as usize)?;
            split(rest, number_of(digits))
        }
        _ => None,
    }
}

/// The first `count` octets, and what follows them; none if there are fewer.
fn split(octets: &[u8], count: usize) -> Option<(&[u8], &[u8])>
    ensures { option_map (λ p. (p.0.now, p.1.now)) result ≡ split count octets.now }
{
    octets.split_at_checked(count)
}

/// The number in `digits`, the most significant first.
fn number_of(digits: &[u8]) -> usize
    requires { length digits.now ≤ 8 }
    ensures { result ≡ big_endian digits.now }
{
    let mut number = 0;
    for digit in digits {
        number = 256 * number + *digit as usize;
    }
    number
}
