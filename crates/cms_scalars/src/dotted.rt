//! The dotted-decimal text of object identifiers (X.690, 8.19).
//!
//! A subidentifier is counted in a `u64`, and no registered one comes near 2^64.
ghost use Rattle.std.specs.Prelude.{◌≡◌, ◌≢◌, ◌++◌, ◌∷◌, [], ◌↔◌, ℕ, List, IfOk, OnOk, option_map};
ghost use Rattle.std.specs.Fmt.{decimal};
ghost use Rattle.std.specs.String.{string_bytes};
ghost use Rattle.cms_scalars.specs.Arcs.{PacksFirst, dotted, IsDotted};

use crate::scalars::is_oid;
use std::alloc::{AllocError, Global};
use std::fmt::Write;

/// The arcs in decimal with dots between them; none if the octets are not the contents of an OBJECT
/// IDENTIFIER, or if a subidentifier is 2^64 or more. An error means out of memory.
pub(crate) fn dotted_of(octets: &[u8], alloc: Global) -> Result<Option<String>, AllocError>
    ensures { IfOk result (λ told. (text : List ℕ) → (option_map string_bytes told ≡ Some text)
        ↔ IsDotted octets.now text) }
{
    if !is_oid(octets) {
        return Ok(None);
    }
    let mut text = String::new(alloc);
    let mut number: u64 = 0;
    for octet in octets {
        if number >= 1 << 57 {
            return Ok(None);
        }
        number = number * 128 + u64::from(*octet % 128);
        if *octet < 128 {
            push_arcs(&mut text, number)?;
            number = 0;
        }
    }
    Ok(Some(text))
}

/// Appends the arc that a subidentifier stands for; for the first subidentifier, the first two arcs.
fn push_arcs(text: &mut String, number: u64) -> Result<(), AllocError>
    ensures first { OnOk result (string_bytes text.old ≡ []
        → (x y : ℕ) × PacksFirst number x y × (string_bytes text.new ≡ dotted (x ∷ y ∷ []))) }
    ensures next { OnOk result (string_bytes text.old ≢ []
        → string_bytes text.new ≡ string_bytes text.old ++ 46 ∷ decimal number) }
{
    if text.is_empty() {
        let root = (number / 40).min(2);
        let second = number - 40 * root;
        write!(text, "{root}.{second}")
    } else {
        write!(text, ".{number}")
    }
}
