//! Whether a whole message is at hand.

use cms_tlv::short_length;

/// Whether `octets` begin with a whole element, as its header and those inside it say (X.690, 8.1.2 to
/// 8.1.5). An identifier of more than one octet, and a length of more than three or of more than
/// the fewest, is not looked into.
///
/// A reader that has a whole message at hand is not asked for an octet while the message is read. Only when
/// octets are written depends on this, and not which.
pub(crate) fn begins_with_element(octets: &[u8]) -> bool {
    let mut rest = octets;
    let mut open = 0;
    for _ in 0..octets.len() {
        let Some(after) = after_part(rest, &mut open) else {
            return false;
        };
        if open == 0 {
            return true;
        }
        rest = after;
    }
    false
}

/// What follows the next element, the header of an element of indefinite length, or end-of-contents
/// octets. `open` is how many elements of indefinite length have not ended.
fn after_part<'a>(octets: &'a [u8], open: &mut u64) -> Option<&'a [u8]> {
    let (ident, rest) = octets.split_first()?;
    if *ident % 32 == 31 {
        return None;
    }
    if let [0x80, rest @ ..] = rest {
        *open = open.saturating_add(1);
        return Some(rest);
    }
    let (length, rest) = short_length(rest)?;
    if *ident == 0 && length == 0 {
        *open = open.saturating_sub(1);
    }
    rest.get(length..)
}
