//! What follows a message.
ghost use Rattle.std.specs.Prelude.{◌≡◌, ℕ, ◌≤◌, ◌^◌, length, true, false, [], ◌∷◌, IfOk, IfErr, OnOk};
ghost use Rattle.cms_tlv.specs.declared.fault.Fault.TheVariants.{Read};
ghost use Rattle.cms_canon.specs.Streams.{reading, Takes, HasEnded, ReadFailed};
ghost use Rattle.cms_canon.specs.Rest.{IsRest, RestFaults};

use cms_tlv::{Fault, Input, Reason};
use std::alloc::Global;

/// How many octets are asked for at once.
pub(crate) const PIECE: usize = 8192;

/// Whether the reader has one octet more. If it has, that octet is taken.
pub(crate) fn has_more<R: Input>(reader: &mut R) -> Result<bool, Fault>
    ensures more { IfOk result (λ more. more ≡ true
        → (next : ℕ) × Takes (reading R.left R.failures reader.old reader.new) (next ∷ [])) }
    ensures none { IfOk result (λ more. more ≡ false
        → Takes (reading R.left R.failures reader.old reader.new) []
        × HasEnded (reading R.left R.failures reader.old reader.new)) }
    ensures failures { OnOk result (R.failures reader.new ≡ R.failures reader.old) }
    ensures fault { IfErr result (λ e. (e ≡ Read)
        × ReadFailed (reading R.left R.failures reader.old reader.new)
        × Takes (reading R.left R.failures reader.old reader.new) []) }
{
    let mut octet = [0u8; 1];
    match reader.take(&mut octet) {
        Ok(n) => Ok(n != 0),
        Err(()) => Err(Fault::Read),
    }
}

/// Reads all octets to the end of the input, at most `limit`. Returns the reader as well. If there are
/// more octets, it is E2 at `limit + 1`, counted from where this call begins, and one octet more than
/// the limit was taken.
pub fn read_rest<R: Input>(alloc: Global, mut reader: R, limit: u64) -> (R, Result<Vec<u8>, Fault>)
    requires { limit ≤ 2 ^ 40 }
    ensures ok { IfOk result.1
        (λ v. IsRest (reading R.left R.failures reader result.0) limit v.items) }
    ensures faults { IfErr result.1 (RestFaults (reading R.left R.failures reader result.0) limit) }
{
    let mut rest = Vec::new(alloc);
    let read = read_to_end(&mut reader, limit, &mut rest);
    (reader, read.map(|()| rest))
}

/// Appends all octets up to the end of the input to `rest`, which is empty.
fn read_to_end<R: Input>(reader: &mut R, limit: u64, rest: &mut Vec<u8>) -> Result<(), Fault>
    requires limit { limit ≤ 2 ^ 40 }
    requires empty { rest.old.items ≡ [] }
    ensures ok { OnOk result
        (IsRest (reading R.left R.failures reader.old reader.new) limit rest.new.items) }
    ensures faults { IfErr result
        (RestFaults (reading R.left R.failures reader.old reader.new) limit) }
{
    let mut piece = [0u8; PIECE];
    while (rest.len() as u64) < limit {
        let room = (limit - rest.len() as u64).min(PIECE as u64) as usize;
        if rest.reserve(room).is_err() {
            return Err(Fault::OutOfMemory);
        }
        let Ok(n) = reader.take(&mut piece[..room]) else {
            return Err(Fault::Read);
        };
        if n == 0 {
            return Ok(());
        }
        if rest.extend_from_slice(&piece[..n]).is_err() {
            return Err(Fault::OutOfMemory);
        }
    }
    if has_more(reader)? {
        return Err(Fault::Refused {
            reason: Reason::TooLarge,
            at: limit + 1,
        });
    }
    Ok(())
}
