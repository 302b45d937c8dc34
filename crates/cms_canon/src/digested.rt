//! Digests of what follows a message.
ghost use Rattle.std.specs.Prelude.{◌≡◌, ◌≤◌, ◌^◌, List, ℕ, [], IfOk, IfErr, OnOk};
ghost use Rattle.cms_check.specs.declared.digests.HashAlg.{HashAlg};
ghost use Rattle.cms_check.specs.Hashers.{AreDigesting, AreDigestsBy};
ghost use Rattle.cms_canon.specs.Rest.{IsRest, RestFaults};
ghost use Rattle.cms_canon.specs.Streams.{reading};

use crate::rest::{PIECE, has_more};
use cms_check::{Digesting, Digests, HashAlg};
use cms_tlv::{Fault, Input, Reason};
use std::alloc::Global;

/// Reads all octets to the end of the input, at most `limit`, with the faults of `read_rest`, and digests
/// them by each of the algorithms. They are not kept. Returns the reader as well.
pub fn digests_from<R: Input>(
    alloc: Global,
    mut reader: R,
    algorithms: &[HashAlg],
    limit: u64,
) -> (R, Result<Digests, Fault>)
    requires { limit ≤ 2 ^ 40 }
    ensures ok { IfOk result.1 (λ digests. (octets : List ℕ)
        × IsRest (reading R.left R.failures reader result.0) limit octets
        × AreDigestsBy algorithms.now octets digests) }
    ensures faults { IfErr result.1 (RestFaults (reading R.left R.failures reader result.0) limit) }
{
    let Ok(mut digesting) = Digesting::new(alloc, algorithms) else {
        return (reader, Err(Fault::OutOfMemory));
    };
    match digest_to_end(&mut reader, limit, &mut digesting) {
        Ok(()) => match digesting.finish(alloc) {
            Ok(digests) => (reader, Ok(digests)),
            Err(_) => (reader, Err(Fault::OutOfMemory)),
        },
        Err(fault) => (reader, Err(fault)),
    }
}

/// Digests all octets up to the end of the input.
fn digest_to_end<R: Input>(
    reader: &mut R,
    limit: u64,
    digesting: &mut Digesting,
) -> Result<(), Fault>
    requires { limit ≤ 2 ^ 40 }
    ensures ok { OnOk result ((octets : List ℕ)
        × IsRest (reading R.left R.failures reader.old reader.new) limit octets
        × ((algorithms : List HashAlg) → AreDigesting algorithms [] digesting.old
        → AreDigesting algorithms octets digesting.new)) }
    ensures faults { IfErr result
        (RestFaults (reading R.left R.failures reader.old reader.new) limit) }
{
    let mut piece = [0u8; PIECE];
    let mut count = 0;
    while count < limit {
        let room = (limit - count).min(PIECE as u64) as usize;
        let Ok(n) = reader.take(&mut piece[..room]) else {
            return Err(Fault::Read);
        };
        if n == 0 {
            return Ok(());
        }
        digesting.add(&piece[..n]);
        count += n as u64;
    }
    if has_more(reader)? {
        return Err(Fault::Refused {
            reason: Reason::TooLarge,
            at: limit + 1,
        });
    }
    Ok(())
}
