//! What octets are written to.
ghost use Rattle.std.specs.Prelude.{◌≡◌, ◌<◌, ◌≤◌, ℕ, List, Option, IfOk, IfErr, OnOk, length};
ghost use Rattle.std.specs.Io.KnownBytes.{WriteAppends, Appends};
ghost use Rattle.cms_tlv.specs.Streams.{Counts};
ghost use Rattle.cms_tlv.specs.Pouring.{StopsAfter};

use crate::fault::Fault;

/// A writer whose failures are counted.
pub trait Output {
    // The octets that it took so far, if they are known.
    ghost contents: { Self → Option (List ℕ) };

    // How often it failed so far.
    ghost failures: { Self → ℕ };

    /// Takes a prefix of `octets`, at least one octet if there is one, and returns how many octets that
    /// is. An error takes none, and raises the count of failures by one, until the count is `u64::MAX`.
    fn give(&mut self, octets: &[u8]) -> Result<usize, ()>
        ensures bound { IfOk result (λ n. n ≤ length octets.now) }
        ensures some { IfOk result (λ n. n ≡ 0 → length octets.now ≡ 0) }
        ensures octets { WriteAppends (contents self.old) (contents self.new) result octets.now }
        ensures failures { Counts (failures self.old) (failures self.new) result };
}

/// Writes all of `octets`. After `Fault::Write` the writer has taken the first `written` of them and
/// no more; there is no other fault.
pub fn pour<O: Output>(output: &mut O, octets: &[u8]) -> Result<(), Fault>
    ensures ok { OnOk result (Appends (O.contents output.old) (O.contents output.new) octets.now) }
    ensures err { IfErr result (StopsAfter octets.now (O.contents output.old)
        (O.contents output.new)) }
    ensures failures { Counts (O.failures output.old) (O.failures output.new) result }
{
    let mut written = 0;
    while written < octets.len() {
        match output.give(&octets[written..]) {
            Ok(n) => written += n,
            Err(()) => {
                return Err(Fault::Write {
                    written: written as u64,
                });
            }
        }
    }
    Ok(())
}
