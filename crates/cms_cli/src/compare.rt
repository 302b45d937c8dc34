//! `same`: whether two messages, one right after the other, are the same.
ghost use Rattle.std.specs.Prelude.{◌≡◌, ◌≤◌, ◌^◌, IfOk, IfErr};
ghost use Rattle.cms_canon.specs.Streams.{reading};
ghost use Rattle.cms_canon.specs.declared.sameness.SameFault.TheVariants as SameFault;
ghost use Rattle.cms_cli.specs.Answers.{IsCompared, SaysSame, WhichFaults};

use crate::answer::Answer;
use cms_canon::{SameFault, Tail, read_message, same_as};
use cms_tlv::Input;
use std::alloc::Global;

/// Reads a message, and another after it with nothing after that, and says whether they are the same.
pub(crate) fn compare<I: Input>(
    alloc: Global,
    input: I,
    limit: u64,
) -> (I, Result<Answer, SameFault>)
    requires { limit ≤ 2 ^ 40 }
    ensures ok { IfOk result.1 (λ a. IsCompared (reading I.left I.failures input result.0) limit
        a.status a.text.items) }
    ensures faults { IfErr result.1
        (WhichFaults (reading I.left I.failures input result.0) limit) }
{
    let (input, first) = read_message(alloc, input, limit, Tail::Leave);
    match first {
        Ok(first) => {
            let (input, same) = same_as(alloc, &first, input, limit, Tail::Refuse);
            let answer = match same {
                Ok(same) => said(alloc, same),
                Err(fault) => Err(fault),
            };
            (input, answer)
        }
        Err(fault) => (input, Err(SameFault::First(fault))),
    }
}

/// What `same` says.
fn said(alloc: Global, same: bool) -> Result<Answer, SameFault>
    ensures ok { IfOk result (λ a. SaysSame same a.status a.text.items) }
    ensures err { IfErr result (λ e. e ≡ SameFault.OutOfMemory) }
{
    let (text, status): (&[u8], u8) = if same {
        (b"same\n", 0)
    } else {
        (b"different\n", 1)
    };
    match text.to_vec(alloc) {
        Ok(text) => Ok(Answer { text, status }),
        Err(_) => Err(SameFault::OutOfMemory),
    }
}
