//! `changes`: what conversion changes in a message.
ghost use Rattle.std.specs.Prelude.{◌≡◌, ◌≤◌, ◌^◌, IfOk, IfErr};
ghost use Rattle.cms_tlv.specs.declared.fault.Fault.TheVariants.{OutOfMemory};
ghost use Rattle.cms_canon.specs.Exact.{ExactFaults};
ghost use Rattle.cms_canon.specs.Streams.{reading};
ghost use Rattle.cms_cli.specs.Answers.{IsListed};

use crate::answer::Answer;
use cms_canon::{Message, Tail, json_of_changes, listing_of_changes, read_message};
use cms_tlv::{Fault, Input};
use std::alloc::Global;

/// Reads a message with nothing after it, and lists what conversion changes in it, in lines or as JSON.
pub(crate) fn changes<I: Input>(
    alloc: Global,
    input: I,
    limit: u64,
    json: bool,
) -> (I, Result<Answer, Fault>)
    requires { limit ≤ 2 ^ 40 }
    ensures ok { IfOk result.1 (λ a. IsListed (reading I.left I.failures input result.0) limit
        a.status a.text.items) }
    ensures faults { IfErr result.1
        (ExactFaults (reading I.left I.failures input result.0) limit Tail.Refuse) }
{
    let (input, message) = read_message(alloc, input, limit, Tail::Refuse);
    let answer = match message {
        Ok(message) => listed(alloc, &message, json),
        Err(fault) => Err(fault),
    };
    (input, answer)
}

fn listed(alloc: Global, message: &Message, json: bool) -> Result<Answer, Fault>
    ensures ok { IfOk result (λ a. a.status ≡ 0) }
    ensures err { IfErr result (λ e. e ≡ OutOfMemory) }
{
    let text = if json {
        json_of_changes(alloc, message)
    } else {
        listing_of_changes(alloc, message)
    };
    Answer::of_listing(text)
}
