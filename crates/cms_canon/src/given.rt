//! A message, and what follows it.
ghost use Rattle.std.specs.Prelude.{◌≡◌, ◌≤◌, ◌^◌, List, ℕ, Some, option_map, IfOk, IfErr};
ghost use Rattle.cms_canon.specs.Streams.{reading};
ghost use Rattle.cms_canon.specs.Rest.{IsRest, RestFaults};
ghost use Rattle.cms_canon.specs.Given.{IsGiven, GivenFaults};

use crate::message::{Message, Tail, read_message};
use crate::rest::read_rest;
use cms_tlv::{Fault, Input};
use std::alloc::Global;

/// A message and, if they were asked for, all octets after it.
#[derive(Drop)]
pub(crate) struct Given {
    pub(crate) message: Message,
    pub(crate) rest: Option<Vec<u8>>,
}

/// Reads one message with nothing after it; `with_rest`, reads one message and everything after it.
pub(crate) fn read_given<I: Input>(
    alloc: Global,
    input: I,
    limit: u64,
    with_rest: bool,
) -> (I, Result<Given, Fault>)
    requires { limit ≤ 2 ^ 40 }
    ensures ok { IfOk result.1 (λ g. IsGiven (reading I.left I.failures input result.0) limit
        with_rest g.message (option_map (λ v. v.items) g.rest)) }
    ensures faults { IfErr result.1
        (GivenFaults (reading I.left I.failures input result.0) limit with_rest) }
{
    if !with_rest {
        let (input, message) = read_message(alloc, input, limit, Tail::Refuse);
        return match message {
            Ok(message) => {
                let rest = None;
                (input, Ok(Given { message, rest }))
            }
            Err(fault) => (input, Err(fault)),
        };
    }
    let (input, message) = read_message(alloc, input, limit, Tail::Leave);
    match message {
        Ok(message) => read_rest_after(alloc, input, limit, message),
        Err(fault) => (input, Err(fault)),
    }
}

/// Reads what follows a message.
fn read_rest_after<I: Input>(
    alloc: Global,
    input: I,
    limit: u64,
    message: Message,
) -> (I, Result<Given, Fault>)
    requires { limit ≤ 2 ^ 40 }
    ensures ok { IfOk result.1 (λ g. (g.message ≡ message)
        × ((rest : List ℕ) × (option_map (λ v. v.items) g.rest ≡ Some rest)
        × IsRest (reading I.left I.failures input result.0) limit rest)) }
    ensures faults { IfErr result.1 (RestFaults (reading I.left I.failures input result.0) limit) }
{
    match read_rest(alloc, input, limit) {
        (input, Ok(rest)) => {
            let rest = Some(rest);
            (input, Ok(Given { message, rest }))
        }
        (input, Err(fault)) => (input, Err(fault)),
    }
}
