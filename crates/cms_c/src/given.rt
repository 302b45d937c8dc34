//! What calls are given: messages, and octets that may be absent.
ghost use Rattle.std.specs.Prelude.{◌≡◌, IfOk, IfErr};
ghost use Rattle.std.specs.Option.{option_copied};
ghost use Rattle.cms_c.specs.Calls.{FailsBy, IsAccepted, limit_of_c, items_passed};

use cms_canon::{Message, Tail, read_message};
use cms_tlv::{Fault, MAX_LIMIT, Slice};
use std::alloc::Global;

/// The one message in `input`. A limit above 2^40 counts as 2^40.
pub(crate) fn message_in(alloc: Global, input: &[u8], limit: u64) -> Result<Message, Fault>
    ensures ok { IfOk result (λ m. IsAccepted input.now (limit_of_c limit) m.value) }
    ensures octets { IfOk result (λ m. m.octets ≡ input.now) }
    ensures err { IfErr result (FailsBy input.now (limit_of_c limit)) }
{
    let (_, message) = read_message(alloc, Slice::new(input), limit.min(MAX_LIMIT), Tail::Refuse);
    message
}

/// The octets or digests, if they are given.
pub(crate) fn passed<T>(items: &[T], are_given: bool) -> Option<&[T]>
    ensures { option_copied result ≡ items_passed are_given items.now }
{
    if are_given { Some(items) } else { None }
}
