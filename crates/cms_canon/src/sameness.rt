//! Whether two messages are the same.
//!
//! Messages are compared by their DER, first its lengths and then its octets: one definition of
//! sameness serves what is written and what is compared.
ghost use Rattle.std.specs.Prelude.{◌≡◌, ◌≤◌, ◌^◌, IfOk, IfErr};
ghost use Rattle.cms_canon.specs.Kinds.{same_message};
ghost use Rattle.cms_canon.specs.Streams.{reading};
ghost use Rattle.cms_canon.specs.Comparing.{IsSame, SameFaults, SecondFaults};
ghost use Rattle.cms_canon.specs.Messages.{IsRead};
ghost use Rattle.cms_canon.specs.Whole.{Whole};
ghost use Rattle.cms_canon.specs.declared.sameness.SameFault.TheVariants as SameFault;

use crate::laws::message_laws;
use crate::message::{Message, Tail, put_message, read_message};
use cms_tlv::{Fault, Input};
use std::alloc::{AllocError, Global};
use std::error::Error;
use std::fmt;

/// Why two messages are not compared.
#[derive(Clone, Copy, Debug, PartialEq, Eq)]
pub enum SameFault {
    /// The first message is refused, or could not be read.
    First(Fault),
    /// The second message is refused, or could not be read.
    Second(Fault),
    /// Both were read, and there was no memory to compare them.
    OutOfMemory,
}

impl fmt::Display for SameFault {
    fn fmt<W: fmt::Write>(&self, f: &mut fmt::Formatter<W>) -> fmt::Result {
        match self {
            // Memory that runs out is the fault of no message.
            SameFault::First(Fault::OutOfMemory)
            | SameFault::Second(Fault::OutOfMemory)
            | SameFault::OutOfMemory => write!(f, "{}", Fault::OutOfMemory),
            SameFault::First(fault) => write!(f, "first: {fault}"),
            SameFault::Second(fault) => write!(f, "second: {fault}"),
        }
    }
}

impl Error for SameFault {}

/// Whether two messages are the same, with sets taken as multisets: whether their DER is identical. An
/// error means out of memory.
pub fn same_messages(alloc: Global, first: &Message, second: &Message) -> Result<bool, AllocError>
    ensures { IfOk result (λ same. same ≡ same_message first.now.value second.now.value) }
{
    message_laws();
    if first.encoded_len() != second.encoded_len() {
        return Ok(false);
    }
    if first.is_der() && second.is_der() {
        return Ok(first.octets() == second.octets());
    }
    let mut first_der = Vec::new(alloc);
    put_message(alloc, first, &mut first_der)?;
    let mut second_der = Vec::new(alloc);
    put_message(alloc, second, &mut second_der)?;
    Ok(first_der.as_slice() == second_der.as_slice())
}

/// Reads a message of each reader, the first before the second, and says whether they are the same.
/// Returns the readers as well; whatever follows a message stays unread.
///
/// Neither message nor its DER may have more than `limit` octets. If the first message is refused or
/// cannot be read, nothing is taken from the second reader.
pub fn same<R: Input, S: Input>(
    alloc: Global,
    first: R,
    second: S,
    limit: u64,
) -> (R, S, Result<bool, SameFault>)
    requires { limit ≤ 2 ^ 40 }
    ensures ok { IfOk result.2 (IsSame (reading R.left R.failures first result.0)
        (reading S.left S.failures second result.1) limit) }
    ensures faults { IfErr result.2 (SameFaults (reading R.left R.failures first result.0)
        (reading S.left S.failures second result.1) limit) }
{
    let (first, message) = read_message(alloc, first, limit, Tail::Leave);
    match message {
        Ok(message) => {
            let (second, same) = same_as(alloc, &message, second, limit, Tail::Leave);
            (first, second, same)
        }
        Err(fault) => (first, second, Err(SameFault::First(fault))),
    }
}

/// Reads a message, and says whether it is the same as `first`. Returns the reader as well. A fault is
/// never one of the first.
pub fn same_as<I: Input>(
    alloc: Global,
    first: &Message,
    input: I,
    limit: u64,
    tail: Tail,
) -> (I, Result<bool, SameFault>)
    requires { limit ≤ 2 ^ 40 }
    ensures ok { IfOk result.1 (λ same. (n : Whole)
        × IsRead (reading I.left I.failures input result.0) limit tail n
        × (same ≡ same_message first.now.value n.value)) }
    ensures faults { IfErr result.1
        (SecondFaults (reading I.left I.failures input result.0) limit tail) }
{
    let (input, second) = read_message(alloc, input, limit, tail);
    let same = match second {
        Ok(second) => compared(alloc, first, &second),
        Err(fault) => Err(SameFault::Second(fault)),
    };
    (input, same)
}

fn compared(alloc: Global, first: &Message, second: &Message) -> Result<bool, SameFault>
    ensures ok { IfOk result (λ same. same ≡ same_message first.now.value second.now.value) }
    ensures err { IfErr result (λ e. e ≡ SameFault.OutOfMemory) }
{
    match same_messages(alloc, first, second) {
        Ok(same) => Ok(same),
        Err(_) => Err(SameFault::OutOfMemory),
    }
}
