//! `convert`: reads a message and writes it.
ghost use Rattle.std.specs.Prelude.{◌≤◌, ◌^◌, IfOk, IfErr};
ghost use Rattle.cms_canon.specs.Streams.{reading, writing};
ghost use Rattle.cms_canon.specs.Conversions.{IsCanonicalised, CanonicalFaults};
ghost use Rattle.cms_canon.specs.internal.Steps.{IsSent, SendFaults};

use crate::laws::message_octets_are_kept;
use crate::message::{Message, Tail, read_message};
use cms_tlv::{Fault, Input, Output};
use std::alloc::Global;

/// How many octets a message had, and how many its DER has.
#[derive(Clone, Copy, Debug, PartialEq, Eq)]
pub struct Done {
    pub read: u64,
    pub written: u64,
}

/// Reads one message, and writes its DER after the whole message is accepted. Returns the reader as
/// well.
///
/// Signed attributes, certificates, attribute values and everything else that is opaque lie in what is
/// written as they lay in what was read: octet for octet, and each as often.
pub fn canonicalise<R: Input, W: Output>(
    alloc: Global,
    reader: R,
    writer: &mut W,
    limit: u64,
    tail: Tail,
) -> (R, Result<Done, Fault>)
    requires { limit ≤ 2 ^ 40 }
    ensures found { IfOk result.1 (IsCanonicalised (reading R.left R.failures reader result.0)
        (writing W.contents W.failures writer.old writer.new) limit tail) }
    ensures faults { IfErr result.1 (CanonicalFaults (reading R.left R.failures reader result.0)
        (writing W.contents W.failures writer.old writer.new) limit tail) }
{
    message_octets_are_kept();
    let (reader, message) = read_message(alloc, reader, limit, tail);
    let done = match message {
        Ok(message) => write_message(alloc, &message, writer),
        Err(fault) => Err(fault),
    };
    (reader, done)
}

pub(crate) fn write_message<W: Output>(
    alloc: Global,
    message: &Message,
    writer: &mut W,
) -> Result<Done, Fault>
    ensures ok { IfOk result
        (IsSent (writing W.contents W.failures writer.old writer.new) message.now) }
    ensures err { IfErr result
        (SendFaults (writing W.contents W.failures writer.old writer.new) message.now) }
{
    let Ok((out, written)) = message.gathered(alloc) else {
        return Err(Fault::OutOfMemory);
    };
    out.pour(alloc, message.octets(), writer)?;
    Ok(Done {
        read: message.octets().len() as u64,
        written,
    })
}
