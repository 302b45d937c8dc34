//! Conversion of messages one after another.
//!
//! What was converted is handed over with the refusal, so that a caller whose octets come in pieces
//! goes on where the last whole message ends. Whether all of the DER fits is known after the last
//! message, so that none of it is written before. The DER of all messages but the first is collected. The
//! first is kept as it was read, and its DER written from there: a caller that waits until all of a long
//! message has come hands it over first, and it is copied no more often than by `cms_canon_convert`.
ghost use Rattle.std.specs.Prelude.{◌≡◌, ◌<◌, ◌≤◌, ◌+◌, ◌^◌, ◌++◌, true, false, take, drop, length, IfOk, OnErr};
ghost use Rattle.cms_canon.specs.Messages.{IsWritable};
ghost use Rattle.cms_tlv.specs.Slices.{rest_of};
ghost use Rattle.cms_c.specs.Calls.{limit_of_c};
ghost use Rattle.cms_c.specs.Many.{AreConversions, ArePrefix, AreReported, AreReportedAfter};
ghost use Rattle.cms_c.specs.Outcomes.{IsReported, SaysFault};

use crate::outcome::Outcome;
use cms_canon::{Message, Tail, canonicalise_many, message_laws, put_into, read_message};
use cms_tlv::{Fault, Input, MAX_LIMIT, Slice, Watched};
use std::alloc::{AllocError, Global};

/// What became of messages one after another.
#[repr(C)]
#[derive(Drop)]
pub struct Many {
    pub outcome: Outcome,
    /// How many messages were converted.
    pub messages: u64,
    /// How many octets of the input they have.
    pub read: u64,
}

/// The messages at the beginning of an input, to its end or to one that is refused.
#[derive(Drop)]
struct Prefix {
    /// How many messages there are.
    messages: u64,
    /// How many octets of the input they have.
    read: u64,
    /// Their DER.
    octets: Vec<u8>,
    /// Why the next one is refused, if the input does not end there.
    refusal: Option<Fault>,
}

/// Writes the DER of the messages in `input`, which come one after another, to the beginning of
/// `output`.
///
/// If a message is refused, the DER of those before it is written. Each message and its DER have at
/// most `limit` octets; a limit above 2^40 counts as 2^40. If memory runs out, or the DER does not
/// fit into `output`, nothing is written.
#[unsafe(no_mangle)]
pub extern "C" fn cms_canon_convert_many(
    alloc: Global,
    input: &[u8],
    limit: u64,
    output: &mut [u8],
    many: &mut Many,
)
    ensures { AreConversions input.now (limit_of_c limit) output.old output.new many.new }
{
    *many = match written(alloc, input, limit.min(MAX_LIMIT), output) {
        Ok(many) => many,
        Err(_) => Many::failed(Fault::OutOfMemory),
    };
}

/// Writes the DER of the messages in `input` to the beginning of `output` if it fits. An error means out
/// of memory; `output` is then as it was.
fn written(alloc: Global, input: &[u8], limit: u64, output: &mut [u8]) -> Result<Many, AllocError>
    requires { limit ≤ 2 ^ 40 }
    ensures ok { IfOk result (AreReported input.now limit output.old output.new) }
    ensures err { OnErr result (output.new ≡ output.old) }
{
    message_laws();
    if input.is_empty() {
        return Ok(converted(alloc, input, limit)?.reported(output));
    }
    let (reader, first) = read_message(alloc, Slice::new(input), limit, Tail::Leave);
    match first {
        Ok(first) => {
            let others = converted(alloc, reader.at_hand(), limit)?;
            others.reported_after(alloc, &first, output)
        }
        Err(fault) => match fault {
            Fault::Refused { reason: _, at: _ } => Ok(Many::failed(fault)),
            _ => Err(AllocError),
        },
    }
}

impl Many {
    /// No message was converted, for this reason.
    fn failed(fault: Fault) -> Many
        ensures outcome { SaysFault fault result.outcome }
        ensures messages { result.messages ≡ 0 }
        ensures read { result.read ≡ 0 }
    {
        Many {
            outcome: Outcome::of_fault(fault),
            messages: 0,
            read: 0,
        }
    }
}

/// What is written for the messages in `input`. An error means out of memory.
fn converted(alloc: Global, input: &[u8], limit: u64) -> Result<Prefix, AllocError>
    requires { limit ≤ 2 ^ 40 }
    ensures { IfOk result (λ p. ArePrefix input.now limit p.messages p.read p.octets.items
        p.refusal) }
{
    let mut writer = Watched::new(Vec::new(alloc));
    let (reader, done) = canonicalise_many(alloc, Slice::new(input), &mut writer, limit);
    match done {
        Ok(many) => Ok(Prefix {
            messages: many.messages,
            read: many.read,
            octets: writer.into_inner(),
            refusal: None,
        }),
        Err(stop) => match stop.fault {
            Fault::Refused { reason: _, at } => Ok(Prefix {
                messages: stop.done,
                read: input.len() as u64 - left_in(reader) - at,
                octets: writer.into_inner(),
                refusal: Some(stop.fault),
            }),
            _ => Err(AllocError),
        },
    }
}

/// How many octets a reader has left.
fn left_in(reader: Slice<'_>) -> u64
    ensures { result ≡ length (rest_of reader.entry) }
{
    let mut reader = reader;
    let mut piece = [0; 4096];
    let mut left = 0;
    while let Ok(n) = reader.take(&mut piece) {
        if n == 0 {
            break;
        }
        left += n as u64;
    }
    left
}

impl Prefix {
    /// Writes the DER to the beginning of `output` if it fits, and says why the next message is
    /// refused.
    fn reported(&self, output: &mut [u8]) -> Many
        ensures outcome { IsReported self.now.refusal self.now.octets.items
            output.old output.new result.outcome }
        ensures messages { result.messages ≡ self.now.messages }
        ensures read { result.read ≡ self.now.read }
    {
        Many {
            outcome: Outcome::reported(&self.octets, self.refusal, output),
            messages: self.messages,
            read: self.read,
        }
    }

    /// Writes the DER of `first` and then that of the others to the beginning of `output` if all of it
    /// fits, and says why the next message is refused. An error means out of memory; `output` is then as
    /// it was.
    fn reported_after(
        &self,
        alloc: Global,
        first: &Message,
        output: &mut [u8],
    ) -> Result<Many, AllocError>
        requires short { IsWritable (2 ^ 40) first.now.value }
        requires messages { self.now.messages + 1 < 2 ^ 64 }
        requires read { length first.now.octets + self.now.read < 2 ^ 64 }
        ensures outcome { IfOk result (λ m. AreReportedAfter first.now self.now.refusal
            self.now.octets.items output.old output.new m.outcome) }
        ensures messages { IfOk result (λ m. m.messages ≡ self.now.messages + 1) }
        ensures read { IfOk result (λ m. m.read ≡ length first.now.octets + self.now.read) }
        ensures err { OnErr result (output.new ≡ output.old) }
    {
        let room = output.len().saturating_sub(self.octets.len());
        let begin = put_into(alloc, first, &mut output[..room])?;
        let end = begin + self.octets.len() as u64;
        let fits = put_from(begin, &self.octets, output);
        Ok(Many {
            outcome: Outcome::counting_up_to(end, fits, self.refusal),
            messages: self.messages + 1,
            read: first.octets().len() as u64 + self.read,
        })
    }
}

/// Writes `octets` to `output` from `begin` on if they fit there, and returns whether they do.
fn put_from(begin: u64, octets: &[u8], output: &mut [u8]) -> bool
    requires { begin + length octets.now < 2 ^ 64 }
    ensures fits { result ≡ true → (begin + length octets.now ≤ length output.old)
        × (output.new ≡ take begin output.old ++ (octets.now
        ++ drop (begin + length octets.now) output.old)) }
    ensures lacks_room { result ≡ false → (length output.old < begin + length octets.now)
        × (output.new ≡ output.old) }
{
    let end = begin + octets.len() as u64;
    let fits = end <= output.len() as u64;
    if fits {
        output[begin as usize..end as usize].copy_from_slice(octets);
    }
    fits
}
