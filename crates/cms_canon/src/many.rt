//! Messages one after another: each is read, and its DER is written.
//!
//! A write for each message of 1.5 kB would cost as much as its conversion, so the DER of short
//! messages is written together, once it is 64 KiB. A peer may wait for it, so all of it is written
//! before the reader is asked for octets: unless the whole next message is at hand. No contract sees
//! when a reader is asked; `tests/test_dialogue.py` talks over pipes and sockets.
//!
//! What is in hand is DER that is still to be written, and the length of each message in it: so `done`
//! and `Write { written }` are exact after a failed write. If the next message cannot be read, the DER
//! before it is written first; if that fails too, the write fault is returned.
ghost use Rattle.std.specs.Prelude.{◌≡◌, ◌≤◌, ◌^◌, IfOk, IfErr, OnOk, Option, length};
ghost use Rattle.cms_canon.specs.Streams.{reading, writing};
ghost use Rattle.cms_canon.specs.Exact.{FirstFault};
ghost use Rattle.cms_canon.specs.Messages.{MessageFaults};
ghost use Rattle.cms_canon.specs.declared.message.Tail.TheVariants.{Leave};
ghost use Rattle.cms_canon.specs.Many.{AreConverted, IsBegun, ManyFaults};
ghost use Rattle.cms_canon.specs.internal.ManySteps.{IsNext, split_at_message};

use crate::at_hand::begins_with_element;
use crate::convert::write_message;
use crate::laws::{message_laws, message_octets_are_kept};
use crate::message::{Message, Tail, put_message, read_from};
use cms_tlv::{Fault, Input, Output, Source, pour};
use std::alloc::{AllocError, Global};
use std::error::Error;
use std::marker::Model;
use std::{fmt, mem};

/// How many messages were read and written, and how many octets they and their DER have.
#[derive(Clone, Copy, Debug, PartialEq, Eq)]
pub struct Many {
    pub messages: u64,
    pub read: u64,
    pub written: u64,
}

impl Many {
    ghost use Rattle.std.specs.Prelude.{◌≡◌, ◌<◌, ◌+◌, ◌^◌};
    ghost use Rattle.cms_canon.specs.internal.ManySteps.{with_message};

    /// Counts one message more.
    fn add(&mut self, read: u64, written: u64)
        requires messages { self.old.messages + 1 < 2 ^ 64 }
        requires read { self.old.read + read < 2 ^ 64 }
        requires written { self.old.written + written < 2 ^ 64 }
        ensures { self.new ≡ with_message self.old read written }
    {
        self.messages += 1;
        self.read += read;
        self.written += written;
    }
}

/// Why the messages of an input are not all written.
#[derive(Clone, Copy, Debug, PartialEq, Eq)]
pub struct ManyFault {
    /// How many messages were read and written. So it is also the number of the message that failed;
    /// the first is 0.
    pub done: u64,
    /// How many octets were written in all.
    pub written: u64,
    /// What became of the message that failed. Its octets are counted from its first one.
    pub fault: Fault,
}

impl fmt::Display for ManyFault {
    fn fmt<W: fmt::Write>(&self, f: &mut fmt::Formatter<W>) -> fmt::Result {
        match self.fault {
            // Memory that runs out is the fault of no message.
            Fault::OutOfMemory => write!(f, "{}", self.fault),
            fault => write!(f, "message {}: {fault}", self.done),
        }
    }
}

impl Error for ManyFault {}

/// DER is written as soon as there are so many octets of it, and a message of so many octets by itself.
const PIECE: usize = 0x1_0000;

/// No message is begun once more octets than these were read or written, so that no count overflows.
const MOST: u64 = 1 << 62;

/// Reads messages one after another to the end of the input, and writes the DER of each. Returns the
/// reader as well.
///
/// Neither a message nor its DER may have more than `limit` octets. Nothing of a message is written
/// before the whole message is accepted. The DER of short messages is collected while the reader has the
/// next message at hand, and written once there are 65,536 octets of it. All DER is written before the
/// reader is asked for octets, so that a peer that waits for the DER of a message gets it. If a message
/// fails, the DER of all messages before it is written.
///
/// After `Fault::Write` the reader may be further than the message whose DER was not written: past others
/// that were to be written in one piece with it, and at most `limit` octets more.
///
/// The input may be empty, except that the limit 0 gives E2 at 0. Once more than 2^62 octets were read
/// or written, `Fault::Read` is returned in place of the next message.
pub fn canonicalise_many<R: Input, W: Output>(
    alloc: Global,
    reader: R,
    writer: &mut W,
    limit: u64,
) -> (R, Result<Many, ManyFault>)
    requires { limit ≤ 2 ^ 40 }
    ensures ok { IfOk result.1 (AreConverted (reading R.left R.failures reader result.0)
        (writing W.contents W.failures writer.old writer.new) limit) }
    ensures faults { IfErr result.1 (ManyFaults (reading R.left R.failures reader result.0)
        (writing W.contents W.failures writer.old writer.new) limit) }
{
    let mut batch = Batch::new(alloc);
    let mut reader = reader;
    loop {
        let (back, more) = batch.convert_next(alloc, reader, writer, limit);
        reader = back;
        match more {
            Ok(true) => {}
            Ok(false) => return (reader, Ok(batch.count)),
            Err(fault) => return (reader, Err(fault)),
        }
    }
}

/// Reads the next message, and keeps its octets in `room`; none at the end of the input.
fn read_next<R: Input>(room: Vec<u8>, reader: R, limit: u64) -> (R, Result<Option<Message>, Fault>)
    requires { limit ≤ 2 ^ 40 }
    ensures next { IfOk result.1 (IsNext (reading R.left R.failures reader result.0) limit) }
    ensures faults { IfErr result.1
        (MessageFaults (reading R.left R.failures reader result.0) limit Leave) }
    ensures refines { IfErr result.1
        (FirstFault (reading R.left R.failures reader result.0) limit Leave) }
    ensures begun { IfErr result.1 IsBegun }
{
    let mut source = Source::with_buffer(room, reader, limit);
    match source.at_end() {
        Ok(false) => {
            let (reader, message) = read_from(source, limit, Tail::Leave);
            (reader, message.map(Some))
        }
        Ok(true) => {
            let (reader, _) = source.finish();
            (reader, Ok(None))
        }
        Err(fault) => {
            let (reader, _) = source.finish();
            (reader, Err(fault))
        }
    }
}

/// The messages that were read, and their DER that is still to be written.
#[derive(Drop)]
struct Batch {
    /// What was read, and the DER of all of it.
    count: Many,
    /// The DER that is still to be written.
    octets: Vec<u8>,
    /// How many octets of it each message has.
    lengths: Vec<u64>,
    /// Room for the octets of the next message.
    room: Vec<u8>,
}

impl Model for Batch {
    ghost use Rattle.std.specs.Prelude.{◌≤◌, length};
    ghost use Rattle.cms_canon.specs.internal.ManySteps.{InHand};

    ghost Value = { InHand };

    ghost view = { λ b. record {
      count = b.count;
      octets = b.octets.items;
      lengths = b.lengths.items;
    } };

    ghost invariant = { λ b. (length b.lengths.items ≤ b.count.messages)
        × (b.count.messages ≤ b.count.read) × (length b.octets.items ≤ b.count.written) };
}

impl Batch {
    ghost use Rattle.std.specs.Prelude.{◌≡◌, ◌≢◌, ◌<◌, ◌≤◌, ◌+◌, ◌-◌, ◌^◌, ◌⊎◌, [], true, false, List, ℕ, length, Option, None, Some, IfOk, IfErr, OnOk, OnErr, IfSome};
    ghost use Rattle.cms_canon.specs.Streams.{reading, writing, HasEnded, WritesAll, WritesNone};
    ghost use Rattle.cms_canon.specs.internal.ManySteps.{Converts, ConvertsNext, Finishes, IsBeforeEnd, IsShort, StopsNext, StopsWriting, with_der, all_written, stopped};
    ghost use Rattle.cms_canon.specs.Messages.{IsDerOf};

    fn new(alloc: Global) -> Batch
        ensures { result ≡ record {
          count = record { messages = 0; read = 0; written = 0 };
          octets = [];
          lengths = [];
        } }
    {
        Batch {
            count: Many {
                messages: 0,
                read: 0,
                written: 0,
            },
            octets: Vec::new(alloc),
            lengths: Vec::new(alloc),
            room: Vec::new(alloc),
        }
    }

    /// Reads and converts the next message. Returns whether there was one; at the end of the input, all
    /// DER is written.
    fn convert_next<R: Input, W: Output>(
        &mut self,
        alloc: Global,
        reader: R,
        writer: &mut W,
        limit: u64,
    ) -> (R, Result<bool, ManyFault>)
        requires limit { limit ≤ 2 ^ 40 }
        requires room { length self.old.octets < 0x1_0000 }
        ensures room { OnOk result.1 (length self.new.octets < 0x1_0000) }
        ensures proceeds { ConvertsNext (reading R.left R.failures reader result.0)
            (writing W.contents W.failures writer.old writer.new) limit self.old self.new result.1 }
        ensures more { IfOk result.1 (λ more. more ≡ true
            → (self.old.count.read < self.new.count.read) × (self.old.count.read ≤ 2 ^ 62)) }
        ensures end { IfOk result.1 (λ more. more ≡ false
            → HasEnded (reading R.left R.failures reader result.0) × (self.new.lengths ≡ [])
            × IsBeforeEnd self.new.count × (0 < limit)) }
    {
        match self.flush_before(reader.at_hand(), writer) {
            Ok(()) => self.read_and_convert(alloc, reader, writer, limit),
            Err(fault) => (reader, Err(fault)),
        }
    }

    /// Writes what is still to be written, before a message that is not at hand as a whole is read.
    fn flush_before<W: Output>(&mut self, at_hand: &[u8], writer: &mut W) -> Result<(), ManyFault>
        ensures ok { OnOk result (((self.new ≡ self.old)
            × WritesNone (writing W.contents W.failures writer.old writer.new))
            ⊎ ((self.new ≡ all_written self.old)
            × WritesAll (writing W.contents W.failures writer.old writer.new) self.old.octets)) }
        ensures err { IfErr result
            (StopsWriting (writing W.contents W.failures writer.old writer.new) self.old) }
    {
        if self.octets.is_empty() || begins_with_element(at_hand) {
            return Ok(());
        }
        self.flush(writer)
    }

    /// Reads and converts the next message, and leaves what is still to be written as long as it may.
    fn read_and_convert<R: Input, W: Output>(
        &mut self,
        alloc: Global,
        reader: R,
        writer: &mut W,
        limit: u64,
    ) -> (R, Result<bool, ManyFault>)
        requires limit { limit ≤ 2 ^ 40 }
        requires room { length self.old.octets < 0x1_0000 }
        ensures room { OnOk result.1 (length self.new.octets < 0x1_0000) }
        ensures proceeds { ConvertsNext (reading R.left R.failures reader result.0)
            (writing W.contents W.failures writer.old writer.new) limit self.old self.new result.1 }
        ensures more { IfOk result.1 (λ more. more ≡ true
            → (self.old.count.read < self.new.count.read) × (self.old.count.read ≤ 2 ^ 62)) }
        ensures end { IfOk result.1 (λ more. more ≡ false
            → HasEnded (reading R.left R.failures reader result.0) × (self.new.lengths ≡ [])
            × IsBeforeEnd self.new.count × (0 < limit)) }
    {
        message_laws();
        if self.count.read > MOST || self.count.written > MOST {
            return (reader, Err(self.stop(Fault::Read, writer)));
        }
        let room = mem::replace(&mut self.room, Vec::new(alloc));
        let (reader, message) = read_next(room, reader, limit);
        let more = match message {
            Ok(Some(message)) => self.convert(alloc, message, writer),
            Ok(None) => self.finish(writer),
            Err(fault) => Err(self.stop(fault, writer)),
        };
        (reader, more)
    }

    /// Writes what is still to be written, after the last message.
    fn finish<W: Output>(&mut self, writer: &mut W) -> Result<bool, ManyFault>
        ensures room { OnOk result (length self.new.octets < 0x1_0000) }
        ensures proceeds { Finishes (writing W.contents W.failures writer.old writer.new)
            self.old self.new result }
        ensures end { IfOk result (λ more. (more ≡ false) × (self.new.lengths ≡ [])
            × (self.new.count ≡ self.old.count)) }
    {
        self.flush(writer)?;
        Ok(false)
    }

    /// Converts a message that was read.
    fn convert<W: Output>(
        &mut self,
        alloc: Global,
        message: Message,
        writer: &mut W,
    ) -> Result<bool, ManyFault>
        requires few { IsBeforeEnd self.old.count }
        requires short { IsShort message }
        requires room { length self.old.octets < 0x1_0000 }
        ensures room { OnOk result (length self.new.octets < 0x1_0000) }
        ensures proceeds { Converts (writing W.contents W.failures writer.old writer.new)
            self.old self.new message result }
        ensures more { IfOk result (λ more. (more ≡ true)
            × (self.old.count.read < self.new.count.read)) }
    {
        if message.octets().len() < PIECE {
            self.collect(alloc, &message, writer)?;
        } else {
            self.write_alone(alloc, &message, writer)?;
        }
        self.room = message.into_octets();
        Ok(true)
    }

    /// Adds the DER of a message to what is still to be written, and writes that if it is enough.
    fn collect<W: Output>(
        &mut self,
        alloc: Global,
        message: &Message,
        writer: &mut W,
    ) -> Result<(), ManyFault>
        requires few { IsBeforeEnd self.old.count }
        requires short { IsShort message.now }
        requires room { length self.old.octets < 0x1_0000 }
        requires small { length message.now.octets < 0x1_0000 }
        ensures room { OnOk result (length self.new.octets < 0x1_0000) }
        ensures proceeds { Converts (writing W.contents W.failures writer.old writer.new)
            self.old self.new message.now result }
        ensures read { OnOk result (self.new.count.read
            ≡ self.old.count.read + length message.now.octets) }
    {
        message_octets_are_kept();
        match self.append(alloc, message) {
            Ok(()) => {}
            Err(_) => return Err(self.stop(Fault::OutOfMemory, writer)),
        }
        if self.octets.len() >= PIECE {
            self.flush(writer)?;
        }
        Ok(())
    }

    /// Adds the DER of a message to what is still to be written. If there is an error, nothing changes.
    fn append(&mut self, alloc: Global, message: &Message) -> Result<(), AllocError>
        requires few { IsBeforeEnd self.old.count }
        requires short { IsShort message.now }
        ensures ok { OnOk result ((der : List ℕ) × IsDerOf message.now.value der
            × (self.new ≡ with_der self.old (length message.now.octets) der)) }
        ensures err { OnErr result (self.new ≡ self.old) }
    {
        let before = self.octets.len();
        put_message(alloc, message, &mut self.octets)?;
        let written = (self.octets.len() - before) as u64;
        if self.lengths.push(written).is_err() {
            self.octets.truncate(before);
            return Err(AllocError);
        }
        self.count.add(message.octets().len() as u64, written);
        Ok(())
    }

    /// Writes what is still to be written, and then the DER of a message.
    fn write_alone<W: Output>(
        &mut self,
        alloc: Global,
        message: &Message,
        writer: &mut W,
    ) -> Result<(), ManyFault>
        requires few { IsBeforeEnd self.old.count }
        requires short { IsShort message.now }
        ensures room { OnOk result (length self.new.octets < 0x1_0000) }
        ensures proceeds { Converts (writing W.contents W.failures writer.old writer.new)
            self.old self.new message.now result }
        ensures read { OnOk result (self.new.count.read
            ≡ self.old.count.read + length message.now.octets) }
    {
        message_octets_are_kept();
        self.flush(writer)?;
        match write_message(alloc, message, writer) {
            Ok(done) => {
                self.count.add(done.read, done.written);
                Ok(())
            }
            Err(fault) => Err(self.fault(fault)),
        }
    }

    /// Writes what is still to be written.
    fn flush<W: Output>(&mut self, writer: &mut W) -> Result<(), ManyFault>
        ensures ok { OnOk result (self.new ≡ all_written self.old) }
        ensures written { OnOk result (WritesAll
            (writing W.contents W.failures writer.old writer.new) self.old.octets) }
        ensures err { IfErr result
            (StopsWriting (writing W.contents W.failures writer.old writer.new) self.old) }
    {
        match pour(writer, &self.octets) {
            Ok(()) => {
                self.octets.clear();
                self.lengths.clear();
                Ok(())
            }
            Err(fault) => Err(self.fault(fault)),
        }
    }

    /// Writes what is still to be written, and stops at this fault of the next message, or at one of
    /// the writer.
    fn stop<W: Output>(&mut self, fault: Fault, writer: &mut W) -> ManyFault
        requires { (n : ℕ) → fault ≢ Fault.Write n }
        ensures { StopsNext (writing W.contents W.failures writer.old writer.new)
            self.old fault result }
    {
        match self.flush(writer) {
            Ok(()) => self.fault(fault),
            Err(fault) => fault,
        }
    }

    /// A fault of the next message, or of the writer, which took `written` octets of the DER that is
    /// still to be written.
    fn fault(&self, fault: Fault) -> ManyFault
        requires { (n : ℕ) → fault ≡ Fault.Write n
            → self.now.count.written - length self.now.octets + n < 2 ^ 64 }
        ensures { result ≡ stopped self.now fault }
    {
        match fault {
            Fault::Write { written } => {
                let (whole, left) = split_at_message(&self.lengths, written);
                ManyFault {
                    done: self.count.messages - self.lengths.len() as u64 + whole,
                    written: self.count.written - self.octets.len() as u64 + written,
                    fault: Fault::Write { written: left },
                }
            }
            _ => ManyFault {
                done: self.count.messages,
                written: self.count.written,
                fault,
            },
        }
    }
}

/// How many messages of these lengths are whole in `octets` octets, and how many octets there are after
/// those.
fn split_at_message(lengths: &[u64], octets: u64) -> (u64, u64)
    ensures value { result ≡ split_at_message lengths.now octets }
    ensures most { result.0 ≤ length lengths.now }
{
    let mut whole = 0;
    let mut left = octets;
    for &length in lengths {
        if left < length {
            break;
        }
        left -= length;
        whole += 1;
    }
    (whole, left)
}
