//! Calls the library as a test or a measurement asks.
//!
//! The words say what it does with the standard input:
//!
//! - `convert LIMIT TAIL AT_A_TIME` canonicalises it, under a limit and with the tail `leave` or `refuse`;
//!   the reader gives that many octets at a time and has none at hand.
//! - `at-hand LIMIT TAIL CAPACITY` does the same with a buffer of that many octets, which are at hand.
//! - `many LIMIT AT_A_TIME` and `many-at-hand LIMIT CAPACITY` canonicalise the messages that come one after
//!   another, from the readers of `convert` and `at-hand`. What is written goes to the standard output at once.
//! - `again TIMES` canonicalises it that many times from memory, and writes the last result.
//! - `rest LIMIT AT_A_TIME` writes all octets that the reader gives, as what follows a message.
//! - `digest ALGORITHM LEN` writes its digest, which is made from pieces of that many octets.
//! - `check VERDICT DETACHED STAMPED KIND` writes the findings on it, a line each. The verifier gives the same
//!   verdict to every signature: `good`, `bad` or `unknown`. DETACHED octets after the message are its
//!   detached content, and STAMPED octets after these are the data that were time-stamped; `-` is for none.
//!   KIND is `token` if the message has to be a token, and else `any`.
//! - `same FIRST` writes whether it is two messages that are the same, the first of FIRST octets, each from a
//!   reader of its own.
//! - `listing` writes its listing.
//! - `imprint` writes the finding on the imprint of a request for the data after it.
//! - `tst-info` writes what it says as a TSTInfo, and its DER.
//! - `times` takes each line for the contents of a GeneralizedTime, and writes a line for each: its seconds,
//!   its digits and its fraction with spaces between them, or the name of the fault.
//! - `first-cert-id` writes the first certificate identifier of the first unsigned attribute of the first
//!   signer.
//! - `append WHAT` appends to the octets `abc` and writes all of them. For `message` it is the DER of a
//!   message, for `cover` and `cover-path` what the signature of its first signer covers, and for `dotted`
//!   the text of its first digest algorithm's identifier; for `tst-info`, `time` and `set` the DER of a
//!   TSTInfo, of the contents of a GeneralizedTime, and of a set; for `header` the header of a SEQUENCE of
//!   1,000 octets, and for `boolean` a BOOLEAN, whatever the input is. If there is no memory to append it,
//!   a line `kept` or `changed` says whether `abc` is as it was, and the call is made again. If a member
//!   cannot be added to a set, the line is `back` if the same member is returned, and else `lost`.
//! - `opaque` reads one opaque value, and `elements` reads the elements inside it, each by a call of
//!   `header` and one of `contents`. Neither writes what it reads.
//!
//! After each it says on standard error how many octets were read and written, or what the fault is; of many
//! messages, how many they are, or how many octets were written before the fault.
#![tactic(auto)]

mod appending;
mod many;
mod tokens;

use crate::appending::{Appended, append, appended_of};
use crate::many::{convert_many, told_of_many};
use crate::tokens::{report_imprint, report_tst_info};
use cms_canon::{
    Done, Message, SameFault, Tail, canonicalise, listing, read_message, read_rest, same,
};
use cms_check::{Given, HashAlg, Job, Report, Verdict, Verifier, check, digest};
use cms_message::{Attribute, Indexed};
use cms_scalars::GenTime;
use cms_tlv::{Bound, Buffered, Fault, Input, MAX_LIMIT, Slice, Source, Watched, pour};
use cms_tsp::first_cert_id;
use std::alloc::{AllocError, Global};
use std::io::{BufReader, Read};
use std::process::ExitCode;
use std::{env, io};

/// The longest input of `again`, and the longest opaque value, in octets.
const LONGEST: u64 = 1 << 25;

/// A reader that gives at most `most` octets at a time.
#[derive(Drop)]
struct Paced<R> {
    reader: R,
    most: usize,
}

impl<R: Read> Read for Paced<R> {
    fn read(&mut self, octets: &mut [u8]) -> io::Result<usize> {
        let most = octets.len().min(self.most);
        self.reader.read(&mut octets[..most])
    }
}

/// How the standard input is read.
#[derive(Clone, Copy)]
enum Reading {
    /// So many octets at a time, with none at hand.
    AtATime(usize),
    /// With a buffer of so many octets, which are at hand.
    Buffer(usize),
}

/// What is asked.
#[derive(Clone, Copy)]
enum Asked {
    One(Task),
    /// To canonicalise messages one after another.
    Many { limit: u64, reading: Reading },
}

/// What is asked of a message, or of other octets.
#[derive(Clone, Copy)]
enum Task {
    Convert {
        limit: u64,
        tail: Tail,
        reading: Reading,
    },
    Again(u64),
    Rest {
        limit: u64,
        at_a_time: usize,
    },
    Digest {
        algorithm: HashAlg,
        len: usize,
    },
    Check {
        verdict: Verdict,
        detached: Option<usize>,
        stamped: Option<usize>,
        token: bool,
    },
    Same {
        first: usize,
    },
    Listing,
    Imprint,
    TstInfo,
    Times,
    FirstCertId,
    Append(Appended),
    Opaque,
    Elements,
}

/// A verifier that gives the same verdict to every signature.
#[derive(Drop)]
struct Always {
    verdict: Verdict,
}

impl Verifier for Always {
    ghost answer = { λ v job. v.verdict };

    fn verify(&self, _: &Job<'_>) -> Verdict {
        self.verdict
    }
}

fn tail_of(word: &str) -> Option<Tail> {
    match word {
        "leave" => Some(Tail::Leave),
        "refuse" => Some(Tail::Refuse),
        _ => None,
    }
}

fn reading_of(word: &str, octets: usize) -> Option<Reading> {
    match word {
        "convert" => Some(Reading::AtATime(octets)),
        "at-hand" => Some(Reading::Buffer(octets)),
        _ => None,
    }
}

fn algorithm_of(word: &str) -> Option<HashAlg> {
    match word {
        "sha1" => Some(HashAlg::Sha1),
        "sha224" => Some(HashAlg::Sha224),
        "sha256" => Some(HashAlg::Sha256),
        "sha384" => Some(HashAlg::Sha384),
        "sha512" => Some(HashAlg::Sha512),
        "sha512-224" => Some(HashAlg::Sha512_224),
        "sha512-256" => Some(HashAlg::Sha512_256),
        _ => None,
    }
}

fn verdict_of(word: &str) -> Option<Verdict> {
    match word {
        "good" => Some(Verdict::Good),
        "bad" => Some(Verdict::Bad),
        "unknown" => Some(Verdict::Unknown),
        _ => None,
    }
}

/// How many octets a word says, or `-` for none.
fn octets_or_none(word: &str) -> Option<Option<usize>> {
    match word {
        "-" => Some(None),
        _ => Some(Some(word.parse::<usize>().ok()?)),
    }
}

fn has_to_be_token(word: &str) -> Option<bool> {
    match word {
        "any" => Some(false),
        "token" => Some(true),
        _ => None,
    }
}

fn limit_of(word: &str) -> Option<u64> {
    Some(word.parse::<u64>().ok()?.min(MAX_LIMIT))
}

fn count_of(word: &str) -> Option<usize> {
    word.parse::<usize>().ok()
}

fn conversion_of(reading: &str, limit: &str, tail: &str, octets: &str) -> Option<Task> {
    Some(Task::Convert {
        limit: limit_of(limit)?,
        tail: tail_of(tail)?,
        reading: reading_of(reading, count_of(octets)?)?,
    })
}

fn digest_of(algorithm: &str, len: &str) -> Option<Task> {
    Some(Task::Digest {
        algorithm: algorithm_of(algorithm)?,
        len: count_of(len)?,
    })
}

fn check_of(verdict: &str, detached: &str, stamped: &str, kind: &str) -> Option<Task> {
    Some(Task::Check {
        verdict: verdict_of(verdict)?,
        detached: octets_or_none(detached)?,
        stamped: octets_or_none(stamped)?,
        token: has_to_be_token(kind)?,
    })
}

fn rest_of(limit: &str, octets: &str) -> Option<Task> {
    Some(Task::Rest {
        limit: limit_of(limit)?,
        at_a_time: count_of(octets)?,
    })
}

/// The task with this name, for which two words are given.
fn task_of_two(name: &str, first: &str, second: &str) -> Option<Task> {
    match name {
        "digest" => digest_of(first, second),
        "rest" => rest_of(first, second),
        _ => None,
    }
}

/// The task with this name, for which one word is given.
fn task_of_one(name: &str, word: &str) -> Option<Task> {
    match name {
        "again" => Some(Task::Again(word.parse::<u64>().ok()?)),
        "append" => Some(Task::Append(appended_of(word)?)),
        "same" => Some(Task::Same {
            first: count_of(word)?,
        }),
        _ => None,
    }
}

/// The task with this name, for which no word is given.
fn task_alone(name: &str) -> Option<Task> {
    match name {
        "times" => Some(Task::Times),
        "first-cert-id" => Some(Task::FirstCertId),
        "listing" => Some(Task::Listing),
        "imprint" => Some(Task::Imprint),
        "tst-info" => Some(Task::TstInfo),
        "opaque" => Some(Task::Opaque),
        "elements" => Some(Task::Elements),
        _ => None,
    }
}

fn task_of(words: &[String]) -> Option<Task> {
    match words {
        [_, name, verdict, detached, stamped, kind] if name.as_str() == "check" => check_of(
            verdict.as_str(),
            detached.as_str(),
            stamped.as_str(),
            kind.as_str(),
        ),
        [_, reading, limit, tail, octets] => conversion_of(
            reading.as_str(),
            limit.as_str(),
            tail.as_str(),
            octets.as_str(),
        ),
        [_, name, first, second] => task_of_two(name.as_str(), first.as_str(), second.as_str()),
        [_, name, word] => task_of_one(name.as_str(), word.as_str()),
        [_, name] => task_alone(name.as_str()),
        _ => None,
    }
}

fn many_of(name: &str, limit: &str, octets: &str) -> Option<Asked> {
    let octets = count_of(octets)?;
    let reading = match name {
        "many" => Reading::AtATime(octets),
        "many-at-hand" => Reading::Buffer(octets),
        _ => return None,
    };
    Some(Asked::Many {
        limit: limit_of(limit)?,
        reading,
    })
}

fn asked_of(words: &[String]) -> Option<Asked> {
    if let [_, name, limit, octets] = words
        && let Some(many) = many_of(name.as_str(), limit.as_str(), octets.as_str())
    {
        return Some(many);
    }
    Some(Asked::One(task_of(words)?))
}

fn words(rt: &HostRuntime) -> io::Result<Vec<String>> {
    let args = env::args(rt)?;
    Ok(args.collect(rt.alloc())?)
}

/// Canonicalises `octets` this many times, and writes the DER of the last time.
fn convert_again(
    alloc: Global,
    octets: &[u8],
    times: u64,
    output: &mut Vec<u8>,
) -> Result<Done, Fault> {
    let mut done = Done {
        read: 0,
        written: 0,
    };
    for _ in 0..times {
        done = convert(alloc, Slice::new(octets), LONGEST, Tail::Refuse, output)?;
    }
    Ok(done)
}

/// Canonicalises what `input` gives, and writes the DER to `output`.
fn convert<R: Input + Drop>(
    alloc: Global,
    input: R,
    limit: u64,
    tail: Tail,
    output: &mut Vec<u8>,
) -> Result<Done, Fault> {
    let mut writer = Watched::new(Vec::new(alloc));
    let (_, done) = canonicalise(alloc, input, &mut writer, limit.min(MAX_LIMIT), tail);
    *output = writer.into_inner();
    done
}

/// Writes the digest of `octets`, in pieces of `len` octets.
fn digest_in_pieces(
    alloc: Global,
    algorithm: HashAlg,
    octets: &[u8],
    len: usize,
    output: &mut Vec<u8>,
) -> Result<Done, Fault> {
    let mut pieces = Vec::new(alloc);
    for piece in octets.chunks(len.max(1)) {
        if pieces.push(piece).is_err() {
            return Err(Fault::OutOfMemory);
        }
    }
    let hashed = digest(algorithm, &pieces);
    if output.extend_from_slice(hashed.octets()).is_err() {
        return Err(Fault::OutOfMemory);
    }
    Ok(Done {
        read: octets.len() as u64,
        written: output.len() as u64,
    })
}

/// Appends a line for each finding: its number, and the signer.
fn report_findings(alloc: Global, report: &Report, output: &mut Vec<u8>) -> Result<(), AllocError> {
    for finding in report.findings() {
        let line = match finding.signer {
            Some(signer) => format!(in alloc; "{} {signer}\n", finding.code)?,
            None => format!(in alloc; "{}\n", finding.code)?,
        };
        output.extend_from_slice(line.as_bytes())?;
    }
    Ok(())
}

/// Writes the findings on a message.
fn report_message(
    alloc: Global,
    message: &Message,
    given: &Given<'_>,
    verdict: Verdict,
    output: &mut Vec<u8>,
) -> Result<(), AllocError> {
    let Some(signed_data) = message.signed_data() else {
        return output.extend_from_slice(b"no signed data\n");
    };
    let report = check(alloc, &signed_data, given, &Always { verdict })?;
    report_findings(alloc, &report, output)
}

/// A message, and everything after it.
fn read_both<I: Input + Drop>(alloc: Global, input: I) -> Result<(Message, Vec<u8>), Fault> {
    let (input, message) = read_message(alloc, input, LONGEST, Tail::Leave);
    let message = message?;
    let (_, rest) = read_rest(alloc, input, LONGEST);
    Ok((message, rest?))
}

/// So many of the octets, and the others; all of them if there are fewer.
fn split(octets: &[u8], count: Option<usize>) -> (Option<&[u8]>, &[u8]) {
    match count {
        Some(count) => {
            let (first, rest) = octets.split_at(count.min(octets.len()));
            (Some(first), rest)
        }
        None => (None, octets),
    }
}

/// What a task did that read a message with what is after it.
fn done_with_both(
    message: &Message,
    rest: &[u8],
    told: Result<(), AllocError>,
    output: &[u8],
) -> Result<Done, Fault> {
    match told {
        Ok(()) => Ok(Done {
            read: message.octets().len() as u64 + rest.len() as u64,
            written: output.len() as u64,
        }),
        Err(_) => Err(Fault::OutOfMemory),
    }
}

/// Checks a message, of which what is after it is the detached content and the data that were
/// time-stamped.
fn check_message<I: Input + Drop>(
    alloc: Global,
    input: I,
    verdict: Verdict,
    (detached, stamped): (Option<usize>, Option<usize>),
    token: bool,
    output: &mut Vec<u8>,
) -> Result<Done, Fault> {
    let (message, rest) = read_both(alloc, input)?;
    let (detached, after) = split(&rest, detached);
    let (stamped, _) = split(after, stamped);
    let given = Given {
        detached,
        stamped,
        token,
    };
    let told = report_message(alloc, &message, &given, verdict, output);
    done_with_both(&message, &rest, told, output)
}

/// Writes whether the message in the first octets and that in the others are the same.
fn report_same(
    alloc: Global,
    octets: &[u8],
    first: usize,
    output: &mut Vec<u8>,
) -> Result<Done, Fault> {
    let (first, second) = octets.split_at(first.min(octets.len()));
    let (_, _, same) = same(alloc, Slice::new(first), Slice::new(second), LONGEST);
    let line: &[u8] = match same {
        Ok(true) => b"same\n",
        Ok(false) => b"different\n",
        Err(SameFault::First(fault) | SameFault::Second(fault)) => return Err(fault),
        Err(SameFault::OutOfMemory) => return Err(Fault::OutOfMemory),
    };
    if output.extend_from_slice(line).is_err() {
        return Err(Fault::OutOfMemory);
    }
    Ok(Done {
        read: octets.len() as u64,
        written: line.len() as u64,
    })
}

/// Writes the listing of a message.
fn list_message<I: Input + Drop>(
    alloc: Global,
    input: I,
    output: &mut Vec<u8>,
) -> Result<Done, Fault> {
    let (_, message) = read_message(alloc, input, LONGEST, Tail::Refuse);
    let message = message?;
    let Ok(text) = listing(alloc, &message) else {
        return Err(Fault::OutOfMemory);
    };
    *output = text.into_bytes();
    done_with_both(&message, &[], Ok(()), output)
}

/// Writes the finding on the imprint of a request for the data after it.
fn check_imprint_of<I: Input + Drop>(
    alloc: Global,
    input: I,
    output: &mut Vec<u8>,
) -> Result<Done, Fault> {
    let (message, rest) = read_both(alloc, input)?;
    let told = report_imprint(&message, &rest, output);
    done_with_both(&message, &rest, told, output)
}

/// Appends a line for the contents of a GeneralizedTime.
fn report_time(alloc: Global, contents: &[u8], output: &mut Vec<u8>) -> Result<(), AllocError> {
    match GenTime::from_der(alloc, contents) {
        Ok(time) => {
            let seconds = format!(in alloc; "{} ", time.unix_seconds())?;
            output.extend_from_slice(seconds.as_bytes())?;
            output.extend_from_slice(time.digits())?;
            output.extend_from_slice(b" ")?;
            output.extend_from_slice(time.fraction())?;
        }
        Err(fault) => {
            let name = format!(in alloc; "{fault:?}")?;
            output.extend_from_slice(name.as_bytes())?;
        }
    }
    output.extend_from_slice(b"\n")
}

/// Appends a line for each line of `octets`.
fn report_times(alloc: Global, octets: &[u8], output: &mut Vec<u8>) -> Result<Done, Fault> {
    for line in octets.split(|octet| *octet == b'\n') {
        if report_time(alloc, line, output).is_err() {
            return Err(Fault::OutOfMemory);
        }
    }
    Ok(Done {
        read: octets.len() as u64,
        written: output.len() as u64,
    })
}

/// The first unsigned attribute of the first signer.
fn first_unsigned<'a>(message: &'a Message) -> Option<Attribute<'a>> {
    let signer = message.signed_data()?.signer(0)?;
    signer.unsigned_attrs()?.get(0)
}

/// Writes the first certificate identifier of the first unsigned attribute, on a line.
fn report_cert_id(
    alloc: Global,
    message: &Message,
    output: &mut Vec<u8>,
) -> Result<(), AllocError> {
    let Some(attribute) = first_unsigned(message) else {
        return output.extend_from_slice(b"no attribute\n");
    };
    let line = format!(in alloc; "{:?}\n", first_cert_id(&attribute))?;
    output.extend_from_slice(line.as_bytes())
}

/// Reads a message, and writes what `report_cert_id` does.
fn cert_id_of_message<I: Input + Drop>(
    alloc: Global,
    input: I,
    output: &mut Vec<u8>,
) -> Result<Done, Fault> {
    let (_, message) = read_message(alloc, input, LONGEST, Tail::Refuse);
    let message = message?;
    if report_cert_id(alloc, &message, output).is_err() {
        return Err(Fault::OutOfMemory);
    }
    Ok(Done {
        read: message.octets().len() as u64,
        written: output.len() as u64,
    })
}

/// Writes what `input` gives, of which at most `limit` octets are read.
fn write_rest<I: Input + Drop>(
    alloc: Global,
    input: I,
    limit: u64,
    output: &mut Vec<u8>,
) -> Result<Done, Fault> {
    let (_, rest) = read_rest(alloc, input, limit.min(MAX_LIMIT));
    *output = rest?;
    let octets = output.len() as u64;
    Ok(Done {
        read: octets,
        written: octets,
    })
}

/// All octets of a reader.
fn octets_of<R: Read + Drop>(alloc: Global, mut input: R) -> Result<Vec<u8>, Fault> {
    let mut octets = Vec::new(alloc);
    match input.read_to_end(&mut octets) {
        Ok(_) => Ok(octets),
        Err(_) => Err(Fault::Read),
    }
}

/// Canonicalises what a reader gives through a buffer of so many octets.
fn convert_buffered<R: Read + Drop>(
    alloc: Global,
    input: R,
    capacity: usize,
    limit: u64,
    tail: Tail,
    output: &mut Vec<u8>,
) -> Result<Done, Fault> {
    match BufReader::with_capacity(alloc, capacity, input) {
        Ok(buffer) => convert(alloc, Buffered::new(buffer), limit, tail, output),
        Err(_) => Err(Fault::OutOfMemory),
    }
}

/// A reader that gives at most so many octets at a time, and has none at hand.
fn watched<R: Read + Drop>(reader: R, most: usize) -> Watched<Paced<R>> {
    Watched::new(Paced { reader, most })
}

/// Reads the elements inside an element of definite length; these hold no elements.
fn elements<I: Input>(source: &mut Source<I>) -> Result<(), Fault> {
    let outer = source.header(&Bound::top())?;
    let octets = outer.len.unwrap_or(0);
    for _ in 0..octets {
        if source.peek(&outer.inner)?.is_none() {
            break;
        }
        let header = source.header(&outer.inner)?;
        if let Some(n) = header.len {
            source.contents(n)?;
        }
    }
    source.close(outer.inner)
}

/// Reads one value through a buffer: by one call if `is_whole` is true, and else element by element.
fn read_value<R: Read + Drop>(alloc: Global, input: R, is_whole: bool) -> Result<Done, Fault> {
    let Ok(buffer) = BufReader::new(alloc, input) else {
        return Err(Fault::OutOfMemory);
    };
    let mut source = Source::new(alloc, Buffered::new(buffer), LONGEST);
    let read = if is_whole {
        source.opaque(&Bound::top()).map(|_| ())
    } else {
        elements(&mut source)
    };
    let octets = source.position();
    let (_, _) = source.finish();
    read.map(|()| Done {
        read: octets,
        written: 0,
    })
}

/// Does what is asked with the standard input, and writes the DER to `output`.
fn perform<R: Read + Drop>(
    alloc: Global,
    task: Task,
    input: R,
    output: &mut Vec<u8>,
) -> Result<Done, Fault> {
    match task {
        Task::Convert {
            limit,
            tail,
            reading: Reading::AtATime(most),
        } => convert(alloc, watched(input, most), limit, tail, output),
        Task::Convert {
            limit,
            tail,
            reading: Reading::Buffer(capacity),
        } => convert_buffered(alloc, input, capacity, limit, tail, output),
        Task::Again(times) => {
            let octets = octets_of(alloc, input)?;
            convert_again(alloc, &octets, times, output)
        }
        Task::Digest { algorithm, len } => {
            let octets = octets_of(alloc, input)?;
            digest_in_pieces(alloc, algorithm, &octets, len, output)
        }
        Task::Check {
            verdict,
            detached,
            stamped,
            token,
        } => {
            let given = (detached, stamped);
            check_message(alloc, Watched::new(input), verdict, given, token, output)
        }
        Task::Same { first } => {
            let octets = octets_of(alloc, input)?;
            report_same(alloc, &octets, first, output)
        }
        Task::Listing => list_message(alloc, Watched::new(input), output),
        Task::Imprint => check_imprint_of(alloc, Watched::new(input), output),
        Task::TstInfo => {
            let octets = octets_of(alloc, input)?;
            report_tst_info(alloc, &octets, output)
        }
        Task::FirstCertId => cert_id_of_message(alloc, Watched::new(input), output),
        Task::Rest { limit, at_a_time } => {
            write_rest(alloc, watched(input, at_a_time), limit, output)
        }
        Task::Times => {
            let octets = octets_of(alloc, input)?;
            report_times(alloc, &octets, output)
        }
        Task::Append(what) => append(alloc, Watched::new(input), what, output),
        Task::Opaque => read_value(alloc, input, true),
        Task::Elements => read_value(alloc, input, false),
    }
}

/// What is said of a task on standard error.
fn told(alloc: Global, done: Result<Done, Fault>) -> Result<String, AllocError> {
    match done {
        Ok(done) => format!(in alloc; "read {} written {}\n", done.read, done.written),
        Err(fault) => format!(in alloc; "{fault}\n"),
    }
}

/// Does a task, and returns whether it was done and all was written.
fn do_task<R: Read + Drop>(rt: &HostRuntime, task: Task, input: R) -> bool {
    let mut output = Vec::new(rt.alloc());
    let done = perform(rt.alloc(), task, input, &mut output);
    let Ok(told) = told(rt.alloc(), done) else {
        return false;
    };
    let written = pour(&mut Watched::new(rt.stdout()), &output);
    let said = pour(&mut Watched::new(rt.stderr()), told.as_bytes());
    written.is_ok() && said.is_ok() && done.is_ok()
}

/// Converts messages one after another, and returns whether all are written.
fn do_many<R: Read + Drop>(rt: &HostRuntime, limit: u64, reading: Reading, input: R) -> bool {
    let mut output = Watched::new(rt.stdout());
    let done = convert_many(rt.alloc(), input, limit, reading, &mut output);
    let Ok(told) = told_of_many(rt.alloc(), done) else {
        return false;
    };
    let said = pour(&mut Watched::new(rt.stderr()), told.as_bytes());
    said.is_ok() && done.is_ok()
}

fn main(rt: HostRuntime) -> ExitCode {
    let Ok(words) = words(&rt) else {
        return ExitCode::FAILURE;
    };
    let (Some(asked), Ok(input)) = (asked_of(&words), BufReader::new(rt.alloc(), rt.stdin())) else {
        return ExitCode::FAILURE;
    };
    let is_well = match asked {
        Asked::One(task) => do_task(&rt, task, input),
        Asked::Many { limit, reading } => do_many(&rt, limit, reading, input),
    };
    if is_well {
        ExitCode::SUCCESS
    } else {
        ExitCode::FAILURE
    }
}
