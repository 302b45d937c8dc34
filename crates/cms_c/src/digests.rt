//! Findings by digests of content that is detached, and of data that were time-stamped.
//!
//! A caller digests what does not fit into memory, in pieces and by a library of its own. It is asked for
//! the digests by number, so that it needs no object identifiers, and hands over structs of one size.
ghost use Rattle.std.specs.Prelude.{◌≡◌, ◌≢◌, List, ℕ, Option, None, Some, take, false, IfOk, IfErr, OnOk};
ghost use Rattle.std.specs.Option.{IfSome, option_copied};
ghost use Rattle.cms_check.specs.Digests.{AreDigestsOf, digest_length, digest_octets};
ghost use Rattle.cms_check.specs.Known.{Correspond};
ghost use Rattle.cms_canon.specs.Asked.{needs_content};
ghost use Rattle.cms_c.specs.Calls.{FailsBy, items_passed, limit_of_c};
ghost use Rattle.cms_c.specs.Digests.{AreAsked, AreAskedByInput, AreDigestsOfC, AreFoundByDigests, AreFoundInInput, FailsByDigests, IfGiven, IsAsked, IsCheckByDigests, LacksAsked, LacksForContent, LacksForData, LacksForFindings, algorithm_number, content_asked, digest_given};

use crate::check::{Finding, findings_of_c};
use crate::given::{message_in, passed};
use crate::outcome::{Lack, Outcome};
use cms_canon::{Message, asked_of_content, asked_of_data, check_message_digests, needs_content};
use cms_check::{Digests, HashAlg, Hashed};
use cms_tlv::Fault;
use std::alloc::{AllocError, Global};

const OF_CONTENT: u32 = 1;

const OF_DATA: u32 = 2;

/// A digest that a message asks for of what is not attached to it.
#[repr(C)]
#[derive(Clone, Copy)]
pub struct DigestAsked {
    /// 1 for the content, 2 for the data that were time-stamped, or are to be.
    pub of: u32,
    /// The number of the digest algorithm, 1 to 7; 0 if the content is needed itself.
    pub algorithm: u32,
}

/// A digest.
#[repr(C)]
#[derive(Clone, Copy)]
pub struct Digest {
    /// The number of its algorithm: 1 for SHA-1, 2 for SHA-224, 3 for SHA-256, 4 for SHA-384, 5 for
    /// SHA-512, 6 for SHA-512/224, 7 for SHA-512/256. A digest with another number is not used.
    pub algorithm: u32,
    /// Its octets, as many as the algorithm has, and after them any others.
    pub octets: [u8; 64],
}

/// Writes which digests the one message in `input` asks for to the beginning of `asked`: those of its
/// content, if that is detached, ordered by number; then that of the data that were time-stamped, or are
/// to be, if it is known. If the content is needed itself, the only row says so.
///
/// The message and its DER have at most `limit` octets; a limit above 2^40 counts as 2^40. If the
/// message is refused, memory runs out, or the rows do not fit into `asked`, nothing is written.
#[unsafe(no_mangle)]
pub extern "C" fn cms_canon_digests_asked(
    alloc: Global,
    input: &[u8],
    limit: u64,
    asked: &mut [DigestAsked],
    outcome: &mut Outcome,
)
    ensures { IsAsked input.now (limit_of_c limit) asked.old asked.new outcome.new }
{
    *outcome = match asked_by_input(alloc, input, limit) {
        Ok(found) => Outcome::delivered(&found, asked),
        Err(fault) => Outcome::of_fault(fault),
    };
}

fn asked_by_input(alloc: Global, input: &[u8], limit: u64) -> Result<Vec<DigestAsked>, Fault>
    ensures ok { IfOk result (λ v. AreAskedByInput input.now (limit_of_c limit) v.items) }
    ensures err { IfErr result (FailsBy input.now (limit_of_c limit)) }
{
    let message = message_in(alloc, input, limit)?;
    asked_by(alloc, &message).map_err(|_| Fault::OutOfMemory)
}

/// All that a message asks for. An error means out of memory.
fn asked_by(alloc: Global, message: &Message) -> Result<Vec<DigestAsked>, AllocError>
    ensures { IfOk result (λ v. AreAsked message.now.value v.items) }
{
    let mut asked = asked_of_its_content(alloc, message)?;
    if let Some(algorithm) = asked_of_data(alloc, message)? {
        asked.push(DigestAsked {
            of: OF_DATA,
            algorithm: algorithm_number(algorithm),
        })?;
    }
    Ok(asked)
}

/// What a message asks for of its content. An error means out of memory.
fn asked_of_its_content(alloc: Global, message: &Message) -> Result<Vec<DigestAsked>, AllocError>
    ensures { IfOk result (λ v. v.items ≡ content_asked message.now.value) }
{
    let mut asked = Vec::new(alloc);
    if needs_content(message) {
        asked.push(DigestAsked {
            of: OF_CONTENT,
            algorithm: 0,
        })?;
        return Ok(asked);
    }
    for algorithm in &asked_of_content(alloc, message)? {
        asked.push(DigestAsked {
            of: OF_CONTENT,
            algorithm: algorithm_number(*algorithm),
        })?;
    }
    Ok(asked)
}

/// Writes the rules that the one message in `input` breaks to the beginning of `findings`, as
/// `cms_canon_check` does, by digests in place of octets that are not attached.
///
/// If `has_content` is true, `content` are digests of the detached content, which are used only if the
/// message has none itself. If `has_data` is true, `data` are digests of the data that were
/// time-stamped. Both have to have those that `cms_canon_digests_asked` names, and may have more. The
/// first one by an algorithm counts.
///
/// The message and its DER have at most `limit` octets; a limit above 2^40 counts as 2^40. If the
/// message is refused, a digest is missing, the content is needed itself, memory runs out, or the
/// findings do not fit into `findings`, nothing is written.
#[unsafe(no_mangle)]
pub extern "C" fn cms_canon_check_digests(
    alloc: Global,
    input: &[u8],
    content: &[Digest],
    has_content: bool,
    data: &[Digest],
    has_data: bool,
    limit: u64,
    findings: &mut [Finding],
    outcome: &mut Outcome,
)
    ensures { IsCheckByDigests input.now (limit_of_c limit) (items_passed has_content content.now)
        (items_passed has_data «data».now) findings.old findings.new outcome.new }
{
    let detached = passed(content, has_content);
    let stamped = passed(data, has_data);
    *outcome = match checked(alloc, input, limit, detached, stamped) {
        Ok(found) => Outcome::delivered(&found, findings),
        Err(lack) => Outcome::of_lack(lack),
    };
}

/// The rules that the message in `input` breaks.
fn checked(
    alloc: Global,
    input: &[u8],
    limit: u64,
    content: Option<&[Digest]>,
    stamped: Option<&[Digest]>,
) -> Result<Vec<Finding>, Lack>
    ensures ok { IfOk result (λ v. AreFoundInInput input.now (limit_of_c limit)
        (option_copied content.entry) (option_copied stamped.entry) v.items) }
    ensures err { IfErr result (FailsByDigests input.now (limit_of_c limit)
        (option_copied content.entry) (option_copied stamped.entry)) }
{
    match message_in(alloc, input, limit) {
        Ok(message) => found_in(alloc, &message, content, stamped),
        Err(fault) => Err(Lack::Fault(fault)),
    }
}

/// The rules that a message breaks.
fn found_in(
    alloc: Global,
    message: &Message,
    content: Option<&[Digest]>,
    stamped: Option<&[Digest]>,
) -> Result<Vec<Finding>, Lack>
    ensures ok { IfOk result (λ v. AreFoundByDigests message.now.value
        (option_copied content.entry) (option_copied stamped.entry) v.items) }
    ensures err { IfErr result (LacksForFindings message.now.value
        (option_copied content.entry) (option_copied stamped.entry)) }
{
    let content = content_digests(alloc, message, content)?;
    let stamped = data_digests(alloc, message, stamped)?;
    let report = check_message_digests(alloc, message, content.as_ref(), stamped.as_ref());
    let Ok(report) = report else {
        return Err(Lack::Fault(Fault::OutOfMemory));
    };
    findings_of_c(alloc, report.findings()).map_err(|_| Lack::Fault(Fault::OutOfMemory))
}

/// The digests of its content that a message asks for, if digests are given.
fn content_digests(
    alloc: Global,
    message: &Message,
    given: Option<&[Digest]>,
) -> Result<Option<Digests>, Lack>
    ensures ok { IfOk result (λ digests. (m : Option (List ℕ))
        → Correspond AreDigestsOfC (option_copied given.entry) m
        → Correspond AreDigestsOf digests m) }
    ensures not_needed { OnOk result (option_copied given.entry ≢ None
        → needs_content message.now.value ≡ false) }
    ensures err { IfErr result (λ l. IfGiven (λ ds. LacksForContent message.now.value ds l)
        (option_copied given.entry)) }
{
    let Some(given) = given else {
        return Ok(None);
    };
    if needs_content(message) {
        return Err(Lack::NeedsContent);
    }
    let Ok(asked) = asked_of_content(alloc, message) else {
        return Err(Lack::Fault(Fault::OutOfMemory));
    };
    digests_among(alloc, &asked, given).map(Some)
}

/// That of the data that were time-stamped.
fn data_digests(
    alloc: Global,
    message: &Message,
    given: Option<&[Digest]>,
) -> Result<Option<Digests>, Lack>
    ensures ok { IfOk result (λ digests. (m : Option (List ℕ))
        → Correspond AreDigestsOfC (option_copied given.entry) m
        → Correspond AreDigestsOf digests m) }
    ensures err { IfErr result (λ l. IfGiven (λ ds. LacksForData message.now.value ds l)
        (option_copied given.entry)) }
{
    let Some(given) = given else {
        return Ok(None);
    };
    let Ok(asked) = asked_of_data(alloc, message) else {
        return Err(Lack::Fault(Fault::OutOfMemory));
    };
    digests_among(alloc, asked.as_slice(), given).map(Some)
}

/// Those of the digests that are asked for.
fn digests_among(alloc: Global, asked: &[HashAlg], given: &[Digest]) -> Result<Digests, Lack>
    ensures ok { IfOk result (λ digests. (m : List ℕ) → AreDigestsOfC given.now m
        → AreDigestsOf digests m) }
    ensures err { IfErr result (LacksAsked asked.now given.now) }
{
    let mut digests = Vec::new(alloc);
    for algorithm in asked {
        let Some(hashed) = digest_among(given, *algorithm) else {
            return Err(Lack::NoDigest);
        };
        if digests.push((*algorithm, hashed)).is_err() {
            return Err(Lack::Fault(Fault::OutOfMemory));
        }
    }
    Ok(Digests::new(digests))
}

/// The first digest by an algorithm.
fn digest_among(given: &[Digest], algorithm: HashAlg) -> Option<Hashed>
    ensures some { IfSome result (λ hashed. (d : Digest)
        × (digest_given given.now algorithm ≡ Some d)
        × (digest_octets hashed ≡ take (digest_length algorithm) d.octets)) }
    ensures none { result ≡ None → digest_given given.now algorithm ≡ None }
{
    let number = algorithm_number(algorithm);
    for digest in given {
        if digest.algorithm == number {
            return Some(Hashed::first_of(algorithm, &digest.octets));
        }
    }
    None
}

/// The number of an algorithm for C.
fn algorithm_number(algorithm: HashAlg) -> u32
    ensures { result ≡ algorithm_number algorithm }
{
    match algorithm {
        HashAlg::Sha1 => 1,
        HashAlg::Sha224 => 2,
        HashAlg::Sha256 => 3,
        HashAlg::Sha384 => 4,
        HashAlg::Sha512 => 5,
        HashAlg::Sha512_224 => 6,
        HashAlg::Sha512_256 => 7,
    }
}
