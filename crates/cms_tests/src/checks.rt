//! What a verifier is asked: once for each signer whose signature covers anything, in their order; and the
//! algorithms of digests.
use crate::asserts::assert_same;
use crate::samples::{COVERED, LIMIT, MIXED, SIGNED, TWO_SIGNERS, message_of};
use cms_canon::Message;
use cms_check::{Given, HashAlg, Job, Verdict, Verifier, check, digest};
use cms_message::{Indexed, SignerIdentifier};
use cms_scalars::{Oid, read_oid};
use cms_tlv::{Bound, Fault, Slice, Source};
use std::alloc::{AllocError, Global};
use std::cell::RefCell;
use std::process::Abort;
use std::test::Fail;

/// A verifier that keeps a line for each job, and says Good.
#[derive(Drop)]
struct Recorder {
    alloc: Global,
    jobs: RefCell<String>,
}

impl Recorder {
    fn keep(&self, job: &Job<'_>) {
        if let Ok(mut jobs) = self.jobs.try_borrow_mut() {
            if put_line(self.alloc, job, &mut jobs).is_err() {
                jobs.clear();
            }
        }
    }
}

impl Verifier for Recorder {
    ghost use Rattle.cms_check.specs.declared.verifier.Verdict.TheVariants.{Good};

    ghost answer = { λ v job. Good };

    fn verify(&self, job: &Job<'_>) -> Verdict {
        self.keep(job);
        Verdict::Good
    }
}

/// Appends octets in hexadecimal, and a space.
fn put_word(alloc: Global, octets: &[u8], line: &mut String) -> Result<(), AllocError> {
    let word = hex::encode(alloc, octets)?;
    line.push_str(word.as_str())?;
    line.push_str(" ")
}

/// Appends octets in pieces as one word.
fn put_pieces(alloc: Global, pieces: &[&[u8]], line: &mut String) -> Result<(), AllocError> {
    let octets = pieces.concat(alloc)?;
    put_word(alloc, &octets, line)
}

/// Appends what identifies a signer: the key identifier, or the serial number.
fn put_signer(
    alloc: Global,
    sid: &SignerIdentifier<'_>,
    line: &mut String,
) -> Result<(), AllocError> {
    match sid {
        SignerIdentifier::IssuerAndSerialNumber(_, serial) => {
            put_word(alloc, serial.octets(), line)
        }
        SignerIdentifier::SubjectKeyIdentifier(key) => {
            let pieces = key.all_pieces(alloc)?;
            put_pieces(alloc, &pieces, line)
        }
    }
}

/// Appends the identifiers of the signature's algorithm and of the digest algorithm.
fn put_algorithms(alloc: Global, job: &Job<'_>, line: &mut String) -> Result<(), AllocError> {
    put_word(alloc, job.signature_algorithm.algorithm().octets(), line)?;
    put_word(alloc, job.digest_algorithm.algorithm().octets(), line)
}

/// Appends how many certificates there are, and ends the line.
fn put_certificates(alloc: Global, job: &Job<'_>, line: &mut String) -> Result<(), AllocError> {
    let certificates = match &job.certificates {
        Some(certificates) => certificates.len(),
        None => 0,
    };
    let count = certificates.to_string(alloc)?;
    line.push_str(count.as_str())?;
    line.push_str("\n")
}

/// Appends what is asked, in hexadecimal: the octets covered, the signature, its algorithm, the digest
/// algorithm, the key identifier or the serial number, and how many certificates there are.
fn put_line(alloc: Global, job: &Job<'_>, line: &mut String) -> Result<(), AllocError> {
    put_pieces(alloc, job.covered, line)?;
    put_pieces(alloc, job.signature, line)?;
    put_algorithms(alloc, job, line)?;
    put_signer(alloc, &job.sid, line)?;
    put_certificates(alloc, job, line)
}

/// What the verifier is asked when a message is checked.
fn asked(
    alloc: Global,
    message: &Message,
    detached: Option<&[u8]>,
) -> Result<Option<String>, AllocError> {
    let Some(signed_data) = message.signed_data() else {
        return Ok(None);
    };
    let recorder = Recorder {
        alloc,
        jobs: RefCell::new(String::new(alloc)),
    };
    let given = Given {
        detached,
        ..Given::default()
    };
    check(alloc, &signed_data, &given, &recorder)?;
    Ok(Some(recorder.jobs.into_inner()))
}

/// A message, its detached content, and what the verifier is asked.
struct Checked {
    input: &'static str,
    detached: Option<&'static [u8]>,
    /// The lines, in parts.
    jobs: &'static [&'static str],
}

const CHECKED: &[Checked] = &[
    Checked {
        input: SIGNED,
        detached: None,
        jobs: &[COVERED, " aa 2a0304 608648016503040201 11 0\n"],
    },
    Checked {
        input: SIGNED,
        detached: Some(b"xyz"),
        jobs: &[COVERED, " aa 2a0304 608648016503040201 11 0\n"],
    },
    Checked {
        input: TWO_SIGNERS,
        detached: Some(b"abc"),
        jobs: &[
            "616263 aa 2a0304 2a0304 11 0\n",
            "616263 bb 2a0304 2a0304 22 0\n",
        ],
    },
    Checked {
        input: TWO_SIGNERS,
        detached: None,
        jobs: &[],
    },
    Checked {
        input: MIXED,
        detached: None,
        jobs: &[COVERED, " aa 2a0304 608648016503040201 11 1\n"],
    },
    Checked {
        input: MIXED,
        detached: Some(b"abc"),
        jobs: &[
            COVERED,
            " aa 2a0304 608648016503040201 11 1\n",
            "616263 bb 2a0304 608648016503040201 09 1\n",
        ],
    },
];

/// Checks a message, and compares what the verifier was asked.
fn assert_asked(rt: &(impl Abort + AllocGlobal), case: &Checked) -> Result<(), Fail> {
    let message = message_of(rt.alloc(), case.input)?;
    let came = asked(rt.alloc(), &message, case.detached)?;
    let wanted = case.jobs.concat(rt.alloc())?;
    let came = came.as_ref().map(|text| text.as_str());
    assert_same(rt, came, Some(wanted.as_str()), "what is asked");
    Ok(())
}

#[test]
fn asked_once_for_each_cover(rt: HostRuntime) -> Result<(), Fail> {
    for case in CHECKED {
        assert_asked(&rt, case)?;
    }
    Ok(())
}

/// An OBJECT IDENTIFIER in hexadecimal, the algorithm that it names, and how many octets its digests have.
const ALGORITHMS: &[(&str, Option<(HashAlg, usize)>)] = &[
    ("06052b0e03021a", Some((HashAlg::Sha1, 20))),
    ("0609608648016503040204", Some((HashAlg::Sha224, 28))),
    ("0609608648016503040201", Some((HashAlg::Sha256, 32))),
    ("0609608648016503040202", Some((HashAlg::Sha384, 48))),
    ("0609608648016503040203", Some((HashAlg::Sha512, 64))),
    ("0609608648016503040205", Some((HashAlg::Sha512_224, 28))),
    ("0609608648016503040206", Some((HashAlg::Sha512_256, 32))),
    // SHA3-256; md5; a prefix of the identifier of SHA-256.
    ("0609608648016503040208", None),
    ("06082a864886f70d0205", None),
    ("06086086480165030402", None),
];

/// The algorithm that an OBJECT IDENTIFIER names, and how many octets its digests have.
fn algorithm_of(alloc: Global, octets: &[u8]) -> Result<Option<(HashAlg, usize)>, Fault> {
    let mut source = Source::new(alloc, Slice::new(octets), LIMIT);
    let oid = read_oid(&mut source, &Bound::top());
    let (_, kept) = source.finish();
    let algorithm = HashAlg::of(&Oid::new(&oid?, &kept));
    Ok(algorithm.map(|it| (it, digest(it, &[]).octets().len())))
}

#[test]
fn algorithms_named(rt: HostRuntime) -> Result<(), Fail> {
    for (input, want) in ALGORITHMS {
        let octets = hex::decode(rt.alloc(), input)?;
        let algorithm = algorithm_of(rt.alloc(), &octets);
        assert_same(&rt, algorithm, Ok(*want), input);
    }
    Ok(())
}
