//! The rules of RFC 5652 that a message breaks, and digests of what signatures cover, by the algorithms
//! that messages name.
//!
//! The caller supplies the public-key arithmetic, as a `Verifier`:
//!
//! ```text
//! let report = check(alloc, signed_data, &Given::default(), verifier).ok()?;
//! for finding in report.findings() {
//!     ..
//! }
//! ```
#![tactic(auto)]

mod asked;
mod attributes;
mod certificates;
mod checking;
mod content;
mod digest_oids;
mod digesting;
mod digests;
mod known;
mod laws;
mod pieces;
mod report;
mod rules;
mod sorted;
mod time_stamp_messages;
mod tokens;
mod verifier;

pub use asked::{digest_asked_by_imprint, digest_asked_by_token, digests_asked, needs_octets};
pub use checking::{Given, GivenDigests, check, check_digests};
pub use digesting::Digesting;
pub use digests::{Digests, HashAlg, Hashed, digest};
pub use known::NoReport;
pub use laws::contents_are_those_of_elements;
pub use report::{Finding, Report};
pub use time_stamp_messages::{
    check_request, check_request_digests, check_response, check_response_digests,
};
pub use tokens::check_imprint;
pub use verifier::{Job, NoVerifier, Verdict, Verifier};
