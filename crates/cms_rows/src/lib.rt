//! Where in a message the octets of each field lie: a row for each, in the order of the definitions, with
//! its kind and its level.
//!
//! A field that is absent has no row, so that no place stands for nothing; a string has a row for each
//! segment. A BOOLEAN with a default has a row without octets if it is TRUE, since FALSE is the same
//! whether it is written out or not. The rows are those of spans and not of views, which hide where
//! octets lie. What is listed is a definition over the value (`entries_of`): nothing of the walk is in
//! the contract.
#![tactic(auto)]

mod algorithm;
mod attribute;
mod kinds;
mod laws;
mod request;
mod response;
mod row;
mod rows;
mod signed_data;
mod signer;
mod tst_info;

pub use kinds::{
    ACCURACY, ATTRIBUTE, CERT_REQ, CERTIFICATE, CERTIFICATES, CONTENT, CONTENT_TYPE,
    COUNTERSIGNATURE, CRL, CRLS, DIGEST_ALGORITHM, FAIL_INFO, GEN_TIME, HASH_ALGORITHM,
    HASHED_MESSAGE, ISSUER, MICROS, MILLIS, ORDERING, PARAMETERS, REQUEST, REQUEST_EXTENSIONS,
    REQUEST_NONCE, REQUEST_POLICY, REQUEST_VERSION, RESPONSE, SECONDS, SERIAL_NUMBER, SIGNATURE,
    SIGNATURE_ALGORITHM, SIGNED_ATTRIBUTES, SIGNED_DATA, SIGNER, SIGNER_DIGEST_ALGORITHM,
    SIGNER_VERSION, STATUS, STATUS_STRING, SUBJECT_KEY_IDENTIFIER, TSA, TST_EXTENSIONS, TST_INFO,
    TST_NONCE, TST_POLICY, TST_SERIAL_NUMBER, TST_VERSION, UNSIGNED_ATTRIBUTES, VALUE, VERSION,
};
pub use laws::fields_say_covers;
pub use request::request_rows;
pub use response::response_rows;
pub use row::Row;
pub use rows::Rows;
pub use signed_data::content_info_rows;
pub use tst_info::tst_info_rows;
