//! The listing of a message, field by field, in lines or as JSON; what conversion changes in it; and a
//! line for each finding of a check. Each call appends to a `String`. docs/FORMATS.md says how these texts
//! are written.
#![tactic(auto)]

mod changes;
mod findings;
mod json;
mod lines;
mod request;
mod response;
mod signed_data;
mod signer;
mod tst_info;
mod values;

pub use changes::{Change, ChangeKind, SetName, find_changes, list_changes, list_changes_as_json};
pub use findings::list_findings;
pub use json::{list_request_as_json, list_response_as_json, list_signed_data_as_json};
pub use request::list_request;
pub use response::list_response;
pub use signed_data::list_signed_data;
