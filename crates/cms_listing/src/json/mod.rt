//! The fields of a message as JSON: those of the bindings, under the same names and in the same order.
//!
//! A field that is absent is null, so that an empty list is not the same as none.

mod algorithm;
mod imprint;
mod members;
mod request;
mod response;
mod signed_data;
mod signer;
mod tst_info;
mod values;

pub(crate) use members::{append_first, append_member};
pub use request::list_request_as_json;
pub use response::list_response_as_json;
pub use signed_data::list_signed_data_as_json;
