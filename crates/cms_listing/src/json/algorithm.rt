//! AlgorithmIdentifier (RFC 5652, section 10.1).

use super::members::{append_first, append_member};
use super::values::Json;
use cms_message::AlgorithmIdentifier;
use std::alloc::AllocError;

impl Json for AlgorithmIdentifier<'_> {
    fn append_json(&self, text: &mut String) -> Result<(), AllocError> {
        append_first("oid", &self.algorithm(), text)?;
        append_member("parameters", &self.parameters(), text)?;
        text.push('}')
    }
}
