//! MessageImprint (RFC 3161, section 2.4.1).

use super::members::{append_first, append_member};
use super::values::Json;
use cms_tsp::MessageImprint;
use std::alloc::AllocError;

impl Json for MessageImprint<'_> {
    fn append_json(&self, text: &mut String) -> Result<(), AllocError> {
        append_first("hash_algorithm", &self.hash_algorithm(), text)?;
        append_member("hashed_message", &self.hashed_message(), text)?;
        text.push('}')
    }
}
