//! TSTInfo and Accuracy (RFC 3161, section 2.4.2).

use super::members::{append_first, append_member, append_name};
use super::values::Json;
use crate::tst_info::{Said, said_by};
use crate::values::{append_date_and_time, append_digits};
use cms_message::SignedData;
use cms_scalars::GenTime;
use cms_tsp::{Accuracy, TstInfo};
use std::alloc::AllocError;

/// Appends the TSTInfo of a token whose content is attached; null for another message. An error means out
/// of memory.
pub(super) fn append_tst_info(
    signed_data: &SignedData<'_>,
    text: &mut String,
) -> Result<(), AllocError> {
    match said_by(*text.allocator(), signed_data)? {
        Said::Nothing => text.push_str("null"),
        Said::NotDer => text.push_str("{\"refused\": \"not a TSTInfo in DER\"}"),
        Said::TstInfo(tst_info) => append_fields(&tst_info, text),
    }
}

fn append_fields(tst_info: &TstInfo, text: &mut String) -> Result<(), AllocError> {
    append_first("version", &tst_info.version(), text)?;
    append_member("policy", &tst_info.policy(), text)?;
    append_member("imprint", &tst_info.message_imprint(), text)?;
    append_member("serial_number", &tst_info.serial_number(), text)?;
    append_gen_time(tst_info.gen_time(), text)?;
    append_member("accuracy", &tst_info.accuracy(), text)?;
    append_member("ordering", &tst_info.ordering(), text)?;
    append_member("nonce", &tst_info.nonce(), text)?;
    append_member("tsa", &tst_info.tsa(), text)?;
    append_member("extensions", &tst_info.extensions(), text)?;
    text.push('}')
}

/// Appends genTime as it stands in the token, and as ISO 8601 writes it.
fn append_gen_time(time: &GenTime, text: &mut String) -> Result<(), AllocError> {
    append_name("gen_time_text", text)?;
    text.push('"')?;
    append_digits(time.octets(), text)?;
    text.push('"')?;
    append_member("gen_time", time, text)
}

/// In UTC. Null in the year 0000, which most calendars of programs do not have.
impl Json for GenTime {
    fn append_json(&self, text: &mut String) -> Result<(), AllocError> {
        if self.digits().starts_with(b"0000") {
            return text.push_str("null");
        }
        text.push('"')?;
        append_date_and_time(self, text)?;
        append_microseconds(self.fraction(), text)?;
        text.push_str("+00:00\"")
    }
}

/// How many digits microseconds have.
const MICROSECONDS: usize = 6;

/// Appends the digits of a fraction as microseconds, if they are not 0. What is finer is cut off.
fn append_microseconds(fraction: &[u8], text: &mut String) -> Result<(), AllocError> {
    let digits = &fraction[..fraction.len().min(MICROSECONDS)];
    if digits.iter().all(|digit| *digit == b'0') {
        return Ok(());
    }
    text.push('.')?;
    append_digits(digits, text)?;
    for _ in digits.len()..MICROSECONDS {
        text.push('0')?;
    }
    Ok(())
}

impl Json for Accuracy<'_> {
    fn append_json(&self, text: &mut String) -> Result<(), AllocError> {
        append_first("seconds", &self.seconds(), text)?;
        append_member("millis", &self.millis(), text)?;
        append_member("micros", &self.micros(), text)?;
        text.push('}')
    }
}
