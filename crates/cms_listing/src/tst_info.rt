//! The lines of what a time-stamp token says (RFC 3161, section 2.4.2).

use crate::lines::Lines;
use crate::values::OctetCount;
use cms_message::SignedData;
use cms_scalars::ID_CT_TST_INFO;
use cms_tsp::TstInfo;
use std::alloc::{AllocError, Global};

/// What a message says as a time-stamp token.
#[derive(Drop)]
pub(crate) enum Said {
    /// It is no token, or its content is detached.
    Nothing,
    /// Its content is not a TSTInfo in DER.
    NotDer,
    TstInfo(TstInfo),
}

/// What the content of a message says if the message is a token. An error means out of memory.
pub(crate) fn said_by(alloc: Global, signed_data: &SignedData<'_>) -> Result<Said, AllocError> {
    let Some(content) = signed_data.content() else {
        return Ok(Said::Nothing);
    };
    if signed_data.content_type().octets() != ID_CT_TST_INFO {
        return Ok(Said::Nothing);
    }
    match TstInfo::from_pieces(alloc, &content.all_pieces(alloc)?)? {
        Some(tst_info) => Ok(Said::TstInfo(tst_info)),
        None => Ok(Said::NotDer),
    }
}

/// Appends the lines of the TSTInfo of a token whose content is attached; nothing for another message.
/// An error means out of memory.
pub(crate) fn append_tst_info(
    signed_data: &SignedData<'_>,
    text: &mut String,
) -> Result<(), AllocError> {
    match said_by(*text.allocator(), signed_data)? {
        Said::Nothing => Ok(()),
        Said::NotDer => text.push_str("tst: not der\n"),
        Said::TstInfo(tst_info) => append_fields(&tst_info, text),
    }
}

fn append_fields(tst_info: &TstInfo, text: &mut String) -> Result<(), AllocError> {
    let mut lines = Lines::new("tst-", text);
    lines.field("version", &tst_info.version())?;
    lines.field("policy", &tst_info.policy())?;
    lines.field("imprint", &tst_info.message_imprint())?;
    lines.field("serial", &tst_info.serial_number())?;
    lines.field("time", tst_info.gen_time())?;
    lines.field("accuracy", &tst_info.accuracy())?;
    lines.field("ordering", &tst_info.ordering())?;
    lines.field("nonce", &tst_info.nonce())?;
    lines.field("tsa", &tst_info.tsa().map(OctetCount::of))?;
    lines.field("extensions", &tst_info.extensions().map(OctetCount::of))
}
