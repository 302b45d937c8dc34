//! Fields.
//!
//! A caller that has the message read for each part takes time in proportion to the square of the
//! number of signers, a minute for 4,000; so one call hands out the places of all fields.
ghost use Rattle.std.specs.Prelude.{IfOk, IfErr};
ghost use Rattle.cms_c.specs.Calls.{AreRowsOfInput, AreRowsOfTstInfo, FailsBy, IsFields, IsTstInfoFields, LacksTstInfo, limit_of_c};

use crate::given::message_in;
use crate::outcome::{Lack, Outcome};
use cms_rows::{Row, tst_info_rows};
use cms_tlv::Fault;
use std::alloc::Global;

/// Writes a row for each field of the one message in `input` to the beginning of `fields`, in the
/// order of their definitions: its kind, its level, and where in `input` its octets lie.
///
/// The message and its DER have at most `limit` octets; a limit above 2^40 counts as 2^40. If the
/// message is refused, memory runs out, or the rows do not fit into `fields`, nothing is written.
#[unsafe(no_mangle)]
pub extern "C" fn cms_canon_fields(
    alloc: Global,
    input: &[u8],
    limit: u64,
    fields: &mut [Row],
    outcome: &mut Outcome,
)
    ensures { IsFields input.now (limit_of_c limit) fields.old fields.new outcome.new }
{
    *outcome = match rows_in(alloc, input, limit) {
        Ok(rows) => Outcome::delivered(&rows, fields),
        Err(fault) => Outcome::of_fault(fault),
    };
}

/// The rows of the message in `input`.
fn rows_in(alloc: Global, input: &[u8], limit: u64) -> Result<Vec<Row>, Fault>
    ensures ok { IfOk result (λ v. AreRowsOfInput input.now (limit_of_c limit) v.items) }
    ensures err { IfErr result (FailsBy input.now (limit_of_c limit)) }
{
    let message = message_in(alloc, input, limit)?;
    message.rows(alloc).map_err(|_| Fault::OutOfMemory)
}

/// Writes a row for each field of the TSTInfo that `content` is in DER (RFC 3161, section 2.4.2), which is
/// the content of a time-stamp token, to the beginning of `fields`, as `cms_canon_fields` does.
///
/// If `content` is no TSTInfo, memory runs out, or the rows do not fit into `fields`, nothing is written.
#[unsafe(no_mangle)]
pub extern "C" fn cms_canon_tst_info_fields(
    alloc: Global,
    content: &[u8],
    fields: &mut [Row],
    outcome: &mut Outcome,
)
    ensures { IsTstInfoFields content.now fields.old fields.new outcome.new }
{
    *outcome = match rows_of_tst_info(alloc, content) {
        Ok(rows) => Outcome::delivered(&rows, fields),
        Err(lack) => Outcome::of_lack(lack),
    };
}

/// The rows of a TSTInfo.
fn rows_of_tst_info(alloc: Global, content: &[u8]) -> Result<Vec<Row>, Lack>
    ensures ok { IfOk result (λ v. AreRowsOfTstInfo content.now v.items) }
    ensures err { IfErr result (LacksTstInfo content.now) }
{
    match tst_info_rows(alloc, content) {
        Ok(Some(rows)) => Ok(rows),
        Ok(None) => Err(Lack::NoTstInfo),
        Err(_) => Err(Lack::Fault(Fault::OutOfMemory)),
    }
}
