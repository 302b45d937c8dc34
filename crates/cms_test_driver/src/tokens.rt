//! What a token says, and checks of it.

use cms_canon::{Done, Message, View};
use cms_check::check_imprint;
use cms_scalars::Integer;
use cms_tlv::Fault;
use cms_tsp::{Accuracy, TstFault, TstInfo};
use std::alloc::{AllocError, Global};

/// Appends a line with a name and octets in hexadecimal.
fn put_line(
    alloc: Global,
    name: &str,
    octets: Option<&[u8]>,
    output: &mut Vec<u8>,
) -> Result<(), AllocError> {
    output.extend_from_slice(name.as_bytes())?;
    output.push(b' ')?;
    match octets {
        Some(octets) => output.extend_from_slice(hex::encode(alloc, octets)?.as_bytes())?,
        None => output.push(b'-')?,
    }
    output.push(b'\n')?;
    Ok(())
}

fn put_integer(
    alloc: Global,
    name: &str,
    integer: Option<Integer<'_>>,
    output: &mut Vec<u8>,
) -> Result<(), AllocError> {
    put_line(alloc, name, integer.map(|integer| integer.octets()), output)
}

fn put_accuracy(
    alloc: Global,
    accuracy: &Accuracy<'_>,
    output: &mut Vec<u8>,
) -> Result<(), AllocError> {
    put_integer(alloc, "seconds", accuracy.seconds(), output)?;
    put_integer(alloc, "millis", accuracy.millis(), output)?;
    put_integer(alloc, "micros", accuracy.micros(), output)
}

/// Appends the fields of a TSTInfo, a line for each, and then its DER.
fn put_fields(alloc: Global, tst_info: &TstInfo, output: &mut Vec<u8>) -> Result<(), AllocError> {
    let imprint = tst_info.message_imprint();
    let hashed = imprint.hashed_message();
    put_integer(alloc, "version", Some(tst_info.version()), output)?;
    put_line(alloc, "policy", Some(tst_info.policy().octets()), output)?;
    put_line(
        alloc,
        "algorithm",
        Some(imprint.hash_algorithm().algorithm().octets()),
        output,
    )?;
    put_line(alloc, "imprint", hashed.piece(0), output)?;
    put_integer(alloc, "serial", Some(tst_info.serial_number()), output)?;
    put_line(alloc, "time", Some(tst_info.gen_time().octets()), output)?;
    if let Some(accuracy) = tst_info.accuracy() {
        put_accuracy(alloc, &accuracy, output)?;
    }
    let ordering = if tst_info.ordering() {
        Some(b"\xff".as_slice())
    } else {
        None
    };
    put_line(alloc, "ordering", ordering, output)?;
    put_integer(alloc, "nonce", tst_info.nonce(), output)?;
    put_line(alloc, "tsa", tst_info.tsa(), output)?;
    put_line(alloc, "extensions", tst_info.extensions(), output)?;
    let mut der = Vec::new(alloc);
    tst_info.put(alloc, &mut der)?;
    put_line(alloc, "der", Some(&der), output)
}

/// Writes what octets say as a TSTInfo, or that they are none.
pub(crate) fn report_tst_info(
    alloc: Global,
    octets: &[u8],
    output: &mut Vec<u8>,
) -> Result<Done, Fault> {
    let written = match TstInfo::from_der(alloc, octets) {
        Ok(tst_info) => put_fields(alloc, &tst_info, output),
        Err(TstFault::NotTst) => output.extend_from_slice(b"NotTst\n"),
        Err(TstFault::OutOfMemory) => Err(AllocError),
    };
    match written {
        Ok(()) => Ok(Done {
            read: octets.len() as u64,
            written: output.len() as u64,
        }),
        Err(_) => Err(Fault::OutOfMemory),
    }
}

/// Writes the finding on the imprint of a request for `stamped`, or that there is none.
pub(crate) fn report_imprint(
    message: &Message,
    stamped: &[u8],
    output: &mut Vec<u8>,
) -> Result<(), AllocError> {
    let View::Request(request) = message.view() else {
        return output.extend_from_slice(b"no request\n");
    };
    match check_imprint(&request.message_imprint(), stamped) {
        Some(finding) if finding.code == 8 => output.extend_from_slice(b"8\n"),
        Some(finding) if finding.code == 14 => output.extend_from_slice(b"14\n"),
        Some(_) => output.extend_from_slice(b"another\n"),
        None => output.extend_from_slice(b"none\n"),
    }
}
