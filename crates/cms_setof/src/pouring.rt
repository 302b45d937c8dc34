//! Writes kept octets between others.
//!
//! What lies around a borrowed string is written through a buffer, so that segments of 1 KiB are not a call
//! of the writer each. If there is no memory for the buffer, each piece is written alone.
ghost use Rattle.std.specs.Prelude.{◌≡◌, ◌++◌, ◌+◌, ◌^◌, ◌<◌, ◌≤◌, length, take, drop, OnOk, IfErr};
ghost use Rattle.std.specs.Io.KnownBytes.{Appends};
ghost use Rattle.cms_tlv.specs.Pouring.{StopsAfter};
ghost use Rattle.cms_tlv.specs.Spelling.{join};
ghost use Rattle.cms_tlv.specs.Streams.{Counts};
ghost use Rattle.cms_setof.specs.internal.Pouring.{Sends, StopsAmid, PutAfter};
ghost use Rattle.cms_fields.specs.Received.{spanned_in};

use cms_tlv::{Fault, Output, Span, pour};

/// How far writing has come: `sent` octets were written, and the next octets to write are the first
/// `held` of the buffer.
#[derive(Drop)]
struct Progress {
    held: usize,
    sent: u64,
}

/// Writes `before`, then the octets of `kept` that `spans` name, then `after`. Short pieces are
/// collected in `buffer` first, so that the writer is called seldom. After `Fault::Write` the writer
/// has taken the first `written` of all these octets and no more; there is no other fault.
pub(crate) fn pour_around<O: Output>(
    before: &[u8],
    spans: &[Span],
    kept: &[u8],
    after: &[u8],
    buffer: &mut [u8],
    output: &mut O,
) -> Result<(), Fault>
    requires { length (before.now ++ (join (spanned_in kept.now spans.now) ++ after.now)) < 2 ^ 64 }
    ensures ok { OnOk result (Appends (O.contents output.old) (O.contents output.new)
        (before.now ++ (join (spanned_in kept.now spans.now) ++ after.now))) }
    ensures err { IfErr result
        (StopsAfter (before.now ++ (join (spanned_in kept.now spans.now) ++ after.now))
        (O.contents output.old) (O.contents output.new)) }
    ensures failures { Counts (O.failures output.old) (O.failures output.new) result }
{
    let mut progress = Progress { held: 0, sent: 0 };
    send(before, &mut progress, buffer, output)?;
    send_spans(spans, kept, &mut progress, buffer, output)?;
    send(after, &mut progress, buffer, output)?;
    flush(&mut progress, buffer, output)
}

/// Copies `before`, then the octets of `kept` that `spans` name, then `after`, to the beginning of `out`.
pub(crate) fn copy_around(before: &[u8], spans: &[Span], kept: &[u8], after: &[u8], out: &mut [u8])
    requires { length (before.now ++ (join (spanned_in kept.now spans.now) ++ after.now))
        ≤ length out.old }
    ensures { let octets = before.now ++ (join (spanned_in kept.now spans.now) ++ after.now) in
        out.new ≡ octets ++ drop (length octets) out.old }
{
    let mut held = 0;
    hold(before, &mut held, out);
    hold_spans(spans, kept, &mut held, out);
    hold(after, &mut held, out);
}

/// Copies the octets of `kept` that `spans` name, one after another, to after the `held` octets of the
/// buffer.
fn hold_spans(spans: &[Span], kept: &[u8], held: &mut usize, buffer: &mut [u8])
    requires { held.old + length (join (spanned_in kept.now spans.now)) ≤ length buffer.old }
    ensures { PutAfter (join (spanned_in kept.now spans.now)) held.old held.new
        buffer.old buffer.new }
{
    for span in spans {
        hold(span.octets(kept), held, buffer);
    }
}

/// Sends the octets of `kept` that `spans` name, one after another.
fn send_spans<O: Output>(
    spans: &[Span],
    kept: &[u8],
    progress: &mut Progress,
    buffer: &mut [u8],
    output: &mut O,
) -> Result<(), Fault>
    requires room { progress.old.held ≤ length buffer.old }
    requires count { progress.old.sent + progress.old.held + length (join (spanned_in kept.now
        spans.now)) < 2 ^ 64 }
    ensures room { progress.new.held ≤ length buffer.new }
    ensures ok { OnOk result (Sends (join (spanned_in kept.now spans.now)) progress.old progress.new
        buffer.old buffer.new (O.contents output.old) (O.contents output.new)) }
    ensures err { IfErr result (StopsAmid progress.old.sent
        (take progress.old.held buffer.old ++ join (spanned_in kept.now spans.now))
        (O.contents output.old) (O.contents output.new)) }
    ensures failures { Counts (O.failures output.old) (O.failures output.new) result }
{
    for span in spans {
        send(span.octets(kept), progress, buffer, output)?;
    }
    Ok(())
}

/// Holds `octets` after what is held, if they fit. Else writes what is held, and then holds or writes
/// them.
fn send<O: Output>(
    octets: &[u8],
    progress: &mut Progress,
    buffer: &mut [u8],
    output: &mut O,
) -> Result<(), Fault>
    requires room { progress.old.held ≤ length buffer.old }
    requires count { progress.old.sent + progress.old.held + length octets.now < 2 ^ 64 }
    ensures room { progress.new.held ≤ length buffer.new }
    ensures ok { OnOk result (Sends octets.now progress.old progress.new buffer.old buffer.new
        (O.contents output.old) (O.contents output.new)) }
    ensures err { IfErr result (StopsAmid progress.old.sent
        (take progress.old.held buffer.old ++ octets.now) (O.contents output.old)
        (O.contents output.new)) }
    ensures failures { Counts (O.failures output.old) (O.failures output.new) result }
{
    if octets.len() <= buffer.len() - progress.held {
        hold(octets, &mut progress.held, buffer);
        return Ok(());
    }
    flush(progress, buffer, output)?;
    if octets.len() <= buffer.len() {
        hold(octets, &mut progress.held, buffer);
        return Ok(());
    }
    pour_more(octets, &mut progress.sent, output)
}

/// Writes what is held.
fn flush<O: Output>(progress: &mut Progress, buffer: &[u8], output: &mut O) -> Result<(), Fault>
    requires room { progress.old.held ≤ length buffer.now }
    requires count { progress.old.sent + progress.old.held < 2 ^ 64 }
    ensures room { progress.new.held ≤ length buffer.now }
    ensures ok { OnOk result (Appends (O.contents output.old) (O.contents output.new)
        (take progress.old.held buffer.now)) }
    ensures progress { OnOk result (progress.new ≡ record {
      held = 0;
      sent = progress.old.sent + progress.old.held;
    }) }
    ensures err { IfErr result (StopsAmid progress.old.sent (take progress.old.held buffer.now)
        (O.contents output.old) (O.contents output.new)) }
    ensures failures { Counts (O.failures output.old) (O.failures output.new) result }
{
    pour_more(&buffer[..progress.held], &mut progress.sent, output)?;
    progress.held = 0;
    Ok(())
}

/// Copies `octets` to after the `held` octets of the buffer.
fn hold(octets: &[u8], held: &mut usize, buffer: &mut [u8])
    requires { held.old + length octets.now ≤ length buffer.old }
    ensures { PutAfter octets.now held.old held.new buffer.old buffer.new }
{
    let end = *held + octets.len();
    buffer[*held..end].copy_from_slice(octets);
    *held = end;
}

/// Writes all of `octets`, and adds them to the count of the `sent` octets that were written before.
fn pour_more<O: Output>(octets: &[u8], sent: &mut u64, output: &mut O) -> Result<(), Fault>
    requires { sent.old + length octets.now < 2 ^ 64 }
    ensures ok { OnOk result (Appends (O.contents output.old) (O.contents output.new) octets.now) }
    ensures sent { OnOk result (sent.new ≡ sent.old + length octets.now) }
    ensures err { IfErr result (StopsAmid sent.old octets.now (O.contents output.old)
        (O.contents output.new)) }
    ensures failures { Counts (O.failures output.old) (O.failures output.new) result }
{
    match pour(output, octets) {
        Ok(()) => {
            *sent += octets.len() as u64;
            Ok(())
        }
        Err(Fault::Write { written }) => Err(Fault::Write {
            written: *sent + written,
        }),
        Err(fault) => Err(fault),
    }
}
