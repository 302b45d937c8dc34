//! The command over the standard streams.
#![tactic(auto)]

use cms_cli::{report_fault, report_usage, run};
use cms_tlv::{Buffered, Fault, Watched};
use std::io::{BufReader, ErrorKind};
use std::process::ExitCode;
use std::{env, io};

/// How many octets are read at a time, of messages that are not longer.
const PIECE: usize = 0x1_0000;

fn words(rt: &HostRuntime) -> io::Result<Vec<String>> {
    let args = env::args(rt)?;
    Ok(args.collect(rt.alloc())?)
}

fn main(rt: HostRuntime) -> ExitCode {
    let mut output = Watched::new(rt.stdout());
    let mut errors = Watched::new(rt.stderr());
    let words = match words(&rt) {
        Ok(words) => words,
        Err(error) => {
            // Words that are not text are not understood.
            return ExitCode::from(match error.kind() {
                ErrorKind::OutOfMemory => report_fault(Fault::OutOfMemory, &mut errors),
                _ => report_usage(&mut errors),
            });
        }
    };
    let Ok(input) = BufReader::with_capacity(rt.alloc(), PIECE, rt.stdin()) else {
        return ExitCode::from(report_fault(Fault::OutOfMemory, &mut errors));
    };
    let (_, status) = run(
        rt.alloc(),
        &words,
        Buffered::new(input),
        &mut output,
        &mut errors,
    );
    ExitCode::from(status)
}
