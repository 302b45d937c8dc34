//! The command, over the words and the streams that are passed in.
ghost use Rattle.std.specs.Prelude.{◌≡◌, map, IfOk, IfErr};
ghost use Rattle.cms_canon.specs.Streams.{reading, writing, WritesNone};
ghost use Rattle.cms_cli.specs.Answers.{IsDone, IsSaid, fault_of};
ghost use Rattle.cms_cli.specs.CommandLine.{AskFor};
ghost use Rattle.cms_cli.specs.Statuses.{cover_status, fault_status, many_status, result_status};

use crate::answer::Answer;
use crate::changes::changes;
use crate::check::check;
use crate::compare::compare;
use crate::show::show;
use crate::task::{NoTask, Task, task_of};
use cms_canon::{
    Many, ManyFault, NoCover, SameFault, Tail, canonicalise, canonicalise_many, write_cover,
};
use cms_tlv::{Fault, Input, Output, pour};
use std::alloc::Global;
use std::convert::AsStr;
use std::fmt;
use std::fmt::Write;

/// The largest message that the command reads or writes, in octets: 256 MiB.
pub const LIMIT: u64 = 268_435_456;

const USAGE: &[u8] = b"usage: cms-canon convert, show, check, cover or same\n";

/// Runs the command that the words ask for, and returns the input and the exit status. The first word
/// is the program's name.
///
/// 0: done, or the messages are the same, or no rule is broken. 1: the messages differ, or a rule is
/// broken. 2: the words are not understood. 3: a message is refused, or it has no such signer or no
/// content. 4: reading or writing failed. 5: out of memory. For each status from 2, one line is written
/// to `errors`; a failure of that write changes nothing.
pub fn run<S: AsStr, I: Input, O: Output, E: Output>(
    alloc: Global,
    words: &[S],
    input: I,
    output: &mut O,
    errors: &mut E,
) -> (I, u8)
    ensures { (t : Task) → AskFor (map S.text words.entry.now) t
        → IsDone t (reading I.left I.failures input result.0)
        (writing O.contents O.failures output.old output.new) result.1 }
{
    match task_of(alloc, words) {
        Ok(task) => perform(alloc, task, input, output, errors),
        Err(NoTask::Help(text)) => (input, tell(pour(output, text.as_bytes()), errors)),
        Err(NoTask::OutOfMemory) => (input, report_fault(Fault::OutOfMemory, errors)),
        Err(NoTask::Usage) => (input, report_usage(errors)),
    }
}

/// Does what is asked with the input.
fn perform<I: Input, O: Output, E: Output>(
    alloc: Global,
    task: Task,
    input: I,
    output: &mut O,
    errors: &mut E,
) -> (I, u8)
    ensures { IsDone task (reading I.left I.failures input result.0)
        (writing O.contents O.failures output.old output.new) result.1 }
{
    match task {
        Task::Convert { many: false } => {
            let (input, done) = canonicalise(alloc, input, output, LIMIT, Tail::Refuse);
            (input, tell(done, errors))
        }
        Task::Convert { many: true } => {
            let (input, done) = canonicalise_many(alloc, input, output, LIMIT);
            (input, report_many(done, errors))
        }
        Task::Show { json } => {
            let (input, answer) = show(alloc, input, LIMIT, json);
            (input, report_answer(answer, output, errors))
        }
        Task::Changes { json } => {
            let (input, answer) = changes(alloc, input, LIMIT, json);
            (input, report_answer(answer, output, errors))
        }
        Task::Check { after } => {
            let (input, answer) = check(alloc, input, LIMIT, after);
            (input, report_answer(answer, output, errors))
        }
        Task::Cover { signer, content } => {
            let (input, written) = write_cover(alloc, input, output, LIMIT, signer, content);
            (input, report_cover(written, errors))
        }
        Task::Same => {
            let (input, answer) = compare(alloc, input, LIMIT);
            (input, report_comparison(answer, output, errors))
        }
    }
}

/// Writes a text, and returns the status that goes with it, or that of a fault.
fn report_answer<O: Output, E: Output>(
    answer: Result<Answer, Fault>,
    output: &mut O,
    errors: &mut E,
) -> u8
    ensures ok { IfOk answer (λ a. IsSaid (writing O.contents O.failures output.old output.new)
        a.text.items a.status result) }
    ensures err { IfErr answer (λ e. (result ≡ fault_status e)
        × WritesNone (writing O.contents O.failures output.old output.new)) }
{
    match answer {
        Ok(answer) => say(&answer, output, errors),
        Err(fault) => report_fault(fault, errors),
    }
}

/// Writes what a comparison says, and returns the status that goes with it, or that of a fault.
fn report_comparison<O: Output, E: Output>(
    answer: Result<Answer, SameFault>,
    output: &mut O,
    errors: &mut E,
) -> u8
    ensures ok { IfOk answer (λ a. IsSaid (writing O.contents O.failures output.old output.new)
        a.text.items a.status result) }
    ensures err { IfErr answer (λ e. (result ≡ fault_status (fault_of e))
        × WritesNone (writing O.contents O.failures output.old output.new)) }
{
    match answer {
        Ok(answer) => say(&answer, output, errors),
        Err(fault) => {
            let _ = writeln!(Lines(errors), "{fault}");
            match fault {
                SameFault::First(fault) | SameFault::Second(fault) => status_of(fault),
                SameFault::OutOfMemory => 5,
            }
        }
    }
}

fn say<O: Output, E: Output>(answer: &Answer, output: &mut O, errors: &mut E) -> u8
    ensures { IsSaid (writing O.contents O.failures output.old output.new)
        answer.now.text.items answer.now.status result }
{
    match pour(output, &answer.text) {
        Ok(()) => answer.status,
        Err(fault) => report_fault(fault, errors),
    }
}

/// Writes a line that says why no cover is written, and returns the status.
fn report_cover<E: Output>(written: Result<(), NoCover>, errors: &mut E) -> u8
    ensures { result ≡ cover_status written }
{
    match written {
        Ok(()) => 0,
        Err(NoCover::Fault(fault)) => report_fault(fault, errors),
        Err(uncovered) => {
            let _ = writeln!(Lines(errors), "{uncovered}");
            3
        }
    }
}

/// Writes a line that says what the fault is, and returns the status.
pub fn report_fault<E: Output>(fault: Fault, errors: &mut E) -> u8
    ensures { result ≡ fault_status fault }
{
    let _ = writeln!(Lines(errors), "{fault}");
    status_of(fault)
}

fn status_of(fault: Fault) -> u8
    ensures { result ≡ fault_status fault }
{
    match fault {
        Fault::Refused { .. } => 3,
        Fault::Read | Fault::Write { .. } => 4,
        Fault::OutOfMemory => 5,
    }
}

/// Writes a line that says that the words are not understood, and returns the status.
pub fn report_usage<E: Output>(errors: &mut E) -> u8
    ensures { result ≡ 2 }
{
    let _ = pour(errors, USAGE);
    2
}

/// Writes a line that says which message failed, and why, and returns the status.
fn report_many<E: Output>(done: Result<Many, ManyFault>, errors: &mut E) -> u8
    ensures { result ≡ many_status done }
{
    match done {
        Ok(_) => 0,
        Err(fault) => {
            let _ = writeln!(Lines(errors), "{fault}");
            status_of(fault.fault)
        }
    }
}

fn tell<T: Drop, E: Output>(done: Result<T, Fault>, errors: &mut E) -> u8
    ensures { result ≡ result_status done }
{
    match done {
        Ok(_) => 0,
        Err(fault) => report_fault(fault, errors),
    }
}

/// Text written to an output.
#[derive(Drop)]
struct Lines<'a, O>(&'a mut O);

impl<'a, O: Output> fmt::Write for Lines<'a, O> {
    fn write_str(&mut self, text: &str) -> fmt::Result {
        match pour(self.0, text.as_bytes()) {
            Ok(()) => Ok(()),
            Err(_) => Err(fmt::Error),
        }
    }
}
