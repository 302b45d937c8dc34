//! The words of the command line: which command they ask for.
//!
//! That `--content` and `--data` are not asked for both is judged here, since the contracts of `clap` say
//! nothing of `conflicts_with`. The words of `cover` are in a contract in one order; other orders and
//! spellings are those of `clap`, and are tested.

ghost use Rattle.std.specs.Prelude.{◌≡◌, ◌⊎◌, ℕ, List, [], ◌∷◌, Bool, Some, IfOk, Ok, Err, codes, map, false};
ghost use Rattle.clap.specs.Words.{app_of, found_of, kind_of, new_app, one_text, rule_of};
ghost use Rattle.clap.specs.declared.builder.command.Command.TheViews.{out-Command};
ghost use Rattle.cms_cli.specs.CommandLine.{program_app, bare_program_app, convert_app, listing_app, check_app, cover_app, signer_rule, flag_rule, IsNumber, flag_text, checked, AskFor, AskForBoth};

use crate::texts::{self, Help};
use clap::error::ErrorKind;
use clap::{Arg, ArgAction, ArgMatches, Command, Error, value_parser};
use std::alloc::{AllocError, Global};
use std::convert::AsStr;

/// A command of the program. Each reads the standard input.
#[derive(Clone, Copy, Debug, PartialEq, Eq)]
pub enum Task {
    /// Write the message in DER.
    Convert {
        /// Whether messages are read to the end of the input.
        many: bool,
    },
    /// List what is in the message.
    Show {
        /// Whether as JSON.
        json: bool,
    },
    /// List what conversion changes in the message.
    Changes {
        /// Whether as JSON.
        json: bool,
    },
    /// Say which rules of the standards the message breaks.
    Check {
        /// What follows the message.
        after: After,
    },
    /// Write the octets that the signature of a signer covers.
    Cover {
        /// The index of the signer, in the order read; the first is 0.
        signer: u64,
        /// Whether the octets after the message are its detached content.
        content: bool,
    },
    /// Say whether two messages, one right after the other, have the same DER.
    Same,
}

/// What follows the message that is checked.
#[derive(Clone, Copy, Debug, PartialEq, Eq)]
pub enum After {
    /// Nothing may follow it.
    Nothing,
    /// Its detached content.
    Content,
    /// The data that were time-stamped.
    Data,
}

/// Why the words ask for no command.
#[derive(Debug, Drop)]
pub enum NoTask {
    /// They ask for help, or for the version: the text to write.
    Help(String),
    /// They are not understood.
    Usage,
    /// Memory ran out.
    OutOfMemory,
}

/// A command before it has options.
fn plain_command<'a>(alloc: Global, name: &'a str, help: Help) -> Command<'a>
    ensures app { app_of result ≡ new_app name.entry.now }
    ensures local { (out-Command result).has_globals ≡ false }
{
    Command::new(alloc, name)
        .override_usage(help.usage)
        .about(help.about)
        .after_help(help.more)
}

/// An option without a value.
fn flag<'a>(alloc: Global, name: &'a str, help: &'a str) -> Arg<'a>
    ensures rule { rule_of result ≡ flag_rule name.entry.now }
    ensures local { result.global ≡ false }
{
    Arg::new(alloc, name)
        .long(name)
        .action(ArgAction::SetTrue)
        .help(help)
}

fn signer_arg<'a>(alloc: Global) -> Arg<'a>
    ensures rule { rule_of result ≡ signer_rule }
    ensures local { result.global ≡ false }
{
    Arg::new(alloc, "signer")
        .long("signer")
        .value_name("N")
        .value_parser(value_parser!(u64))
        .required(true)
        .help(texts::SIGNER)
}

fn convert_command<'a>(alloc: Global) -> Result<Command<'a>, AllocError>
    ensures app { IfOk result (λ c. app_of c ≡ convert_app) }
    ensures local { IfOk result (λ c. (out-Command c).has_globals ≡ false) }
{
    plain_command(alloc, "convert", texts::CONVERT).arg(flag(alloc, "many", texts::MANY))
}

/// A command that writes lines, or JSON.
fn listing_command<'a>(alloc: Global, name: &'a str, help: Help) -> Result<Command<'a>, AllocError>
    ensures app { IfOk result (λ c. app_of c ≡ listing_app name.entry.now) }
    ensures local { IfOk result (λ c. (out-Command c).has_globals ≡ false) }
{
    plain_command(alloc, name, help).arg(flag(alloc, "json", texts::JSON))
}

fn check_command<'a>(alloc: Global) -> Result<Command<'a>, AllocError>
    ensures app { IfOk result (λ c. app_of c ≡ check_app) }
    ensures local { IfOk result (λ c. (out-Command c).has_globals ≡ false) }
{
    plain_command(alloc, "check", texts::CHECK)
        .arg(flag(alloc, "content", texts::CONTENT))?
        .arg(flag(alloc, "data", texts::DATA))
}

fn cover_command<'a>(alloc: Global) -> Result<Command<'a>, AllocError>
    ensures app { IfOk result (λ c. app_of c ≡ cover_app) }
    ensures local { IfOk result (λ c. (out-Command c).has_globals ≡ false) }
{
    plain_command(alloc, "cover", texts::COVER)
        .arg(signer_arg(alloc))?
        .arg(flag(alloc, "content", texts::CONTENT))
}

fn bare_command<'a>(alloc: Global) -> Command<'a>
    ensures app { app_of result ≡ bare_program_app }
{
    Command::new(alloc, "cms-canon")
        .override_usage(texts::USAGE)
        .about(texts::ABOUT)
        .after_help(texts::MORE)
        .version("0.27.0")
        .subcommand_required(true)
}

fn command<'a>(alloc: Global) -> Result<Command<'a>, AllocError>
    ensures { IfOk result (λ c. app_of c ≡ program_app) }
{
    bare_command(alloc)
        .subcommand(convert_command(alloc)?)?
        .subcommand(listing_command(alloc, "show", texts::SHOW)?)?
        .subcommand(listing_command(alloc, "changes", texts::CHANGES)?)?
        .subcommand(check_command(alloc)?)?
        .subcommand(cover_command(alloc)?)?
        .subcommand(plain_command(alloc, "same", texts::SAME))
}

fn no_task(alloc: Global, error: Error) -> NoTask
    ensures { kind_of error ≡ ErrorKind.OutOfMemory → result ≡ NoTask.OutOfMemory }
{
    match error.kind() {
        ErrorKind::DisplayHelp | ErrorKind::DisplayVersion => match error.to_string(alloc) {
            Ok(text) => NoTask::Help(text),
            Err(_) => NoTask::OutOfMemory,
        },
        ErrorKind::OutOfMemory => NoTask::OutOfMemory,
        _ => NoTask::Usage,
    }
}

/// The command with this name.
fn task_named(name: &str, matches: &ArgMatches<'_>) -> Result<Task, NoTask>
    ensures convert { name.now ≡ codes "convert" → (many : Bool)
        → one_text (found_of matches.now) (codes "many") ≡ Some (flag_text many)
        → result ≡ Ok (Task.Convert many) }
    ensures show { name.now ≡ codes "show" → (json : Bool)
        → one_text (found_of matches.now) (codes "json") ≡ Some (flag_text json)
        → result ≡ Ok (Task.Show json) }
    ensures changes { name.now ≡ codes "changes" → (json : Bool)
        → one_text (found_of matches.now) (codes "json") ≡ Some (flag_text json)
        → result ≡ Ok (Task.Changes json) }
    ensures check { name.now ≡ codes "check" → (with_content with_data : Bool)
        → one_text (found_of matches.now) (codes "content") ≡ Some (flag_text with_content)
        → one_text (found_of matches.now) (codes "data") ≡ Some (flag_text with_data)
        → result ≡ checked with_content with_data }
    ensures cover { name.now ≡ codes "cover" → (digits : List ℕ) (n : ℕ) (c : Bool)
        → one_text (found_of matches.now) (codes "signer") ≡ Some digits → IsNumber digits n
        → one_text (found_of matches.now) (codes "content") ≡ Some (flag_text c)
        → result ≡ Ok (Task.Cover n c) }
    ensures same { name.now ≡ codes "same" → result ≡ Ok Task.Same }
{
    match name {
        "convert" => Ok(Task::Convert {
            many: matches.get_flag("many"),
        }),
        "show" => Ok(Task::Show {
            json: wants_json(matches),
        }),
        "changes" => Ok(Task::Changes {
            json: wants_json(matches),
        }),
        "check" => check_of(matches),
        "cover" => cover_of(matches),
        "same" => Ok(Task::Same),
        _ => Err(NoTask::Usage),
    }
}

/// Whether a listing is to be JSON.
fn wants_json(matches: &ArgMatches<'_>) -> bool
    ensures { (json : Bool) → one_text (found_of matches.now) (codes "json") ≡ Some (flag_text json)
        → result ≡ json }
{
    matches.get_flag("json")
}

/// What `check` is asked to do: what follows the message is one thing at most.
fn check_of(matches: &ArgMatches<'_>) -> Result<Task, NoTask>
    ensures { (with_content with_data : Bool)
        → one_text (found_of matches.now) (codes "content") ≡ Some (flag_text with_content)
        → one_text (found_of matches.now) (codes "data") ≡ Some (flag_text with_data)
        → result ≡ checked with_content with_data }
{
    let after = match (matches.get_flag("content"), matches.get_flag("data")) {
        (false, false) => After::Nothing,
        (true, false) => After::Content,
        (false, true) => After::Data,
        (true, true) => return Err(NoTask::Usage),
    };
    Ok(Task::Check { after })
}

/// What `cover` is asked to do.
fn cover_of(matches: &ArgMatches<'_>) -> Result<Task, NoTask>
    ensures { (digits : List ℕ) (n : ℕ) (c : Bool)
        → one_text (found_of matches.now) (codes "signer") ≡ Some digits → IsNumber digits n
        → one_text (found_of matches.now) (codes "content") ≡ Some (flag_text c)
        → result ≡ Ok (Task.Cover n c) }
{
    match matches.get_one::<u64>("signer") {
        Some(signer) => Ok(Task::Cover {
            signer,
            content: matches.get_flag("content"),
        }),
        None => Err(NoTask::Usage),
    }
}

/// The command that the words ask for. The first word is the program's name. No option is given
/// twice, and `check` takes one at most: else the words are not understood.
pub fn task_of<S: AsStr>(alloc: Global, words: &[S]) -> Result<Task, NoTask>
    ensures asked { (task : Task) → AskFor (map S.text words.entry.now) task
        → (result ≡ Ok task) ⊎ (result ≡ Err NoTask.OutOfMemory) }
    ensures both { AskForBoth (map S.text words.entry.now)
        → (result ≡ Err NoTask.Usage) ⊎ (result ≡ Err NoTask.OutOfMemory) }
{
    let Ok(command) = command(alloc) else {
        return Err(NoTask::OutOfMemory);
    };
    let matches = match command.try_get_matches_from(words) {
        Ok(matches) => matches,
        Err(error) => return Err(no_task(alloc, error)),
    };
    let Some((name, matches)) = matches.subcommand() else {
        return Err(NoTask::Usage);
    };
    task_named(name, matches)
}
