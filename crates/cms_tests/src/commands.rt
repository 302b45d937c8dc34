//! The words of the command line.
use crate::asserts::assert_same;
use cms_cli::{After, NoTask, Task, task_of};
use std::alloc::Global;

/// What comes of words.
#[derive(Clone, Copy, Debug, PartialEq, Eq)]
enum Reply {
    Task(Task),
    Help,
    Usage,
    OutOfMemory,
}

/// Words, the first of them the program's name, and what comes of them.
const WORDS: &[(&[&str], Reply)] = &[
    (
        &["cms-canon", "convert"],
        Reply::Task(Task::Convert { many: false }),
    ),
    (
        &["cms-canon", "convert", "--many"],
        Reply::Task(Task::Convert { many: true }),
    ),
    (
        &["cms-canon", "show"],
        Reply::Task(Task::Show { json: false }),
    ),
    (
        &["cms-canon", "show", "--json"],
        Reply::Task(Task::Show { json: true }),
    ),
    (
        &["cms-canon", "changes"],
        Reply::Task(Task::Changes { json: false }),
    ),
    (
        &["cms-canon", "changes", "--json"],
        Reply::Task(Task::Changes { json: true }),
    ),
    (
        &["cms-canon", "check"],
        Reply::Task(Task::Check {
            after: After::Nothing,
        }),
    ),
    (
        &["cms-canon", "check", "--content"],
        Reply::Task(Task::Check {
            after: After::Content,
        }),
    ),
    (
        &["cms-canon", "check", "--data"],
        Reply::Task(Task::Check { after: After::Data }),
    ),
    (
        &["cms-canon", "cover", "--signer", "7"],
        Reply::Task(Task::Cover {
            signer: 7,
            content: false,
        }),
    ),
    (
        &[
            "cms-canon",
            "cover",
            "--content",
            "--signer=18446744073709551615",
        ],
        Reply::Task(Task::Cover {
            signer: u64::MAX,
            content: true,
        }),
    ),
    (&["cms-canon", "same"], Reply::Task(Task::Same)),
    (&["cms-canon", "help", "check"], Reply::Help),
    (&["cms-canon", "--version"], Reply::Help),
    (&["cms-canon"], Reply::Usage),
    (&["cms-canon", "convert", "message"], Reply::Usage),
    (&["cms-canon", "convert", "--many", "--many"], Reply::Usage),
    (&["cms-canon", "convert", "--many=2"], Reply::Usage),
    (&["cms-canon", "show", "--many"], Reply::Usage),
    (&["cms-canon", "show", "--json", "--json"], Reply::Usage),
    (&["cms-canon", "show", "message"], Reply::Usage),
    (&["cms-canon", "changes", "--json", "--json"], Reply::Usage),
    (&["cms-canon", "check", "--content", "--data"], Reply::Usage),
    (&["cms-canon", "check", "--data", "--content"], Reply::Usage),
    (
        &["cms-canon", "check", "--content", "--content"],
        Reply::Usage,
    ),
    (&["cms-canon", "check", "--data", "--data"], Reply::Usage),
    (&["cms-canon", "check", "--content=content"], Reply::Usage),
    (&["cms-canon", "cover"], Reply::Usage),
    (
        &["cms-canon", "cover", "--signer", "7", "--data"],
        Reply::Usage,
    ),
    (&["cms-canon", "same", "--content"], Reply::Usage),
    (
        &["cms-canon", "cover", "--signer", "18446744073709551616"],
        Reply::Usage,
    ),
    (&["cms-canon", "cover", "--signer", "-1"], Reply::Usage),
];

fn reply_to(alloc: Global, words: &[&str]) -> Reply {
    match task_of(alloc, words) {
        Ok(task) => Reply::Task(task),
        Err(NoTask::Help(text)) if text.is_empty() => Reply::Usage,
        Err(NoTask::Help(_)) => Reply::Help,
        Err(NoTask::Usage) => Reply::Usage,
        Err(NoTask::OutOfMemory) => Reply::OutOfMemory,
    }
}

#[test]
fn replies_to_words(rt: HostRuntime) {
    for (words, want) in WORDS {
        let came = reply_to(rt.alloc(), words);
        assert_same(&rt, (*words, came), (*words, *want), "the words");
    }
}
