//! The command `cms-canon`: its words, what it does with its streams, and what it says.
//!
//! This crate alone names `clap`, which takes a check 15 s and 1.5 GB.
#![tactic(auto)]

mod answer;
mod changes;
mod check;
mod compare;
mod program;
mod show;
mod task;
mod texts;

pub use program::{LIMIT, report_fault, report_usage, run};
pub use task::{After, NoTask, Task, task_of};
