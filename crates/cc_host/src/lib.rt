//! Commands, what a host is asked and answers, the events of its log, the traits of hosts and of files that are read, and both in memory.
//!
//! Stands on `cc_text`. A host runs commands, keeps files and prints, and appends to its log what it did. The crates
//! above use one thing: what each call appends is a function of what it was given and of what it answered. How the
//! part of a call is read stands in `specs/Part.antt`, with its laws in `proofs/Parts.antt`.
#![tactic(auto)]

mod bench;
mod bench_commands;
mod bench_host;
mod bench_questions;
mod boxed;
mod calls;
mod child;
mod child_log;
mod command;
mod compile_command;
mod event;
mod files;
mod given;
mod host;
mod journal;
mod line;
mod memory_files;
mod probe;
mod question;
mod script;
mod shared;
mod verdicts;

pub use bench::BenchHost;
pub use bench_host::Bench;
pub use boxed::{Boxed, Line};
pub use child::RunningChild;
pub use child_log::ChildLog;
pub use command::Command;
pub use compile_command::CompileCommand;
pub use event::{
    Created, Event, HostCall, HostError, LineKind, Message, News, OutputKind, Pipes, Ran, Removal,
    Role, Scope, Start, Status, Why,
};
pub use files::{FileError, Files, Held};
pub use host::{Host, World};
pub use journal::Journal;
pub use line::command_line;
pub use memory_files::MemoryFiles;
pub use probe::probe_command;
pub use question::{Ask, Marks, Outcome, ProbeFiles, Question, Verdict, exists_of};
pub use script::Script;
pub use verdicts::{into_verdict, is_yes, verdict};
