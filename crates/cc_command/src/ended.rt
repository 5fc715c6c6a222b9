// How a run of the program ends: its status, and the line that says why it was refused.
ghost use Rattle.std.specs.Prelude.{◌≡◌, ◌++◌, [], false, string_bytes, IfOk, OnOk, OnErr};
ghost use Rattle.std.specs.Fmt.{decimal};
ghost use Rattle.cc_tool.specs.Asked.{question_events};
ghost use Rattle.cc_host.specs.Call.{part};
ghost use Rattle.cc_command.specs.Answer.{PrintsLine, AnswersError, AnswersBad, is_wanting, ended_with, ended_well, ended_wanting as wanting, cause_text as text_of, word_line as line_of_word, error_line as line_of_error};

use crate::words::{BadWord, WordCause};
use cc_build::{Error, ErrorKind};
use cc_fleet::FleetEnds;
use cc_graph::NodeEnds;
use cc_host::{BenchHost, Host, HostError, LineKind, World};
use cc_text::{Mem, NoMemory, Text};
use std::alloc::{AllocError, Global};

/// What a run answers: its status, with 1 the error, with 2 the bad word, the host of a large run from a number, and
/// the ends of a graph or of a fleet.
#[derive(Drop)]
pub struct Ended {
    /// The exit status for a program: 0 done, 1 refused by the build, 2 words refused, 3 want of memory.
    pub status: u8,
    /// Why the build was refused, with status 1 alone; of a fleet it is why its first refused member was. Its line was
    /// printed, unless the print failed.
    pub error: Option<Error>,
    /// The first bad word, with status 2 alone. Its line was printed, unless the print failed.
    pub word: Option<BadWord>,
    /// The host in memory that `generate N` ran on, with the log of that run; none where it didn't run, and of any
    /// other job.
    pub bench: Option<BenchHost>,
    /// What became of each command of `graph FILE`, by place; none where they weren't run to their ends, and of any
    /// other job.
    pub graph: Option<NodeEnds>,
    /// What became of each member of a fleet, by place; none where the fleet was refused as a whole, and of any other
    /// job.
    pub fleet: Option<FleetEnds>,
}

// An end with this status, which tells nothing else.
pub(crate) fn ended_with(status: u8) -> Ended
    ensures { result ≡ ended_with status }
{
    Ended {
        status,
        error: None,
        word: None,
        bench: None,
        graph: None,
        fleet: None,
    }
}

pub(crate) fn ended_done() -> Ended
    ensures { result ≡ ended_well }
{
    ended_with(0)
}

pub(crate) fn ended_wanting() -> Ended
    ensures { result ≡ wanting }
{
    ended_with(3)
}

/// The cause of a bad word as standard error has it behind the place: `word 2: no value`.
pub fn cause_text(cause: WordCause) -> &'static str
    ensures { result.now ≡ text_of cause }
{
    match cause {
        WordCause::NoCommand => "no command",
        WordCause::UnknownCommand => "unknown command",
        WordCause::NoName => "no name",
        WordCause::NoValue => "no value",
        WordCause::UnknownKey => "unknown key",
        WordCause::BadValue => "bad value",
    }
}

fn decimal(alloc: Global, n: u64) -> Result<String, AllocError>
    ensures { IfOk result (λ s. string_bytes s ≡ decimal n) }
{
    format!(in alloc; "{n}")
}

fn word_line(alloc: Global, bad: BadWord) -> Mem<Text>
    ensures { IfOk result (λ line. line ≡ line_of_word bad) }
{
    let place = decimal(alloc, bad.place)?;
    let mut line = Text::of(alloc, "word ")?;
    line.push_str(place.as_str())?;
    line.push_str(": ")?;
    line.push_str(cause_text(bad.cause))?;
    line.push_str("\n")?;
    Ok(line)
}

fn error_line(alloc: Global, error: &Error) -> Mem<Text>
    ensures { IfOk result (λ line. line ≡ line_of_error error.now) }
{
    let mut line = Text::of(alloc, "error occurred in cc-rs: ")?;
    line.push_str(error.message())?;
    line.push_str("\n")?;
    Ok(line)
}

// Prints a line of kind Fault. A fault of the print changes nothing.
#[tactic(auto, using(cc_host::proofs::Parts::since_append))]
fn print_fault<W: World, H: Host<W>>(host: &mut H, line: &Text) -> Mem<()>
    ensures extends { H.log host.new ≡ H.log host.old ++ part H.log host.old host.new }
    ensures asks_none { question_events (part H.log host.old host.new) ≡ [] }
    ensures printed { OnOk result (PrintsLine line.now (part H.log host.old host.new)) }
    ensures wanting { OnErr result (part H.log host.old host.new ≡ []) }
{
    match host.print(LineKind::Fault, line.as_str().as_bytes()) {
        Ok(()) => Ok(()),
        Err(HostError::Fault(_, _)) => Ok(()),
        Err(HostError::NoMemory) => Err(NoMemory),
    }
}

// The end of a run with a bad word.
#[tactic(auto, using(cc_host::proofs::Parts::since_append))]
pub(crate) fn refuse_word<W: World, H: Host<W>>(alloc: Global, host: &mut H, bad: BadWord) -> Ended
    ensures extends { H.log host.new ≡ H.log host.old ++ part H.log host.old host.new }
    ensures asks_none { question_events (part H.log host.old host.new) ≡ [] }
    ensures answer { AnswersBad bad (part H.log host.old host.new) result }
{
    let Ok(line) = word_line(alloc, bad) else {
        return ended_wanting();
    };
    match print_fault(host, &line) {
        Ok(()) => Ended {
            word: Some(bad),
            ..ended_with(2)
        },
        Err(_) => ended_wanting(),
    }
}

fn is_wanting(kind: ErrorKind) -> bool
    ensures { result ≡ is_wanting kind }
{
    matches!(kind, ErrorKind::NoMemory)
}

// Prints the line of an error, but for want of memory, which has none.
#[tactic(auto, using(cc_host::proofs::Parts::since_append))]
pub(crate) fn print_error<W: World, H: Host<W>>(
    alloc: Global,
    host: &mut H,
    error: &Error,
) -> Mem<()>
    ensures extends { H.log host.new ≡ H.log host.old ++ part H.log host.old host.new }
    ensures asks_none { question_events (part H.log host.old host.new) ≡ [] }
    ensures kind { OnOk result (is_wanting error.now.kind ≡ false) }
    ensures printed { OnOk result (PrintsLine (line_of_error error.now)
        (part H.log host.old host.new)) }
    ensures wanting { OnErr result (part H.log host.old host.new ≡ []) }
{
    if is_wanting(error.kind()) {
        return Err(NoMemory);
    }
    let line = error_line(alloc, error)?;
    print_fault(host, &line)
}

// The end of a run that was refused.
#[tactic(auto, using(cc_host::proofs::Parts::since_append))]
pub(crate) fn refuse<W: World, H: Host<W>>(alloc: Global, host: &mut H, error: Error) -> Ended
    ensures extends { H.log host.new ≡ H.log host.old ++ part H.log host.old host.new }
    ensures asks_none { question_events (part H.log host.old host.new) ≡ [] }
    ensures answer { AnswersError error (part H.log host.old host.new) result }
{
    match print_error(alloc, host, &error) {
        Ok(()) => Ended {
            error: Some(error),
            ..ended_with(1)
        },
        Err(_) => {
            drop(error);
            ended_wanting()
        }
    }
}
