// The job of a large run from a number: it is run, and what it came to is printed.
ghost use Rattle.std.specs.Prelude.{◌≡◌, ◌++◌, [], ◌∷◌, Some, IfOk, OnOk};
ghost use Rattle.cc_host.specs.Call.{part};
ghost use Rattle.cc_host.specs.Script.{same_role};
ghost use Rattle.cc_build.specs.Course.{CallsEnd};
ghost use Rattle.cc_build.specs.Kept.{Aside};
ghost use Rattle.cc_command.specs.Generated.{counted_line as line_of};
ghost use Rattle.cc_command.specs.Lines.{shows};
ghost use Rattle.cc_command.specs.Summary.{begins as is_begun, counts as is_counted, links as is_link, number, log_lines, SumsUp, Generating};

use crate::done::{Done, plain};
use crate::large_run::{Generated, generate};
use crate::lines::print_lines;
use cc_build::Error;
use cc_host::{Event, Host, LineKind, Role, World};
use cc_text::{Mem, Text, Words};
use std::alloc::Global;
use std::sync::Wait;

// What is counted in a log: commands of a role that begin, or link lines.
#[derive(Clone, Copy)]
enum Counted {
    Commands(Role),
    Links,
}

fn is_same_role(a: Role, b: Role) -> bool
    ensures { result ≡ same_role a b }
{
    a == b
}

// Whether an event begins a command of a role: one that is started, or run to its end.
fn begins(event: &Event, role: Role) -> bool
    ensures { result ≡ is_begun role event.now }
{
    match event {
        Event::Started { role: found, .. } => is_same_role(*found, role),
        Event::Ran { role: found, .. } => is_same_role(*found, role),
        _ => false,
    }
}

// Whether an event prints a line that has Cargo link.
fn links(event: &Event) -> bool
    ensures { result ≡ is_link event.now }
{
    match event {
        Event::Printed { kind, .. } => matches!(kind, LineKind::Link),
        _ => false,
    }
}

fn counts(event: &Event, what: Counted) -> bool
    ensures { result ≡ is_counted what event.now }
{
    match what {
        Counted::Commands(role) => begins(event, role),
        Counted::Links => links(event),
    }
}

fn number(log: &[Event], what: Counted) -> usize
    ensures { result ≡ number (is_counted what) log.now }
{
    log.iter().filter(|event| counts(event, what)).count()
}

// Adds the line of a name and its number.
fn push_count(alloc: Global, lines: &mut Words, name: &str, count: u64) -> Mem<()>
    ensures { OnOk result (lines.new ≡ lines.old ++ line_of name.now count ∷ []) }
{
    let digits = format!(in alloc; "{count}")?;
    let mut line = Text::of(alloc, name)?;
    line.push_str(" ")?;
    line.push_str(digits.as_str())?;
    line.push_str("\n")?;
    lines.push_text(line)
}

// The lines that sum up a run of so many sources, by its log.
#[tactic(auto, unfolding(crate::specs::Summary::log_lines))]
fn summary_lines(alloc: Global, count: u32, log: &[Event]) -> Mem<Words>
    ensures { IfOk result (λ lines. lines ≡ log_lines count log.now) }
{
    let compiles = number(log, Counted::Commands(Role::Compile)) as u64;
    let archives = number(log, Counted::Commands(Role::Archive)) as u64;
    let indexes = number(log, Counted::Commands(Role::Index)) as u64;
    let links = number(log, Counted::Links) as u64;
    let mut lines = Words::new(alloc);
    push_count(alloc, &mut lines, "sources", count as u64)?;
    push_count(alloc, &mut lines, "compiles", compiles)?;
    push_count(alloc, &mut lines, "archives", archives)?;
    push_count(alloc, &mut lines, "indexes", indexes)?;
    push_count(alloc, &mut lines, "links", links)?;
    Ok(lines)
}

// Sums a run up by its log.
#[tactic(auto, using(cc_build::proofs::Keeping::aside_none))]
fn print_summary<W: World, H: Host<W>>(
    alloc: Global,
    host: &mut H,
    count: u32,
    log: &[Event],
) -> Result<(), Error>
    ensures aside { Aside H.log H.patience host.old host.new }
    ensures outcome { CallsEnd (shows (log_lines count log.now))
        (part H.log host.old host.new) result }
{
    match summary_lines(alloc, count, log) {
        Ok(lines) => print_lines(alloc, host, lines.as_slice()),
        Err(memory) => Err(Error::from(memory)),
    }
}

// Sums a run up that is done, and keeps the error of another.
#[tactic(auto, using(cc_build::proofs::Keeping::aside_none))]
fn sum_up<W: World, H: Host<W>>(
    alloc: Global,
    host: &mut H,
    count: u32,
    log: &[Event],
    run: Result<(), Error>,
) -> Result<(), Error>
    ensures aside { Aside H.log H.patience host.old host.new }
    ensures outcome { SumsUp (log_lines count log.now) run
        (part H.log host.old host.new) result }
{
    match run {
        Ok(()) => print_summary(alloc, host, count, log),
        Err(error) => Err(error),
    }
}

// Sums a run up, and hands its host back.
fn hand_back<W: World, H: Host<W>>(
    alloc: Global,
    host: &mut H,
    count: u32,
    generated: Generated,
) -> Done
    ensures aside { Aside H.log H.patience host.old host.new }
    ensures back { result.bench ≡ Some generated.bench }
    ensures sums { SumsUp (log_lines count generated.bench.log) generated.result
        (part H.log host.old host.new) result.result }
{
    let Generated { bench, result } = generated;
    let result = sum_up(alloc, host, count, bench.log(), result);
    Done {
        result,
        bench: Some(bench),
    }
}

/// Compiles so many generated sources on a host in memory of its own, and prints what that came to on the host that is
/// handed in.
#[tactic(auto, using(cc_build::proofs::Keeping::aside_none))]
pub(crate) fn generate_alone<W: World, H: Host<W>>(
    rt: &impl Wait,
    alloc: Global,
    count: u32,
    turns: u64,
    host: &mut H,
) -> Done
    ensures aside { Aside H.log H.patience host.old host.new }
    ensures ends { Generating count turns (part H.log host.old host.new)
        result.result result.bench }
{
    match generate(rt, alloc, count, turns) {
        Ok(generated) => hand_back(alloc, host, count, generated),
        Err(memory) => plain(Err(Error::from(memory))),
    }
}
