// The errors of a graph of commands from a file.
ghost use Rattle.std.specs.Prelude.{◌≡◌, ◌++◌, map, codes, IfOk, MatchResult, OnOk};
ghost use Rattle.std.specs.Fmt.{decimal};
ghost use Rattle.std.specs.List.{flat_map};
ghost use Rattle.cc_graph.specs.Queue.{command};
ghost use Rattle.cc_build.specs.Error.{no_memory};
ghost use Rattle.cc_build.specs.RunErrors.{command_at, run_error as error_of_run};
ghost use Rattle.cc_build.specs.Stop.{failed_error};
ghost use Rattle.cc_build.specs.Went.{IsOf};
ghost use Rattle.cc_build.specs.declared.error.ErrorKind.TheVariants.{NoMemory as OutOfMemory};
ghost use Rattle.cc_command.specs.Graphed.{need_error, cycle_error, graph_error};

use crate::failing::Failure;
use cc_build::{Error, ErrorKind};
use cc_graph::{GraphError, Node};
use cc_run::{Planned, RunError, failed_text};
use cc_text::{Mem, NoMemory, Text};
use std::alloc::Global;
use std::slice::from_ref;

/// An error, or want of memory for its texts.
pub(crate) fn or_wanting(error: Mem<Error>) -> Error
    ensures { MatchResult error (λ e. result ≡ e) (λ _. result ≡ no_memory) }
{
    match error {
        Ok(error) => error,
        Err(memory) => Error::from(memory),
    }
}

/// An error about a file, of this text with its path behind.
pub(crate) fn file_error(alloc: Global, kind: ErrorKind, text: &str, path: &str) -> Mem<Error>
    requires { kind ≡ OutOfMemory → ⊥ }
    ensures { IfOk result (λ e. e ≡ record {
      kind = kind;
      subject = path.now;
      message = text.now ++ path.now;
    }) }
{
    let mut message = Text::of(alloc, text)?;
    message.push_str(path)?;
    Error::of(alloc, kind, path, message.as_str())
}

/// Adds the digits of a number.
pub(crate) fn push_number(alloc: Global, text: &mut Text, number: u64) -> Mem<()>
    ensures { OnOk result (text.new ≡ text.old ++ decimal number) }
{
    let digits = format!(in alloc; "{number}")?;
    text.push_str(digits.as_str())
}

fn need_error(alloc: Global, path: &str, node: u64, need: u64) -> Mem<Error>
    ensures { IfOk result (λ e. e ≡ need_error path.now node need) }
{
    let mut message = Text::of(alloc, "node ")?;
    push_number(alloc, &mut message, node)?;
    message.push_str(" needs ")?;
    push_number(alloc, &mut message, need)?;
    Error::of(alloc, ErrorKind::InvalidArgument, path, message.as_str())
}

fn push_place(alloc: Global, text: &mut Text, place: u64) -> Mem<()>
    ensures { OnOk result (text.new ≡ text.old ++ codes " " ++ decimal place) }
{
    text.push_str(" ")?;
    push_number(alloc, text, place)
}

fn cycle_text(alloc: Global, places: &[u64]) -> Mem<Text>
    ensures { IfOk result (λ text.
        text ≡ codes "cycle" ++ flat_map (λ p. codes " " ++ decimal p) places.now) }
{
    let mut text = Text::of(alloc, "cycle")?;
    for place in places {
        push_place(alloc, &mut text, *place)?;
    }
    Ok(text)
}

fn cycle_error(alloc: Global, path: &str, places: &[u64]) -> Mem<Error>
    ensures { IfOk result (λ e. e ≡ cycle_error path.now places.now) }
{
    let message = cycle_text(alloc, places)?;
    Error::of(alloc, ErrorKind::InvalidArgument, path, message.as_str())
}

// The command at a place as a list of one.
fn alone(nodes: &[Node], place: u64) -> &[Planned]
    ensures { command_at result.now 0 ≡ command_at (map command nodes.now) place }
{
    match nodes.get(place as usize) {
        Some(node) => from_ref(&node.cmd),
        None => &[],
    }
}

fn run_error(alloc: Global, nodes: &[Node], e: RunError) -> Error
    ensures { IsOf (error_of_run (map command nodes.now) e) result }
{
    match e {
        RunError::ToolNotFound(place) => {
            Error::of_run(alloc, RunError::ToolNotFound(0), alone(nodes, place))
        }
        RunError::StartFault(place) => {
            Error::of_run(alloc, RunError::StartFault(0), alone(nodes, place))
        }
        RunError::Failed(place, status) => {
            Error::of_run(alloc, RunError::Failed(0, status), alone(nodes, place))
        }
        e => Error::of_run(alloc, e, &[]),
    }
}

/// The error of commands from a file that were not run to their ends.
pub(crate) fn graph_error(alloc: Global, path: &str, nodes: &[Node], e: GraphError) -> Error
    ensures { IsOf (graph_error path.now nodes.now e) result }
{
    match e {
        GraphError::OutOfRange { node, need } => or_wanting(need_error(alloc, path, node, need)),
        GraphError::Cycle(places) => or_wanting(cycle_error(alloc, path, places.as_slice())),
        GraphError::Run(e) => run_error(alloc, nodes, e),
        GraphError::NoMemory => Error::from(NoMemory),
    }
}

/// The error of a command that failed.
#[tactic(auto, unfolding(cc_build::specs::Stop::failed_error))]
pub(crate) fn failure_error(alloc: Global, failure: &Failure) -> Mem<Error>
    ensures { IfOk result (λ e. e ≡ failed_error failure.now.status failure.now.cmd) }
{
    let message = failed_text(alloc, failure.status, &failure.cmd)?;
    let program = failure.cmd.get_program();
    Error::of(alloc, ErrorKind::ToolExecError, program, message.as_str())
}
