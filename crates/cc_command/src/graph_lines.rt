// The lines that tell what became of commands.
ghost use Rattle.std.specs.Prelude.{◌≡◌, ◌++◌, map, IfOk, OnOk};
ghost use Rattle.std.specs.Option.{option_copied};
ghost use Rattle.cc_host.specs.Call.{part};
ghost use Rattle.cc_build.specs.Kept.{Aside};
ghost use Rattle.cc_command.specs.Database.{optional};
ghost use Rattle.cc_command.specs.Graphed.{end_text, end_line, lines_from, PrintsEnd};

use crate::graph_errors::push_number;
use crate::lines::print_lines;
use cc_build::Error;
use cc_graph::{NodeEnd, NodeEnds};
use cc_host::{Host, Status, World};
use cc_text::{Mem, Text, Words};
use std::alloc::Global;

fn end_text(alloc: Global, end: NodeEnd) -> Mem<Text>
    ensures { IfOk result (λ text. text ≡ end_text end) }
{
    match end {
        NodeEnd::Ended(Status::Code(n)) => {
            let digits = format!(in alloc; "{n}")?;
            Text::of(alloc, digits.as_str())
        }
        NodeEnd::Ended(Status::NoCode) => Text::of(alloc, "ended without a status"),
        NodeEnd::Skipped => Text::of(alloc, "skipped"),
    }
}

fn end_line(alloc: Global, place: u64, end: NodeEnd) -> Mem<Text>
    ensures { IfOk result (λ line. line ≡ end_line place end) }
{
    let end = end_text(alloc, end)?;
    let mut line = Text::new(alloc);
    push_number(alloc, &mut line, place)?;
    line.push_str(" ")?;
    line.push_str(end.as_str())?;
    line.push_str("\n")?;
    Ok(line)
}

// Adds the line of a command, where it has an end.
fn push_line(alloc: Global, lines: &mut Words, place: u64, end: Option<&NodeEnd>) -> Mem<()>
    ensures { OnOk result (lines.new
        ≡ lines.old ++ map (end_line place) (optional (option_copied end.entry))) }
{
    match end {
        Some(end) => {
            let line = end_line(alloc, place, *end)?;
            lines.push_text(line)
        }
        None => Ok(()),
    }
}

// A line for each.
fn end_lines(alloc: Global, ends: &NodeEnds) -> Mem<Words>
    ensures { IfOk result (λ lines. lines ≡ lines_from 0 ends.now) }
{
    let mut lines = Words::new(alloc);
    for place in 0..ends.len() {
        push_line(alloc, &mut lines, place as u64, ends.get(place))?;
    }
    Ok(lines)
}

/// Prints a line for each command: its place, and what became of it.
#[tactic(auto, using(cc_build::proofs::Keeping::aside_none))]
pub(crate) fn print_ends<W: World, H: Host<W>>(
    alloc: Global,
    host: &mut H,
    ends: &NodeEnds,
) -> Result<(), Error>
    ensures aside { Aside H.log H.patience host.old host.new }
    ensures outcome { PrintsEnd (lines_from 0 ends.now) (part H.log host.old host.new) result }
{
    match end_lines(alloc, ends) {
        Ok(lines) => print_lines(alloc, host, lines.as_slice()),
        Err(memory) => Err(Error::from(memory)),
    }
}
