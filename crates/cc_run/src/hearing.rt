// What the children of a run give on their standard error, as lines.
ghost use Rattle.std.specs.Prelude.{◌≡◌, ◌++◌, [], OnOk};
ghost use Rattle.std.specs.List.{slice_get};
ghost use Rattle.std.specs.Option.{option_copied};
ghost use Rattle.cc_run.specs.Children.{run_of};
ghost use Rattle.cc_run.specs.Forwarded.{fed, emptied, heard_lines, rest_lines, unread_lines, ended_lines};
ghost use Rattle.cc_run.specs.Hearing.{at_child, of_child, heard_at, unread_at, children_from, wrote, AddsWritten};

use crate::messages::{push_failed, push_given, push_unread};
use crate::print::Notice;
use crate::running::{Child, find};
use crate::texts::{cargo_line, ended_line, failed_line, unread_text};
use crate::{Planned, Queue, Running, Shows};
use cc_host::{LineKind, News, Status};
use cc_text::Mem;
use std::slice;

// Takes a piece of the standard error of a child, and adds the lines that it ends.
fn take_piece(
    child: &mut Child,
    planned: Option<&Planned>,
    piece: &[u8],
    shows: &Shows,
    lines: &mut Vec<Notice>,
) -> Mem<()>
    ensures seat { (child.new.id ≡ child.old.id) × (child.new.place ≡ child.old.place) }
    ensures rest { OnOk result (child.new ≡ fed piece.now child.old) }
    ensures lines { OnOk result (lines.new.items ≡ lines.old.items
        ++ heard_lines shows.now (option_copied planned.entry) child.old piece.now) }
{
    let texts = child.rest.take(piece)?;
    push_given(shows, planned, child.id, &texts, lines)?;
    Ok(())
}

// Adds what a child gave since its last line feed as a line.
fn take_rest(
    child: &mut Child,
    planned: Option<&Planned>,
    shows: &Shows,
    lines: &mut Vec<Notice>,
) -> Mem<()>
    ensures seat { (child.new.id ≡ child.old.id) × (child.new.place ≡ child.old.place) }
    ensures rest { OnOk result (child.new ≡ emptied child.old) }
    ensures lines { OnOk result (lines.new.items ≡ lines.old.items
        ++ rest_lines shows.now (option_copied planned.entry) child.old) }
{
    let Some(text) = child.rest.finish() else {
        return Ok(());
    };
    push_given(shows, planned, child.id, slice::from_ref(&text), lines)?;
    Ok(())
}

// The standard error of a child failed to be read: its rest is a line, and a warning follows.
fn take_unread(
    child: &mut Child,
    planned: Option<&Planned>,
    shows: &Shows,
    lines: &mut Vec<Notice>,
) -> Mem<()>
    ensures seat { (child.new.id ≡ child.old.id) × (child.new.place ≡ child.old.place) }
    ensures rest { OnOk result (child.new ≡ emptied child.old) }
    ensures lines { OnOk result (lines.new.items ≡ lines.old.items
        ++ unread_lines shows.now (option_copied planned.entry) child.old) }
{
    take_rest(child, planned, shows, lines)?;
    if shows.warnings {
        let alloc = *lines.allocator();
        lines.push(cargo_line(alloc, LineKind::Warning, unread_text().as_bytes())?)?;
    }
    push_unread(shows, lines)?;
    Ok(())
}

// Takes a piece of the standard error of the child of that id, where it is one of the run.
#[tactic(auto, using(crate::proofs::ChildLemmas::seats_set))]
fn hear_piece<Q: Queue>(
    running: &mut Running,
    id: u64,
    piece: &[u8],
    queue: &Q,
    shows: &Shows,
    lines: &mut Vec<Notice>,
) -> Mem<()>
    ensures run { run_of running.new ≡ run_of running.old }
    ensures children { OnOk result (running.new.children
        ≡ at_child id (fed piece.now) running.old.children) }
    ensures lines { OnOk result (lines.new.items ≡ lines.old.items
        ++ of_child id (heard_at shows.now (Q.plan queue.now).cmds piece.now) running.old.children) }
{
    match find(&running.children, id) {
        Some(at) => {
            let planned = queue.command(running.children[at].place);
            take_piece(&mut running.children[at], planned, piece, shows, lines)?;
            Ok(())
        }
        None => Ok(()),
    }
}

// Takes the rest of the standard error of the child of that id, which failed to be read, where it is one of the run.
#[tactic(auto, using(crate::proofs::ChildLemmas::seats_set))]
fn hear_unread<Q: Queue>(
    running: &mut Running,
    id: u64,
    queue: &Q,
    shows: &Shows,
    lines: &mut Vec<Notice>,
) -> Mem<()>
    ensures run { run_of running.new ≡ run_of running.old }
    ensures children { OnOk result (running.new.children
        ≡ at_child id emptied running.old.children) }
    ensures lines { OnOk result (lines.new.items ≡ lines.old.items
        ++ of_child id (unread_at shows.now (Q.plan queue.now).cmds) running.old.children) }
{
    match find(&running.children, id) {
        Some(at) => {
            let planned = queue.command(running.children[at].place);
            take_unread(&mut running.children[at], planned, shows, lines)?;
            Ok(())
        }
        None => Ok(()),
    }
}

// Takes what the standard error of a child gave in a turn.
pub(crate) fn hear<Q: Queue>(
    running: &mut Running,
    news: &News,
    queue: &Q,
    shows: &Shows,
    lines: &mut Vec<Notice>,
) -> Mem<()>
    ensures run { run_of running.new ≡ run_of running.old }
    ensures children { OnOk result (running.new.children
        ≡ children_from running.old.children (wrote news.now)) }
    ensures lines { AddsWritten shows.now (Q.plan queue.now).cmds running.old.children
        (wrote news.now) result lines.old.items lines.new.items }
{
    if let Some(piece) = &news.piece {
        hear_piece(running, news.id, piece.as_slice(), queue, shows, lines)?;
    }
    if news.unread {
        hear_unread(running, news.id, queue, shows, lines)?;
    }
    Ok(())
}

// A child has ended: its rest is a line, its status one for debugging, and a failure a warning where it is warned of,
// and a message.
pub(crate) fn push_end(
    child: &mut Child,
    planned: &Planned,
    status: Status,
    shows: &Shows,
    warns: bool,
    lines: &mut Vec<Notice>,
) -> Mem<()>
    ensures { OnOk result (lines.new.items
        ≡ lines.old.items ++ ended_lines shows.now warns planned.now status child.old) }
{
    take_rest(child, Some(planned), shows, lines)?;
    let alloc = *lines.allocator();
    if shows.debug {
        lines.push(ended_line(alloc, status)?)?;
    }
    if warns && shows.warnings && !status.is_success() {
        lines.push(failed_line(alloc, status, &planned.cmd)?)?;
    }
    push_failed(shows, status, &planned.cmd, lines)?;
    Ok(())
}
