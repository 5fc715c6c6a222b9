// The messages that a run says to a host that listens.
ghost use Rattle.std.specs.Prelude.{◌≡◌, ◌++◌, OnOk, IfOk, map};
ghost use Rattle.std.specs.Option.{option_copied};
ghost use Rattle.std.specs.Str.Lossy.{utf8_lossy};
ghost use Rattle.cc_run.specs.Forwarded.{given_lines};
ghost use Rattle.cc_run.specs.Messages.{before, failed_told, forwarded, forwarding, told_of, unread_told, warned_of};

use crate::print::Notice;
use crate::texts::{announced, failed_text, push_lines, unread_text};
use crate::warnings::without_carriage_return;
use crate::{Planned, Shows};
use cc_host::{Command, LineKind, Message, Status, command_line};
use cc_text::{Bytes, Mem, Text};
use std::alloc::Global;

// What comes just before a command: a line for debugging, and the message that it compiles.
#[tactic(auto, unfolding(crate::specs::Messages::compiles))]
pub(crate) fn before(alloc: Global, shows: &Shows, planned: &Planned) -> Mem<Vec<Notice>>
    ensures { IfOk result (λ notices. notices.items ≡ before shows.now planned.now) }
{
    let mut notices = announced(alloc, shows, &planned.cmd)?;
    if !shows.listens {
        return Ok(notices);
    }
    if let Some(compiles) = &planned.message {
        let text = command_line(alloc, &planned.cmd)?;
        let message = Message::Compiles(text, compiles.try_clone()?);
        notices.push(Notice::Told(message))?;
    }
    Ok(notices)
}

// Bytes as text, with U+FFFD in place of what isn't.
fn as_text(alloc: Global, bytes: &[u8]) -> Mem<Text>
    ensures { IfOk result (λ text. text ≡ utf8_lossy bytes.now) }
{
    let text = String::from_utf8_lossy(alloc, bytes)?;
    Text::of(alloc, text.as_str())
}

fn forwarded(alloc: Global, cmd: &Command, bytes: &[u8]) -> Mem<Message>
    ensures { IfOk result (λ message. message ≡ forwarded cmd.now bytes.now) }
{
    let text = as_text(alloc, bytes)?;
    Ok(Message::StderrForwarding(text, cmd.try_clone()?))
}

fn forwarding(alloc: Global, cmd: &Command, line: &[u8]) -> Mem<Message>
    ensures { IfOk result (λ message. message ≡ forwarding cmd.now line.now) }
{
    forwarded(alloc, cmd, without_carriage_return(line))
}

// Adds the message of each of these lines of the standard error of a command.
fn push_told(cmd: &Command, texts: &[Bytes], notices: &mut Vec<Notice>) -> Mem<()>
    ensures { OnOk result (notices.new.items
        ≡ notices.old.items ++ map (told_of cmd.now) texts.now) }
{
    let alloc = *notices.allocator();
    for text in texts {
        let message = forwarding(alloc, cmd, text.as_slice())?;
        notices.push(Notice::Told(message))?;
    }
    Ok(())
}

// Adds the message of each of these lines of the standard error of a command, whose carriage returns are gone.
pub(crate) fn push_warned(cmd: &Command, texts: &[Bytes], notices: &mut Vec<Notice>) -> Mem<()>
    ensures { OnOk result (notices.new.items
        ≡ notices.old.items ++ map (warned_of cmd.now) texts.now) }
{
    let alloc = *notices.allocator();
    for text in texts {
        let message = forwarded(alloc, cmd, text.as_slice())?;
        notices.push(Notice::Told(message))?;
    }
    Ok(())
}

// Adds these lines of the standard error of a child of that id and command.
pub(crate) fn push_given(
    shows: &Shows,
    planned: Option<&Planned>,
    id: u64,
    texts: &[Bytes],
    notices: &mut Vec<Notice>,
) -> Mem<()>
    ensures { OnOk result (notices.new.items ≡ notices.old.items
        ++ given_lines shows.now (option_copied planned.entry) id texts.now) }
{
    if shows.warnings {
        push_lines(LineKind::Stderr { id }, texts, notices)?;
    }
    let Some(planned) = planned else {
        return Ok(());
    };
    if shows.listens {
        push_told(&planned.cmd, texts, notices)?;
    }
    Ok(())
}

// Adds the message that a standard error can't be read, where the host listens.
pub(crate) fn push_unread(shows: &Shows, notices: &mut Vec<Notice>) -> Mem<()>
    ensures { OnOk result (notices.new.items ≡ notices.old.items ++ unread_told shows.now) }
{
    if shows.listens {
        let text = Text::of(*notices.allocator(), unread_text())?;
        notices.push(Notice::Told(Message::GeneralWarning(text)))?;
    }
    Ok(())
}

// Adds the message of a command that failed, where the host listens.
pub(crate) fn push_failed(
    shows: &Shows,
    status: Status,
    cmd: &Command,
    notices: &mut Vec<Notice>,
) -> Mem<()>
    ensures { OnOk result (notices.new.items
        ≡ notices.old.items ++ failed_told shows.now status cmd.now) }
{
    if shows.listens && !status.is_success() {
        let text = failed_text(*notices.allocator(), status, cmd)?;
        let message = Message::CommandFailed(status, text, cmd.try_clone()?);
        notices.push(Notice::Told(message))?;
    }
    Ok(())
}
