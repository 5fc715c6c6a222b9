// A log as lines, one an event. Turns one after another are one event.
use crate::commands::{
    push_command, push_end, push_outcome, push_pipes, push_probe, push_question, push_verdict,
};
use crate::line::Line;
use crate::names::{call_name, removal_name, role_name, why_name};
use cc_host::{
    Ask, Command, Event, HostCall, Line as LineBytes, LineKind, Message, Outcome, Pipes,
    ProbeFiles, Question, Removal, Role, Scope, Status, Verdict, Why,
};
use cc_text::{Bytes, Mem, Text, Vars};
use std::alloc::Global;

fn push_pair(line: &mut Line, name: &Text, value: &Text) -> Mem<()> {
    let mut pair = name.try_clone()?;
    pair.push('=')?;
    pair.push_str(value.as_str())?;
    line.push_named(" ", pair.as_str())
}

fn push_listed(line: &mut Line, vars: &Vars) -> Mem<()> {
    line.push_str("lists")?;
    for var in vars.as_slice() {
        push_pair(line, &var.0, &var.1)?;
    }
    Ok(())
}

fn push_made(line: &mut Line, scope: Scope, path: &Text) -> Mem<()> {
    line.push_named("makes ", path.as_str())?;
    match scope {
        Scope::Build => Ok(()),
        Scope::Probe => line.push_str(" for questions"),
    }
}

fn push_opened(line: &mut Line, path: &Text, bytes: &Bytes) -> Mem<()> {
    line.push_named("opens ", path.as_str())?;
    line.push_str(" ")?;
    line.push_bytes(bytes.as_slice())
}

fn push_wrote(line: &mut Line, path: &Text, bytes: &Bytes) -> Mem<()> {
    line.push_named("writes ", path.as_str())?;
    line.push_str(" ")?;
    line.push_bytes(bytes.as_slice())
}

fn push_answered(
    line: &mut Line,
    vars: &Vars,
    question: &Question,
    files: &Option<ProbeFiles>,
    outcome: &Outcome,
) -> Mem<()> {
    match question.ask {
        Ask::Exists => line.push_named("looks for ", question.program.as_str())?,
        _ => match files {
            Some(files) => push_probe(line, vars, question, files)?,
            None => push_question(line, "asks ", question)?,
        },
    }
    push_outcome(line, outcome)
}

fn push_reused(line: &mut Line, question: &Question, verdict: &Verdict) -> Mem<()> {
    push_question(line, "knows ", question)?;
    push_verdict(line, verdict)
}

// Adds which child was started, in which role, and how many tokens were held then.
fn push_started(line: &mut Line, id: u64, role: Role, held: u64) -> Mem<()> {
    line.push_about(id, " starts ")?;
    line.push_str(role_name(role))?;
    line.push_number(", held ", held)
}

fn push_missing(line: &mut Line, vars: &Vars, role: Role, cmd: &Command) -> Mem<()> {
    line.push_str(role_name(role))?;
    line.push_str(" is missing: ")?;
    push_command(line, vars, cmd)
}

fn push_heard(line: &mut Line, id: u64, bytes: &Bytes) -> Mem<()> {
    line.push_about(id, " writes ")?;
    line.push_bytes(bytes.as_slice())
}

fn push_ended(line: &mut Line, id: u64, status: Status) -> Mem<()> {
    match status {
        Status::Code(code) => {
            line.push_about(id, " ends with ")?;
            line.push_code(code)
        }
        Status::NoCode => line.push_about(id, " ends without a status"),
    }
}

fn push_ran(line: &mut Line, vars: &Vars, role: Role, cmd: &Command, pipes: Pipes) -> Mem<()> {
    line.push_str("runs ")?;
    line.push_str(role_name(role))?;
    push_pipes(line, pipes)?;
    push_command(line, vars, cmd)?;
    line.push_str(" -> ")
}

fn push_removed(line: &mut Line, path: &Text, how: Removal) -> Mem<()> {
    line.push_named("removes ", path.as_str())?;
    line.push_str(" -> ")?;
    line.push_str(removal_name(how))
}

fn push_kind(line: &mut Line, kind: LineKind) -> Mem<()> {
    match kind {
        LineKind::Link => line.push_str("link"),
        LineKind::Rerun => line.push_str("rerun"),
        LineKind::Warning => line.push_str("warning"),
        LineKind::Stderr { id } => line.push_number("line of ", id),
        LineKind::Debug => line.push_str("debug"),
        LineKind::Fault => line.push_str("fault"),
        LineKind::Expanded => line.push_str("expanded"),
        LineKind::Shown => line.push_str("shown"),
    }
}

fn push_copied(line: &mut Line, from: &Text, to: &Text) -> Mem<()> {
    line.push_named("copies ", from.as_str())?;
    line.push_named(" to ", to.as_str())
}

// The text of a message, behind what it is.
fn push_said(line: &mut Line, message: &Message) -> Mem<()> {
    match message {
        Message::GeneralWarning(text) => line.push_named("says a warning: ", text.as_str()),
        Message::StderrForwarding(text, _) => line.push_named("says a line: ", text.as_str()),
        Message::CommandFailed(_, text, _) => line.push_named("says a failure: ", text.as_str()),
        Message::Compiles(text, _) => line.push_named("says what compiles: ", text.as_str()),
    }
}

fn push_printed(line: &mut Line, kind: LineKind, bytes: &LineBytes) -> Mem<()> {
    line.push_str("prints ")?;
    push_kind(line, kind)?;
    line.push_str(": ")?;
    line.push_line(bytes.as_slice())
}

fn push_fault(line: &mut Line, call: HostCall, why: Why) -> Mem<()> {
    line.push_str("faults ")?;
    line.push_str(call_name(call))?;
    line.push_str(": ")?;
    line.push_str(why_name(why))
}

// Adds what became of a command or a child.
fn push_course(line: &mut Line, vars: &Vars, event: &Event) -> Mem<()> {
    match event {
        Event::Started {
            id,
            role,
            cmd,
            pipes,
            held,
        } => {
            push_started(line, *id, *role, *held)?;
            push_pipes(line, *pipes)?;
            push_command(line, vars, cmd)
        }
        Event::Ended { id, status } => push_ended(line, *id, *status),
        Event::Abandoned { id } => line.push_about(*id, " is left alone"),
        Event::Heard { id, bytes } => push_heard(line, *id, bytes),
        Event::Unread { id } => line.push_about(*id, " can't be read"),
        Event::Turn { count } => line.push_number("turns ", *count),
        Event::Missing { role, cmd } => push_missing(line, vars, *role, cmd),
        Event::Ran {
            role,
            cmd,
            pipes,
            status,
            out,
            err,
        } => {
            push_ran(line, vars, *role, cmd, *pipes)?;
            push_end(line, *status, out.get(), err.get())
        }
        _ => Ok(()),
    }
}

// Adds what a question left.
fn push_asking(line: &mut Line, vars: &Vars, event: &Event) -> Mem<()> {
    match event {
        Event::Answered {
            question,
            files,
            outcome,
        } => push_answered(line, vars, question.get(), files.get(), outcome.get()),
        Event::Reused { question, verdict } => push_reused(line, question.get(), verdict),
        Event::Unasked { question } => push_question(line, "leaves ", question.get()),
        Event::Drawn { word } => line.push_number("draws ", *word),
        Event::Opened { path, bytes } => push_opened(line, path, bytes),
        Event::Taken { path } => line.push_named("finds ", path.as_str()),
        Event::Dropped { path } => line.push_named("drops ", path.as_str()),
        _ => Ok(()),
    }
}

fn push_event(line: &mut Line, vars: &Vars, event: &Event) -> Mem<()> {
    match event {
        Event::Made { scope, path } => push_made(line, *scope, path),
        Event::Removed { path, how } => push_removed(line, path, *how),
        Event::Wrote { path, bytes } => push_wrote(line, path, bytes),
        Event::Copied { from, to } => push_copied(line, from, to),
        Event::Here { path } => line.push_named("is in ", path.as_str()),
        Event::Printed { kind, bytes } => push_printed(line, *kind, bytes),
        Event::Said { message } => push_said(line, message.get()),
        Event::Listed { vars } => push_listed(line, vars),
        Event::Fault { call, why } => push_fault(line, *call, *why),
        Event::Started { .. }
        | Event::Ended { .. }
        | Event::Abandoned { .. }
        | Event::Heard { .. }
        | Event::Unread { .. }
        | Event::Turn { .. }
        | Event::Missing { .. }
        | Event::Ran { .. } => push_course(line, vars, event),
        Event::Answered { .. }
        | Event::Reused { .. }
        | Event::Unasked { .. }
        | Event::Drawn { .. }
        | Event::Opened { .. }
        | Event::Taken { .. }
        | Event::Dropped { .. } => push_asking(line, vars, event),
    }
}

// The line of an event.
fn event_line(alloc: Global, vars: &Vars, event: &Event) -> Mem<String> {
    let mut line = Line::new(alloc);
    push_event(&mut line, vars, event)?;
    Ok(line.into_string())
}

/// The lines of the log of a host with these variables, one an event.
pub fn log_lines(alloc: Global, vars: &Vars, log: &[Event]) -> Mem<Vec<String>> {
    let mut lines = Vec::new(alloc);
    for event in log {
        lines.push(event_line(alloc, vars, event)?)?;
    }
    Ok(lines)
}
