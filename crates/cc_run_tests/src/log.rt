// A log as text: of each event its kind and what it is about, a line an event. In which order probe files are dropped, no one promises.
use cc_host::{Ask, Event, Host, Message, Outcome, Question, Removal, World};
use cc_text::{Mem, Text};
use std::alloc::Global;

fn kind_of(event: &Event) -> &'static str {
    match event {
        Event::Started { .. } => "starts ",
        Event::Ended { .. } => "ends",
        Event::Abandoned { .. } => "leaves alone",
        Event::Heard { .. } => "hears",
        Event::Unread { .. } => "fails to hear",
        Event::Turn { .. } => "turns",
        Event::Answered { outcome, .. } => match outcome.get() {
            Outcome::Exists(true) => "sees ",
            Outcome::Exists(false) => "doesn't see ",
            _ => "asks ",
        },
        Event::Reused { .. } => "knows ",
        Event::Unasked { .. } => "doesn't ask ",
        Event::Drawn { .. } => "draws",
        Event::Opened { .. } => "opens ",
        Event::Taken { .. } => "finds ",
        Event::Dropped { .. } => "drops",
        Event::Ran { .. } => "runs ",
        Event::Missing { .. } => "misses ",
        Event::Made { .. } => "makes ",
        Event::Removed {
            how: Removal::Gone,
            ..
        } => "removes ",
        Event::Removed {
            how: Removal::Absent,
            ..
        } => "removes nothing at ",
        Event::Wrote { .. } => "writes ",
        Event::Copied { .. } => "copies to ",
        Event::Here { .. } => "is in ",
        Event::Printed { .. } => "prints ",
        Event::Said { .. } => "says ",
        Event::Listed { .. } => "lists",
        Event::Fault { .. } => "faults",
    }
}

fn asked(question: &Question) -> &str {
    match question.ask {
        Ask::Preprocess => "macros",
        Ask::PreprocessDashes => "macros with dashes",
        Ask::HelpFlag => "help",
        Ask::Version => "version",
        Ask::Flag { .. } => "flag",
        Ask::Libcxx => "library",
        Ask::SearchDirs => "search folders",
        Ask::ToolVersion => "tool version",
        Ask::Starts => "start",
        Ask::Exists => question.program.as_str(),
    }
}

fn said(message: &Message) -> &str {
    match message {
        Message::GeneralWarning(text) => text.as_str(),
        Message::StderrForwarding(text, _) => text.as_str(),
        Message::CommandFailed(_, text, _) => text.as_str(),
        Message::Compiles(text, _) => text.as_str(),
    }
}

fn subject_of(event: &Event) -> &str {
    match event {
        Event::Started { cmd, .. } => cmd.get_program(),
        Event::Ran { cmd, .. } => cmd.get_program(),
        Event::Missing { cmd, .. } => cmd.get_program(),
        Event::Answered { question, .. } => asked(question.get()),
        Event::Reused { question, .. } => asked(question.get()),
        Event::Unasked { question } => asked(question.get()),
        Event::Opened { path, .. } => path.as_str(),
        Event::Taken { path } => path.as_str(),
        Event::Made { path, .. } => path.as_str(),
        Event::Removed { path, .. } => path.as_str(),
        Event::Wrote { path, .. } => path.as_str(),
        Event::Copied { to, .. } => to.as_str(),
        Event::Here { path } => path.as_str(),
        Event::Printed { bytes, .. } => str::from_utf8(bytes.as_slice()).unwrap_or("?").trim_end(),
        Event::Said { message } => said(message.get()),
        _ => "",
    }
}

fn push_event(text: &mut Text, event: &Event) -> Mem<()> {
    text.push_str(kind_of(event))?;
    text.push_str(subject_of(event))?;
    text.push('\n')
}

/// What a host did so far, a line an event.
pub fn log_text<W: World, H: Host<W>>(alloc: Global, host: &H) -> Mem<Text> {
    let mut text = Text::new(alloc);
    for event in host.log() {
        push_event(&mut text, event)?;
    }
    Ok(text)
}
