// Commands and questions in a line.
ghost use Rattle.std.specs.Prelude.{◌≢◌};
ghost use Rattle.cc_host.specs.declared.question.Ask.TheVariants.{Exists as AsksExists};

use crate::line::Line;
use crate::names::ask_name;
use cc_host::{
    Ask, Command, Marks, Outcome, OutputKind, Pipes, ProbeFiles, Question, Status, Verdict,
    probe_command,
};
use cc_text::{Bytes, Mem, Vars};

fn has_name(vars: &Vars, name: &str) -> bool {
    vars.as_slice().iter().any(|var| var.0.as_str() == name)
}

fn has_pair(vars: &Vars, name: &str, value: &str) -> bool {
    vars.as_slice()
        .iter()
        .any(|var| var.0.as_str() == name && var.1.as_str() == value)
}

fn push_folder(line: &mut Line, cmd: &Command) -> Mem<()> {
    match cmd.get_current_dir() {
        Some(dir) => {
            line.push_named("cd ", dir)?;
            line.push_str(" && ")
        }
        None => Ok(()),
    }
}

// Adds that a variable of the host isn't set, where the command lacks it.
fn push_lacking(line: &mut Line, envs: &Vars, name: &str) -> Mem<()> {
    if has_name(envs, name) {
        return Ok(());
    }
    line.push_named("unset ", name)?;
    line.push_str(" && ")
}

fn push_unset(line: &mut Line, vars: &Vars, cmd: &Command) -> Mem<()> {
    for var in vars.as_slice() {
        push_lacking(line, cmd.get_envs(), var.0.as_str())?;
    }
    Ok(())
}

// Adds a variable of the command, where it doesn't have it from the host.
fn push_own(line: &mut Line, vars: &Vars, name: &str, value: &str) -> Mem<()> {
    if has_pair(vars, name, value) {
        return Ok(());
    }
    line.push_str(name)?;
    line.push_named("=", value)?;
    line.push_str(" ")
}

fn push_set(line: &mut Line, vars: &Vars, cmd: &Command) -> Mem<()> {
    for var in cmd.get_envs().as_slice() {
        push_own(line, vars, var.0.as_str(), var.1.as_str())?;
    }
    Ok(())
}

/// Adds a command as one would type it where these variables are set.
pub fn push_command(line: &mut Line, vars: &Vars, cmd: &Command) -> Mem<()> {
    push_folder(line, cmd)?;
    push_unset(line, vars, cmd)?;
    push_set(line, vars, cmd)?;
    line.push_word(cmd.get_program())?;
    line.push_words(cmd.get_args())
}

/// Adds what becomes of the outputs of a command, where it isn't the usual.
pub fn push_pipes(line: &mut Line, pipes: Pipes) -> Mem<()> {
    line.push_str(match pipes.out {
        OutputKind::Forward => "",
        OutputKind::Discard => ", output discarded",
        OutputKind::Capture => ", output captured",
    })?;
    line.push_str(if pipes.hear {
        ": "
    } else {
        ", errors unheard: "
    })
}

// Adds what stood on one of the outputs, where that is anything.
fn push_output(line: &mut Line, front: &str, bytes: &Bytes) -> Mem<()> {
    if bytes.as_slice().is_empty() {
        return Ok(());
    }
    line.push_str(front)?;
    line.push_bytes(bytes.as_slice())
}

fn push_status(line: &mut Line, status: Status) -> Mem<()> {
    match status {
        Status::Code(code) => line.push_code(code),
        Status::NoCode => line.push_str("no status"),
    }
}

/// Adds how a command ended, and what it wrote.
pub fn push_end(line: &mut Line, status: Status, out: &Bytes, err: &Bytes) -> Mem<()> {
    push_status(line, status)?;
    push_output(line, " out ", out)?;
    push_output(line, " err ", err)
}

/// Adds what came of a question.
pub fn push_outcome(line: &mut Line, outcome: &Outcome) -> Mem<()> {
    line.push_str(" -> ")?;
    match outcome {
        Outcome::Unanswered => line.push_str("unanswered"),
        Outcome::Missing => line.push_str("missing"),
        Outcome::Exists(true) => line.push_str("there"),
        Outcome::Exists(false) => line.push_str("not there"),
        Outcome::Done { status, out, err } => push_end(line, *status, out, err),
    }
}

// Adds what is asked.
fn push_ask(line: &mut Line, front: &str, ask: Ask) -> Mem<()> {
    line.push_str(front)?;
    line.push_str(ask_name(ask))?;
    line.push_str(": ")
}

/// Adds a question with the program and the words of its own.
pub fn push_question(line: &mut Line, front: &str, question: &Question) -> Mem<()> {
    push_ask(line, front, question.ask)?;
    line.push_word(question.program.as_str())?;
    line.push_words(&question.words)
}

/// Adds a question with its command.
pub fn push_probe(line: &mut Line, vars: &Vars, question: &Question, files: &ProbeFiles) -> Mem<()>
    requires { question.now.ask ≢ AsksExists }
{
    push_ask(line, "asks ", question.ask)?;
    let cmd = probe_command(line.allocator(), question, files)?;
    push_command(line, vars, &cmd)
}

fn push_mark(line: &mut Line, holds: bool, name: &str) -> Mem<()> {
    if holds { line.push_str(name) } else { Ok(()) }
}

fn push_marks(line: &mut Line, marks: Marks) -> Mem<()> {
    line.push_str("marks")?;
    push_mark(line, marks.slash_u, " slash-u")?;
    push_mark(line, marks.clang, " clang")?;
    push_mark(line, marks.gcc, " gcc")?;
    push_mark(line, marks.emscripten, " emscripten")?;
    push_mark(line, marks.vxworks, " vxworks")
}

/// Adds what is known of a question.
pub fn push_verdict(line: &mut Line, verdict: &Verdict) -> Mem<()> {
    line.push_str(" -> ")?;
    match verdict {
        Verdict::Unanswered => line.push_str("unanswered"),
        Verdict::Missing => line.push_str("missing"),
        Verdict::No => line.push_str("no"),
        Verdict::Yes => line.push_str("yes"),
        Verdict::Marks(marks) => push_marks(line, *marks),
        Verdict::Dirs(dirs) => {
            line.push_str("dirs ")?;
            line.push_shown(dirs.as_str())
        }
    }
}
