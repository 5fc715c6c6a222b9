// Lines of a standard error, and commands that are run to their ends in one call of a host in memory.
use crate::CallError;
use crate::answer::{Answer, push, push_number};
use crate::given::{Read, step, two_texts};
use crate::host::status_of;
use cc_host::{BenchHost, Command, Event, Host, LineKind, OutputKind, Role, Script, Status};
use cc_run::{Forwarder, Planned, RunError, Shows};
use cc_text::{Bytes, Mem, ascii_words, contains};
use std::alloc::Global;

// The bytes as a text.
fn text_of(bytes: &[u8]) -> Read<&str> {
    match str::from_utf8(bytes) {
        Ok(text) => Ok(text),
        Err(_) => Err(CallError::Given),
    }
}

// Adds bytes last, behind a word.
fn push_bytes(texts: &mut Vec<String>, word: &str, bytes: &[u8]) -> Read<()> {
    let alloc = *texts.allocator();
    let text = text_of(bytes)?;
    texts.push(format!(in alloc; "{word} {text}")?)?;
    Ok(())
}

fn push_lines(texts: &mut Vec<String>, lines: &[Bytes]) -> Read<()> {
    for line in lines {
        push_bytes(texts, "line", line.as_slice())?;
    }
    Ok(())
}

// A standard error and the line that is ignored; `line` and each other line.
fn stderr_warnings(alloc: Global, given: &[String]) -> Answer {
    let (stderr, ignored) = two_texts(given)?;
    let lines = cc_run::stderr_warnings(alloc, stderr.as_bytes(), Some(ignored.as_bytes()))?;
    let mut texts = Vec::new(alloc);
    push_lines(&mut texts, &lines)?;
    Ok(texts)
}

fn push_rest(texts: &mut Vec<String>, rest: Option<Bytes>) -> Read<()> {
    match rest {
        Some(rest) => push_bytes(texts, "rest", rest.as_slice()),
        None => Ok(push(texts, "no rest")?),
    }
}

fn forwarder_step(forwarder: &mut Forwarder, texts: &mut Vec<String>, word: &str) -> Read<()> {
    let (verb, rest) = step(word);
    match verb {
        "take" => push_lines(texts, &forwarder.take(rest.as_bytes())?),
        "finish" => push_rest(texts, forwarder.finish()),
        _ => Err(CallError::Given),
    }
}

// Steps: `take PIECE`, which gives `line` and each line, and `finish`, which gives `rest` and the rest, or `no rest`.
fn forwarder(alloc: Global, given: &[String]) -> Answer {
    let mut forwarder = Forwarder::new(alloc);
    let mut texts = Vec::new(alloc);
    for word in given {
        forwarder_step(&mut forwarder, &mut texts, word.as_str())?;
    }
    Ok(texts)
}

fn shows_of(shown: &str) -> Shows {
    Shows {
        warnings: contains(shown, "warnings"),
        debug: contains(shown, "debug"),
        out: OutputKind::Forward,
        listens: contains(shown, "listens"),
        stop: contains(shown, "stop"),
    }
}

fn pieces_of(alloc: Global, given: &[String]) -> Mem<Vec<Bytes>> {
    let mut pieces = Vec::new(alloc);
    for piece in given {
        pieces.push(Bytes::of(alloc, piece.as_str().as_bytes())?)?;
    }
    Ok(pieces)
}

fn script(alloc: Global, status: Status, pieces: &[String]) -> Mem<Script> {
    let pieces = pieces_of(alloc, pieces)?;
    Ok(Script {
        status,
        pieces,
        unread: false,
        turns: 1,
        after: None,
    })
}

fn set_script(
    host: &mut BenchHost,
    alloc: Global,
    program: &str,
    status: Status,
    pieces: &[String],
) -> Mem<()> {
    let script = script(alloc, status, pieces)?;
    host.script(Role::Compile, program, script)
}

fn set_end(
    host: &mut BenchHost,
    alloc: Global,
    program: &str,
    code: &str,
    pieces: &[String],
) -> Read<()> {
    if code == "missing" {
        return Ok(host.missing(program)?);
    }
    let status = status_of(code)?;
    Ok(set_script(host, alloc, program, status, pieces)?)
}

// A host on which the command of a program ends so, or on which the program is missing.
fn scripted_host(alloc: Global, cmd: &str, code: &str, pieces: &[String]) -> Read<BenchHost> {
    let (program, _) = step(cmd);
    let mut host = BenchHost::new(alloc)?;
    set_end(&mut host, alloc, program, code, pieces)?;
    Ok(host)
}

// The command of a text, between blanks.
fn command_in(alloc: Global, text: &str) -> Mem<Command> {
    let (program, words) = step(text);
    let words = ascii_words(alloc, words)?;
    let mut cmd = Command::new(alloc, program)?;
    cmd.args(&words)?;
    Ok(cmd)
}

fn planned(alloc: Global, text: &str) -> Mem<Planned> {
    Ok(Planned {
        role: Role::Compile,
        cmd: command_in(alloc, text)?,
        message: None,
    })
}

fn push_refused(texts: &mut Vec<String>, kind: &str, place: u64) -> Mem<()> {
    push(texts, "refused")?;
    push(texts, kind)?;
    push_number(texts, place)
}

fn push_code(texts: &mut Vec<String>, status: Status) -> Mem<()> {
    let alloc = *texts.allocator();
    match status {
        Status::Code(code) => {
            texts.push(format!(in alloc; "{code}")?)?;
            Ok(())
        }
        Status::NoCode => push(texts, "none"),
    }
}

// `refused`, the kind, the place, and of a failure the code or `none`.
fn push_error(texts: &mut Vec<String>, error: RunError) -> Read<()> {
    match error {
        RunError::Failed(place, status) => {
            push_refused(texts, "Failed", place)?;
            Ok(push_code(texts, status)?)
        }
        RunError::ToolNotFound(place) => Ok(push_refused(texts, "ToolNotFound", place)?),
        RunError::NoMemory => Err(CallError::NoMemory),
        _ => Err(CallError::Given),
    }
}

fn kind_word(kind: LineKind) -> &'static str {
    match kind {
        LineKind::Warning => "prints warning:",
        LineKind::Debug => "prints debug:",
        _ => "prints:",
    }
}

fn without_line_feed(line: &[u8]) -> &[u8] {
    match line {
        [front @ .., b'\n'] => front,
        _ => line,
    }
}

fn push_printed(texts: &mut Vec<String>, events: &[Event]) -> Read<()> {
    for event in events {
        if let Event::Printed { kind, bytes } = event {
            push_bytes(texts, kind_word(*kind), without_line_feed(bytes.as_slice()))?;
        }
    }
    Ok(())
}

fn push_silent(
    texts: &mut Vec<String>,
    host: &mut BenchHost,
    cmd: &Planned,
    shows: &Shows,
) -> Read<()> {
    let alloc = *texts.allocator();
    match cc_run::run_silent(alloc, host, cmd, shows) {
        Ok(()) => push(texts, "ok")?,
        Err(error) => push_error(texts, error)?,
    }
    push_printed(texts, host.log())
}

fn silent(alloc: Global, host: &mut BenchHost, cmd: &Planned, shows: &Shows) -> Answer {
    let mut texts = Vec::new(alloc);
    push_silent(&mut texts, host, cmd, shows)?;
    Ok(texts)
}

fn run_silent_on(alloc: Global, host: &mut BenchHost, shown: &str, cmd: &str) -> Answer {
    let cmd = planned(alloc, cmd)?;
    silent(alloc, host, &cmd, &shows_of(shown))
}

// What is shown, of `warnings` and `debug`; the code, `none` or `missing`; the command between blanks; and the pieces of its
// standard error. `ok`, or why not, and then the lines that were printed.
fn run_silent(alloc: Global, given: &[String]) -> Answer {
    let [shown, code, cmd, pieces @ ..] = given else {
        return Err(CallError::Given);
    };
    let mut host = scripted_host(alloc, cmd.as_str(), code.as_str(), pieces)?;
    run_silent_on(alloc, &mut host, shown.as_str(), cmd.as_str())
}

fn push_output(
    texts: &mut Vec<String>,
    host: &mut BenchHost,
    cmd: &Planned,
    shows: &Shows,
    ignored: &str,
) -> Read<()> {
    let alloc = *texts.allocator();
    match cc_run::run_output(alloc, host, cmd, shows, Some(ignored.as_bytes())) {
        Ok(out) => push_bytes(texts, "out", out.as_slice())?,
        Err(error) => push_error(texts, error)?,
    }
    push_printed(texts, host.log())
}

fn output(
    alloc: Global,
    host: &mut BenchHost,
    cmd: &Planned,
    shows: &Shows,
    ignored: &str,
) -> Answer {
    let mut texts = Vec::new(alloc);
    push_output(&mut texts, host, cmd, shows, ignored)?;
    Ok(texts)
}

fn run_output_on(
    alloc: Global,
    host: &mut BenchHost,
    shown: &str,
    cmd: &str,
    ignored: &str,
) -> Answer {
    let cmd = planned(alloc, cmd)?;
    output(alloc, host, &cmd, &shows_of(shown), ignored)
}

// The same, with the ignored line behind the command. The first piece is the standard output, which is told behind `out`.
fn run_output(alloc: Global, given: &[String]) -> Answer {
    let [shown, code, cmd, ignored, pieces @ ..] = given else {
        return Err(CallError::Given);
    };
    let mut host = scripted_host(alloc, cmd.as_str(), code.as_str(), pieces)?;
    run_output_on(
        alloc,
        &mut host,
        shown.as_str(),
        cmd.as_str(),
        ignored.as_str(),
    )
}

pub fn call(alloc: Global, name: &str, given: &[String]) -> Option<Answer> {
    match name {
        "stderr_warnings" => Some(stderr_warnings(alloc, given)),
        "forwarder" => Some(forwarder(alloc, given)),
        "run_silent" => Some(run_silent(alloc, given)),
        "run_output" => Some(run_output(alloc, given)),
        _ => None,
    }
}
