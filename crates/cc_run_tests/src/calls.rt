// Calls of any host.
ghost use Rattle.std.specs.Prelude.{◌≡◌, ◌≢◌, IfOk};
ghost use Rattle.cc_host.specs.declared.question.Ask.TheVariants.{Exists as AsksExists};

use crate::same::same;
use cc_host::{
    Ask, Command, Created, Host, HostError, News, OutputKind, Pipes, ProbeFiles, Question, Ran,
    Removal, Role, Scope, Start, Verdict, World, into_verdict,
};
use cc_text::{Mem, Text, Vars, Words};
use std::alloc::{AllocGlobal, Global};
use std::process::Abort;

pub(crate) const KEPT: Pipes = Pipes {
    out: OutputKind::Capture,
    hear: true,
};

pub(crate) fn start<W: World, H: Host<W>>(host: &mut H, cmd: &Command) -> Result<Start, HostError> {
    host.start(Role::Compile, cmd, KEPT, 1)
}

// Starts a child and leaves it alone. Its number, or none where the program is missing.
pub(crate) fn leave_alone<W: World, H: Host<W>>(
    host: &mut H,
    cmd: &Command,
) -> Result<Option<u64>, HostError> {
    match host.start(Role::Compile, cmd, KEPT, 1)? {
        Start::Child(id) => {
            host.abandon(id);
            Ok(Some(id))
        }
        Start::Missing => Ok(None),
    }
}

pub(crate) fn turn<W: World, H: Host<W>>(host: &mut H) -> Result<Vec<News>, HostError> {
    host.turn(0)
}

pub(crate) fn output<W: World, H: Host<W>>(
    host: &mut H,
    cmd: &Command,
    pipes: Pipes,
) -> Result<Ran, HostError> {
    host.output(Role::Expand, cmd, pipes)
}

fn text_of(alloc: Global, ran: &Ran) -> Mem<String> {
    match ran {
        Ran::Missing => Ok(String::from_str(alloc, "missing")?),
        Ran::Done { status, out, err } => {
            let out = str::from_utf8(out.as_slice()).unwrap_or("?");
            let err = str::from_utf8(err.as_slice()).unwrap_or("?");
            Ok(format!(in alloc; "{status:?} {out}|{err}")?)
        }
    }
}

fn line_of<W: World, H: Host<W>>(
    alloc: Global,
    host: &mut H,
    cmd: &Command,
    pipes: Pipes,
) -> Mem<String> {
    match output(host, cmd, pipes) {
        Ok(ran) => text_of(alloc, &ran),
        Err(_) => Ok(String::from_str(alloc, "fault")?),
    }
}

// How a command ends, and what is kept of its outputs, with a bar between them.
pub(crate) fn check_output<W: World, H: Host<W>>(
    rt: &(impl AllocGlobal + Abort),
    host: &mut H,
    cmd: &Command,
    pipes: Pipes,
    want: &str,
) {
    let text = line_of(rt.alloc(), host, cmd, pipes).expect(rt, "memory");
    same(rt, text.as_str(), want);
}

pub(crate) fn make_dir<W: World, H: Host<W>>(
    host: &mut H,
    scope: Scope,
    path: &str,
) -> Result<(), HostError> {
    host.make_dir(scope, path)
}

pub(crate) fn remove<W: World, H: Host<W>>(host: &mut H, path: &str) -> Result<Removal, HostError> {
    host.remove_file(path)
}

pub(crate) fn write<W: World, H: Host<W>>(
    host: &mut H,
    path: &str,
    contents: &[u8],
) -> Result<(), HostError> {
    host.write_file(path, contents)
}

pub(crate) fn copy<W: World, H: Host<W>>(
    host: &mut H,
    from: &str,
    to: &str,
) -> Result<(), HostError> {
    host.copy_file(from, to)
}

pub(crate) fn create<W: World, H: Host<W>>(
    host: &mut H,
    path: &str,
    contents: &[u8],
) -> Result<Created, HostError> {
    host.create_probe(path, contents)
}

pub(crate) fn stands<W: World, H: Host<W>>(host: &mut H, path: &str) -> Mem<bool> {
    host.exists(path)
}

// Makes a probe file, makes it again before it is dropped, and drops it. What came of the second, or none where a file stood there.
pub(crate) fn make_twice<W: World, H: Host<W>>(
    host: &mut H,
    path: &str,
) -> Result<Option<Created>, HostError> {
    let _tidy = host.log();
    match host.create_probe(path, b"int x;\n")? {
        Created::New => {
            let again = host.create_probe(path, b"int y;\n");
            host.drop_probe(path);
            Ok(Some(again?))
        }
        Created::Exists => Ok(None),
    }
}

fn search_path(alloc: Global) -> Mem<Vars> {
    let mut vars = Vars::new(alloc);
    vars.push("PATH", "/usr/bin:/bin")?;
    Ok(vars)
}

fn question(alloc: Global, ask: Ask, program: &str) -> Mem<Question>
    ensures { IfOk result (λ q. q.ask ≡ ask) }
{
    Ok(Question {
        ask,
        program: Text::of(alloc, program)?,
        words: Words::new(alloc),
        vars: search_path(alloc)?,
    })
}

fn no_files(alloc: Global) -> ProbeFiles {
    ProbeFiles {
        dir: Text::new(alloc),
        source: Text::new(alloc),
        object: Text::new(alloc),
    }
}

fn verdict_of<W: World, H: Host<W>>(host: &mut H, q: &Question, files: &ProbeFiles) -> Mem<Verdict>
    requires { q.now.ask ≢ AsksExists }
{
    let outcome = host.probe(q, files)?;
    Ok(into_verdict(q, outcome))
}

// What a program answers, asked without words and files.
fn verdict_on<W: World, H: Host<W>>(
    alloc: Global,
    host: &mut H,
    ask: Ask,
    program: &str,
) -> Mem<Verdict>
    requires { ask ≢ AsksExists }
{
    let q = question(alloc, ask, program)?;
    verdict_of(host, &q, &no_files(alloc))
}

fn verdict_text<W: World, H: Host<W>>(
    alloc: Global,
    host: &mut H,
    ask: Ask,
    program: &str,
) -> Mem<String>
    requires { ask ≢ AsksExists }
{
    let verdict = verdict_on(alloc, host, ask, program)?;
    Ok(format!(in alloc; "{verdict:?}")?)
}

pub(crate) fn check_verdict<W: World, H: Host<W>>(
    rt: &(impl AllocGlobal + Abort),
    host: &mut H,
    ask: Ask,
    program: &str,
    want: &str,
)
    requires { ask ≢ AsksExists }
{
    let text = verdict_text(rt.alloc(), host, ask, program).expect(rt, "memory");
    same(rt, text.as_str(), want);
}
