// Commands, and what questions come to.
ghost use Rattle.std.specs.Prelude.{◌≡◌, IfOk};

use crate::CallError;
use crate::answer::{Answer, one, push, push_words, strs};
use crate::given::Read;
use cc_host::{Ask, Command, CompileCommand, Marks, Outcome, Question, Status, Verdict};
use cc_text::{Bytes, Mem, Text, Vars, Words};
use std::alloc::Global;

fn add_args(cmd: &mut Command, words: &[String]) -> Mem<()> {
    for word in words {
        cmd.arg(word.as_str())?;
    }
    Ok(())
}

/// A command of a program and its words.
pub fn command(alloc: Global, program: &str, words: &[String]) -> Mem<Command> {
    let mut cmd = Command::new(alloc, program)?;
    add_args(&mut cmd, words)?;
    Ok(cmd)
}

// A program and its words.
fn command_line(alloc: Global, given: &[String]) -> Answer {
    let [program, words @ ..] = given else {
        return Err(CallError::Given);
    };
    let cmd = command(alloc, program.as_str(), words)?;
    one(alloc, cc_host::command_line(alloc, &cmd)?.as_str())
}

/// A compile command of a folder, a source, an object, a program and its words.
pub fn compile_command_of(alloc: Global, given: &[String]) -> Read<CompileCommand> {
    let [directory, src, dst, program, words @ ..] = given else {
        return Err(CallError::Given);
    };
    let cmd = command(alloc, program.as_str(), words)?;
    let (src, dst, directory) = (src.as_str(), dst.as_str(), directory.as_str());
    Ok(CompileCommand::new(alloc, &cmd, src, dst, directory)?)
}

// Adds the folder, the source, the object and the arguments of a compile command last.
fn push_compile_command(texts: &mut Vec<String>, cmd: &CompileCommand) -> Mem<()> {
    push(texts, cmd.directory())?;
    push(texts, cmd.file())?;
    push(texts, cmd.output())?;
    push_words(texts, cmd.arguments())
}

fn texts_of(alloc: Global, cmd: &CompileCommand) -> Answer {
    let mut texts = Vec::new(alloc);
    push_compile_command(&mut texts, cmd)?;
    Ok(texts)
}

// A folder, a source, an object, a program and its words; the folder, the source, the object and the arguments.
fn compile_command(alloc: Global, given: &[String]) -> Answer {
    let cmd = compile_command_of(alloc, given)?;
    texts_of(alloc, &cmd)
}

// The same, of a second compile command.
fn compile_command_clone(alloc: Global, given: &[String]) -> Answer {
    let cmd = compile_command_of(alloc, given)?.try_clone()?;
    texts_of(alloc, &cmd)
}

fn ask_of(word: &str) -> Read<Ask> {
    match word {
        "preprocess" => Ok(Ask::Preprocess),
        "preprocess with dashes" => Ok(Ask::PreprocessDashes),
        "help" => Ok(Ask::HelpFlag),
        "version" => Ok(Ask::Version),
        "search folders" => Ok(Ask::SearchDirs),
        "tool version" => Ok(Ask::ToolVersion),
        "starts" => Ok(Ask::Starts),
        _ => Err(CallError::Given),
    }
}

/// What is asked of a program with these words, in no environment.
pub fn question(alloc: Global, ask: Ask, program: &str, words: Words) -> Mem<Question>
    ensures { IfOk result (λ q. q.ask ≡ ask) }
{
    Ok(Question {
        ask,
        program: Text::of(alloc, program)?,
        words,
        vars: Vars::new(alloc),
    })
}

/// How a command ended: with a code, or with `none`.
pub fn status_of(code: &str) -> Read<Status> {
    if code == "none" {
        return Ok(Status::NoCode);
    }
    match code.parse::<i32>() {
        Ok(code) => Ok(Status::Code(code)),
        Err(_) => Err(CallError::Given),
    }
}

fn outcome(alloc: Global, code: &str, out: &str, err: &str) -> Read<Outcome> {
    let status = status_of(code)?;
    let out = Bytes::of(alloc, out.as_bytes())?;
    Ok(Outcome::Done {
        status,
        out,
        err: Bytes::of(alloc, err.as_bytes())?,
    })
}

fn push_mark(texts: &mut Vec<String>, holds: bool, mark: &str) -> Mem<()> {
    if holds { push(texts, mark) } else { Ok(()) }
}

fn push_marks(texts: &mut Vec<String>, marks: Marks) -> Mem<()> {
    push(texts, "marks")?;
    push_mark(texts, marks.slash_u, "slash-u")?;
    push_mark(texts, marks.clang, "clang")?;
    push_mark(texts, marks.gcc, "gcc")?;
    push_mark(texts, marks.emscripten, "emscripten")?;
    push_mark(texts, marks.vxworks, "vxworks")
}

fn marks_told(alloc: Global, marks: Marks) -> Answer {
    let mut texts = Vec::new(alloc);
    push_marks(&mut texts, marks)?;
    Ok(texts)
}

fn verdict_told(alloc: Global, verdict: &Verdict) -> Answer {
    match verdict {
        Verdict::Unanswered => one(alloc, "unanswered"),
        Verdict::Missing => one(alloc, "missing"),
        Verdict::No => one(alloc, "no"),
        Verdict::Yes => one(alloc, "yes"),
        Verdict::Marks(marks) => marks_told(alloc, *marks),
        Verdict::Dirs(dirs) => strs(alloc, &["dirs", dirs.as_str()]),
    }
}

fn answer_to(alloc: Global, question: &Question, outcome: &Outcome) -> Answer {
    let verdict = cc_host::verdict(alloc, question, outcome)?;
    verdict_told(alloc, &verdict)
}

fn verdict_of(alloc: Global, ask: Ask, outcome: &Outcome) -> Answer {
    let question = question(alloc, ask, "cc", Words::new(alloc))?;
    answer_to(alloc, &question, outcome)
}

// What is asked, the code or `none`, the standard output and the standard error; `no`, `yes`, `marks` and each that
// holds, or `dirs` and the folders.
fn verdict(alloc: Global, given: &[String]) -> Answer {
    let [ask, code, out, err] = given else {
        return Err(CallError::Given);
    };
    let ask = ask_of(ask.as_str())?;
    let outcome = outcome(alloc, code.as_str(), out.as_str(), err.as_str())?;
    verdict_of(alloc, ask, &outcome)
}

pub fn call(alloc: Global, name: &str, given: &[String]) -> Option<Answer> {
    match name {
        "command_line" => Some(command_line(alloc, given)),
        "compile_command" => Some(compile_command(alloc, given)),
        "compile_command_clone" => Some(compile_command_clone(alloc, given)),
        "verdict" => Some(verdict(alloc, given)),
        _ => None,
    }
}
