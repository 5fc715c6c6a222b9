// Tools, what is kept of answers, probe files and lines that were given.
use crate::CallError;
use crate::answer::{Answer, none, one, push, push_number, push_pair, truth_word};
use crate::given::{Read, family, number, step};
use crate::host::question;
use cc_env::EnvSnapshot;
use cc_host::{Ask, Bench, BenchHost, HostError, Question, Verdict, command_line};
use cc_text::{Mem, Text, ascii_words, key_and_value, lookup};
use cc_tool::{Emitted, Known, NamedTempfile, Places, Tool, question_digest};
use std::alloc::Global;

fn push_env(tool: &mut Tool, pair: &str) -> Read<()> {
    match key_and_value(pair) {
        Some((name, value)) => Ok(tool.push_env(name, value)?),
        None => Err(CallError::Given),
    }
}

fn change(tool: &mut Tool, verb: &str, rest: &str) -> Read<()> {
    match verb {
        "wrapper" => Ok(tool.set_wrapper(rest)?),
        "wrapper_arg" => Ok(tool.push_wrapper_arg(rest)?),
        "arg" => Ok(tool.push_arg(rest)?),
        "remove_arg" => Ok(tool.remove_arg(rest)?),
        "env" => push_env(tool, rest),
        "clone" => {
            *tool = tool.try_clone()?;
            Ok(())
        }
        _ => Err(CallError::Given),
    }
}

fn push_line(texts: &mut Vec<String>, tool: &Tool) -> Mem<()> {
    let alloc = *texts.allocator();
    let cmd = tool.to_command()?;
    push(texts, command_line(alloc, &cmd)?.as_str())
}

// The value that a variable has for the commands of a tool without an environment.
fn push_value(texts: &mut Vec<String>, tool: &Tool, name: &str) -> Mem<()> {
    let alloc = *texts.allocator();
    let child = EnvSnapshot::empty(alloc).child_vars(alloc, tool.env())?;
    match lookup(&child, name) {
        Some(value) => push(texts, value.as_str()),
        None => push(texts, "none"),
    }
}

fn push_envs(texts: &mut Vec<String>, tool: &Tool) -> Mem<()> {
    for (name, value) in tool.get_envs() {
        push_pair(texts, name.as_str(), value.as_str())?;
    }
    Ok(())
}

fn push_envs_back(texts: &mut Vec<String>, tool: &Tool) -> Mem<()> {
    for (name, value) in tool.get_envs().rev() {
        push_pair(texts, name.as_str(), value.as_str())?;
    }
    Ok(())
}

fn tool_step(tool: &mut Tool, texts: &mut Vec<String>, word: &str) -> Read<()> {
    let (verb, rest) = step(word);
    match verb {
        "command" => push_line(texts, tool)?,
        "cc_env" => push(texts, tool.cc_env()?.as_str())?,
        "cflags_env" => push(texts, tool.cflags_env()?.as_str())?,
        "value" => push_value(texts, tool, rest)?,
        "envs" => push_envs(texts, tool)?,
        "envs_back" => push_envs_back(texts, tool)?,
        "count" => push_number(texts, tool.get_envs().len() as u64)?,
        _ => change(tool, verb, rest)?,
    }
    Ok(())
}

fn new_tool(alloc: Global, path: &str, word: &str) -> Read<Tool> {
    let empty = EnvSnapshot::empty(alloc);
    Ok(Tool::with_family(alloc, path, family(word)?, empty)?)
}

// A path, a family, and steps: `wrapper WORD`; `wrapper_arg WORD`; `arg WORD`; `remove_arg WORD`; `env NAME=value`; `clone`,
// which goes on with a second tool; and these, which answer: `command`, the command line; `cc_env`; `cflags_env`; `value
// NAME`, for its commands; `envs`, the variables; `envs_back`, from the back; `count`, of them.
fn tool(alloc: Global, given: &[String]) -> Answer {
    let [path, word, steps @ ..] = given else {
        return Err(CallError::Given);
    };
    let mut tool = new_tool(alloc, path.as_str(), word.as_str())?;
    let mut texts = Vec::new(alloc);
    for step in steps {
        tool_step(&mut tool, &mut texts, step.as_str())?;
    }
    Ok(texts)
}

fn push_found(texts: &mut Vec<String>, verdict: Option<&Verdict>) -> Mem<()> {
    match verdict {
        Some(verdict) => push(texts, truth_word(matches!(verdict, Verdict::Yes))),
        None => push(texts, "none"),
    }
}

fn push_each(texts: &mut Vec<String>, places: &Places) -> Mem<()> {
    for nth in 0..usize::MAX {
        match places.get(nth) {
            Some(place) => push_number(texts, place)?,
            None => return Ok(()),
        }
    }
    Ok(())
}

fn push_places(texts: &mut Vec<String>, places: Option<&Places>) -> Mem<()> {
    match places {
        Some(places) => push_each(texts, places),
        None => push(texts, "none"),
    }
}

fn push_known(
    known: &Known<Bench>,
    texts: &mut Vec<String>,
    verb: &str,
    question: &Question,
) -> Read<()> {
    match verb {
        "find" => push_found(texts, known.find_on(question))?,
        "digest" => push_number(texts, question_digest(question))?,
        "places" => push_places(texts, known.bucket_on(question_digest(question)))?,
        _ => return Err(CallError::Given),
    }
    Ok(())
}

fn known_step(known: &mut Known<Bench>, texts: &mut Vec<String>, word: &str) -> Read<()> {
    let alloc = *texts.allocator();
    let (verb, rest) = step(word);
    let (program, words) = step(rest);
    let question = question(alloc, Ask::Version, program, ascii_words(alloc, words)?)?;
    match verb {
        "keep" => Ok(known.keep_on(&question, &Verdict::Yes)?),
        _ => push_known(known, texts, verb, &question),
    }
}

// Steps, each of the question of a program's version with these words: `keep PROGRAM WORD..`, with the verdict yes, and these,
// which answer: `find PROGRAM WORD..`, `true` for yes, or `none`; `digest PROGRAM WORD..`, in decimal; `places PROGRAM WORD..`,
// of all that are kept with its digest, or `none`.
fn known(alloc: Global, given: &[String]) -> Answer {
    let mut known: Known<Bench> = Known::new(alloc);
    let mut texts = Vec::new(alloc);
    for word in given {
        known_step(&mut known, &mut texts, word.as_str())?;
    }
    Ok(texts)
}

fn numbers(alloc: Global, text: &str) -> Read<Vec<u64>> {
    let mut numbers = Vec::new(alloc);
    for word in text.split_ascii_whitespace() {
        numbers.push(number(word)?)?;
    }
    Ok(numbers)
}

fn put_files(host: &mut BenchHost, files: &[String]) -> Mem<()> {
    for file in files {
        host.file(file.as_str())?;
    }
    Ok(())
}

// A host that draws these words, on which these files stand.
fn drawing_host(alloc: Global, words: &str, files: &[String]) -> Read<BenchHost> {
    let words = numbers(alloc, words)?;
    let mut host = BenchHost::new(alloc)?;
    host.set_random(words);
    put_files(&mut host, files)?;
    Ok(host)
}

// The path of a probe file, which is then dropped.
fn probed(
    alloc: Global,
    host: &mut BenchHost,
    dir: &str,
    suffix: &str,
) -> Result<Option<Text>, HostError> {
    match NamedTempfile::create(alloc, host, dir, suffix, b"")? {
        Some(file) => {
            let path = Text::of(alloc, file.path());
            file.drop_on(host);
            Ok(Some(path?))
        }
        None => Ok(None),
    }
}

fn probed_path(alloc: Global, host: &mut BenchHost, dir: &str, suffix: &str) -> Answer {
    match probed(alloc, host, dir, suffix) {
        Ok(Some(path)) => one(alloc, path.as_str()),
        Ok(None) => none(alloc),
        Err(_) => Err(CallError::NoMemory),
    }
}

// A folder, a suffix, the words that the host draws before zeros, and the files that stand; the path, where a name is free.
fn named_tempfile(alloc: Global, given: &[String]) -> Answer {
    let [dir, suffix, words, files @ ..] = given else {
        return Err(CallError::Given);
    };
    let mut host = drawing_host(alloc, words.as_str(), files)?;
    probed_path(alloc, &mut host, dir.as_str(), suffix.as_str())
}

fn push_texts(texts: &mut Vec<String>, kept: &[Text]) -> Mem<()> {
    for text in kept {
        push(texts, text.as_str())?;
    }
    Ok(())
}

// Texts, which are pushed in turn; whether each was new, and then the texts that are kept.
fn push_if_new(alloc: Global, given: &[String]) -> Answer {
    let mut emitted = Emitted::new(alloc);
    let mut texts = Vec::new(alloc);
    for text in given {
        let is_new = emitted.push_if_new(text.as_str())?;
        push(&mut texts, truth_word(is_new))?;
    }
    push_texts(&mut texts, emitted.texts())?;
    Ok(texts)
}

pub fn call(alloc: Global, name: &str, given: &[String]) -> Option<Answer> {
    match name {
        "tool" => Some(tool(alloc, given)),
        "known" => Some(known(alloc, given)),
        "named_tempfile" => Some(named_tempfile(alloc, given)),
        "push_if_new" => Some(push_if_new(alloc, given)),
        _ => None,
    }
}
