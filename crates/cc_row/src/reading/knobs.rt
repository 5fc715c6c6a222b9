// How the host of a row differs from one at which all goes well.
use crate::error::Read;
use crate::fields::Fields;
use crate::names::{ask_of, call_of, family_of, role_of};
use crate::row::{
    Answer, Commands, Failure, Given, Knobs, Pool, ReadFile, Reads, ScriptOf, Surroundings,
};
use cc_host::{Ask, HostCall, Role, Status};
use cc_text::{ToolFamily, Vars};
use toml::Value;

fn push_var(vars: &mut Vars, fields: Fields<'_, '_>, value: &Value) -> Read<()> {
    let text = fields.text_of("vars", value)?;
    match text.as_str().split_once('=') {
        Some((name, value)) => Ok(vars.push(name, value)?),
        None => Err(fields.refuse("vars", "wants NAME=VALUE")),
    }
}

fn read_vars(fields: Fields<'_, '_>) -> Read<Vars> {
    let mut vars = Vars::new(fields.alloc);
    for value in fields.values("vars")? {
        push_var(&mut vars, fields, value)?;
    }
    Ok(vars)
}

fn read_drawn(fields: Fields<'_, '_>, value: &Value) -> Read<u64> {
    let text = fields.text_of("random", value)?;
    match text.as_str().parse::<u64>() {
        Ok(word) => Ok(word),
        Err(_) => Err(fields.refuse("random", "wants numbers of 64 bits, as texts")),
    }
}

fn read_random(fields: Fields<'_, '_>) -> Read<Vec<u64>> {
    let mut words = Vec::new(fields.alloc);
    for value in fields.values("random")? {
        words.push(read_drawn(fields, value)?)?;
    }
    Ok(words)
}

fn read_surroundings(fields: Fields<'_, '_>) -> Read<Surroundings> {
    Ok(Surroundings {
        vars: read_vars(fields)?,
        files: fields.texts("files")?,
        random: read_random(fields)?,
        listens: fields.is_on("listens")?,
    })
}

fn read_role(fields: Fields<'_, '_>) -> Read<Role> {
    let word = fields.wanted("role")?;
    match role_of(word.as_str()) {
        Some(role) => Ok(role),
        None => Err(fields.refuse("role", "no such role")),
    }
}

// How a command ends: where no code stands, by a signal.
fn read_end(fields: Fields<'_, '_>) -> Read<Status> {
    let Some(code) = fields.number("code")? else {
        return Ok(Status::NoCode);
    };
    match i32::try_from(code) {
        Ok(code) => Ok(Status::Code(code)),
        Err(_) => Err(fields.refuse("code", "not of 32 bits")),
    }
}

fn read_script(fields: Fields<'_, '_>) -> Read<ScriptOf> {
    fields.only(&["role", "word", "code", "turns", "pieces", "unread", "after"])?;
    Ok(ScriptOf {
        role: read_role(fields)?,
        status: read_end(fields)?,
        turns: fields.count("turns", 1, 1)?,
        unread: fields.is_on("unread")?,
        word: fields.wanted("word")?,
        pieces: fields.texts("pieces")?,
        after: fields.text("after")?,
    })
}

fn read_scripts(fields: Fields<'_, '_>) -> Read<Vec<ScriptOf>> {
    let mut scripts = Vec::new(fields.alloc);
    for value in fields.values("script")? {
        scripts.push(read_script(fields.below("script", value)?)?)?;
    }
    Ok(scripts)
}

fn read_commands(fields: Fields<'_, '_>) -> Read<Commands> {
    Ok(Commands {
        scripts: read_scripts(fields)?,
        missing: fields.texts("missing")?,
    })
}

fn read_family(fields: Fields<'_, '_>) -> Read<ToolFamily> {
    let Some(word) = fields.text("family")? else {
        return Ok(ToolFamily::Gnu);
    };
    match family_of(word.as_str()) {
        Some(family) => Ok(family),
        None => Err(fields.refuse("family", "no such family")),
    }
}

fn read_ask(fields: Fields<'_, '_>) -> Read<Ask> {
    let family = read_family(fields)?;
    let word = fields.wanted("ask")?;
    match ask_of(word.as_str(), family) {
        Some(ask) => Ok(ask),
        None => Err(fields.refuse("ask", "no such question")),
    }
}

fn is_flag(ask: Ask) -> bool {
    matches!(ask, Ask::Flag { .. })
}

fn read_done(fields: Fields<'_, '_>) -> Read<Given> {
    Ok(Given::Done {
        status: read_end(fields)?,
        out: fields.text_or_empty("out")?,
        err: fields.text_or_empty("err")?,
    })
}

fn read_given(fields: Fields<'_, '_>) -> Read<Given> {
    let is_missing = fields.is_on("missing")?;
    let exists = fields.switch("exists")?;
    if (is_missing || exists.is_some()) && fields.has(&["code", "out", "err"]) {
        return Err(fields.refuse("code", "stands beside missing or exists"));
    }
    match exists {
        None if is_missing => Ok(Given::Missing),
        None => read_done(fields),
        Some(_) if is_missing => Err(fields.refuse("exists", "stands beside missing")),
        Some(there) => Ok(Given::There(there)),
    }
}

fn read_answer(fields: Fields<'_, '_>) -> Read<Answer> {
    fields.only(&[
        "ask", "family", "program", "code", "out", "err", "missing", "exists",
    ])?;
    let ask = read_ask(fields)?;
    if !is_flag(ask) && fields.has(&["family"]) {
        return Err(fields.refuse("family", "the question is of no flag"));
    }
    Ok(Answer {
        ask,
        program: fields.wanted("program")?,
        given: read_given(fields)?,
    })
}

fn read_answers(fields: Fields<'_, '_>) -> Read<Vec<Answer>> {
    let mut answers = Vec::new(fields.alloc);
    for value in fields.values("answer")? {
        answers.push(read_answer(fields.below("answer", value)?)?)?;
    }
    Ok(answers)
}

fn read_call(fields: Fields<'_, '_>) -> Read<HostCall> {
    let word = fields.wanted("call")?;
    match call_of(word.as_str()) {
        Some(call) => Ok(call),
        None => Err(fields.refuse("call", "no such call")),
    }
}

fn read_failure(fields: Fields<'_, '_>) -> Read<Failure> {
    fields.only(&["call", "nth"])?;
    Ok(Failure {
        call: read_call(fields)?,
        nth: fields.count("nth", 1, 1)?,
    })
}

// Whether what fails is a read of a file, which no host makes.
fn is_read(fields: Fields<'_, '_>) -> Read<bool> {
    let word = fields.wanted("call")?;
    Ok(word.as_str() == "read")
}

// The calls of the host that fail.
fn read_failures(fields: Fields<'_, '_>) -> Read<Vec<Failure>> {
    let mut failures = Vec::new(fields.alloc);
    for value in fields.values("fail")? {
        let failure = fields.below("fail", value)?;
        if !is_read(failure)? {
            failures.push(read_failure(failure)?)?;
        }
    }
    Ok(failures)
}

// The numbers of the reads that fail.
fn read_failing_reads(fields: Fields<'_, '_>) -> Read<Vec<u64>> {
    let mut failures = Vec::new(fields.alloc);
    for value in fields.values("fail")? {
        let failure = fields.below("fail", value)?;
        if is_read(failure)? {
            failure.only(&["call", "nth"])?;
            failures.push(failure.count("nth", 1, 1)?)?;
        }
    }
    Ok(failures)
}

fn read_byte(fields: Fields<'_, '_>, value: &Value) -> Read<u8> {
    let refusal = fields.refuse("bytes", "wants numbers from 0 to 255");
    match value {
        Value::Integer(number) => u8::try_from(*number).map_err(|_| refusal),
        _ => Err(refusal),
    }
}

// The bytes of a file: those of its text, and then these.
fn read_bytes(fields: Fields<'_, '_>) -> Read<Vec<u8>> {
    let mut bytes = fields.text_or_empty("text")?.into_bytes();
    for value in fields.values("bytes")? {
        bytes.push(read_byte(fields, value)?)?;
    }
    Ok(bytes)
}

fn read_read(fields: Fields<'_, '_>) -> Read<ReadFile> {
    fields.only(&["path", "text", "bytes"])?;
    Ok(ReadFile {
        path: fields.wanted("path")?,
        bytes: read_bytes(fields)?,
    })
}

fn read_reads(fields: Fields<'_, '_>) -> Read<Reads> {
    let mut files = Vec::new(fields.alloc);
    for value in fields.values("read")? {
        files.push(read_read(fields.below("read", value)?)?)?;
    }
    Ok(Reads {
        files,
        failures: read_failing_reads(fields)?,
    })
}

// A number of tokens, from this one on, or where there is none the usual one.
fn read_tokens(fields: Fields<'_, '_>, key: &str, least: u64, usual: u64) -> Read<u32> {
    match u32::try_from(fields.count(key, least, usual)?) {
        Ok(tokens) => Ok(tokens),
        Err(_) => Err(fields.refuse(key, "not of 32 bits")),
    }
}

fn read_pool(fields: Fields<'_, '_>) -> Read<Pool> {
    Ok(Pool {
        tokens: read_tokens(fields, "tokens", 1, 2)?,
        held: read_tokens(fields, "held", 0, 0)?,
        turns: fields.count("turns", 0, 50)?,
    })
}

pub fn read_knobs(fields: Fields<'_, '_>) -> Read<Knobs> {
    Ok(Knobs {
        pool: read_pool(fields)?,
        around: read_surroundings(fields)?,
        commands: read_commands(fields)?,
        answers: read_answers(fields)?,
        failures: read_failures(fields)?,
        reads: read_reads(fields)?,
    })
}
