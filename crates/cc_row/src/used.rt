// What a run left undone, and what of its host it left unused.
use crate::names::{ask_name, call_name, role_name};
use crate::row::{Answer, Failure, Knobs, ScriptOf};
use cc_host::{Command, Event, HostCall, Outcome, Question, Role};
use cc_text::{Mem, Words};
use std::alloc::Global;

// What stands behind the first of a list.
fn behind<T>(list: &[T]) -> &[T] {
    match list.split_first() {
        Some((_, rest)) => rest,
        None => list,
    }
}

fn ends_child(event: &Event, child: u64) -> bool {
    match event {
        Event::Ended { id, .. } => *id == child,
        Event::Abandoned { id } => *id == child,
        _ => false,
    }
}

fn drops_probe(event: &Event, probe: &str) -> bool {
    match event {
        Event::Dropped { path } => path.as_str() == probe,
        _ => false,
    }
}

fn push_child(alloc: Global, left: &mut Vec<String>, child: u64, later: &[Event]) -> Mem<()> {
    if !later.iter().any(|event| ends_child(event, child)) {
        left.push(format!(in alloc; "child {child} runs")?)?;
    }
    Ok(())
}

fn push_probe(alloc: Global, left: &mut Vec<String>, probe: &str, later: &[Event]) -> Mem<()> {
    if !later.iter().any(|event| drops_probe(event, probe)) {
        left.push(format!(in alloc; "probe file {probe} stands")?)?;
    }
    Ok(())
}

// Adds the children that run and the probe files that stand at the end of the log.
fn push_open(alloc: Global, left: &mut Vec<String>, log: &[Event]) -> Mem<()> {
    let mut later = log;
    for event in log {
        later = behind(later);
        match event {
            Event::Started { id, .. } => push_child(alloc, left, *id, later)?,
            Event::Opened { path, .. } => push_probe(alloc, left, path.as_str(), later)?,
            _ => {}
        }
    }
    Ok(())
}

// Adds that nothing used a knob.
fn push_unused(
    alloc: Global,
    left: &mut Vec<String>,
    knob: &str,
    kind: &str,
    name: &str,
) -> Mem<()> {
    left.push(format!(in alloc; "{knob} {kind} {name} is unused")?)?;
    Ok(())
}

fn has_word(words: &Words, word: &str) -> bool {
    words.as_slice().iter().any(|other| other.as_str() == word)
}

// Whether a script is of a command.
fn fits(script: &ScriptOf, role: Role, cmd: &Command) -> bool {
    let word = script.word.as_str();
    script.role == role && (cmd.get_program() == word || has_word(cmd.get_args(), word))
}

// Whether a script counts for a command, before these that come later.
fn counts(script: &ScriptOf, later: &[ScriptOf], role: Role, cmd: &Command) -> bool {
    fits(script, role, cmd) && !later.iter().any(|other| fits(other, role, cmd))
}

fn uses_script(event: &Event, script: &ScriptOf, later: &[ScriptOf]) -> bool {
    match event {
        Event::Started { role, cmd, .. } => counts(script, later, *role, cmd),
        Event::Ran { role, cmd, .. } => counts(script, later, *role, cmd),
        _ => false,
    }
}

fn push_scripts(
    alloc: Global,
    left: &mut Vec<String>,
    scripts: &[ScriptOf],
    log: &[Event],
) -> Mem<()> {
    let mut later = scripts;
    for script in scripts {
        later = behind(later);
        if !log.iter().any(|event| uses_script(event, script, later)) {
            push_unused(
                alloc,
                left,
                "script",
                role_name(script.role),
                script.word.as_str(),
            )?;
        }
    }
    Ok(())
}

fn answers_it(answer: &Answer, question: &Question) -> bool {
    answer.ask == question.ask && answer.program.as_str() == question.program.as_str()
}

// Whether a question came to the answer, and not to one of these that come later.
fn uses_answer(event: &Event, answer: &Answer, later: &[Answer]) -> bool {
    match event {
        Event::Answered {
            question,
            outcome,
            ..
        } => {
            let question = question.get();
            !matches!(outcome.get(), Outcome::Unanswered)
                && answers_it(answer, question)
                && !later.iter().any(|other| answers_it(other, question))
        }
        _ => false,
    }
}

fn push_answers(
    alloc: Global,
    left: &mut Vec<String>,
    answers: &[Answer],
    log: &[Event],
) -> Mem<()> {
    let mut later = answers;
    for answer in answers {
        later = behind(later);
        if !log.iter().any(|event| uses_answer(event, answer, later)) {
            push_unused(
                alloc,
                left,
                "answer",
                ask_name(answer.ask),
                answer.program.as_str(),
            )?;
        }
    }
    Ok(())
}

fn lacks(event: &Event, program: &str) -> bool {
    match event {
        Event::Missing { cmd, .. } => cmd.get_program() == program,
        _ => false,
    }
}

fn push_missing(
    alloc: Global,
    left: &mut Vec<String>,
    programs: &[String],
    log: &[Event],
) -> Mem<()> {
    for program in programs {
        let program = program.as_str();
        if !log.iter().any(|event| lacks(event, program)) {
            push_unused(alloc, left, "missing", "program", program)?;
        }
    }
    Ok(())
}

fn is_fault(event: &Event, failing: HostCall) -> bool {
    match event {
        Event::Fault { call, .. } => *call == failing,
        _ => false,
    }
}

// Whether fewer calls of the kind faulted than were to fail up to this one.
fn is_spare(failure: Failure, failures: &[Failure], log: &[Event]) -> bool {
    let faults = log
        .iter()
        .filter(|event| is_fault(event, failure.call))
        .count();
    let failing = failures
        .iter()
        .filter(|other| other.call == failure.call && other.nth <= failure.nth)
        .count();
    faults < failing
}

fn push_failure(alloc: Global, left: &mut Vec<String>, failure: Failure) -> Mem<()> {
    let nth = failure.nth;
    let nth = format!(in alloc; "{nth}")?;
    push_unused(alloc, left, "fail", call_name(failure.call), nth.as_str())
}

fn push_failures(
    alloc: Global,
    left: &mut Vec<String>,
    failures: &[Failure],
    log: &[Event],
) -> Mem<()> {
    for failure in failures {
        if is_spare(*failure, failures, log) {
            push_failure(alloc, left, *failure)?;
        }
    }
    Ok(())
}

/// What a run with this log left: children that run, probe files that stand, and what of its host nothing used. A
/// script is used by a command that no later script of the row fits, an answer by a question that no later answer of
/// the row is of; of the failing calls of a kind as many are used, lowest first, as that kind faulted.
pub fn left_over(alloc: Global, knobs: &Knobs, log: &[Event]) -> Mem<Vec<String>> {
    let mut left = Vec::new(alloc);
    push_open(alloc, &mut left, log)?;
    push_scripts(alloc, &mut left, &knobs.commands.scripts, log)?;
    push_answers(alloc, &mut left, &knobs.answers, log)?;
    push_missing(alloc, &mut left, &knobs.commands.missing, log)?;
    push_failures(alloc, &mut left, &knobs.failures, log)?;
    Ok(left)
}
