// The host of a row, and its files.
ghost use Rattle.std.specs.Prelude.{◌≢◌, IfOk};
ghost use Rattle.cc_host.specs.declared.question.Outcome.TheVariants.{Unanswered};

use crate::row::{Answer, Commands, Failure, Given, Knobs, ScriptOf, Surroundings};
use cc_host::{BenchHost, MemoryFiles, Outcome, Script};
use cc_text::{Bytes, Mem, Text};
use std::alloc::Global;

fn pieces_of(alloc: Global, texts: &[String]) -> Mem<Vec<Bytes>> {
    let mut pieces = Vec::new(alloc);
    for text in texts {
        pieces.push(Bytes::of(alloc, text.as_bytes())?)?;
    }
    Ok(pieces)
}

fn word_of(alloc: Global, word: &Option<String>) -> Mem<Option<Text>> {
    match word {
        Some(word) => Ok(Some(Text::of(alloc, word.as_str())?)),
        None => Ok(None),
    }
}

impl ScriptOf {
    fn script(&self, alloc: Global) -> Mem<Script> {
        Ok(Script {
            status: self.status,
            pieces: pieces_of(alloc, &self.pieces)?,
            unread: self.unread,
            turns: self.turns,
            after: word_of(alloc, &self.after)?,
        })
    }
}

impl Given {
    fn outcome(&self, alloc: Global) -> Mem<Outcome>
        ensures { IfOk result (λ o. o ≢ Unanswered) }
    {
        Ok(match self {
            Given::Missing => Outcome::Missing,
            Given::There(there) => Outcome::Exists(*there),
            Given::Done { status, out, err } => Outcome::Done {
                status: *status,
                out: Bytes::of(alloc, out.as_bytes())?,
                err: Bytes::of(alloc, err.as_bytes())?,
            },
        })
    }
}

impl Surroundings {
    fn apply(&self, host: &mut BenchHost) -> Mem<()> {
        for file in &self.files {
            host.file(file.as_str())?;
        }
        host.set_vars(self.vars.try_clone()?);
        host.set_random(self.random.clone()?);
        host.set_listens(self.listens);
        Ok(())
    }
}

impl Commands {
    fn apply(&self, alloc: Global, host: &mut BenchHost) -> Mem<()> {
        for script in &self.scripts {
            host.script(script.role, script.word.as_str(), script.script(alloc)?)?;
        }
        for program in &self.missing {
            host.missing(program.as_str())?;
        }
        Ok(())
    }
}

fn apply_answers(alloc: Global, answers: &[Answer], host: &mut BenchHost) -> Mem<()> {
    for answer in answers {
        host.answer(
            answer.ask,
            answer.program.as_str(),
            answer.given.outcome(alloc)?,
        )?;
    }
    Ok(())
}

fn apply_failures(failures: &[Failure], host: &mut BenchHost) -> Mem<()> {
    for failure in failures {
        host.fail(failure.call, failure.nth)?;
    }
    Ok(())
}

fn apply(alloc: Global, knobs: &Knobs, host: &mut BenchHost) -> Mem<()> {
    knobs.around.apply(host)?;
    knobs.commands.apply(alloc, host)?;
    apply_answers(alloc, &knobs.answers, host)
}

/// The same host as that of `host_of`, but that no call fails.
pub fn healed_host_of(alloc: Global, knobs: &Knobs) -> Mem<BenchHost> {
    let mut host = BenchHost::new(alloc)?;
    apply(alloc, knobs, &mut host)?;
    Ok(host)
}

/// A host that differs by these knobs from one at which all goes well.
pub fn host_of(alloc: Global, knobs: &Knobs) -> Mem<BenchHost> {
    let mut host = healed_host_of(alloc, knobs)?;
    apply_failures(&knobs.failures, &mut host)?;
    Ok(host)
}

fn put_files(knobs: &Knobs, files: &mut MemoryFiles) -> Mem<()> {
    for file in &knobs.reads.files {
        files.put(file.path.as_str(), file.bytes.as_slice())?;
    }
    Ok(())
}

fn fail_reads(failures: &[u64], files: &mut MemoryFiles) -> Mem<()> {
    for nth in failures {
        files.fail(*nth)?;
    }
    Ok(())
}

/// The same files as those of `files_of`, but that no read fails.
pub fn healed_files_of(alloc: Global, knobs: &Knobs) -> Mem<MemoryFiles> {
    let mut files = MemoryFiles::new(alloc)?;
    put_files(knobs, &mut files)?;
    Ok(files)
}

/// Files that are those of these knobs, with the reads that fail.
pub fn files_of(alloc: Global, knobs: &Knobs) -> Mem<MemoryFiles> {
    let mut files = healed_files_of(alloc, knobs)?;
    fail_reads(&knobs.reads.failures, &mut files)?;
    Ok(files)
}
