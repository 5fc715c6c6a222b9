// A run of the sources alone that aren't fresh.
ghost use Rattle.std.specs.Prelude.{◌≡◌, ◌≤◌, ◌++◌, ◌∷◌, [], ℕ, IfOk};
ghost use Rattle.cc_host.specs.Call.{part};
ghost use Rattle.cc_host.specs.Part.Step.{Writes};
ghost use Rattle.cc_host.specs.Question.{Holds};
ghost use Rattle.cc_plan.specs.Questions.{RunAsks};
ghost use Rattle.cc_run.specs.Keeping.{IsIdle};
ghost use Rattle.cc_tool.specs.Asked.{Asked};
ghost use Rattle.cc_build.specs.Build.{probes};
ghost use Rattle.cc_build.specs.Course.{ByRun, CallsEnd, OnCourse};
ghost use Rattle.cc_build.specs.Kept.{Aside, Asking};
ghost use Rattle.cc_build.specs.Promises.{NothingRuns, FaultsEnd};
ghost use Rattle.cc_build.specs.RunPlan.{IsRunPlan};
ghost use Rattle.cc_fresh.specs.Promises.{Promises};
ghost use Rattle.cc_fresh.specs.Record.{record_text};
ghost use Rattle.cc_fresh.specs.Refresh.{Refreshed, RefreshAsks, files_seen, read_error as error_of_read};
ghost use Rattle.cc_fresh.specs.Refreshing.{FinishEnds, IsErrorOf, PerformEnds, PrepareEnds};

use crate::choice::{Choice, choose};
use crate::entries::entries_of;
use crate::file::ReadError;
use crate::unit::{TranslationUnit, units_of};
use crate::{Reasons, Record, write_record};
use cc_build::{Build, Error, ErrorKind, RunPlan};
use cc_host::{Files, Host, World};
use cc_jobs::Jobs;
use cc_text::{Mem, NoMemory, Text};
use cc_tool::Answers;
use std::alloc::Global;
use std::sync::Wait;

// A refresh whose choice is made, and none of whose commands was started yet.
#[derive(Drop)]
struct Prepared {
    plan: RunPlan,
    units: Vec<TranslationUnit>,
    choice: Choice,
}

// What a refresh is to make, and from what: the library of this name, in no more than so many turns, by the record at
// a path. Objects are checked themselves, or not.
#[derive(Clone, Copy)]
struct Goal<'a> {
    output: &'a str,
    turns: u64,
    record: &'a str,
    checks_object: bool,
}

// The file of this path couldn't be read.
#[tactic(auto, unfolding(crate::specs::Refresh::read_error))]
fn read_error(alloc: Global, path: &str) -> Mem<Error>
    ensures { IfOk result (λ e. e ≡ error_of_read path.now) }
{
    let mut message = Text::of(alloc, "failed to read ")?;
    message.push_str(path)?;
    Error::of(alloc, ErrorKind::IOError, path, message.as_str())
}

// The error of files that weren't read further.
fn error_of(alloc: Global, error: ReadError) -> Error
    ensures { IsErrorOf error result }
{
    match error {
        ReadError::NoMemory => Error::from(NoMemory),
        ReadError::Fault(path) => match read_error(alloc, path.as_str()) {
            Ok(error) => error,
            Err(memory) => Error::from(memory),
        },
    }
}

// Plans the run, opens it, and chooses the sources that are compiled.
#[tactic(auto, using(cc_host::proofs::Parts::since_append))]
fn prepare<W: World, H: Host<W>, F: Files>(
    rt: &impl Wait,
    alloc: Global,
    build: &Build<W>,
    host: &mut H,
    files: &mut F,
    answers: &mut Answers,
    goal: Goal<'_>,
) -> Result<Prepared, Error>
    ensures asks { Asking W.steady W.answer (probes build.now) (RefreshAsks build.now)
        H.log H.patience host.old host.new answers.old answers.new }
    ensures planned { IfOk result (λ p. IsRunPlan build.now goal.entry.output.now p.plan) }
    ensures outcome { Holds answers.new (λ look. PrepareEnds build.now (H.listens host.old)
        goal.entry.output.now goal.entry.record.now result
        (files_seen F.reads F.faults files.old files.new) look (part H.log host.old host.new)) }
    ensures later { F.faults files.old ≤ F.faults files.new }
{
    let plan = match build.plan_run(rt, host, goal.output, answers) {
        Ok(plan) => plan,
        Err(error) => return Err(error),
    };
    let units = match units_of(
        alloc,
        plan.sources.objects.as_slice(),
        plan.commands.as_slice(),
    ) {
        Ok(units) => units,
        Err(memory) => return Err(Error::from(memory)),
    };
    let record = goal.record;
    match choose(
        rt,
        alloc,
        build,
        host,
        files,
        answers,
        record,
        units.as_slice(),
    ) {
        Ok(choice) => Ok(Prepared {
            plan,
            units,
            choice,
        }),
        Err(error) => Err(error_of(alloc, error)),
    }
}

// Writes a record.
#[tactic(auto, using(cc_host::proofs::Parts::since_append))]
fn write_kept<W: World, H: Host<W>>(
    alloc: Global,
    host: &mut H,
    path: &str,
    record: &Record,
) -> Result<(), Error>
    ensures aside { Aside H.log H.patience host.old host.new }
    ensures outcome { CallsEnd (Writes path.now (record_text record.now) ∷ [])
        (part H.log host.old host.new) result }
{
    let text = match write_record(alloc, record) {
        Ok(text) => text,
        Err(memory) => return Err(Error::from(memory)),
    };
    match host.write_file(path, text.as_slice()) {
        Ok(()) => Ok(()),
        Err(error) => Err(Error::of_host(alloc, error, path)),
    }
}

// Makes the entries of all sources, and writes the record. Answers the reasons.
#[tactic(auto, using(cc_host::proofs::Parts::since_append))]
fn finish<W: World, H: Host<W>, F: Files>(
    alloc: Global,
    host: &mut H,
    files: &mut F,
    goal: Goal<'_>,
    units: &[TranslationUnit],
    choice: Choice,
) -> Result<Reasons, Error>
    ensures aside { Aside H.log H.patience host.old host.new }
    ensures outcome { FinishEnds goal.entry.checks_object goal.entry.record.now units.now choice
        result (files_seen F.reads F.faults files.old files.new) (part H.log host.old host.new) }
    ensures later { F.faults files.old ≤ F.faults files.new }
{
    let kept = choice.kept.as_slice();
    let states = choice.states.as_slice();
    let record = match entries_of(alloc, files, goal.checks_object, kept, units, states) {
        Ok(record) => record,
        Err(error) => return Err(error_of(alloc, error)),
    };
    match write_kept(alloc, host, goal.record, &record) {
        Ok(()) => Ok(choice.reasons),
        Err(error) => Err(error),
    }
}

// Runs the chosen commands, writes the library, prints the lines for Cargo, and writes the record.
#[tactic(auto, using(cc_host::proofs::Parts::since_append))]
fn perform<W: World, H: Host<W>, J: Jobs, F: Files>(
    rt: &impl Wait,
    alloc: Global,
    build: &Build<W>,
    host: &mut H,
    files: &mut F,
    jobs: &J,
    seat: &mut J::Seat,
    answers: &mut Answers,
    goal: Goal<'_>,
    prepared: Prepared,
) -> Result<Reasons, Error>
    requires idle { IsIdle J.fits J.held jobs.now seat.old }
    requires planned { IsRunPlan build.now goal.output.now prepared.plan }
    ensures idle { IsIdle J.fits J.held jobs.now seat.new }
    ensures total { J.total seat.new ≡ J.total seat.old }
    ensures asks { Asking W.steady W.answer (probes build.now)
        (RunAsks build.now.config build.now.env) H.log H.patience
        host.old host.new answers.old answers.new }
    ensures outcome { Holds answers.new (λ look. (left : ℕ) × OnCourse
        H.log H.patience J.total J.faults J.taken J.load goal.entry.turns left
        host.old host.new seat.old seat.new
        (PerformEnds build.now goal.entry.output.now goal.entry.record.now
        goal.entry.checks_object prepared result
        (files_seen F.reads F.faults files.old files.new) look)) }
    ensures later { F.faults files.old ≤ F.faults files.new }
{
    let Prepared {
        plan,
        units,
        choice,
    } = prepared;
    let (turns, output) = (goal.turns, goal.output);
    let choices = choice.choices.as_slice();
    match build.run_plan(rt, host, jobs, seat, turns, output, plan, choices, answers) {
        Ok(()) => {}
        Err(error) => return Err(error),
    }
    finish(alloc, host, files, goal, units.as_slice(), choice)
}

// Does a refresh whole.
#[tactic(auto, using(cc_host::proofs::Parts::since_append))]
fn refresh<W: World, H: Host<W>, J: Jobs, F: Files>(
    rt: &impl Wait,
    alloc: Global,
    build: &Build<W>,
    host: &mut H,
    files: &mut F,
    jobs: &J,
    seat: &mut J::Seat,
    goal: Goal<'_>,
) -> Result<Reasons, Error>
    requires idle { IsIdle J.fits J.held jobs.now seat.old }
    ensures idle { IsIdle J.fits J.held jobs.now seat.new }
    ensures total { J.total seat.new ≡ J.total seat.old }
    ensures patient { H.patience host.new ≡ H.patience host.old }
    ensures extends { H.log host.new ≡ H.log host.old ++ part H.log host.old host.new }
    ensures asked { Asked W.steady W.answer (probes build.now) (RefreshAsks build.now)
        (part H.log host.old host.new) }
    ensures outcome { ByRun H.log H.patience J.total J.faults J.taken J.load goal.entry.turns
        host.old host.new seat.old seat.new
        (Refreshed build.now (H.listens host.old) goal.entry.output.now goal.entry.record.now
        goal.entry.checks_object result (files_seen F.reads F.faults files.old files.new)) }
    ensures later { F.faults files.old ≤ F.faults files.new }
{
    let mut answers = Answers::new(alloc);
    let prepared = match prepare(rt, alloc, build, host, files, &mut answers, goal) {
        Ok(prepared) => prepared,
        Err(error) => return Err(error),
    };
    perform(
        rt,
        alloc,
        build,
        host,
        files,
        jobs,
        seat,
        &mut answers,
        goal,
        prepared,
    )
}

/// Makes the library of `output` as `try_compile` does, but compiles those sources alone that aren't fresh, by what the
/// record at a path holds of their objects, and then writes that record anew. Answers why each source was compiled, or
/// that it is fresh.
///
/// Plans the run and opens it, reads the record, finds out the reason of each source, in order, and reads those that
/// are compiled. Then it runs their commands, archives all objects, prints the lines for Cargo, and writes the record:
/// the kept entry of each fresh source, and for each that was compiled one of its command and of the digests of its
/// source and of the files that its compiler tells of (`-MMD` of GCC and Clang). One that has no such text has no
/// entry, and is compiled each time. Of a fresh source it is only known that its object is there; where `check_objects`
/// holds the object is digested too, behind those files, so that one that was changed is made anew.
///
/// Refused as `try_compile` is, and with IOError where a file couldn't be read: its path is the subject. The record is
/// written last, so after a refusal before that it is as it was.
#[tactic(auto, using(cc_host::proofs::Parts::since_append))]
pub fn try_refresh<W: World, H: Host<W>, J: Jobs, F: Files>(
    rt: &impl Wait,
    alloc: Global,
    build: &Build<W>,
    host: &mut H,
    files: &mut F,
    jobs: &J,
    seat: &mut J::Seat,
    turns: u64,
    output: &str,
    record_path: &str,
    check_objects: bool,
) -> Result<Reasons, Error>
    requires fits { J.fits jobs.now seat.old }
    requires empty { J.held seat.old ≡ 0 }
    ensures fits { J.fits jobs.now seat.new }
    ensures empty { J.held seat.new ≡ 0 }
    ensures total { J.total seat.new ≡ J.total seat.old }
    ensures patient { H.patience host.new ≡ H.patience host.old }
    ensures extends { H.log host.new ≡ H.log host.old ++ part H.log host.old host.new }
    ensures asked { Asked W.steady W.answer (probes build.now) (RefreshAsks build.now)
        (part H.log host.old host.new) }

    // Which files were read, which sources were compiled and why, what was kept of them, and each answer's cause; and
    // what follows from it, sentence by sentence.
    ensures promises { ByRun H.log H.patience J.total J.faults J.taken J.load turns
        host.old host.new seat.old seat.new
        (Promises build.now (H.listens host.old) output.now record_path.now check_objects result
        (files_seen F.reads F.faults files.old files.new)) }
    ensures settled { NothingRuns (part H.log host.old host.new) }
    ensures faults_last { FaultsEnd (part H.log host.old host.new) }
{
    let goal = Goal {
        output,
        turns,
        record: record_path,
        checks_object: check_objects,
    };
    refresh(rt, alloc, build, host, files, jobs, seat, goal)
}
