// An archive alone.
ghost use Rattle.std.specs.Prelude.{◌≡◌, ◌++◌, ◌⊎◌, ◌+◌, ◌<◌, ◌^◌, Some, None, IfOk, IfErr, OnOk, false};
ghost use Rattle.cc_host.specs.Call.{part};
ghost use Rattle.cc_flags.specs.Given.{probe_folder};
ghost use Rattle.cc_flags.specs.Names.{library_name};
ghost use Rattle.cc_plan.specs.Plan.{objects_of, library_of};
ghost use Rattle.cc_build.specs.Archiving.{archive_reads as reads_of, with_objects, unarchived_error, ArchivesFirst, Creates};
ghost use Rattle.cc_build.specs.Build.{AsksByRun};
ghost use Rattle.cc_build.specs.Course.{ByPart};
ghost use Rattle.cc_build.specs.Error.{no_memory};
ghost use Rattle.cc_build.specs.Kept.{AsksFor};
ghost use Rattle.cc_build.specs.Phases.{ByKnown, WrittenEnds};
ghost use Rattle.cc_build.specs.Promises.{NothingRuns, FaultsEnd};
ghost use Rattle.cc_run.specs.Keeping.{IsIdle};
ghost use Rattle.cc_run.specs.Part.{turns as turns_of};
ghost use Rattle.cc_build.specs.Stage.{IsRun};

use crate::message::or_no_memory;
use crate::phases::archive_objects;
use crate::refusal::{disabled, plan_error};
use crate::reporting::Reporting;
use crate::reruns::print_names;
use crate::shows::shows_of;
use crate::task::{Shared, Task};
use crate::{Build, Error};
use cc_env::BuildEnv;
use cc_host::{Host, World};
use cc_jobs::{Jobs, OneCaller};
use cc_plan::{
    BuildConfig, Reads, Sources, archive_settings, is_disabled, lib_and_archive_names, plan_sources,
};
use cc_run::Turns;
use cc_text::{Text, Words};
use cc_tool::Answers;
use std::alloc::Global;
use std::sync::Wait;

// What an archive alone reads variables for.
fn archive_reads() -> Reads
    ensures { result ≡ reads_of }
{
    Reads {
        disabled: true,
        debug: true,
        compiler: false,
        assembler: false,
        flag: false,
        archiver: true,
        ranlib: false,
        links: false,
    }
}

// The checks before an archive.
fn check_archive(
    alloc: Global,
    set: &BuildConfig,
    env: &BuildEnv,
    output: &str,
) -> Result<Sources, Error>
    ensures probes { IfOk result (λ sources. sources.dir ≡ probe_folder set.now env.now) }
    ensures name { IfOk result (λ sources. sources.name ≡ library_name output.now) }
    ensures library { IfOk result (λ sources.
        sources.library ≡ library_of set.now env.now output.now) }
    ensures objects { IfOk result (λ sources. sources.objects.items ≡ objects_of set.now env.now) }
    ensures allowed { OnOk result (unarchived_error set.now env.now output.now ≡ None) }
    ensures refused { IfErr result (λ e. (e ≡ no_memory)
        ⊎ (unarchived_error set.now env.now output.now ≡ Some e)) }
{
    match lib_and_archive_names(alloc, output) {
        Ok(_) => {}
        Err(error) => return Err(or_no_memory(plan_error(alloc, set, env, output, error))),
    }
    if is_disabled(env) {
        return Err(or_no_memory(disabled(alloc)));
    }
    match plan_sources(alloc, set, env, output) {
        Ok(sources) => Ok(sources),
        Err(error) => Err(or_no_memory(plan_error(alloc, set, env, output, error))),
    }
}

// Writes the library, and then tells Cargo of the variables that were read for it.
#[tactic(auto, using(cc_host::proofs::Parts::since_append))]
fn archive_and_tell<W: World, H: Host<W>, J: Jobs>(
    rt: &impl Wait,
    shared: &Shared<'_, W, J>,
    host: &mut H,
    seat: &mut J::Seat,
    turns: &mut Turns,
    answers: &mut Answers,
) -> Result<(), Error>
    requires idle { IsIdle J.fits J.held shared.now.jobs.now seat.old }
    requires few { turns.old.left + turns.old.used < 2 ^ 64 }
    requires plain { IsRun shared.now.task.set.now shared.now.reads }
    requires dir { shared.now.sources.now.dir
        ≡ probe_folder shared.now.task.set.now shared.now.task.env.now }
    requires name { shared.now.sources.now.name ≡ library_name shared.now.task.output.now }
    requires library { shared.now.sources.now.library ≡ library_of
        shared.now.task.set.now shared.now.task.env.now shared.now.task.output.now }
    requires objects { shared.now.sources.now.objects.items
        ≡ objects_of shared.now.task.set.now shared.now.task.env.now }
    ensures idle { IsIdle J.fits J.held shared.now.jobs.now seat.new }
    ensures total { J.total seat.new ≡ J.total seat.old }
    ensures sum { turns.new.left + turns.new.used ≡ turns.old.left + turns.old.used }
    ensures asks { AsksFor W.steady W.answer shared.now.task H.log H.patience
        host.old host.new answers.old answers.new }
    ensures outcome { ByKnown answers.new
        H.log H.patience J.total J.faults J.taken J.load turns.old.left turns.new.left
        host.old host.new seat.old seat.new (WrittenEnds shared.now.task shared.now.reads result) }
{
    match archive_objects(rt, shared, host, seat, turns, answers) {
        Ok(()) => {}
        Err(error) => return Err(error),
    }
    print_names(rt, shared, host, seat, turns, answers)
}

impl<W: World> Build<W> {
    /// Archives these objects, and then the added ones, into the library of `output`, as `try_compile` does with those
    /// of its sources, prints the lines of the variables that were read for it, where they are wanted, and answers the
    /// library's path. Sources don't count, and no link line is printed. At most `turns` turns are made.
    ///
    /// Refused, in this order, where the output names no library, no command may run (Disabled), the out dir is set
    /// nowhere or empty, or an object is the library; then as `try_compile` is behind the sources, and where a line
    /// couldn't be printed. After a refusal every command that was started has ended or is left alone. The build is as
    /// before.
    #[tactic(auto, using(cc_host::proofs::Parts::since_append))]
    pub fn try_create_archive<H: Host<W>>(
        &self,
        rt: &impl Wait,
        host: &mut H,
        turns: u64,
        output: &str,
        objects: &Words,
    ) -> Result<Text, Error>
        ensures patient { H.patience host.new ≡ H.patience host.old }
        ensures extends { H.log host.new ≡ H.log host.old ++ part H.log host.old host.new }
        ensures asked { AsksByRun W.steady W.answer (with_objects self.now objects.now)
            (part H.log host.old host.new) }
        ensures library { IfOk result (λ path. path ≡ library_of
            (with_objects self.now objects.now).config self.now.env output.now) }
        ensures outcome { ByPart H.log host.old host.new
            (Creates (with_objects self.now objects.now) (H.listens host.old)
            (H.patience host.old) turns output.now result) }
        ensures prefix { ByPart H.log host.old host.new
            (ArchivesFirst (with_objects self.now objects.now) output.now) }
        ensures settled { NothingRuns (part H.log host.old host.new) }
        ensures faults_last { FaultsEnd (part H.log host.old host.new) }
    {
        let mut left = turns;
        self.create_archive(rt, host, &mut left, output, objects)
    }

    /// The same, for a caller whose calls share their turns: of those that are left it takes the turns that it makes.
    #[tactic(auto, using(cc_host::proofs::Parts::since_append))]
    pub fn create_archive<H: Host<W>>(
        &self,
        rt: &impl Wait,
        host: &mut H,
        left: &mut u64,
        output: &str,
        objects: &Words,
    ) -> Result<Text, Error>
        ensures patient { H.patience host.new ≡ H.patience host.old }
        ensures extends { H.log host.new ≡ H.log host.old ++ part H.log host.old host.new }
        ensures asked { AsksByRun W.steady W.answer (with_objects self.now objects.now)
            (part H.log host.old host.new) }
        ensures library { IfOk result (λ path. path ≡ library_of
            (with_objects self.now objects.now).config self.now.env output.now) }
        ensures outcome { ByPart H.log host.old host.new
            (Creates (with_objects self.now objects.now) (H.listens host.old)
            (H.patience host.old) left.old output.now result) }
        ensures sum { left.new + turns_of (part H.log host.old host.new) ≡ left.old }
        ensures prefix { ByPart H.log host.old host.new
            (ArchivesFirst (with_objects self.now objects.now) output.now) }
        ensures settled { NothingRuns (part H.log host.old host.new) }
        ensures faults_last { FaultsEnd (part H.log host.old host.new) }
    {
        let (alloc, env) = (self.alloc, &self.env);
        let set = archive_settings(alloc, &self.config, objects)?;
        let sources = check_archive(alloc, &set, env, output)?;
        let path = sources.library.try_clone()?;
        let (jobs, mut seat) = OneCaller::new(1);
        let shows = shows_of(&set, env, host.listens());
        let shared = Shared {
            task: Task {
                reporting: Reporting { alloc, shows },
                set: &set,
                env,
                output,
            },
            jobs: &jobs,
            caches: &self.caches,
            sources: &sources,
            reads: archive_reads(),
        };
        let mut answers = Answers::new(alloc);
        let mut turns = Turns {
            left: *left,
            used: 0,
        };
        let made = archive_and_tell(rt, &shared, host, &mut seat, &mut turns, &mut answers);
        *left = turns.left;
        match made {
            Ok(()) => Ok(path),
            Err(error) => Err(error),
        }
    }
}
