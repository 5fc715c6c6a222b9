// A build: its settings and its environment, and the compile run.
ghost use Rattle.std.specs.Prelude.{◌≡◌, ◌++◌, [], false, IfOk, IfErr, OnOk, OnErr};
ghost use Rattle.std.specs.List.{list_any};
ghost use Rattle.cc_host.specs.Call.{part, ByAnswers};
ghost use Rattle.cc_plan.specs.Asking.{is_of_children};
ghost use Rattle.cc_tool.specs.Asked.{question_events};
ghost use Rattle.cc_build.specs.Build.{Sets, TakesVars, flags_in, fresh_build, AsksByPlan, AsksByRun};
ghost use Rattle.cc_build.specs.Captured.{Captures, CaptureEnds};
ghost use Rattle.cc_build.specs.Compiler.{IsTool, CompilerEnds};
ghost use Rattle.cc_build.specs.Course.{ByPart, ByRun};
ghost use Rattle.cc_build.specs.Error.{no_memory};
ghost use Rattle.cc_build.specs.Flags.{always, FlagsEnd};
ghost use Rattle.cc_build.specs.Planning.{PlanningEnds};
ghost use Rattle.cc_build.specs.Shows.{shows_of};
ghost use Rattle.cc_build.specs.Tools.{AsksForArchiver, AsksForRanlib, IsArchiver, IsRanlib, ArchiverEnds, RanlibEnds};
ghost use Rattle.cc_build.specs.Intermediates.{AreCompiled, CompilesFirst, IntermediateEnds};
ghost use Rattle.cc_plan.specs.Archive.{paths_of};
ghost use Rattle.cc_plan.specs.Plan.{objects_of};
ghost use Rattle.cc_build.specs.Promises.{IsBuilt, Promises, NothingRuns, FaultsEnd};

use crate::compiler::told_compiler;
use crate::environment::told_flags;
use crate::goal::Goal;
use crate::reporting::Reporting;
use crate::run::list_vars;
use crate::shows::shows_of;
use crate::task::Task;
use crate::tools::{told_archiver, told_ranlib};
use crate::{CompilePlan, Error};
use cc_env::{BuildEnv, EnvSnapshot};
use cc_host::{Command, Host, World};
use cc_jobs::Jobs;
use cc_plan::BuildConfig;
use cc_text::{Vars, Words};
use cc_tool::{Caches, Tool};
use std::alloc::Global;
use std::marker::Model;
use std::sync::Wait;

/// The settings of a compile run with its environment, and the caches of answers in the world `W`. Contracts see
/// settings and environment.
///
/// Setters check nothing: what the settings lack or have wrong is refused by the call that makes the plan. A setter of
/// one value takes the place of an earlier call, one of a list adds last.
#[derive(Drop)]
pub struct Build<W: World> {
    pub(crate) alloc: Global,
    pub(crate) config: BuildConfig,
    pub(crate) env: BuildEnv,
    pub(crate) caches: Caches<W>,
}

impl<W: World> Model for Build<W> {
    ghost use Rattle.cc_build.specs.Build.{BuildSeen};

    ghost Value = { BuildSeen };

    ghost view = { λ b. record { config = b.config; env = b.env } };
}

impl<W: World> Build<W> {
    /// A build with no source, nothing set and an empty environment: no variable is read until `capture` or
    /// `set_envs_snapshot`. Warnings, the output of commands and what Cargo hands down are on, all other switches off.
    /// Refused only for memory.
    pub fn new(alloc: Global) -> Result<Build<W>, Error>
        ensures fresh { IfOk result (λ b. b ≡ fresh_build) }
        ensures refused { IfErr result (λ e. e ≡ no_memory) }
    {
        Ok(Build {
            alloc,
            config: BuildConfig::new(alloc),
            env: BuildEnv::empty(alloc),
            caches: Caches::new(alloc)?,
        })
    }

    /// A second build, equal to this one; setters of one don't change the other. The two share their caches, so that
    /// what one asked of a compiler the other isn't to ask again. Refused only for memory; this build is as before.
    pub fn try_clone(&self) -> Result<Build<W>, Error>
        ensures equal { IfOk result (λ b. b ≡ self.now) }
        ensures refused { IfErr result (λ e. e ≡ no_memory) }
    {
        Ok(Build {
            alloc: self.alloc,
            config: self.config.try_clone()?,
            env: self.env.try_clone()?,
            caches: self.caches.share()?,
        })
    }

    /// The sources, in the order added, lent: paths as `file` took them.
    pub fn get_files(&self) -> &Words
        ensures { result.now ≡ self.now.config.files }
    {
        &self.config.files
    }

    /// The plain settings, lent: what setters set, without what the environment adds.
    pub fn settings(&self) -> &BuildConfig
        ensures { result.now ≡ self.now.config }
    {
        &self.config
    }

    /// The variables that the build inherits, and those that `env` adds for commands, lent.
    pub fn environment(&self) -> &BuildEnv
        ensures { result.now ≡ self.now.env }
    {
        &self.env
    }

    // What a call of this build is given that names no library, on a host that listens or not.
    pub(crate) fn task(&self, listens: bool) -> Task<'_>
        ensures set { result.set.now ≡ self.now.config }
        ensures env { result.env.now ≡ self.now.env }
        ensures shows { result.reporting.shows
            ≡ shows_of result.set.now result.env.now listens }
    {
        let (set, env) = (&self.config, &self.env);
        Task {
            reporting: Reporting {
                alloc: self.alloc,
                shows: shows_of(set, env, listens),
            },
            set,
            env,
            output: "",
        }
    }

    /// Takes these pairs of name and value as the environment that the build inherits, in the place of all that it
    /// inherited before; entries of `env` stay. Of a name that is given more than once the last value counts. Refused
    /// only for memory; the build is as before.
    pub fn set_envs_snapshot(&mut self, vars: &Vars) -> Result<(), Error>
        ensures ok { OnOk result (TakesVars self.old self.new vars.now) }
        ensures err { OnErr result (self.new ≡ self.old) }
        ensures refused { IfErr result (λ e. e ≡ no_memory) }
    {
        let snapshot = EnvSnapshot::from_vars(self.alloc, vars)?;
        self.env.set_inherited(snapshot);
        Ok(())
    }

    /// Takes the variables of the host as the environment that the build inherits, in the place of all that it
    /// inherited before. Whoever wants Cargo's variables and `CFLAGS` to count calls it before the run; later changes
    /// of the host's variables don't show.
    ///
    /// Refused where the host can't list its variables (IOError), and for memory; the build is as before. Where memory
    /// for their snapshot was wanting, the listing stands in the host's log.
    pub fn capture<H: Host<W>>(&mut self, host: &mut H) -> Result<(), Error>
        ensures extends { H.log host.new ≡ H.log host.old ++ part H.log host.old host.new }
        ensures asks_none { question_events (part H.log host.old host.new) ≡ [] }
        ensures captured { OnOk result (Captures self.old self.new (part H.log host.old host.new)) }
        ensures err { OnErr result (self.new ≡ self.old) }
        ensures patient { H.patience host.new ≡ H.patience host.old }
        ensures ear { H.listens host.new ≡ H.listens host.old }
        ensures outcome { CaptureEnds (part H.log host.old host.new) result }
    {
        let vars = list_vars(self.alloc, host)?;
        self.set_envs_snapshot(&vars)
    }

    /// Adds the words of a variable, as `MY_CFLAGS`, last to the flags that are always given: those of each of its
    /// names for this target and host that is set, the most general name first (`MY_CFLAGS`, `TARGET_MY_CFLAGS` or
    /// `HOST_MY_CFLAGS`, `MY_CFLAGS_<target>`). Blanks part words, or a shell's rules where `shell_escaped_flags`
    /// holds. They are read off the captured variables; then the lines of these variables are printed, where they are
    /// wanted, and the host is asked nothing.
    ///
    /// Refused with EnvVarNotFound where the target or the host is set nowhere, or none of the names is set; where a
    /// line couldn't be printed; and for memory. The build is as before.
    pub fn try_flags_from_environment<H: Host<W>>(
        &mut self,
        rt: &impl Wait,
        host: &mut H,
        environ_key: &str,
    ) -> Result<(), Error>
        ensures patient { H.patience host.new ≡ H.patience host.old }
        ensures extends { H.log host.new ≡ H.log host.old ++ part H.log host.old host.new }
        ensures asks_none { question_events (part H.log host.old host.new) ≡ [] }
        ensures childless { list_any is_of_children (part H.log host.old host.new) ≡ false }
        ensures ok { OnOk result (Sets self.old self.new (λ c. record c {
          flags = c.flags ++ always (flags_in self.old environ_key.now);
        })) }
        ensures err { OnErr result (self.new ≡ self.old) }
        ensures outcome { FlagsEnd self.old environ_key.now result
            (part H.log host.old host.new) }
    {
        let task = self.task(host.listens());
        let flags = told_flags(rt, &task, &self.caches, host, environ_key)?;
        self.config.flags = flags;
        Ok(())
    }

    /// The compiler of this build: the program with its wrapper, the words that each source is compiled with, and its
    /// variables. To find it the compiler is asked for its family and for flags; then the warnings of its plan are
    /// printed, where they are on, and said to a host that listens, and behind them come the lines of the variables
    /// that were read, where those are wanted.
    ///
    /// Refused where the optimisation level, the target or the host is set nowhere (EnvVarNotFound), the target isn't
    /// known, a word of the target or a flag of Rust code is refused, or a line couldn't be printed; and for memory.
    /// The build is as before; what was asked until then is kept, and no file stays.
    pub fn try_get_compiler<H: Host<W>>(&self, rt: &impl Wait, host: &mut H) -> Result<Tool, Error>
        ensures extends { H.log host.new ≡ H.log host.old ++ part H.log host.old host.new }
        ensures asked { AsksByPlan W.steady W.answer self.now (part H.log host.old host.new) }
        ensures childless { list_any is_of_children (part H.log host.old host.new) ≡ false }
        ensures tool { IfOk result (λ tool. ByAnswers H.log host.old host.new
            (IsTool self.now.config self.now.env tool)) }
        ensures outcome { ByPart H.log host.old host.new
            (CompilerEnds self.now.config self.now.env (H.listens host.old) result) }
    {
        told_compiler(rt, &self.task(host.listens()), &self.caches, host)
    }

    /// The command of the archiver of this build, with the words that it is given before those of a form: the set one,
    /// else that of `AR`, else the one that the target wants. To find it the host may be asked; then the lines of the
    /// variables that were read are printed, where they are wanted, and nothing else is done.
    ///
    /// Refused where the target or the host is set nowhere (EnvVarNotFound), no archiver is known for the target, or a
    /// line couldn't be printed; and for memory. The build is as before; what was asked until then is kept, and no file
    /// stays.
    pub fn try_get_archiver<H: Host<W>>(
        &self,
        rt: &impl Wait,
        host: &mut H,
    ) -> Result<Command, Error>
        ensures extends { H.log host.new ≡ H.log host.old ++ part H.log host.old host.new }
        ensures asked { AsksForArchiver W.steady W.answer self.now
            (part H.log host.old host.new) }
        ensures childless { list_any is_of_children (part H.log host.old host.new) ≡ false }
        ensures archiver { IfOk result (λ cmd. ByAnswers H.log host.old host.new
            (IsArchiver self.now.config self.now.env cmd)) }
        ensures outcome { ByPart H.log host.old host.new
            (ArchiverEnds self.now.config self.now.env result) }
    {
        told_archiver(rt, &self.task(host.listens()), &self.caches, host)
    }

    /// The command of the tool that writes the index of an archive alone: the set one, else that of `RANLIB`, else the
    /// one that the target wants. It is found and refused as the archiver is.
    pub fn try_get_ranlib<H: Host<W>>(&self, rt: &impl Wait, host: &mut H) -> Result<Command, Error>
        ensures extends { H.log host.new ≡ H.log host.old ++ part H.log host.old host.new }
        ensures asked { AsksForRanlib W.steady W.answer self.now (part H.log host.old host.new) }
        ensures childless { list_any is_of_children (part H.log host.old host.new) ≡ false }
        ensures ranlib { IfOk result (λ cmd. ByAnswers H.log host.old host.new
            (IsRanlib self.now.config self.now.env cmd)) }
        ensures outcome { ByPart H.log host.old host.new
            (RanlibEnds self.now.config self.now.env result) }
    {
        told_ranlib(rt, &self.task(host.listens()), &self.caches, host)
    }

    /// Plans a compile run for the library of `output`, and begins none: what `try_compile` would run for the sources,
    /// as values, so that a caller may run it beside the commands of other builds.
    ///
    /// Makes the out dir where there is a source, asks what the compile commands want to know, prints the warnings, and
    /// asks a host that listens for the current folder; behind that are the lines of the variables that were read,
    /// where they are wanted. It is refused as `try_compile` is up to its first command, and where a line couldn't be
    /// printed. No command but those of questions is started. The build is as before.
    pub fn try_plan_compile<H: Host<W>>(
        &self,
        rt: &impl Wait,
        host: &mut H,
        output: &str,
    ) -> Result<CompilePlan, Error>
        ensures patient { H.patience host.new ≡ H.patience host.old }
        ensures extends { H.log host.new ≡ H.log host.old ++ part H.log host.old host.new }
        ensures asked { AsksByRun W.steady W.answer self.now (part H.log host.old host.new) }
        ensures childless { list_any is_of_children (part H.log host.old host.new) ≡ false }
        ensures outcome { ByPart H.log host.old host.new
            (PlanningEnds self.now (H.listens host.old) output.now result) }
    {
        self.plan_alone(rt, host, output)
    }

    /// Compiles the sources alone, and answers the paths of their objects, in the order in which the sources were
    /// added. Nothing is archived, and no link line printed; added objects don't count.
    ///
    /// Makes the out dir where there is a source, asks what the compile commands want to know, prints the warnings, and
    /// runs one compile command per source, as `try_compile` does, which tells more of seat and turns. Behind them are
    /// the lines of the variables that were read for them, where they are wanted. It is refused as that is, up to
    /// there, and where a line couldn't be printed. After a refusal every command that was started has ended or is left
    /// alone. The build is as before, and may be run again.
    pub fn try_compile_intermediates<H: Host<W>, J: Jobs>(
        &self,
        rt: &impl Wait,
        host: &mut H,
        jobs: &J,
        seat: &mut J::Seat,
        turns: u64,
    ) -> Result<Words, Error>
        requires fits { J.fits jobs.now seat.old }
        requires empty { J.held seat.old ≡ 0 }
        ensures fits { J.fits jobs.now seat.new }
        ensures empty { J.held seat.new ≡ 0 }
        ensures total { J.total seat.new ≡ J.total seat.old }
        ensures patient { H.patience host.new ≡ H.patience host.old }
        ensures extends { H.log host.new ≡ H.log host.old ++ part H.log host.old host.new }
        ensures asked { AsksByRun W.steady W.answer self.now (part H.log host.old host.new) }
        ensures objects { IfOk result (λ paths.
            paths ≡ paths_of (objects_of self.now.config self.now.env)) }

        // Ok: one planned command per source was started, and has ended with 0; the lines of the variables that were
        // read are last.
        ensures compiled { ByRun H.log H.patience J.total J.faults J.taken J.load turns
            host.old host.new seat.old seat.new (AreCompiled self.now (H.listens host.old) result) }

        // Each answer has its cause.
        ensures outcome { ByRun H.log H.patience J.total J.faults J.taken J.load turns
            host.old host.new seat.old seat.new
            (IntermediateEnds self.now (H.listens host.old) result) }
        ensures prefix { ByPart H.log host.old host.new (CompilesFirst self.now) }
        ensures settled { NothingRuns (part H.log host.old host.new) }
        ensures faults_last { FaultsEnd (part H.log host.old host.new) }
    {
        self.compile_alone(rt, host, jobs, seat, turns)
    }

    /// Compiles the sources and archives them, and then the added objects, into the library of `output`, a name such as
    /// `foo` or `libfoo.a`.
    ///
    /// Makes the out dir where there is a source, asks what the compile commands want to know, prints the warnings,
    /// runs one compile command per source, asks for the archiver, removes the old library, archives all objects,
    /// writes the index, and asks for and prints the link lines, and then the lines of the variables that were read, in
    /// the order of their bytes and each once, where they are wanted. The first archive command is tried in a form that
    /// not each archiver knows: where it is refused, the same objects are archived by the plain form. A host that
    /// listens is told each warning, also where none is printed, and asked for the current folder; then it is told each
    /// compile command right before its start, and before the link lines the warnings of the compiler that decides on
    /// the C++ library. Two or more compile commands run beside each other, each under a token of the pool. The seat is
    /// one of the pool and holds none, before and after. At most `turns` turns are made, each of which asks the host
    /// once for the news of the running children; `u64::MAX` is as good as no bound.
    ///
    /// Ok means that all of this was done, and nothing else. Else the first stages of it were, every command that was
    /// started has ended or is left alone, and the error is that of the refused settings, or of the event that ended
    /// the run; `ErrorKind` lists them. No archive command is run before each source was compiled, and where one failed
    /// the old library stays. Objects are not removed. The build is as before, and may be run again.
    pub fn try_compile<H: Host<W>, J: Jobs>(
        &self,
        rt: &impl Wait,
        host: &mut H,
        jobs: &J,
        seat: &mut J::Seat,
        turns: u64,
        output: &str,
    ) -> Result<(), Error>
        requires fits { J.fits jobs.now seat.old }
        requires empty { J.held seat.old ≡ 0 }
        ensures fits { J.fits jobs.now seat.new }
        ensures empty { J.held seat.new ≡ 0 }
        ensures total { J.total seat.new ≡ J.total seat.old }
        ensures patient { H.patience host.new ≡ H.patience host.old }
        ensures extends { H.log host.new ≡ H.log host.old ++ part H.log host.old host.new }
        ensures asked { AsksByRun W.steady W.answer self.now (part H.log host.old host.new) }

        // Ok: the library is built.
        ensures built { ByRun H.log H.patience J.total J.faults J.taken J.load turns
            host.old host.new seat.old seat.new
            (IsBuilt self.now (H.listens host.old) output.now result) }

        // Each answer has its cause, and what follows from it, sentence by sentence.
        ensures promises { ByRun H.log H.patience J.total J.faults J.taken J.load turns
            host.old host.new seat.old seat.new
            (Promises self.now (H.listens host.old) output.now result) }
        ensures settled { NothingRuns (part H.log host.old host.new) }
        ensures faults_last { FaultsEnd (part H.log host.old host.new) }
    {
        self.compile(rt, host, jobs, seat, Goal { output, turns })
    }
}
