// A run in two calls: it is planned and opened, and then the commands that are chosen are run.
ghost use Rattle.std.specs.Prelude.{◌≡◌, ◌++◌, [], ◌∷◌, ℕ, true, unwrap_or, IfOk, OnOk};
ghost use Rattle.std.specs.List.{slice_get};
ghost use Rattle.cc_text.specs.Words.{when};
ghost use Rattle.cc_host.specs.Call.{part};
ghost use Rattle.cc_host.specs.Question.{Holds};
ghost use Rattle.cc_plan.specs.Questions.{RunAsks};
ghost use Rattle.cc_run.specs.Keeping.{IsIdle};
ghost use Rattle.cc_build.specs.Build.{probes};
ghost use Rattle.cc_build.specs.Course.{OnCourse};
ghost use Rattle.cc_build.specs.Kept.{Asking};
ghost use Rattle.cc_build.specs.RunPlan.{IsRunPlan, PlanRunEnds, RunPlanEnds};
ghost use Rattle.cc_build.specs.Way.{chosen as those_chosen};

use crate::compiling::{run_parts, run_reads};
use crate::message::or_no_memory;
use crate::planning::open_run;
use crate::refusal::plan_error;
use crate::reporting::Reporting;
use crate::shows::shows_of;
use crate::task::{Shared, Task};
use crate::{Build, Error};
use cc_host::{CompileCommand, Host, World};
use cc_jobs::Jobs;
use cc_plan::{Sources, plan_sources};
use cc_run::{Planned, Shows, Turns};
use cc_text::Mem;
use cc_tool::Answers;
use std::alloc::Global;
use std::sync::Wait;

/// A compile run that is planned and opened, as a value: none of its commands was started yet.
#[derive(Drop)]
pub struct RunPlan {
    /// The names of the library, the out dir, and the sources with their objects, in the order in which they were
    /// added.
    pub sources: Sources,
    /// The command that compiles each source, in the same order, with the message for a host that listens.
    pub commands: Vec<Planned>,
    /// What of these commands is shown.
    pub shows: Shows,
}

fn message_again(message: &Option<CompileCommand>) -> Mem<Option<CompileCommand>>
    ensures { IfOk result (λ copy. copy ≡ message.now) }
{
    match message {
        Some(message) => Ok(Some(message.try_clone()?)),
        None => Ok(None),
    }
}

// The same command once more.
fn again(cmd: &Planned) -> Mem<Planned>
    ensures { IfOk result (λ copy. copy ≡ cmd.now) }
{
    Ok(Planned {
        role: cmd.role,
        cmd: cmd.cmd.try_clone()?,
        message: message_again(&cmd.message)?,
    })
}

// Whether the command at that place is chosen, as are all behind the last choice.
fn is_chosen(choices: &[bool], place: usize) -> bool
    ensures { result ≡ unwrap_or (slice_get choices.now place) true }
{
    match choices.get(place) {
        Some(is_chosen) => *is_chosen,
        None => true,
    }
}

// Puts a command behind others, where it is chosen.
fn push_chosen(chosen: &mut Vec<Planned>, is_chosen: bool, cmd: &Planned) -> Mem<()>
    ensures { OnOk result (chosen.new.items ≡ chosen.old.items ++ when is_chosen (cmd.now ∷ [])) }
{
    if is_chosen {
        chosen.push(again(cmd)?)?;
    }
    Ok(())
}

fn some_of(alloc: Global, cmds: &[Planned], choices: &[bool]) -> Mem<Vec<Planned>>
    ensures { IfOk result (λ ps. ps.items ≡ those_chosen choices.now cmds.now) }
{
    let mut chosen = Vec::new(alloc);
    for (place, cmd) in cmds.iter().enumerate() {
        push_chosen(&mut chosen, is_chosen(choices, place), cmd)?;
    }
    Ok(chosen)
}

// Those of these commands that are chosen. Where there is no choice they are themselves, and no memory is wanted.
fn chosen_of(alloc: Global, cmds: Vec<Planned>, choices: &[bool]) -> Mem<Vec<Planned>>
    ensures { IfOk result (λ ps. ps.items ≡ those_chosen choices.now cmds.items) }
{
    if choices.is_empty() {
        return Ok(cmds);
    }
    some_of(alloc, cmds.as_slice(), choices)
}

impl<W: World> Build<W> {
    /// Plans a compile run for the library of `output`, and opens it, as `try_compile` does: it makes the out dir where
    /// there is a source, asks what the compile commands want to know, gives the host the warnings, and asks one that
    /// listens for the current folder. `run_plan` does the rest. A caller that asks more in between, as whether an
    /// object exists, does so with the same answers, since no question is asked twice.
    ///
    /// Refused as `try_compile` is up to its first command. No command but those of questions is started. The build is
    /// as before.
    #[tactic(auto, using(cc_host::proofs::Parts::since_append))]
    pub fn plan_run<H: Host<W>>(
        &self,
        rt: &impl Wait,
        host: &mut H,
        output: &str,
        answers: &mut Answers,
    ) -> Result<RunPlan, Error>
        ensures asks { Asking W.steady W.answer (probes self.now)
            (RunAsks self.now.config self.now.env) H.log H.patience
            host.old host.new answers.old answers.new }
        ensures planned { IfOk result (IsRunPlan self.now output.now) }
        ensures outcome { Holds answers.new (λ look. PlanRunEnds self.now (H.listens host.old)
            output.now result look (part H.log host.old host.new)) }
    {
        let (alloc, set, env) = (self.alloc, &self.config, &self.env);
        let shows = shows_of(set, env, host.listens());
        let sources = match plan_sources(alloc, set, env, output) {
            Ok(sources) => sources,
            Err(error) => return Err(or_no_memory(plan_error(alloc, set, env, output, error))),
        };
        let task = Task {
            reporting: Reporting { alloc, shows },
            set,
            env,
            output,
        };
        match open_run(rt, &task, host, &self.caches, answers, &sources) {
            Ok(commands) => Ok(RunPlan {
                sources,
                commands,
                shows,
            }),
            Err(error) => Err(error),
        }
    }

    /// Runs the commands of a plan that are chosen, archives the objects of all sources and the added ones, and prints
    /// the lines for Cargo, as `try_compile` does. A command whose place is behind the last choice is chosen; where
    /// there is no choice all are.
    ///
    /// At most `turns` turns are made. Refused as `try_compile` is from its first command on. The build is as before.
    #[tactic(auto, using(cc_host::proofs::Parts::since_append))]
    pub fn run_plan<H: Host<W>, J: Jobs>(
        &self,
        rt: &impl Wait,
        host: &mut H,
        jobs: &J,
        seat: &mut J::Seat,
        turns: u64,
        output: &str,
        plan: RunPlan,
        choices: &[bool],
        answers: &mut Answers,
    ) -> Result<(), Error>
        requires idle { IsIdle J.fits J.held jobs.now seat.old }
        requires planned { IsRunPlan self.now output.now plan }
        ensures idle { IsIdle J.fits J.held jobs.now seat.new }
        ensures total { J.total seat.new ≡ J.total seat.old }
        ensures asks { Asking W.steady W.answer (probes self.now)
            (RunAsks self.now.config self.now.env) H.log H.patience
            host.old host.new answers.old answers.new }
        ensures outcome { Holds answers.new (λ look. (left : ℕ) × OnCourse
            H.log H.patience J.total J.faults J.taken J.load turns left
            host.old host.new seat.old seat.new
            (RunPlanEnds self.now output.now plan choices.now result look)) }
    {
        let cmds = chosen_of(self.alloc, plan.commands, choices)?;
        let set = &self.config;
        let shared = Shared {
            task: Task {
                reporting: Reporting {
                    alloc: self.alloc,
                    shows: plan.shows,
                },
                set,
                env: &self.env,
                output,
            },
            jobs,
            caches: &self.caches,
            sources: &plan.sources,
            reads: run_reads(set),
        };
        let mut left = Turns {
            left: turns,
            used: 0,
        };
        run_parts(rt, &shared, host, seat, &mut left, cmds, answers)
    }
}
