// The tools of archives of a build.
ghost use Rattle.std.specs.Prelude.{◌≡◌, ◌++◌, [], false, IfOk, IfErr};
ghost use Rattle.std.specs.List.{list_any};
ghost use Rattle.cc_host.specs.Call.{part, ByAnswers};
ghost use Rattle.cc_host.specs.Question.{answers};
ghost use Rattle.cc_plan.specs.Asking.{is_of_children};
ghost use Rattle.cc_flags.specs.Given.{probe_folder};
ghost use Rattle.cc_plan.specs.Questions.{ArchiverAsks, RanlibAsks};
ghost use Rattle.cc_plan.specs.Refusal.{archiver_refusal, ranlib_refusal};
ghost use Rattle.cc_tool.specs.Asked.{Asked};
ghost use Rattle.cc_build.specs.Course.{ByPart};
ghost use Rattle.cc_build.specs.Questions.{AsksOnly};
ghost use Rattle.cc_build.specs.Tools.{IsArchiver, IsRanlib, IsUnfound, ArchiverEnds, RanlibEnds};

use crate::Error;
use crate::message::or_no_memory;
use crate::refusal::plan_error;
use crate::reruns::tell;
use crate::task::Task;
use cc_host::{Command, Host, World};
use cc_plan::{Reads, Sight, archiver_of, probe_folder, ranlib_of};
use cc_tool::{Answers, Caches};
use std::sync::Wait;

/// The command of the planned archiver, by questions to the host, the first of their call.
#[tactic(auto, using(cc_host::proofs::Parts::since_append))]
fn archiver<W: World, H: Host<W>>(
    rt: &impl Wait,
    task: &Task<'_>,
    caches: &Caches<W>,
    host: &mut H,
    known: &mut Answers,
) -> Result<Command, Error>
    requires fresh { known.old ≡ [] }
    ensures answered { known.new ≡ answers (part H.log host.old host.new) }
    ensures patient { H.patience host.new ≡ H.patience host.old }
    ensures extends { H.log host.new ≡ H.log host.old ++ part H.log host.old host.new }
    ensures asked { Asked W.steady W.answer (probe_folder task.now.set.now task.now.env.now)
        (ArchiverAsks task.now.set.now task.now.env.now) (part H.log host.old host.new) }
    ensures quiet { AsksOnly (part H.log host.old host.new) }
    ensures archiver { IfOk result (λ cmd. ByAnswers H.log host.old host.new
        (IsArchiver task.now.set.now task.now.env.now cmd)) }
    ensures refused { IfErr result (λ e. ByAnswers H.log host.old host.new
        (IsUnfound (archiver_refusal task.now.set.now task.now.env.now)
        task.now.set.now task.now.env.now e)) }
{
    let (alloc, set, env) = (task.reporting.alloc, task.set, task.env);
    let mut sight = Sight {
        host,
        caches,
        answers: known,
        dir: probe_folder(set, env),
    };
    match archiver_of(rt, alloc, set, env, &mut sight) {
        Ok(archiver) => Ok(archiver.cmd),
        Err(error) => Err(or_no_memory(plan_error(alloc, set, env, "", error))),
    }
}

/// The same of a call that does nothing else: behind it the lines of the variables are printed that it read.
#[tactic(auto, using(cc_host::proofs::Parts::since_append))]
pub(crate) fn told_archiver<W: World, H: Host<W>>(
    rt: &impl Wait,
    task: &Task<'_>,
    caches: &Caches<W>,
    host: &mut H,
) -> Result<Command, Error>
    ensures patient { H.patience host.new ≡ H.patience host.old }
    ensures extends { H.log host.new ≡ H.log host.old ++ part H.log host.old host.new }
    ensures asked { Asked W.steady W.answer (probe_folder task.now.set.now task.now.env.now)
        (ArchiverAsks task.now.set.now task.now.env.now) (part H.log host.old host.new) }
    ensures childless { list_any is_of_children (part H.log host.old host.new) ≡ false }
    ensures archiver { IfOk result (λ cmd. ByAnswers H.log host.old host.new
        (IsArchiver task.now.set.now task.now.env.now cmd)) }
    ensures outcome { ByPart H.log host.old host.new
        (ArchiverEnds task.now.set.now task.now.env.now result) }
{
    let mut known = Answers::new(task.reporting.alloc);
    let reads = Reads {
        disabled: false,
        debug: false,
        compiler: false,
        assembler: false,
        flag: false,
        archiver: true,
        ranlib: false,
        links: false,
    };
    let cmd = archiver(rt, task, caches, host, &mut known)?;
    tell(rt, task, caches, reads, host, &mut known)?;
    Ok(cmd)
}

/// The command of the planned tool that writes an archive's index, by questions to the host, the first of their call.
#[tactic(auto, using(cc_host::proofs::Parts::since_append))]
fn ranlib<W: World, H: Host<W>>(
    rt: &impl Wait,
    task: &Task<'_>,
    caches: &Caches<W>,
    host: &mut H,
    known: &mut Answers,
) -> Result<Command, Error>
    requires fresh { known.old ≡ [] }
    ensures answered { known.new ≡ answers (part H.log host.old host.new) }
    ensures patient { H.patience host.new ≡ H.patience host.old }
    ensures extends { H.log host.new ≡ H.log host.old ++ part H.log host.old host.new }
    ensures asked { Asked W.steady W.answer (probe_folder task.now.set.now task.now.env.now)
        (RanlibAsks task.now.set.now task.now.env.now) (part H.log host.old host.new) }
    ensures quiet { AsksOnly (part H.log host.old host.new) }
    ensures ranlib { IfOk result (λ cmd. ByAnswers H.log host.old host.new
        (IsRanlib task.now.set.now task.now.env.now cmd)) }
    ensures refused { IfErr result (λ e. ByAnswers H.log host.old host.new
        (IsUnfound (ranlib_refusal task.now.set.now task.now.env.now)
        task.now.set.now task.now.env.now e)) }
{
    let (alloc, set, env) = (task.reporting.alloc, task.set, task.env);
    let mut sight = Sight {
        host,
        caches,
        answers: known,
        dir: probe_folder(set, env),
    };
    match ranlib_of(rt, alloc, set, env, &mut sight) {
        Ok(cmd) => Ok(cmd),
        Err(error) => Err(or_no_memory(plan_error(alloc, set, env, "", error))),
    }
}

/// The same of a call that does nothing else: behind it the lines of the variables are printed that it read.
#[tactic(auto, using(cc_host::proofs::Parts::since_append))]
pub(crate) fn told_ranlib<W: World, H: Host<W>>(
    rt: &impl Wait,
    task: &Task<'_>,
    caches: &Caches<W>,
    host: &mut H,
) -> Result<Command, Error>
    ensures patient { H.patience host.new ≡ H.patience host.old }
    ensures extends { H.log host.new ≡ H.log host.old ++ part H.log host.old host.new }
    ensures asked { Asked W.steady W.answer (probe_folder task.now.set.now task.now.env.now)
        (RanlibAsks task.now.set.now task.now.env.now) (part H.log host.old host.new) }
    ensures childless { list_any is_of_children (part H.log host.old host.new) ≡ false }
    ensures ranlib { IfOk result (λ cmd. ByAnswers H.log host.old host.new
        (IsRanlib task.now.set.now task.now.env.now cmd)) }
    ensures outcome { ByPart H.log host.old host.new
        (RanlibEnds task.now.set.now task.now.env.now result) }
{
    let mut known = Answers::new(task.reporting.alloc);
    let reads = Reads {
        disabled: false,
        debug: false,
        compiler: false,
        assembler: false,
        flag: false,
        archiver: false,
        ranlib: true,
        links: false,
    };
    let cmd = ranlib(rt, task, caches, host, &mut known)?;
    tell(rt, task, caches, reads, host, &mut known)?;
    Ok(cmd)
}
