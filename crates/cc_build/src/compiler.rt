// The compiler of a build.
ghost use Rattle.std.specs.Prelude.{◌≡◌, ◌++◌, [], false, IfOk};
ghost use Rattle.std.specs.List.{list_any};
ghost use Rattle.cc_host.specs.Call.{part, ByAnswers};
ghost use Rattle.cc_host.specs.Question.{answers};
ghost use Rattle.cc_plan.specs.Asking.{is_of_children};
ghost use Rattle.cc_flags.specs.Given.{probe_folder};
ghost use Rattle.cc_plan.specs.Questions.{PlanAsks};
ghost use Rattle.cc_build.specs.Compiler.{IsTool, ToolEnds, CompilerEnds};
ghost use Rattle.cc_build.specs.Course.{ByPart};
ghost use Rattle.cc_tool.specs.Asked.{Asked};

use crate::Error;
use crate::message::or_no_memory;
use crate::refusal::plan_error;
use crate::reruns::tell;
use crate::task::Task;
use cc_host::{Host, World};
use cc_plan::{Reads, Sight, probe_folder, tool_of};
use cc_tool::{Answers, Caches, Tool};
use std::sync::Wait;

/// The planned tool, by questions to the host, the first of their call. Prints its warnings.
#[tactic(auto, using(cc_host::proofs::Parts::since_append))]
pub(crate) fn compiler<W: World, H: Host<W>>(
    rt: &impl Wait,
    task: &Task<'_>,
    caches: &Caches<W>,
    host: &mut H,
    known: &mut Answers,
) -> Result<Tool, Error>
    requires fresh { known.old ≡ [] }
    ensures answered { known.new ≡ answers (part H.log host.old host.new) }
    ensures patient { H.patience host.new ≡ H.patience host.old }
    ensures extends { H.log host.new ≡ H.log host.old ++ part H.log host.old host.new }
    ensures asked { Asked W.steady W.answer (probe_folder task.now.set.now task.now.env.now)
        (PlanAsks task.now.set.now task.now.env.now) (part H.log host.old host.new) }
    ensures childless { list_any is_of_children (part H.log host.old host.new) ≡ false }
    ensures tool { IfOk result (λ tool. ByAnswers H.log host.old host.new
        (IsTool task.now.set.now task.now.env.now tool)) }
    ensures outcome { ByPart H.log host.old host.new
        (ToolEnds task.now.set.now task.now.env.now (H.listens host.old) result) }
{
    let (alloc, set, env) = (task.reporting.alloc, task.set, task.env);
    let mut sight = Sight {
        host,
        caches,
        answers: known,
        dir: probe_folder(set, env),
    };
    match tool_of(rt, alloc, set, env, &mut sight) {
        Ok(tool) => Ok(tool),
        Err(error) => Err(or_no_memory(plan_error(alloc, set, env, "", error))),
    }
}

/// The same of a call that does nothing else: behind it the lines of the variables are printed that it read.
#[tactic(auto, using(cc_host::proofs::Parts::since_append))]
pub(crate) fn told_compiler<W: World, H: Host<W>>(
    rt: &impl Wait,
    task: &Task<'_>,
    caches: &Caches<W>,
    host: &mut H,
) -> Result<Tool, Error>
    ensures patient { H.patience host.new ≡ H.patience host.old }
    ensures extends { H.log host.new ≡ H.log host.old ++ part H.log host.old host.new }
    ensures asked { Asked W.steady W.answer (probe_folder task.now.set.now task.now.env.now)
        (PlanAsks task.now.set.now task.now.env.now) (part H.log host.old host.new) }
    ensures childless { list_any is_of_children (part H.log host.old host.new) ≡ false }
    ensures tool { IfOk result (λ tool. ByAnswers H.log host.old host.new
        (IsTool task.now.set.now task.now.env.now tool)) }
    ensures outcome { ByPart H.log host.old host.new
        (CompilerEnds task.now.set.now task.now.env.now (H.listens host.old) result) }
{
    let mut known = Answers::new(task.reporting.alloc);
    let reads = Reads {
        disabled: false,
        debug: false,
        compiler: true,
        assembler: false,
        flag: false,
        archiver: false,
        ranlib: false,
        links: false,
    };
    let tool = compiler(rt, task, caches, host, &mut known)?;
    tell(rt, task, caches, reads, host, &mut known)?;
    Ok(tool)
}
