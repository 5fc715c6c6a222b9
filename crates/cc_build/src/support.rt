// Whether the compiler of a build takes a flag.
ghost use Rattle.std.specs.Prelude.{◌≡◌, ◌++◌, ◌⊎◌, [], Some, false, IfOk, IfErr, OnOk};
ghost use Rattle.std.specs.List.{list_any};
ghost use Rattle.cc_plan.specs.Asking.{is_of_children};
ghost use Rattle.cc_build.specs.Course.{ByPart};
ghost use Rattle.cc_build.specs.Error.{no_memory};
ghost use Rattle.cc_build.specs.FlagSupport as spec;
ghost use Rattle.cc_host.specs.Call.{part, ByAnswers};
ghost use Rattle.cc_host.specs.Question.{answers, is_yes as yes};
ghost use Rattle.cc_build.specs.Build.{AsksByFlag, build_in};

use crate::message::or_no_memory;
use crate::refusal::plan_error;
use crate::reruns::tell;
use crate::task::Task;
use crate::{Build, Error, ErrorKind};
use cc_host::{Host, Verdict, World, is_yes};
use cc_plan::{FlagSupport, Reads, Sight, flag_support, probe_folder};
use cc_text::{Mem, Text, quoted};
use cc_tool::{Answers, Caches};
use std::alloc::Global;
use std::sync::Wait;

fn is_untried(verdict: &Verdict) -> bool
    ensures { result ≡ spec.is_untried verdict.now }
{
    matches!(verdict, Verdict::Unanswered | Verdict::Missing)
}

// The compiler at a path couldn't try a flag.
#[tactic(auto, unfolding(crate::specs::FlagSupport::untried_error))]
fn untried(alloc: Global, path: &str) -> Mem<Error>
    ensures { IfOk result (λ e. e ≡ spec.untried_error path.now) }
{
    let subject = Text::of(alloc, path)?;
    let mut message = Text::of(alloc, "the flag check of ")?;
    let name = quoted(alloc, path)?;
    message.push_str(name.as_str())?;
    message.push_str(" could not be run")?;
    Ok(Error::new(ErrorKind::IOError, subject, message))
}

// What a verdict on a flag answers.
fn verdict_answer(alloc: Global, support: &FlagSupport) -> Result<bool, Error>
    ensures yes { IfOk result (λ b. b ≡ yes support.now.verdict) }
    ensures tried { OnOk result (spec.is_untried support.now.verdict ≡ false) }
    ensures untried { IfErr result (λ e. (e ≡ no_memory)
        ⊎ (spec.verdict_error support.now.compiler.choice.path support.now.verdict ≡ Some e)) }
{
    if is_untried(&support.verdict) {
        let path = support.compiler.choice.path.as_str();
        return Err(or_no_memory(untried(alloc, path)));
    }
    Ok(is_yes(&support.verdict))
}

// The verdict on a flag, by the first questions of the call. Prints the warnings of how the compiler was found.
#[tactic(auto, using(cc_host::proofs::Parts::since_append))]
fn support<W: World, H: Host<W>>(
    rt: &impl Wait,
    task: &Task<'_>,
    caches: &Caches<W>,
    host: &mut H,
    flag: &str,
    known: &mut Answers,
) -> Result<bool, Error>
    requires fresh { known.old ≡ [] }
    ensures answered { known.new ≡ answers (part H.log host.old host.new) }
    ensures patient { H.patience host.new ≡ H.patience host.old }
    ensures extends { H.log host.new ≡ H.log host.old ++ part H.log host.old host.new }
    ensures asked { AsksByFlag W.steady W.answer
        (build_in task.now.set.now task.now.env.now) flag.now (part H.log host.old host.new) }
    ensures childless { list_any is_of_children (part H.log host.old host.new) ≡ false }
    ensures supported { IfOk result (λ b. ByAnswers H.log host.old host.new
        (spec.IsVerdict task.now.set.now task.now.env.now flag.now b)) }
    ensures outcome { ByPart H.log host.old host.new
        (spec.SupportEnds task.now.set.now task.now.env.now (H.listens host.old)
        flag.now result) }
{
    let (alloc, set, env) = (task.reporting.alloc, task.set, task.env);
    let mut sight = Sight {
        host,
        caches,
        answers: known,
        dir: probe_folder(set, env),
    };
    match flag_support(rt, alloc, set, env, flag, &mut sight) {
        Ok(support) => verdict_answer(alloc, &support),
        Err(error) => Err(or_no_memory(plan_error(alloc, set, env, "", error))),
    }
}

// The same, and then the lines of the variables that were read.
#[tactic(auto, using(cc_host::proofs::Parts::since_append))]
fn told_support<W: World, H: Host<W>>(
    rt: &impl Wait,
    task: &Task<'_>,
    caches: &Caches<W>,
    host: &mut H,
    flag: &str,
) -> Result<bool, Error>
    ensures patient { H.patience host.new ≡ H.patience host.old }
    ensures extends { H.log host.new ≡ H.log host.old ++ part H.log host.old host.new }
    ensures asked { AsksByFlag W.steady W.answer
        (build_in task.now.set.now task.now.env.now) flag.now (part H.log host.old host.new) }
    ensures childless { list_any is_of_children (part H.log host.old host.new) ≡ false }
    ensures supported { IfOk result (λ b. ByAnswers H.log host.old host.new
        (spec.IsVerdict task.now.set.now task.now.env.now flag.now b)) }
    ensures outcome { ByPart H.log host.old host.new
        (spec.TrialEnds task.now.set.now task.now.env.now (H.listens host.old)
        flag.now result) }
{
    let mut known = Answers::new(task.reporting.alloc);
    let reads = Reads {
        disabled: false,
        debug: false,
        compiler: false,
        assembler: false,
        flag: true,
        archiver: false,
        ranlib: false,
        links: false,
    };
    let answer = support(rt, task, caches, host, flag, &mut known)?;
    tell(rt, task, caches, reads, host, &mut known)?;
    Ok(answer)
}

impl<W: World> Build<W> {
    /// Whether the compiler of this build takes a flag, by compiling a source of one line with it and no other flag of
    /// the build, in the out dir or, where none is set, the folder for temporary files; in a relative folder no flag is
    /// taken. False also where the flag is `/link` and the compiler Visual Studio's, since it is for the linker. Prints
    /// the warnings of how the compiler was found, where they are on, and then the lines of the variables that were
    /// read, where those are wanted. The verdict is kept, and serves later calls of this build and its clones.
    ///
    /// Refused with IOError where the compiler is missing, could not be asked, or a line could not be printed; with the
    /// error of the settings where the target or the host is set nowhere, the target isn't known, or the command that
    /// tries the flag would be refused; and for memory. The build is as before; what was asked until then is kept, and
    /// no file stays.
    #[tactic(auto, using(cc_host::proofs::Parts::since_append))]
    pub fn is_flag_supported<H: Host<W>>(
        &self,
        rt: &impl Wait,
        host: &mut H,
        flag: &str,
    ) -> Result<bool, Error>
        ensures extends { H.log host.new ≡ H.log host.old ++ part H.log host.old host.new }
        ensures asked { AsksByFlag W.steady W.answer self.now flag.now
            (part H.log host.old host.new) }
        ensures childless { list_any is_of_children (part H.log host.old host.new) ≡ false }
        ensures supported { IfOk result (λ b. ByAnswers H.log host.old host.new
            (spec.IsVerdict self.now.config self.now.env flag.now b)) }
        ensures outcome { ByPart H.log host.old host.new
            (spec.TrialEnds self.now.config self.now.env (H.listens host.old) flag.now result) }
    {
        told_support(rt, &self.task(host.listens()), &self.caches, host, flag)
    }
}
