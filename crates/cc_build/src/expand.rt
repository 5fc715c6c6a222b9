// A source that is expanded.
ghost use Rattle.std.specs.Prelude.{◌≡◌, ◌++◌, ◌⊎◌, [], Some, None, false, IfOk, IfErr, OnOk};
ghost use Rattle.std.specs.List.{list_any};
ghost use Rattle.std.specs.Option.{option_copied};
ghost use Rattle.cc_host.specs.Call.{part};
ghost use Rattle.cc_host.specs.Question.{answers};
ghost use Rattle.cc_plan.specs.Asking.{is_of_children};
ghost use Rattle.cc_build.specs.Build.{AsksByPlan, build_in};
ghost use Rattle.cc_build.specs.Course.{ByPart};
ghost use Rattle.cc_build.specs.Error.{no_memory};
ghost use Rattle.cc_build.specs.Expand as spec;
ghost use Rattle.cc_build.specs.Kept.{Aside};
ghost use Rattle.cc_build.specs.Promises.{FaultsEnd};
ghost use Rattle.cc_build.specs.Shows.{shows_of};

use crate::compiler::compiler;
use crate::message::or_no_memory;
use crate::refusal::{argument_error, disabled, source_at};
use crate::reporting::Reporting;
use crate::reruns::tell;
use crate::task::Task;
use crate::{Build, Error};
use cc_env::BuildEnv;
use cc_host::{Host, Role, World};
use cc_plan::{ArgumentCause, BuildConfig, Reads, expand_command, is_disabled};
use cc_run::{Planned, run_output};
use cc_text::{Bytes, Mem, ToolFamily, file_name, is_cl};
use cc_tool::{Answers, Caches, Tool};
use std::alloc::Global;
use std::slice;
use std::sync::Wait;

// The checks before: the number of sources, and whether commands may run.
fn check_expand(alloc: Global, set: &BuildConfig, env: &BuildEnv) -> Result<(), Error>
    ensures allowed { OnOk result (spec.unexpanded_error set.now env.now ≡ None) }
    ensures refused { IfErr result (λ e. (e ≡ no_memory)
        ⊎ (spec.unexpanded_error set.now env.now ≡ Some e)) }
{
    if set.files.len() != 1 {
        let cause = ArgumentCause::FileCount;
        return Err(or_no_memory(argument_error(alloc, set, env, "", cause)));
    }
    if is_disabled(env) {
        return Err(or_no_memory(disabled(alloc)));
    }
    Ok(())
}

// The line of a standard error that is no warning: Visual Studio's compiler names the source there.
fn ignored_line(family: ToolFamily, source: &str) -> Option<&[u8]>
    ensures { option_copied result ≡ spec.ignored_line family source.now }
{
    if !is_cl(family) {
        return None;
    }
    match file_name(source) {
        Some(name) => Some(name.as_bytes()),
        None => None,
    }
}

// The command that expands the source, to be run.
fn expansion(alloc: Global, set: &BuildConfig, tool: &Tool) -> Mem<Planned>
    ensures { IfOk result (λ p. p ≡ spec.expansion set.now tool.now) }
{
    let cmd = expand_command(alloc, set, tool, source_at(set, 0))?;
    Ok(Planned {
        role: Role::Expand,
        cmd,
        message: None,
    })
}

// Runs a command to its end, and gives its standard output.
#[tactic(auto, using(cc_host::proofs::Parts::since_append))]
fn output_of<W: World, H: Host<W>>(
    reporting: Reporting,
    host: &mut H,
    cmd: &Planned,
    ignored: Option<&[u8]>,
) -> Result<Bytes, Error>
    ensures aside { Aside H.log H.patience host.old host.new }
    ensures outcome { spec.Gives reporting.shows cmd.now (option_copied ignored.entry) result
        (part H.log host.old host.new) }
{
    match run_output(reporting.alloc, host, cmd, &reporting.shows, ignored) {
        Ok(bytes) => Ok(bytes),
        Err(e) => Err(Error::of_run(reporting.alloc, e, slice::from_ref(cmd))),
    }
}

// Expands the source with this tool.
fn expand_by<W: World, H: Host<W>>(
    reporting: Reporting,
    host: &mut H,
    set: &BuildConfig,
    tool: &Tool,
) -> Result<Bytes, Error>
    ensures aside { Aside H.log H.patience host.old host.new }
    ensures outcome { spec.Gives reporting.shows (spec.expansion set.now tool.now)
        (spec.ignored_line tool.now.family (spec.source_of set.now)) result
        (part H.log host.old host.new) }
{
    match expansion(reporting.alloc, set, tool) {
        Ok(cmd) => {
            let ignored = ignored_line(tool.family(), source_at(set, 0));
            output_of(reporting, host, &cmd, ignored)
        },
        Err(memory) => Err(Error::from(memory)),
    }
}

// Checks the build, finds its compiler by the first questions of the call, prints the warnings of its plan, and expands
// the source.
#[tactic(auto, using(cc_host::proofs::Parts::since_append))]
fn expand_source<W: World, H: Host<W>>(
    rt: &impl Wait,
    task: &Task<'_>,
    caches: &Caches<W>,
    host: &mut H,
    known: &mut Answers,
) -> Result<Bytes, Error>
    requires fresh { known.old ≡ [] }
    requires shows { task.now.reporting.shows
        ≡ shows_of task.now.set.now task.now.env.now (H.listens host.old) }
    ensures answered { known.new ≡ answers (part H.log host.old host.new) }
    ensures patient { H.patience host.new ≡ H.patience host.old }
    ensures extends { H.log host.new ≡ H.log host.old ++ part H.log host.old host.new }
    ensures asked { AsksByPlan W.steady W.answer
        (build_in task.now.set.now task.now.env.now) (part H.log host.old host.new) }
    ensures childless { list_any is_of_children (part H.log host.old host.new) ≡ false }
    ensures outcome { ByPart H.log host.old host.new
        (spec.ExpandEnds (build_in task.now.set.now task.now.env.now)
        (H.listens host.old) result) }
{
    check_expand(task.reporting.alloc, task.set, task.env)?;
    let tool = compiler(rt, task, caches, host, known)?;
    expand_by(task.reporting, host, task.set, &tool)
}

// The same, and then the lines of the variables that were read.
#[tactic(auto, using(cc_host::proofs::Parts::since_append))]
fn told_expand<W: World, H: Host<W>>(
    rt: &impl Wait,
    task: &Task<'_>,
    caches: &Caches<W>,
    host: &mut H,
) -> Result<Bytes, Error>
    requires shows { task.now.reporting.shows
        ≡ shows_of task.now.set.now task.now.env.now (H.listens host.old) }
    ensures patient { H.patience host.new ≡ H.patience host.old }
    ensures extends { H.log host.new ≡ H.log host.old ++ part H.log host.old host.new }
    ensures asked { AsksByPlan W.steady W.answer
        (build_in task.now.set.now task.now.env.now) (part H.log host.old host.new) }
    ensures childless { list_any is_of_children (part H.log host.old host.new) ≡ false }
    ensures outcome { ByPart H.log host.old host.new
        (spec.ExpandedEnds (build_in task.now.set.now task.now.env.now)
        (H.listens host.old) result) }
{
    let mut known = Answers::new(task.reporting.alloc);
    let reads = Reads {
        disabled: true,
        debug: true,
        compiler: true,
        assembler: false,
        flag: false,
        archiver: false,
        ranlib: false,
        links: false,
    };
    let output = expand_source(rt, task, caches, host, &mut known)?;
    tell(rt, task, caches, reads, host, &mut known)?;
    Ok(output)
}

impl<W: World> Build<W> {
    /// Expands the source: runs the compiler with `-E` on it, and answers the bytes of its standard output, as they
    /// are. The build has one source alone. To find the compiler it is asked as `try_get_compiler` does, and the
    /// warnings of its plan are printed; then the command is run to its end, and the lines of its standard error are
    /// printed as warnings, however it ended, where they are on. The line in which Visual Studio's compiler names the
    /// source is left out. Last are the lines of the variables that were read for it, where they are wanted.
    ///
    /// Refused, in this order, where there is no source or more than one (InvalidArgument), and where no command may
    /// run (Disabled): nothing is asked or run then. Then as `try_get_compiler` is; where the compiler is missing
    /// (ToolNotFound), couldn't be run or ended with another status than 0 (ToolExecError), its output is lost then;
    /// where a line couldn't be printed; and for memory. The build is as before; what was asked until then is kept, and
    /// no file stays.
    #[tactic(auto, using(cc_host::proofs::Parts::since_append))]
    pub fn try_expand<H: Host<W>>(&self, rt: &impl Wait, host: &mut H) -> Result<Bytes, Error>
        ensures patient { H.patience host.new ≡ H.patience host.old }
        ensures extends { H.log host.new ≡ H.log host.old ++ part H.log host.old host.new }
        ensures asked { AsksByPlan W.steady W.answer self.now (part H.log host.old host.new) }
        ensures childless { list_any is_of_children (part H.log host.old host.new) ≡ false }
        ensures outcome { ByPart H.log host.old host.new
            (spec.ExpandedEnds self.now (H.listens host.old) result) }
        ensures prefix { ByPart H.log host.old host.new (spec.ExpandsFirst self.now) }
        ensures faults_last { FaultsEnd (part H.log host.old host.new) }
    {
        told_expand(rt, &self.task(host.listens()), &self.caches, host)
    }
}
