// A run is opened: the host is given the warnings of the plan, and one that listens is asked for the current folder,
// which the messages of the commands name. The commands that compile its sources are made, and run.
ghost use Rattle.std.specs.Prelude.{◌≡◌, ◌≢◌, ◌+◌, ◌<◌, ◌^◌, [], ◌∷◌, ◌++◌, map, option_to_list, IfOk, IfErr, OnOk};
ghost use Rattle.std.specs.List.{flat_map, slice_get};
ghost use Rattle.std.specs.Option.{option_copied, option_map};
ghost use Rattle.cc_host.specs.Call.{part};
ghost use Rattle.cc_host.specs.CompileCommand.{compile_command};
ghost use Rattle.cc_text.specs.Words.{when};
ghost use Rattle.cc_host.specs.Part.Step.{Prints, Says};
ghost use Rattle.cc_host.specs.declared.event.LineKind.TheVariants.{Warning};
ghost use Rattle.cc_host.specs.declared.event.Message.TheVariants.{GeneralWarning};
ghost use Rattle.cc_plan.specs.Link.{printed_line};
ghost use Rattle.cc_plan.specs.Plan.{warning_line, warning_steps};
ghost use Rattle.cc_run.specs.Keeping.{IsIdle};
ghost use Rattle.cc_build.specs.Course.{OnCourse, Does};
ghost use Rattle.cc_build.specs.Kept.{Aside};
ghost use Rattle.cc_build.specs.Phases.{HereEnds, OpensEnd, CommandsEnd};
ghost use Rattle.cc_build.specs.Seen.{stages_seen, compiles_by, Adds};
ghost use Rattle.cc_build.specs.Stage.{calls, beside, compile_planned};

use crate::Error;
use crate::message::{host_error, or_no_memory};
use crate::reporting::Reporting;
use crate::several::Several;
use crate::stage::{Stage, alone, do_stages};
use crate::task::Task;
use cc_host::{Command, CompileCommand, Host, LineKind, Message, Role, World};
use cc_jobs::{Jobs, OneCaller};
use cc_plan::{Object, Plan, warning_line};
use cc_run::{Planned, Turns};
use cc_text::{Mem, Text, Words};
use std::alloc::Global;

// Adds the line of a warning, where lines are wanted.
#[tactic(auto, using(crate::proofs::Doing::seen_more))]
fn push_printed(stages: &mut Vec<Stage>, prints: bool, text: &str) -> Mem<()>
    ensures { OnOk result (Adds stages.old.items stages.new.items (calls
        (when prints (Prints Warning (printed_line (warning_line text.now)) ∷ [])))) }
{
    if prints {
        let line = warning_line(*stages.allocator(), text)?;
        stages.push(Stage::Print {
            kind: LineKind::Warning,
            line,
        })?;
    }
    Ok(())
}

// Adds the message of a warning, where the host listens.
#[tactic(auto, using(crate::proofs::Doing::seen_more))]
fn push_said(stages: &mut Vec<Stage>, listens: bool, text: &str) -> Mem<()>
    ensures { OnOk result (Adds stages.old.items stages.new.items
        (calls (when listens (Says (GeneralWarning text.now) ∷ [])))) }
{
    if listens {
        let text = Text::of(*stages.allocator(), text)?;
        stages.push(Stage::Say(Message::GeneralWarning(text)))?;
    }
    Ok(())
}

// Adds a warning: its line where lines are wanted, and its message where the host listens.
#[tactic(auto, using(crate::proofs::Doing::adds_both))]
fn push_warning(stages: &mut Vec<Stage>, prints: bool, listens: bool, text: &str) -> Mem<()>
    ensures { OnOk result
        (Adds stages.old.items stages.new.items (calls (warning_steps prints listens text.now))) }
{
    push_printed(stages, prints, text)?;
    push_said(stages, listens, text)?;
    Ok(())
}

/// The stages in which a host is given these warnings.
pub(crate) fn warnings_of(
    alloc: Global,
    prints: bool,
    listens: bool,
    texts: &Words,
) -> Mem<Vec<Stage>>
    ensures { IfOk result (λ stages. stages_seen stages.items
        ≡ calls (flat_map (warning_steps prints listens) texts.now)) }
{
    let mut stages = Vec::new(alloc);
    for text in texts.as_slice() {
        push_warning(&mut stages, prints, listens, text.as_str())?;
    }
    Ok(stages)
}

// The message of a command that compiles an object, where the current folder is known.
fn message_of(
    alloc: Global,
    here: Option<&str>,
    object: &Object,
    cmd: &Command,
) -> Mem<Option<CompileCommand>>
    ensures { IfOk result (λ message. message ≡ option_map
        (compile_command cmd.now object.now.src object.now.dst) (option_copied here.entry)) }
{
    match here {
        Some(folder) => {
            let (src, dst) = (object.src.as_str(), object.dst.as_str());
            Ok(Some(CompileCommand::new(alloc, cmd, src, dst, folder)?))
        },
        None => Ok(None),
    }
}

// The command at that place.
fn command_at(cmds: &[Command], place: usize) -> Option<&Command>
    ensures { option_copied result ≡ slice_get cmds.now place }
{
    cmds.get(place)
}

// Puts the command of an object behind others, where there is one.
fn push_compile(
    alloc: Global,
    planned: &mut Vec<Planned>,
    here: Option<&str>,
    object: &Object,
    cmd: Option<&Command>,
) -> Mem<()>
    ensures { OnOk result (planned.new.items ≡ planned.old.items
        ++ map (compile_planned (option_copied here.entry) object.now)
        (option_to_list (option_copied cmd.entry))) }
{
    match cmd {
        Some(cmd) => {
            let message = message_of(alloc, here, object, cmd)?;
            planned.push(Planned {
                role: Role::Compile,
                cmd: cmd.try_clone()?,
                message,
            })?;
            Ok(())
        },
        None => Ok(()),
    }
}

// The commands that compile objects, each with the one at its place.
#[tactic(auto, using(crate::proofs::SourceLaws::compiles_next))]
fn compiles_by(
    alloc: Global,
    here: Option<&str>,
    objects: &[Object],
    cmds: &[Command],
) -> Mem<Vec<Planned>>
    ensures { IfOk result (λ ps.
        ps.items ≡ compiles_by (option_copied here.entry) objects.now cmds.now) }
{
    let mut planned = Vec::new(alloc);
    for (place, object) in objects.iter().enumerate() {
        push_compile(alloc, &mut planned, here, object, command_at(cmds, place))?;
    }
    Ok(planned)
}

// The stages in which these commands run, beside each other where there is more than one. Memory is wanted only where
// there is one.
fn stages_beside(alloc: Global, cmds: Vec<Planned>) -> Mem<Vec<Stage>>
    ensures planned { IfOk result (λ stages. stages_seen stages.items ≡ beside cmds.items) }
    ensures wanted { IfErr result (λ _. beside cmds.items ≢ []) }
{
    if cmds.is_empty() {
        return Ok(Vec::new(alloc));
    }
    if cmds.len() < 2 {
        return alone(alloc, cmds);
    }
    let mut stages = Vec::new(alloc);
    stages.push(Stage::RunAll(Several { cmds }))?;
    Ok(stages)
}

/// Runs these commands, beside each other where there is more than one.
#[tactic(auto, using(crate::proofs::Keeping::aside_none))]
pub(crate) fn run_beside<W: World, H: Host<W>, J: Jobs>(
    reporting: Reporting,
    host: &mut H,
    jobs: &J,
    seat: &mut J::Seat,
    turns: &mut Turns,
    cmds: Vec<Planned>,
) -> Result<(), Error>
    requires idle { IsIdle J.fits J.held jobs.now seat.old }
    requires few { turns.old.left + turns.old.used < 2 ^ 64 }
    ensures idle { IsIdle J.fits J.held jobs.now seat.new }
    ensures total { J.total seat.new ≡ J.total seat.old }
    ensures aside { Aside H.log H.patience host.old host.new }
    ensures sum { turns.new.left + turns.new.used ≡ turns.old.left + turns.old.used }
    ensures outcome { OnCourse H.log H.patience J.total J.faults J.taken J.load
        turns.old.left turns.new.left
        host.old host.new seat.old seat.new (Does reporting.shows (beside cmds.items) result) }
{
    let stages = stages_beside(reporting.alloc, cmds)?;
    do_stages(reporting, host, jobs, seat, turns, &stages)
}

/// Asks for the current folder, where it is wanted: of a host that listens, and before commands that run in the
/// library's folder.
#[tactic(auto, using(cc_host::proofs::Parts::since_append))]
pub(crate) fn find_here<W: World, H: Host<W>>(
    alloc: Global,
    host: &mut H,
    is_wanted: bool,
) -> Result<Option<Text>, Error>
    ensures aside { Aside H.log H.patience host.old host.new }
    ensures outcome { HereEnds is_wanted result (part H.log host.old host.new) }
{
    if !is_wanted {
        return Ok(None);
    }
    match host.current_dir() {
        Ok(folder) => Ok(Some(folder)),
        Err(error) => Err(or_no_memory(host_error(alloc, error, ""))),
    }
}

// Gives the host these warnings, and asks it for the current folder where it listens. It takes no token.
#[tactic(auto, using(crate::proofs::Keeping::aside_none, crate::proofs::Keeping::aside_then))]
fn open<W: World, H: Host<W>>(
    task: &Task<'_>,
    host: &mut H,
    texts: &Words,
) -> Result<Option<Text>, Error>
    ensures aside { Aside H.log H.patience host.old host.new }
    ensures outcome { OpensEnd task.now texts.now result (part H.log host.old host.new) }
{
    let (alloc, listens) = (task.reporting.alloc, task.reporting.shows.listens);
    let stages = warnings_of(alloc, task.set.cargo_warnings, listens, texts)?;
    let (jobs, mut seat) = OneCaller::new(1);
    let mut turns = Turns { left: 0, used: 0 };
    do_stages(task.reporting, host, &jobs, &mut seat, &mut turns, &stages)?;
    find_here(alloc, host, listens)
}

// The folder, where it is known.
fn known(here: &Option<Text>) -> Option<&str>
    ensures { option_copied result ≡ here.now }
{
    match here {
        Some(folder) => Some(folder.as_str()),
        None => None,
    }
}

/// Gives the host the warnings of a plan, asks it for the current folder where it listens, and makes the commands that
/// compile these objects.
#[tactic(auto, using(crate::proofs::Keeping::aside_then))]
pub(crate) fn open_commands<W: World, H: Host<W>>(
    task: &Task<'_>,
    host: &mut H,
    plan: &Plan,
    objects: &[Object],
) -> Result<Vec<Planned>, Error>
    ensures aside { Aside H.log H.patience host.old host.new }
    ensures outcome { CommandsEnd task.now plan.now objects.now result
        (part H.log host.old host.new) }
{
    let here = open(task, host, &plan.warnings)?;
    let cmds = plan.compiles.as_slice();
    let commands = compiles_by(task.reporting.alloc, known(&here), objects, cmds)?;
    Ok(commands)
}
