// The library: its commands, and how it is written.
ghost use Rattle.std.specs.Prelude.{◌≡◌, ◌+◌, ◌<◌, ◌^◌, [], ◌∷◌, ◌++◌, false, unwrap_or, IfOk, IfErr, OnOk};
ghost use Rattle.cc_host.specs.Call.{part};
ghost use Rattle.cc_host.specs.Part.Step.{Removes};
ghost use Rattle.cc_plan.specs.LibForm.{has_one_form as has_one_form_of};
ghost use Rattle.cc_plan.specs.Libtool.{listed};
ghost use Rattle.cc_run.specs.Keeping.{IsIdle};
ghost use Rattle.cc_build.specs.Course.{OnCourse, CallsEnd};
ghost use Rattle.cc_build.specs.Kept.{Aside};
ghost use Rattle.cc_build.specs.Phases.{ReadyEnds, Begins, BeginStops, WriteEnds};
ghost use Rattle.cc_build.specs.Seen.{Adds, stages_seen, commands_for, copying_steps};
ghost use Rattle.cc_build.specs.Stage.{calls, in_turn, behind_first as behind_first_of, writings};
ghost use Rattle.cc_build.specs.Way.{writing_of};
ghost use Rattle.cc_target.specs.Targets.{info_seen};

use crate::Error;
use crate::compiles::find_here;
use crate::reporting::Reporting;
use crate::run::{planned, remove_library, try_form, write_list};
use crate::stage::{Stage, alone, do_stages};
use cc_host::{Host, Role, World};
use cc_jobs::Jobs;
use cc_plan::{
    Library, archive_commands, asks_folder, copy_path, has_one_form, index_commands, is_msvc,
    list_file,
};
use cc_run::{Planned, Turns};
use cc_text::{Bytes, Mem, Text};
use std::alloc::Global;

// The commands that write it, and then its index. Where `is_plain` holds, the first is the refused one, and the others
// are of the plain form. They name objects from the folder `here` where they run in that of the library.
fn commands(alloc: Global, library: &Library<'_>, is_plain: bool, here: &str) -> Mem<Vec<Planned>>
    ensures { IfOk result (λ cmds.
        cmds.items ≡ commands_for library.now (writing_of is_plain here.now)) }
{
    let archives = archive_commands(alloc, library, is_plain, here)?;
    let indexes = index_commands(alloc, library, is_plain)?;
    let mut cmds = planned(alloc, Role::Archive, archives)?;
    let mut more = planned(alloc, Role::Index, indexes)?;
    cmds.append(&mut more)?;
    Ok(cmds)
}

// Leaves out the first.
fn behind_first(mut cmds: Vec<Planned>) -> Vec<Planned>
    ensures { result.items ≡ behind_first_of cmds.items }
{
    if !cmds.is_empty() {
        cmds.remove(0);
    }
    cmds
}

// Adds the copy that linkers for Visual Studio look for.
fn push_copy(stages: &mut Vec<Stage>, alloc: Global, library: &Library<'_>) -> Mem<()>
    ensures { OnOk result (Adds stages.old.items stages.new.items
        (calls (copying_steps library.now))) }
{
    if is_msvc(library.target) {
        let copy = copy_path(alloc, library.path, library.name)?;
        let from = Text::of(alloc, library.path)?;
        stages.push(Stage::Remove(copy.try_clone()?))?;
        stages.push(Stage::Copy { from, to: copy })?;
    }
    Ok(())
}

// What is left of the stages of a library behind its first commands: these, and its copy.
fn left_behind(alloc: Global, library: &Library<'_>, cmds: Vec<Planned>) -> Mem<Vec<Stage>>
    ensures { IfOk result (λ stages. stages_seen stages.items
        ≡ in_turn cmds.items ++ calls (copying_steps library.now)) }
{
    let mut stages = alone(alloc, cmds)?;
    push_copy(&mut stages, alloc, library)?;
    Ok(stages)
}

// The same behind the first command, which may be refused: then the others are those of the plain form.
fn left_behind_first(
    alloc: Global,
    library: &Library<'_>,
    is_plain: bool,
    here: &str,
    forms: Vec<Planned>,
) -> Mem<Vec<Stage>>
    requires { forms.items ≡ commands_for library.now (writing_of false here.now) }
    ensures { IfOk result (λ stages. stages_seen stages.items
        ≡ in_turn (behind_first_of (commands_for library.now (writing_of is_plain here.now)))
        ++ calls (copying_steps library.now)) }
{
    if is_plain {
        let cmds = commands(alloc, library, true, here)?;
        return left_behind(alloc, library, behind_first(cmds));
    }
    left_behind(alloc, library, behind_first(forms))
}

// Removes the old library, and writes the list of the objects where there is one.
#[tactic(auto, using(crate::proofs::Keeping::aside_then))]
fn make_ready<W: World, H: Host<W>>(
    alloc: Global,
    host: &mut H,
    path: &str,
    list: Option<(Text, Bytes)>,
) -> Result<(), Error>
    ensures aside { Aside H.log H.patience host.old host.new }
    ensures outcome { CallsEnd (Removes path.now ∷ writings (listed list))
        (part H.log host.old host.new) result }
{
    remove_library(alloc, host, path)?;
    match list {
        Some((path, bytes)) => write_list(alloc, host, path.as_str(), bytes.as_slice()),
        None => Ok(()),
    }
}

// The text, or the empty one.
fn text_or_empty(text: &Option<Text>) -> &str
    ensures { result.now ≡ unwrap_or text.now [] }
{
    match text {
        Some(text) => text.as_str(),
        None => "",
    }
}

// Makes all ready for the commands, and answers the current folder, where they want it.
#[tactic(auto, using(crate::proofs::Keeping::aside_then, crate::proofs::Keeping::aside_none))]
fn prepare<W: World, H: Host<W>>(
    alloc: Global,
    host: &mut H,
    library: &Library<'_>,
) -> Result<Option<Text>, Error>
    ensures aside { Aside H.log H.patience host.old host.new }
    ensures outcome { ReadyEnds library.now result (part H.log host.old host.new) }
{
    let list = list_file(alloc, library.archiver, library.path, library.paths)?;
    let asks = asks_folder(alloc, library)?;
    make_ready(alloc, host, library.path, list)?;
    let here = find_here(alloc, host, asks)?;
    Ok(here)
}

// Tries the first command of an archiver that may not know its form. The stages behind it are given back, whose
// commands are those of the plain form where it was refused.
#[tactic(auto, using(crate::proofs::Keeping::aside_none))]
fn try_first<W: World, H: Host<W>>(
    reporting: Reporting,
    host: &mut H,
    library: &Library<'_>,
    here: &str,
    forms: Vec<Planned>,
) -> Result<Vec<Stage>, Error>
    requires forms { forms.items ≡ commands_for library.now (writing_of false here.now) }
    requires form { has_one_form_of (info_seen library.now.target.now) library.now.archiver.now
        ≡ false }
    ensures aside { Aside H.log H.patience host.old host.new }
    ensures begun { IfOk result (λ left.
        Begins reporting.shows library.now here.now left.items (part H.log host.old host.new)) }
    ensures stopped { IfErr result (λ e.
        BeginStops reporting.shows library.now here.now e (part H.log host.old host.new)) }
{
    let alloc = reporting.alloc;
    let Some(first) = forms.first() else {
        let left = left_behind(alloc, library, forms)?;
        return Ok(left);
    };
    let is_plain = try_form(reporting, host, first)?;
    let left = left_behind_first(alloc, library, is_plain, here, forms)?;
    Ok(left)
}

// Begins with the commands, and gives back what is left to be done: all of them where the archiver has one form.
#[tactic(auto, using(crate::proofs::Keeping::aside_none))]
fn begin<W: World, H: Host<W>>(
    reporting: Reporting,
    host: &mut H,
    library: &Library<'_>,
    here: &str,
) -> Result<Vec<Stage>, Error>
    ensures aside { Aside H.log H.patience host.old host.new }
    ensures begun { IfOk result (λ left.
        Begins reporting.shows library.now here.now left.items (part H.log host.old host.new)) }
    ensures stopped { IfErr result (λ e.
        BeginStops reporting.shows library.now here.now e (part H.log host.old host.new)) }
{
    let alloc = reporting.alloc;
    let forms = commands(alloc, library, false, here)?;
    if has_one_form(library.target, library.archiver) {
        let left = left_behind(alloc, library, forms)?;
        return Ok(left);
    }
    try_first(reporting, host, library, here, forms)
}

/// Removes the old library, and writes the new one.
///
/// Archivers of the BSDs and of Apple don't know the first form, which leaves out times and owners. So its first
/// command is tried: where it is refused the same objects are written by the plain form, which all know. Apple's
/// libtool can't add to a library, so one command reads the paths of all objects from a list, which is written before
/// it. Microsoft's library manager has one form too, and where its commands run in the library's folder the current one
/// is asked for before them. For Visual Studio the library is copied to the name that its linkers look for.
#[tactic(auto, using(crate::proofs::Keeping::aside_then))]
pub(crate) fn write_library<W: World, H: Host<W>, J: Jobs>(
    reporting: Reporting,
    host: &mut H,
    jobs: &J,
    seat: &mut J::Seat,
    turns: &mut Turns,
    library: &Library<'_>,
) -> Result<(), Error>
    requires idle { IsIdle J.fits J.held jobs.now seat.old }
    requires few { turns.old.left + turns.old.used < 2 ^ 64 }
    ensures idle { IsIdle J.fits J.held jobs.now seat.new }
    ensures total { J.total seat.new ≡ J.total seat.old }
    ensures aside { Aside H.log H.patience host.old host.new }
    ensures sum { turns.new.left + turns.new.used ≡ turns.old.left + turns.old.used }
    ensures outcome { OnCourse H.log H.patience J.total J.faults J.taken J.load
        turns.old.left turns.new.left
        host.old host.new seat.old seat.new
        (WriteEnds reporting.shows library.now result) }
{
    let here = prepare(reporting.alloc, host, library)?;
    let left = begin(reporting, host, library, text_or_empty(&here))?;
    do_stages(reporting, host, jobs, seat, turns, &left)
}
