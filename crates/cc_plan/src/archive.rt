// The archiver, and the archive and index commands.
ghost use Rattle.std.specs.Prelude.{◌≡◌, ◌++◌, IfOk};
ghost use Rattle.cc_plan.specs.Archive.{archiver_of, archiver_by, has_words, archive_tool_cmd, ranlib_flags, ranlib_cmd_of, archives_of, indexes_of, paths_of};
ghost use Rattle.cc_plan.specs.ArchivePlan as plan;
ghost use Rattle.cc_plan.specs.ArchiveTool.{archive_tool};
ghost use Rattle.cc_plan.specs.Halts.{Tries};
ghost use Rattle.cc_target.specs.Targets.{info_seen};
ghost use Rattle.cc_plan.specs.Asking.{AsksForArchiver, AsksForRanlib, AsksForEither, SettledIn, AllowedIn, RefusedIn};
ghost use Rattle.cc_plan.specs.Plan.{archived_refusal};
ghost use Rattle.cc_plan.specs.Refusal.{AllowedBy, RefusedBy, look_up_refusal, archive_tool_refusal, archiver_refusal, ranlib_refusal};

use crate::ar_form::{batch_commands, batch_index_commands};
use crate::archive_tool::archive_tool;
use crate::checks::known_target;
use crate::halt::{Halting, outcome};
use crate::lib_form::{is_lib, lib_commands};
use crate::libtool::{check_list, libtool_command};
use crate::sight::settle_in;
use crate::{Archiver, Library, PlanError, Sight, is_libtool};
use cc_env::BuildEnv;
use cc_flags::{
    ArchiveTool, BuildConfig, Choice, Object, flags_names, host_of, is_msvc, target_of, tool_flags,
    variable_flags,
};
use cc_host::{Command, Host, World};
use cc_text::{Mem, Text, Words};
use cc_tool::{Answers, Notes, Planned, Planner, note_names};
use std::alloc::Global;
use std::sync::Wait;

// The command of a tool of archives.
fn tool_command(alloc: Global, env: &BuildEnv, choice: &Choice, flags: &Words) -> Mem<Command>
    ensures { IfOk result (λ cmd. cmd ≡ archive_tool_cmd env.now choice.now flags.now) }
{
    let mut cmd = Command::new(alloc, choice.path.as_str())?;
    cmd.args(&choice.words)?;
    cmd.args(flags)?;
    cmd.envs(&env.child_vars(alloc)?)?;
    Ok(cmd)
}

fn has_words(words: &Words) -> bool
    ensures { result ≡ has_words words.now }
{
    match words.as_slice() {
        [] => false,
        [_, ..] => true,
    }
}

// The archiver of a choice: the flags of the variables, and then the set ones.
#[tactic(auto, unfolding(crate::specs::Archive::archiver_flags, crate::specs::Archive::has_flags))]
fn archiver_by(alloc: Global, set: &BuildConfig, env: &BuildEnv, choice: &Choice) -> Mem<Archiver>
    ensures { IfOk result (λ archiver. archiver ≡ archiver_by set.now env.now choice.now) }
{
    let listed = variable_flags(alloc, set, env, "ARFLAGS")?;
    let any_flags = listed.is_some() || has_words(&set.ar_flags);
    let mut flags = listed.unwrap_or(Words::new(alloc));
    flags.extend(&set.ar_flags)?;
    Ok(Archiver {
        cmd: tool_command(alloc, env, choice, &flags)?,
        name: choice.path.try_clone()?,
        any_flags,
        any_args: has_words(&choice.words),
    })
}

#[tactic(auto, unfolding(crate::specs::Archive::ranlib_flags))]
fn ranlib_flags(alloc: Global, set: &BuildConfig, env: &BuildEnv) -> Mem<Words>
    ensures { IfOk result (λ flags. flags ≡ ranlib_flags set.now env.now) }
{
    Ok(variable_flags(alloc, set, env, "RANLIBFLAGS")?.unwrap_or(Words::new(alloc)))
}

// The target and the host are set, which flags of the environment are looked up by.
#[tactic(auto, unfolding(crate::specs::Refusal::look_up_refusal))]
fn check_look_up(alloc: Global, set: &BuildConfig, env: &BuildEnv) -> Result<(), PlanError>
    ensures allowed { AllowedBy (look_up_refusal set.now env.now) result }
    ensures refused { RefusedBy (look_up_refusal set.now env.now) result }
{
    if target_of(set, env).is_none() {
        return Err(PlanError::NotSet(Text::of(alloc, "TARGET")?));
    }
    if host_of(set, env).is_none() {
        return Err(PlanError::NotSet(Text::of(alloc, "HOST")?));
    }
    Ok(())
}

// Its flags can be looked up.
#[tactic(auto, using(crate::proofs::HaltBy::halt_by), unfolding(crate::specs::ArchivePlan::with_flags))]
fn with_flags(
    tool: ArchiveTool,
    alloc: Global,
    set: &BuildConfig,
    env: &BuildEnv,
    choice: Choice,
    seen: &Answers,
    notes: &mut Notes,
) -> Halting<Choice>
    ensures { Tries seen.now notes.old notes.new
        (plan.with_flags tool set.now env.now choice) result }
{
    check_look_up(alloc, set, env)?;
    let names = flags_names(alloc, set, env, tool_flags(tool))?;
    note_names(&names, seen, notes)?;
    Ok(choice)
}

/// A tool of archives, whose flags can be looked up.
#[tactic(auto, using(crate::proofs::HaltBy::halt_by), unfolding(crate::specs::ArchivePlan::tool_plan))]
pub(crate) fn plan_archive_tool(
    tool: ArchiveTool,
    alloc: Global,
    set: &BuildConfig,
    env: &BuildEnv,
    seen: &Answers,
    notes: &mut Notes,
) -> Halting<Choice>
    ensures { Tries seen.now notes.old notes.new (plan.tool_plan tool set.now env.now) result }
{
    let choice = archive_tool(tool, alloc, set, env, seen, notes)?;
    with_flags(tool, alloc, set, env, choice, seen, notes)
}

// The plan of a tool of archives.
#[derive(Drop)]
struct ArchivePlanner<'a> {
    tool: ArchiveTool,
    alloc: Global,
    set: &'a BuildConfig,
    env: &'a BuildEnv,
}

impl<'a> Planner for ArchivePlanner<'a> {
    type Value = Result<Choice, PlanError>;

    ghost plan = { λ p. plan.tool_plan p.tool p.set.now p.env.now };

    fn pass(&self, seen: &Answers, notes: &mut Notes) -> Planned<Result<Choice, PlanError>> {
        outcome(plan_archive_tool(self.tool, self.alloc, self.set, self.env, seen, notes))
    }
}

// A tool of archives, whose flags can be looked up.
fn tool_with_flags<W: World, H: Host<W>>(
    rt: &impl Wait,
    tool: ArchiveTool,
    alloc: Global,
    set: &BuildConfig,
    env: &BuildEnv,
    sight: &mut Sight<'_, W, H>,
) -> Result<Choice, PlanError>
    ensures asks { AsksForEither W.steady W.answer H.log H.patience tool set.now env.now
        sight.old sight.new }
    ensures settles { SettledIn sight.new (archive_tool tool set.now env.now) result }
    ensures allowed { AllowedIn sight.new (archive_tool_refusal tool set.now env.now) result }
    ensures refused { RefusedIn sight.new (archive_tool_refusal tool set.now env.now) result }
{
    let planner = ArchivePlanner {
        tool,
        alloc,
        set,
        env,
    };
    let found = settle_in(rt, alloc, &planner, sight)?;
    found.value
}

/// The archiver of these settings in this environment: the set one, else that of `AR`, which is looked up as `CC` is,
/// with its words, else the one that the target wants. Behind the words are the flags of `ARFLAGS`, which is looked up
/// as `CFLAGS` is, and the set ones. It asks, and prints nothing.
///
/// Refused where the settings name none and the target isn't known, or is QNX on an architecture for which its tools
/// have no name and `AR` names none; then where the target or the host is set nowhere; and for memory. The answers
/// until then stay in the sight.
#[tactic(auto, unfolding(crate::specs::Refusal::archiver_refusal, crate::specs::Archive::archiver_of))]
pub fn archiver_of<W: World, H: Host<W>>(
    rt: &impl Wait,
    alloc: Global,
    set: &BuildConfig,
    env: &BuildEnv,
    sight: &mut Sight<'_, W, H>,
) -> Result<Archiver, PlanError>
    ensures asks { AsksForArchiver W.steady W.answer H.log H.patience set.now env.now
        sight.old sight.new }
    ensures settles { SettledIn sight.new (archiver_of set.now env.now) result }
    ensures allowed { AllowedIn sight.new (archiver_refusal set.now env.now) result }
    ensures refused { RefusedIn sight.new (archiver_refusal set.now env.now) result }
{
    let choice = tool_with_flags(rt, ArchiveTool::Archiver, alloc, set, env, sight)?;
    let archiver = archiver_by(alloc, set, env, &choice)?;
    Ok(archiver)
}

/// The command of the tool that writes an archive's index, in the environment of a child: the set one, else that of
/// `RANLIB`, else the one that the target wants, as the archiver is found; with the flags of `RANLIBFLAGS`. It asks,
/// and prints nothing. It is refused as the archiver is.
#[tactic(auto, unfolding(crate::specs::Refusal::ranlib_refusal, crate::specs::Archive::ranlib_cmd_of))]
pub fn ranlib_of<W: World, H: Host<W>>(
    rt: &impl Wait,
    alloc: Global,
    set: &BuildConfig,
    env: &BuildEnv,
    sight: &mut Sight<'_, W, H>,
) -> Result<Command, PlanError>
    ensures asks { AsksForRanlib W.steady W.answer H.log H.patience set.now env.now
        sight.old sight.new }
    ensures settles { SettledIn sight.new (ranlib_cmd_of set.now env.now) result }
    ensures allowed { AllowedIn sight.new (ranlib_refusal set.now env.now) result }
    ensures refused { RefusedIn sight.new (ranlib_refusal set.now env.now) result }
{
    let choice = tool_with_flags(rt, ArchiveTool::Ranlib, alloc, set, env, sight)?;
    let flags = ranlib_flags(alloc, set, env)?;
    let cmd = tool_command(alloc, env, &choice, &flags)?;
    Ok(cmd)
}

/// The commands that write objects of these paths into the library, in order: one a batch, and none where there is no
/// path. The words of the archiver's command come first. Only want of memory refuses.
///
/// Where the archiver is libtool it is one command, which reads the paths from the file that `list_file` gives; `plain`
/// changes nothing.
///
/// For a target of Visual Studio all other archivers but LLVM's `ar` take the words of Microsoft's library manager
/// ("LIB Reference"): `-out:` names the library, which stands among the words again from the second batch on, and
/// `-nologo` leaves out the banner where no flags were given. There too `plain` changes nothing. Such a command runs in
/// the library's folder where that is a whole path and nothing that was given with the archiver may name a file; then
/// objects below the folder are named from there, and other relative ones from `here`, which is wanted where
/// `asks_folder` says so and is of no matter else.
///
/// By the manual of GNU `ar`, `c` makes the library without saying so, `q` adds members last without a look at those
/// that are there, and `D` writes zero for times and owners, so that the same objects give the same bytes.
/// `ZERO_AR_DATE` has Apple's archiver do so for times. So what an earlier command wrote stays, and one path may come
/// twice. A batch keeps each command line short.
///
/// Archivers of the BSDs and of Apple don't know `D`. Where the first command was refused, `plain` has all batches
/// written by `cq`; the refused command then comes first.
pub fn archive_commands(
    alloc: Global,
    library: &Library<'_>,
    plain: bool,
    here: &str,
) -> Mem<Vec<Command>>
    ensures { IfOk result (λ cmds. cmds.items ≡ archives_of (info_seen library.now.target.now)
        library.now.archiver.now library.now.env.now library.now.path.now plain here.now
        library.now.paths.now) }
{
    let Library {
        target,
        archiver,
        env,
        path,
        paths,
        ..
    } = *library;
    if is_libtool(archiver) {
        let mut cmds = Vec::new(alloc);
        cmds.push(libtool_command(alloc, archiver, path)?)?;
        return Ok(cmds);
    }
    if is_lib(target, archiver) {
        return lib_commands(alloc, archiver, path, here, paths);
    }
    batch_commands(alloc, archiver, env, path, paths, plain)
}

/// The commands that write the index of the library of these paths, by which a linker finds symbols: one, whose words
/// are behind those of the archiver's command. By the manual of GNU `ar`, `s` writes it, and `D` without the time. Only
/// want of memory refuses.
///
/// None where the archiver is libtool, which writes it with the library, and for a target of Visual Studio, whose
/// archivers do so too.
///
/// Where the first command with `D` was refused, `plain` has it written by `s`. Without a path the index is the first
/// command, and the refused one then comes first.
pub fn index_commands(alloc: Global, library: &Library<'_>, plain: bool) -> Mem<Vec<Command>>
    ensures { IfOk result (λ cmds. cmds.items ≡ indexes_of (info_seen library.now.target.now)
        library.now.archiver.now library.now.env.now library.now.path.now plain
        library.now.paths.now) }
{
    let Library {
        target,
        archiver,
        env,
        path,
        paths,
        ..
    } = *library;
    if is_libtool(archiver) || is_msvc(target) {
        return Ok(Vec::new(alloc));
    }
    batch_index_commands(alloc, archiver, env, path, paths, plain)
}

/// The paths that the library gets: those of the objects of the sources, and then the added ones, in order. Only want
/// of memory refuses.
pub fn archived_paths(alloc: Global, set: &BuildConfig, objects: &[Object]) -> Mem<Words>
    ensures { IfOk result (λ paths. paths ≡ paths_of objects.now ++ set.now.objects) }
{
    let mut paths = Words::new(alloc);
    for object in objects {
        paths.push(object.dst.as_str())?;
    }
    paths.extend(&set.objects)?;
    Ok(paths)
}

/// Whether an archiver can write these paths into a library for the target of the settings. Where its list can't hold
/// one, it is refused at the place of that path, counted from 0; then where the target is set nowhere, or is neither a
/// row of the table nor described by Cargo, as the form of the library depends on it; and for memory.
#[tactic(auto, unfolding(crate::specs::Plan::archived_refusal))]
pub fn check_archived(
    alloc: Global,
    set: &BuildConfig,
    env: &BuildEnv,
    archiver: &Archiver,
    paths: &Words,
) -> Result<(), PlanError>
    ensures allowed { AllowedBy (archived_refusal set.now env.now archiver.now paths.now) result }
    ensures refused { RefusedBy (archived_refusal set.now env.now archiver.now paths.now) result }
{
    check_list(archiver, paths)?;
    known_target(alloc, set, env)?;
    Ok(())
}
