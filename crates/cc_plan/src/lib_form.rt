// The words of Microsoft's library manager, `lib.exe`, which `llvm-lib` takes too. A member is named by the path that
// its object is given by, so the commands run in the library's folder where they can: then no folder of the build is
// written into the library.
ghost use Rattle.std.specs.Prelude.{◌≡◌, ◌++◌, map, true, IfOk};
ghost use Rattle.cc_plan.specs.Archive.{asks_folder, in_folder, lib_of, libs_of};
ghost use Rattle.cc_text.specs.Batches.{batches_of};
ghost use Rattle.cc_plan.specs.LibForm as spec;
ghost use Rattle.cc_target.specs.Targets.{info_seen};

use crate::{Archiver, Library, is_libtool};
use cc_flags::{is_msvc, is_path};
use cc_host::Command;
use cc_target::TargetInfo;
use cc_text::{
    Mem, Text, Words, batches, begins_with, contains_ignore_ascii_case, file_name, join, parent,
    strip_prefix,
};
use std::alloc::Global;

// The name has it, whatever the case of ASCII letters.
fn names_llvm_ar(name: &str) -> bool
    ensures { result ≡ spec.names_llvm_ar name.now }
{
    contains_ignore_ascii_case(name, "llvm-ar")
}

// An archiver for a target of Visual Studio takes these words, unless it is libtool, or `ar` of LLVM.
#[tactic(auto, unfolding(crate::specs::LibForm::is_lib))]
pub(crate) fn is_lib(target: &TargetInfo, archiver: &Archiver) -> bool
    ensures { result ≡ spec.is_lib (info_seen target.now) archiver.now }
{
    is_msvc(target)
        && !is_libtool(archiver)
        && !names_llvm_ar(file_name(archiver.name.as_str()).unwrap_or(""))
}

/// Whether the archiver has one form alone, so that none is tried: libtool, and for a target of Visual Studio all but
/// LLVM's `ar`. It takes no memory.
#[tactic(auto, unfolding(crate::specs::LibForm::has_one_form))]
pub fn has_one_form(target: &TargetInfo, archiver: &Archiver) -> bool
    ensures { result ≡ spec.has_one_form (info_seen target.now) archiver.now }
{
    is_libtool(archiver) || is_lib(target, archiver)
}

// The path begins at the root.
fn is_absolute(path: &str) -> bool
    ensures { result ≡ spec.is_absolute path.now }
{
    begins_with(path, "/")
}

// The program is the same in each folder: its path is whole, or it is a name alone.
fn is_same_anywhere(alloc: Global, program: &str) -> Mem<bool>
    ensures { IfOk result (λ b. b ≡ spec.is_same_anywhere program.now) }
{
    if is_absolute(program) {
        return Ok(true);
    }
    Ok(!is_path(alloc, program)?)
}

/// The folder of the library.
pub(crate) fn folder_of(library: &str) -> &str
    ensures { result.now ≡ spec.folder_of library.now }
{
    parent(library).unwrap_or("")
}

// The commands run there: no word was given with the archiver that may name a file by the current folder.
#[tactic(auto, unfolding(crate::specs::LibForm::runs_in_folder))]
pub(crate) fn runs_in_folder(alloc: Global, archiver: &Archiver, library: &str) -> Mem<bool>
    ensures { IfOk result (λ b. b ≡ spec.runs_in_folder archiver.now library.now) }
{
    if !is_absolute(folder_of(library)) || archiver.any_args || archiver.any_flags {
        return Ok(false);
    }
    is_same_anywhere(alloc, archiver.name.as_str())
}

// How an object is named in a folder: by the rest of its path, else by its path from the current folder.
fn member_in(alloc: Global, folder: &str, here: &str, path: &str) -> Mem<Text>
    ensures { IfOk result (λ name. name ≡ spec.member_in folder.now here.now path.now) }
{
    match strip_prefix(path, folder) {
        Some(rest) => Text::of(alloc, rest),
        None => join(alloc, here, path),
    }
}

// Each of these objects so.
fn members_by(alloc: Global, folder: &str, here: &str, paths: &[Text]) -> Mem<Words>
    ensures { IfOk result (λ words. words
        ≡ map (spec.member_in folder.now here.now) paths.now) }
{
    let mut words = Words::new(alloc);
    for path in paths {
        words.push_text(member_in(alloc, folder, here, path.as_str())?)?;
    }
    Ok(words)
}

// The objects of a batch as a command names them.
#[tactic(auto, unfolding(crate::specs::LibForm::members_of))]
fn members_of(
    alloc: Global,
    archiver: &Archiver,
    library: &str,
    here: &str,
    paths: &Words,
) -> Mem<Words>
    ensures { IfOk result (λ words. words
        ≡ spec.members_of archiver.now library.now here.now paths.now) }
{
    if !runs_in_folder(alloc, archiver, library)? {
        return paths.try_clone();
    }
    members_by(alloc, folder_of(library), here, paths.as_slice())
}

// Where the library is written, no banner where no flags were given, and the library itself where members are added to
// it.
#[tactic(auto, unfolding(crate::specs::LibForm::lib_words))]
fn lib_words(alloc: Global, archiver: &Archiver, library: &str, adds: bool) -> Mem<Words>
    ensures { IfOk result (λ words. words ≡ spec.lib_words archiver.now library.now adds) }
{
    let mut words = Words::new(alloc);
    let mut out = Text::of(alloc, "-out:")?;
    out.push_str(library)?;
    words.push_text(out)?;
    if !archiver.any_flags {
        words.push("-nologo")?;
    }
    if adds {
        words.push(library)?;
    }
    Ok(words)
}

// Has a command run in the library's folder, where it runs there.
fn enter_folder(alloc: Global, archiver: &Archiver, library: &str, mut cmd: Command) -> Mem<Command>
    ensures { IfOk result (λ placed. placed ≡ in_folder archiver.now library.now cmd) }
{
    if runs_in_folder(alloc, archiver, library)? {
        cmd.current_dir(folder_of(library))?;
    }
    Ok(cmd)
}

// The command of a batch, which makes the library or adds to it.
fn lib_command(
    alloc: Global,
    archiver: &Archiver,
    library: &str,
    here: &str,
    adds: bool,
    batch: &Words,
) -> Mem<Command>
    ensures { IfOk result (λ cmd. cmd
        ≡ lib_of archiver.now library.now here.now adds batch.now) }
{
    let mut words = lib_words(alloc, archiver, library, adds)?;
    words.append(members_of(alloc, archiver, library, here, batch)?)?;
    let mut cmd = archiver.cmd.try_clone()?;
    cmd.args(&words)?;
    let placed = enter_folder(alloc, archiver, library, cmd)?;
    Ok(placed)
}

// Adds the commands of batches that are added to the library.
fn push_adding(
    cmds: &mut Vec<Command>,
    archiver: &Archiver,
    library: &str,
    here: &str,
    batches: &[Words],
) -> Mem<()>
    ensures { IfOk result (λ _. cmds.new.items ≡ cmds.old.items
        ++ map (lib_of archiver.now library.now here.now true) batches.now) }
{
    let alloc = *cmds.allocator();
    for batch in batches {
        cmds.push(lib_command(alloc, archiver, library, here, true, batch)?)?;
    }
    Ok(())
}

/// The commands that write objects of these paths into the library: one a batch, of which the first makes it, and each
/// later one adds to it.
pub(crate) fn lib_commands(
    alloc: Global,
    archiver: &Archiver,
    library: &str,
    here: &str,
    paths: &Words,
) -> Mem<Vec<Command>>
    ensures { IfOk result (λ cmds. cmds.items
        ≡ libs_of archiver.now library.now here.now (batches_of paths.now)) }
{
    let batches = batches(alloc, paths)?;
    let mut cmds = Vec::new(alloc);
    if let [first, rest @ ..] = batches.as_slice() {
        cmds.push(lib_command(alloc, archiver, library, here, false, first)?)?;
        push_adding(&mut cmds, archiver, library, here, rest)?;
    }
    Ok(cmds)
}

/// Whether the current folder is to be asked for before the commands that archive objects of these paths: where they
/// run in the library's folder, an object whose path is relative and isn't below it is named from the current one. Only
/// want of memory refuses.
#[tactic(auto, unfolding(crate::specs::Archive::asks_folder))]
pub fn asks_folder(alloc: Global, library: &Library<'_>) -> Mem<bool>
    ensures { IfOk result (λ b. b ≡ asks_folder (info_seen library.now.target.now)
        library.now.archiver.now library.now.path.now library.now.paths.now) }
{
    let Library {
        target,
        archiver,
        path,
        paths,
        ..
    } = *library;
    if !is_lib(target, archiver) || paths.is_empty() {
        return Ok(false);
    }
    runs_in_folder(alloc, archiver, path)
}
