// The folders in which programs are looked for.
ghost use Rattle.std.specs.Prelude.{◌≡◌, IfOk};
ghost use Rattle.std.specs.Option.{option_copied};
ghost use Rattle.cc_text.specs.Words.{texts};
ghost use Rattle.cc_flags.specs.Folders as spec;

use cc_env::BuildEnv;
use cc_text::{Mem, Text, Words, components, join};
use std::alloc::Global;

#[tactic(auto, unfolding(crate::specs::Folders::folders_of))]
fn folders_of(alloc: Global, list: &str) -> Mem<Vec<&str>>
    ensures { IfOk result (λ folders. texts folders.items ≡ spec.folders_of list.now) }
{
    let folders = list.split(':').collect(alloc)?;
    Ok(folders)
}

// The folders of a list, as words.
fn folder_words(alloc: Global, list: &str) -> Mem<Words>
    ensures { IfOk result (λ folders. folders ≡ spec.folders_of list.now) }
{
    let mut folders = Words::new(alloc);
    folders.push_all(&folders_of(alloc, list)?)?;
    Ok(folders)
}

/// The folders in which a shell looks for programs: those of `PATH`, parted at `:`, in order (POSIX, "Environment
/// Variables"). Only want of memory refuses.
#[tactic(auto, unfolding(crate::specs::Folders::path_folders))]
pub fn path_folders(alloc: Global, env: &BuildEnv) -> Mem<Words>
    ensures { IfOk result (λ folders. folders ≡ spec.path_folders env.now) }
{
    match env.inherited().get("PATH") {
        Some(list) => folder_words(alloc, list),
        None => Ok(Words::new(alloc)),
    }
}

/// The folders of a list, where one is given, and behind them those in which a shell looks. Only want of memory
/// refuses.
#[tactic(auto, unfolding(crate::specs::Folders::listed_folders))]
pub fn listed_folders(alloc: Global, env: &BuildEnv, list: Option<&str>) -> Mem<Words>
    ensures { IfOk result (λ folders.
        folders ≡ spec.listed_folders env.now (option_copied list.entry)) }
{
    let mut folders = match list {
        Some(list) => folder_words(alloc, list)?,
        None => Words::new(alloc),
    };
    folders.append(path_folders(alloc, env)?)?;
    Ok(folders)
}

/// Whether a tool is a path of two or more components, which is sought nowhere else. Only want of memory refuses.
#[tactic(auto, unfolding(crate::specs::Folders::is_path))]
pub fn is_path(alloc: Global, tool: &str) -> Mem<bool>
    ensures { IfOk result (λ b. b ≡ spec.is_path tool.now) }
{
    Ok(1 < components(alloc, tool)?.len())
}

// A name in each of some folders.
#[tactic(auto, unfolding(crate::specs::Folders::in_folders))]
fn in_folders(alloc: Global, folders: &[Text], name: &str) -> Mem<Words>
    ensures { IfOk result (λ paths. paths ≡ spec.in_folders folders.now name.now) }
{
    let mut paths = Words::new(alloc);
    for folder in folders {
        paths.push_text(join(alloc, folder.as_str(), name)?)?;
    }
    Ok(paths)
}

/// Where a tool may be: at its own path, else by its name in each of some folders, in order. Only want of memory
/// refuses.
#[tactic(auto, unfolding(crate::specs::Folders::places_of))]
pub fn places_of(alloc: Global, folders: &[Text], tool: &str) -> Mem<Words>
    ensures { IfOk result (λ paths. paths ≡ spec.places_of folders.now tool.now) }
{
    if is_path(alloc, tool)? {
        let mut paths = Words::new(alloc);
        paths.push(tool)?;
        return Ok(paths);
    }
    in_folders(alloc, folders, tool)
}
