// A tool of LLVM next to clang-cl, as LLVM's kits for Windows have both in one folder.
ghost use Rattle.std.specs.Option.{option_copied};
ghost use Rattle.cc_plan.specs.Beside as spec;
ghost use Rattle.cc_tool.specs.Plans.{Passes};

use crate::search::which;
use crate::searched::searched;
use cc_env::BuildEnv;
use cc_text::{Text, ToolFamily, is_clang_cl, join, parent};
use cc_tool::{Answers, Notes, Planned};
use std::alloc::Global;

// A tool in a folder.
#[tactic(auto, using(crate::proofs::PassBy::pass_by), unfolding(crate::specs::Beside::in_folder))]
fn in_folder(
    alloc: Global,
    env: &BuildEnv,
    tool: &str,
    folder: Option<&str>,
    seen: &Answers,
    notes: &mut Notes,
) -> Planned<Option<Text>>
    ensures { Passes seen.now notes.old notes.new
        (spec.in_folder env.now tool.now (option_copied folder.entry)) result }
{
    match folder {
        Some(folder) => {
            let path = join(alloc, folder, tool)?;
            which(alloc, env, path.as_str(), seen, notes)
        }
        None => Ok(None),
    }
}

// In that of a compiler, where a shell finds it.
#[tactic(auto, using(crate::proofs::PassBy::pass_by), unfolding(crate::specs::Beside::in_own_folder, crate::specs::Beside::in_folder_of))]
fn in_own_folder(
    alloc: Global,
    env: &BuildEnv,
    path: &str,
    tool: &str,
    seen: &Answers,
    notes: &mut Notes,
) -> Planned<Option<Text>>
    ensures { Passes seen.now notes.old notes.new (spec.in_own_folder env.now path.now tool.now) result }
{
    match which(alloc, env, path, seen, notes)? {
        Some(file) => in_folder(alloc, env, tool, parent(file.as_str()), seen, notes),
        None => Ok(None),
    }
}

// Where the compiler looks for programs, else in its own folder.
#[tactic(auto, using(crate::proofs::PassBy::pass_by), unfolding(crate::specs::Beside::beside_compiler, crate::specs::Beside::or_own_folder))]
fn beside_compiler(
    alloc: Global,
    env: &BuildEnv,
    path: &str,
    tool: &str,
    seen: &Answers,
    notes: &mut Notes,
) -> Planned<Option<Text>>
    ensures { Passes seen.now notes.old notes.new
        (spec.beside_compiler env.now path.now tool.now) result }
{
    match searched(alloc, env, path, tool, seen, notes)? {
        Some(found) => Ok(Some(found)),
        None => in_own_folder(alloc, env, path, tool, seen, notes),
    }
}

/// A tool next to the compiler of a family and a path, where that is clang-cl: where it looks for programs, else in its
/// own folder. None next to other compilers, and where neither has it.
#[tactic(auto, using(crate::proofs::PassBy::pass_by), unfolding(crate::specs::Beside::beside))]
pub(crate) fn beside(
    alloc: Global,
    env: &BuildEnv,
    family: ToolFamily,
    path: &str,
    tool: &str,
    seen: &Answers,
    notes: &mut Notes,
) -> Planned<Option<Text>>
    ensures { Passes seen.now notes.old notes.new (spec.beside env.now family path.now tool.now) result }
{
    if is_clang_cl(family) {
        beside_compiler(alloc, env, path, tool, seen, notes)
    } else {
        Ok(None)
    }
}
