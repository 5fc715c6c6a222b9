// The C++ library that a library of C++ is linked with, and the lines by which Cargo links it.
ghost use Rattle.std.specs.Prelude.{◌≡◌, [], Some, false, IfOk};
ghost use Rattle.std.specs.List.{list_any};
ghost use Rattle.cc_plan.specs.Refusal.{AllowedBy, RefusedBy, cpp_refusal};
ghost use Rattle.cc_flags.specs.StdlibLines.{library_by};
ghost use Rattle.cc_plan.specs.Stdlib as stdlib;
ghost use Rattle.cc_tool.specs.Plans.{Passes, unnoted};
ghost use Rattle.cc_plan.specs.ToolPlan.{tool_plan};

use crate::PlanError;
use crate::checks::demand;
use crate::halt::outcome;
use crate::tool::{QuietTool, plan_quietly, quiet_warnings};
use cc_env::BuildEnv;
use cc_flags::{
    BuildConfig, given_library, is_wasm_linux, library_by, links_cpp, may_ask, target_info,
};
use cc_text::{Mem, Text, Words};
use cc_tool::{Answers, Notes, Planned, Tool, uses_libcxx};
use std::alloc::Global;

fn is_headerless(arg: &Text) -> bool
    ensures { result ≡ stdlib.is_headerless arg.now }
{
    arg.as_str() == "-nostdinc++" || arg.as_str() == "-nostdinc"
}

fn is_without_headers(args: &Words) -> bool
    ensures { result ≡ list_any stdlib.is_headerless args.now }
{
    args.as_slice().iter().any(is_headerless)
}

// Clang, with the headers of its own C++ library.
#[tactic(auto, unfolding(crate::specs::Stdlib::has_own_headers))]
fn has_own_headers(tool: &Tool) -> bool
    ensures { result ≡ stdlib.has_own_headers tool.now }
{
    tool.is_like_clang() && !is_without_headers(tool.args())
}

// Whether the C++ library of a tool is libc++, where it is Clang.
#[tactic(auto, using(crate::proofs::PassBy::pass_by), unfolding(crate::specs::Stdlib::tool_uses_libcxx))]
fn tool_uses_libcxx(alloc: Global, tool: &Tool, seen: &Answers, notes: &mut Notes) -> Planned<bool>
    ensures { Passes seen.now notes.old notes.new (stdlib.tool_uses_libcxx tool.now) result }
{
    if has_own_headers(tool) {
        uses_libcxx(alloc, tool, seen, notes)
    } else {
        Ok(false)
    }
}

/// The C++ library that a library of C++ is linked with, or none, and what a user is told of the plan of the compiler
/// that decides on it.
#[derive(Drop)]
pub(crate) struct ChosenLibrary {
    pub library: Option<Text>,
    pub warnings: Words,
}

// A library, or none, for which no compiler was planned.
fn unplanned(alloc: Global, library: Option<Text>) -> ChosenLibrary
    ensures { result ≡ stdlib.chosen library [] }
{
    ChosenLibrary {
        library,
        warnings: Words::new(alloc),
    }
}

// LLVM's library or GNU's, for which no compiler was planned.
fn gnu_library(alloc: Global) -> Mem<ChosenLibrary>
    ensures { IfOk result (λ c. c ≡ stdlib.chosen (Some (library_by false)) []) }
{
    let library = Text::of(alloc, library_by(false))?;
    Ok(unplanned(alloc, Some(library)))
}

// That of the compiler of a plan, unless the plan is refused.
#[tactic(auto, using(crate::proofs::PassBy::pass_by), unfolding(crate::specs::Stdlib::library_of))]
fn library_of(
    alloc: Global,
    set: &BuildConfig,
    planned: Result<QuietTool, PlanError>,
    seen: &Answers,
    notes: &mut Notes,
) -> Planned<ChosenLibrary>
    ensures { Passes seen.now notes.old notes.new (stdlib.library_of set.now planned) result }
{
    match planned {
        Ok(quiet) => {
            let uses = tool_uses_libcxx(alloc, &quiet.tool, seen, notes)?;
            let library = Text::of(alloc, library_by(uses))?;
            let warnings = quiet_warnings(set, quiet.unmarked)?;
            Ok(ChosenLibrary {
                library: Some(library),
                warnings,
            })
        }
        Err(_) => Ok(gnu_library(alloc)?),
    }
}

// The plan of the tool, of whose notes nobody is told.
#[tactic(auto, using(cc_tool::proofs::PassLemmas::pass_unnoted, cc_tool::proofs::PassLemmas::pass_memory))]
fn unnoted_tool(
    alloc: Global,
    set: &BuildConfig,
    env: &BuildEnv,
    seen: &Answers,
    notes: &mut Notes,
) -> Planned<Result<QuietTool, PlanError>>
    ensures { Passes seen.now notes.old notes.new (unnoted (tool_plan set.now env.now)) result }
{
    let _ = notes;
    let mut own = Notes::new(alloc);
    outcome(plan_quietly(alloc, set, env, seen, &mut own))
}

// The compiler's plan is quiet: what it is refused for but memory leaves libstdc++.
#[tactic(auto, using(crate::proofs::PassBy::pass_by), unfolding(crate::specs::Stdlib::sought_library))]
fn sought_library(
    alloc: Global,
    set: &BuildConfig,
    env: &BuildEnv,
    seen: &Answers,
    notes: &mut Notes,
) -> Planned<ChosenLibrary>
    ensures { Passes seen.now notes.old notes.new (stdlib.sought_library set.now env.now) result }
{
    let planned = unnoted_tool(alloc, set, env, seen, notes)?;
    library_of(alloc, set, planned, seen, notes)
}

// The library that is given, else that of the compiler, where it may be asked.
#[tactic(auto, using(crate::proofs::PassBy::pass_by), unfolding(crate::specs::Stdlib::given_or_sought))]
fn given_or_sought(
    alloc: Global,
    set: &BuildConfig,
    env: &BuildEnv,
    given: Option<Option<Text>>,
    seen: &Answers,
    notes: &mut Notes,
) -> Planned<ChosenLibrary>
    ensures { Passes seen.now notes.old notes.new
        (stdlib.given_or_sought set.now env.now given) result }
{
    match given {
        Some(library) => Ok(unplanned(alloc, library)),
        None => {
            if may_ask(set, env) {
                sought_library(alloc, set, env, seen, notes)
            } else {
                Ok(gnu_library(alloc)?)
            }
        }
    }
}

/// The C++ library that a library of C++ is linked with, or none, where there are lines for it: the set one; else
/// `CXXSTDLIB`, where the empty text is none; else that of the target's system; else libc++ where the compiler is Clang
/// and has that library's headers; else libstdc++. The compiler's plan is quiet: what it is refused for but memory
/// leaves libstdc++, and its warnings are handed back as texts, which are printed nowhere.
#[tactic(auto, using(crate::proofs::PassBy::pass_by), unfolding(crate::specs::Stdlib::library_plan))]
pub(crate) fn linked_library(
    alloc: Global,
    set: &BuildConfig,
    env: &BuildEnv,
    seen: &Answers,
    notes: &mut Notes,
) -> Planned<ChosenLibrary>
    ensures { Passes seen.now notes.old notes.new (stdlib.library_plan set.now env.now) result }
{
    if links_cpp(set) {
        let given = given_library(alloc, set, env)?;
        given_or_sought(alloc, set, env, given, seen, notes)
    } else {
        Ok(unplanned(alloc, None))
    }
}

/// Refused where lines for a library of C++ for WebAssembly's threads name a sysroot that isn't set, with the variable,
/// and for memory.
#[tactic(auto, unfolding(crate::specs::Refusal::cpp_refusal))]
pub(crate) fn check_cpp(alloc: Global, set: &BuildConfig, env: &BuildEnv) -> Result<(), PlanError>
    ensures allowed { AllowedBy (cpp_refusal set.now env.now) result }
    ensures refused { RefusedBy (cpp_refusal set.now env.now) result }
{
    if links_cpp(set) && is_wasm_linux(&target_info(set, env)) {
        let sysroot = env.inherited().get("WASM_MUSL_SYSROOT");
        demand(alloc, "WASM_MUSL_SYSROOT", sysroot)?;
    }
    Ok(())
}
