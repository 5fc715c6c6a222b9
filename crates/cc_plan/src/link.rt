// The link lines.
ghost use Rattle.std.specs.Prelude.{IfOk};
ghost use Rattle.cc_host.specs.Question.{Settles};
ghost use Rattle.cc_plan.specs.Asking.{AsksForLinks, AllowedIn, RefusedIn};
ghost use Rattle.cc_plan.specs.Link.{link_lines};
ghost use Rattle.cc_flags.specs.LinkLines.{lines_by};
ghost use Rattle.cc_plan.specs.Quiet.{quiet_warnings};
ghost use Rattle.cc_plan.specs.Refusal.{link_refusal};
ghost use Rattle.cc_plan.specs.Stdlib.{library_plan};

use crate::sight::settle_in;
use crate::stdlib::{ChosenLibrary, check_cpp, linked_library};
use crate::{PlanError, Sight};
use cc_env::BuildEnv;
use cc_flags::{BuildConfig, LinkLine, lines_by};
use cc_host::{Host, World};
use cc_text::Words;
use cc_tool::{Answers, Notes, Planned, Planner};
use std::alloc::Global;
use std::sync::Wait;

/// What is planned of link lines.
#[derive(Drop, Debug)]
pub struct LinkPlan {
    /// The lines, in order.
    pub lines: Vec<LinkLine>,
    /// The warnings of the compiler's plan that decides on the C++ library, as texts without line feeds. A host that
    /// listens is told of them; none of them is printed, since such a plan is quiet. None where no compiler is planned
    /// for it, or its plan is refused.
    pub warnings: Words,
}

// The plan of the C++ library.
#[derive(Drop)]
struct LibraryPlanner<'a> {
    alloc: Global,
    set: &'a BuildConfig,
    env: &'a BuildEnv,
}

impl<'a> Planner for LibraryPlanner<'a> {
    type Value = ChosenLibrary;

    ghost plan = { λ p. library_plan p.set.now p.env.now };

    fn pass(&self, seen: &Answers, notes: &mut Notes) -> Planned<ChosenLibrary> {
        linked_library(self.alloc, self.set, self.env, seen, notes)
    }
}

/// The lines by which a build script asks Cargo to link a static library: its name behind the modifiers of the
/// settings, and the folder that has it, without line feeds; for C++ also the C++ library, and for WebAssembly the
/// folder that has that one. None where the settings want none. With them are the warnings of the quiet plan that
/// decides on the C++ library. It asks, and prints nothing. Refused where `WASM_MUSL_SYSROOT` isn't set and C++ for
/// WebAssembly's threads wants it, and for memory.
///
/// Cargo's book on build scripts has the forms, `cargo:rustc-link-lib=LIB`, `cargo:rustc-link-search=KIND=PATH` and
/// `cargo:rustc-flags=FLAGS`; the kind `native` has the folder searched for libraries alone, not for crates. A LIB is
/// what rustc takes behind `-l`, `KIND:MODIFIERS=NAME`, where commas part the modifiers; `-bundle` leaves a static
/// library out of the crate's own file, so that the linker takes it (rustc's book, "Command-line Arguments").
#[tactic(auto, unfolding(crate::specs::Refusal::link_refusal))]
pub fn plan_links<'a, W: World, H: Host<W>>(
    rt: &impl Wait,
    alloc: Global,
    set: &'a BuildConfig,
    env: &'a BuildEnv,
    name: &str,
    dir: &str,
    sight: &mut Sight<'_, W, H>,
) -> Result<LinkPlan, PlanError>
    ensures asks { AsksForLinks W.steady W.answer H.log H.patience set.now env.now
        sight.old sight.new }
    ensures lines { IfOk result (λ plan. Settles sight.new.answers.now
        (link_lines set.now env.now name.now dir.now) plan.lines.items) }
    ensures warnings { IfOk result (λ plan. Settles sight.new.answers.now
        (quiet_warnings set.now env.now) plan.warnings) }
    ensures allowed { AllowedIn sight.new (link_refusal set.now env.now) result }
    ensures refused { RefusedIn sight.new (link_refusal set.now env.now) result }
{
    let found = settle_in(rt, alloc, &LibraryPlanner { alloc, set, env }, sight)?;
    check_cpp(alloc, set, env)?;
    let linked = found.value;
    let lines = lines_by(alloc, set, env, name, dir, &linked.library)?;
    Ok(LinkPlan {
        lines,
        warnings: linked.warnings,
    })
}

/// The link lines alone, as `plan_links` has them: for a caller whose user isn't told of the compiler that decides on
/// the C++ library.
pub fn link_lines<W: World, H: Host<W>>(
    rt: &impl Wait,
    alloc: Global,
    set: &BuildConfig,
    env: &BuildEnv,
    name: &str,
    dir: &str,
    sight: &mut Sight<'_, W, H>,
) -> Result<Vec<LinkLine>, PlanError>
    ensures asks { AsksForLinks W.steady W.answer H.log H.patience set.now env.now
        sight.old sight.new }
    ensures lines { IfOk result (λ lines. Settles sight.new.answers.now
        (link_lines set.now env.now name.now dir.now) lines.items) }
    ensures allowed { AllowedIn sight.new (link_refusal set.now env.now) result }
    ensures refused { RefusedIn sight.new (link_refusal set.now env.now) result }
{
    let plan = plan_links(rt, alloc, set, env, name, dir, sight)?;
    Ok(plan.lines)
}
