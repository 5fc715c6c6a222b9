// The chosen compiler with its family.
ghost use Rattle.cc_plan.specs.Compiler as spec;
ghost use Rattle.cc_tool.specs.Plans.{Passes};

use crate::choice::choose;
use cc_flags::{Choice, Compiler, Inputs};
use cc_tool::{Answers, Notes, Planned, family_of};

// A chosen compiler, with its family.
#[tactic(auto, using(crate::proofs::PassBy::pass_by), unfolding(crate::specs::Compiler::asked_compiler))]
fn asked_compiler(
    inputs: &Inputs<'_>,
    choice: Choice,
    seen: &Answers,
    notes: &mut Notes,
) -> Planned<Compiler>
    ensures { Passes seen.now notes.old notes.new
        (spec.asked_compiler inputs.now.env.now choice) result }
{
    let (path, words) = (choice.path.as_str(), &choice.words);
    let (family, detected) = family_of(inputs.alloc, path, words, inputs.env, seen, notes)?;
    Ok(Compiler {
        choice,
        family,
        detected,
    })
}

/// The compiler of these settings in this environment, with its family.
#[tactic(auto, using(crate::proofs::PassBy::pass_by), unfolding(crate::specs::Compiler::compiler))]
pub(crate) fn compiler_of(
    inputs: &Inputs<'_>,
    seen: &Answers,
    notes: &mut Notes,
) -> Planned<Compiler>
    ensures { Passes seen.now notes.old notes.new
        (spec.compiler inputs.now.set.now inputs.now.env.now) result }
{
    let choice = choose(inputs, seen, notes)?;
    asked_compiler(inputs, choice, seen, notes)
}
