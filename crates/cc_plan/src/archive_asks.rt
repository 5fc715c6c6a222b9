// The questions by which tools of archives are found.
ghost use Rattle.std.specs.Prelude.{◌≡◌, IfOk};
ghost use Rattle.cc_plan.specs.ArchiveTool as spec;
ghost use Rattle.cc_tool.specs.Plans.{Passes};

use crate::beside::beside;
use crate::compiler::compiler_of;
use crate::searched::searched;
use cc_flags::{ArchiveTool, Compiler, Inputs, behind};
use cc_host::{Ask, Question, is_yes};
use cc_text::{Mem, Text, Vars, Words, is_clang};
use cc_tool::{Answers, Notes, Planned, question_of, verdict};
use std::alloc::Global;

fn version_question(alloc: Global, vars: &Vars, program: &str) -> Mem<Question>
    ensures { IfOk result (λ q. q ≡ spec.version_question vars.now program.now) }
{
    question_of(alloc, Ask::ToolVersion, program, &Words::new(alloc), vars)
}

// Whether a program prints its version, with these variables.
#[tactic(auto, using(crate::proofs::PassBy::pass_by), unfolding(crate::specs::ArchiveTool::is_versioned))]
pub(crate) fn is_versioned(
    alloc: Global,
    vars: &Vars,
    program: &str,
    seen: &Answers,
    notes: &mut Notes,
) -> Planned<bool>
    ensures { Passes seen.now notes.old notes.new (spec.is_versioned vars.now program.now) result }
{
    let question = version_question(alloc, vars, program)?;
    let verdict = verdict(alloc, question, seen, notes)?;
    Ok(is_yes(&verdict))
}

// LLVM's tool where Clang looks for programs.
#[tactic(auto, using(crate::proofs::PassBy::pass_by), unfolding(crate::specs::ArchiveTool::tool_of_clang))]
fn tool_of_clang(
    tool: ArchiveTool,
    inputs: &Inputs<'_>,
    compiler: &Compiler,
    seen: &Answers,
    notes: &mut Notes,
) -> Planned<Option<Text>>
    ensures { Passes seen.now notes.old notes.new
        (spec.tool_of_clang tool inputs.now.env.now compiler.now) result }
{
    if is_clang(compiler.family) {
        let name = behind(inputs.alloc, "llvm-", tool)?;
        let (path, name) = (compiler.choice.path.as_str(), name.as_str());
        searched(inputs.alloc, inputs.env, path, name, seen, notes)
    } else {
        Ok(None)
    }
}

// The same, of the compiler.
#[tactic(auto, using(crate::proofs::PassBy::pass_by), unfolding(crate::specs::ArchiveTool::compiler_tool))]
pub(crate) fn compiler_tool(
    tool: ArchiveTool,
    inputs: &Inputs<'_>,
    seen: &Answers,
    notes: &mut Notes,
) -> Planned<Option<Text>>
    ensures { Passes seen.now notes.old notes.new
        (spec.compiler_tool tool inputs.now.set.now inputs.now.env.now) result }
{
    let compiler = compiler_of(inputs, seen, notes)?;
    tool_of_clang(tool, inputs, &compiler, seen, notes)
}

// LLVM's in the place of Visual Studio's, next to a compiler.
#[tactic(auto, using(crate::proofs::PassBy::pass_by), unfolding(crate::specs::ArchiveTool::lib_beside))]
fn lib_beside(
    inputs: &Inputs<'_>,
    compiler: &Compiler,
    seen: &Answers,
    notes: &mut Notes,
) -> Planned<Option<Text>>
    ensures { Passes seen.now notes.old notes.new
        (spec.lib_beside inputs.now.env.now compiler.now) result }
{
    let (family, path) = (compiler.family, compiler.choice.path.as_str());
    beside(
        inputs.alloc,
        inputs.env,
        family,
        path,
        "llvm-lib",
        seen,
        notes,
    )
}

// The same, next to the compiler.
#[tactic(auto, using(crate::proofs::PassBy::pass_by), unfolding(crate::specs::ArchiveTool::compiler_lib))]
pub(crate) fn compiler_lib(
    inputs: &Inputs<'_>,
    seen: &Answers,
    notes: &mut Notes,
) -> Planned<Option<Text>>
    ensures { Passes seen.now notes.old notes.new
        (spec.compiler_lib inputs.now.set.now inputs.now.env.now) result }
{
    let compiler = compiler_of(inputs, seen, notes)?;
    lib_beside(inputs, &compiler, seen, notes)
}

// The program, one behind a prefix, where it prints its version in the environment that was inherited.
#[tactic(auto, using(crate::proofs::PassBy::pass_by), unfolding(crate::specs::ArchiveTool::if_versioned))]
pub(crate) fn if_versioned(
    inputs: &Inputs<'_>,
    program: Text,
    seen: &Answers,
    notes: &mut Notes,
) -> Planned<Option<Text>>
    ensures { Passes seen.now notes.old notes.new
        (spec.if_versioned inputs.now.env.now program) result }
{
    let vars = inputs.env.inherited().vars();
    if is_versioned(inputs.alloc, vars, program.as_str(), seen, notes)? {
        Ok(Some(program))
    } else {
        Ok(None)
    }
}
