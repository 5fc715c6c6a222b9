// The tool that a variable of the environment names.
ghost use Rattle.cc_plan.specs.EnvTool as spec;
ghost use Rattle.cc_tool.specs.Plans.{Passes};

use crate::search::is_there;
use cc_env::BuildEnv;
use cc_flags::{
    BuildConfig, Choice, in_rustc_wrapper, prefixed_value, tool_in_words, value_names, white_words,
};
use cc_text::{Text, Words};
use cc_tool::{Answers, Notes, Planned, note_name, note_names};
use std::alloc::Global;

// What the words of a text say.
#[tactic(auto, using(crate::proofs::PassBy::pass_by), unfolding(crate::specs::EnvTool::words_tool))]
fn words_tool(
    alloc: Global,
    env: &BuildEnv,
    text: &str,
    seen: &Answers,
    notes: &mut Notes,
) -> Planned<Option<Choice>>
    ensures { Passes seen.now notes.old notes.new (spec.words_tool env.now text.now) result }
{
    note_name("CC_KNOWN_WRAPPER_CUSTOM", seen, notes)?;
    let words = white_words(alloc, text)?;
    let choice = tool_in_words(alloc, env, words.as_slice())?;
    Ok(choice)
}

// The whole text where that is a file, else what its words say.
#[tactic(auto, using(crate::proofs::PassBy::pass_by), unfolding(crate::specs::EnvTool::file_or_words))]
fn file_or_words(
    alloc: Global,
    env: &BuildEnv,
    text: &str,
    seen: &Answers,
    notes: &mut Notes,
) -> Planned<Option<Choice>>
    ensures { Passes seen.now notes.old notes.new (spec.file_or_words env.now text.now) result }
{
    if is_there(alloc, text, seen, notes)? {
        let choice = in_rustc_wrapper(alloc, env, text, Words::new(alloc))?;
        Ok(Some(choice))
    } else {
        words_tool(alloc, env, text, seen, notes)
    }
}

// The tool in a text.
#[tactic(auto, using(crate::proofs::PassBy::pass_by), unfolding(crate::specs::EnvTool::tool_in_text))]
fn tool_in_text(
    alloc: Global,
    env: &BuildEnv,
    text: &str,
    seen: &Answers,
    notes: &mut Notes,
) -> Planned<Option<Choice>>
    ensures { Passes seen.now notes.old notes.new (spec.tool_in_text env.now text.now) result }
{
    if text.is_empty() {
        Ok(None)
    } else {
        file_or_words(alloc, env, text, seen, notes)
    }
}

// The tool in the value of a variable.
#[tactic(auto, using(crate::proofs::PassBy::pass_by), unfolding(crate::specs::EnvTool::tool_in_value))]
fn tool_in_value(
    alloc: Global,
    env: &BuildEnv,
    value: &Option<Text>,
    seen: &Answers,
    notes: &mut Notes,
) -> Planned<Option<Choice>>
    ensures { Passes seen.now notes.old notes.new (spec.tool_in_value env.now value.now) result }
{
    match value {
        Some(value) => tool_in_text(alloc, env, value.as_str().trim(), seen, notes),
        None => Ok(None),
    }
}

// The tool of a variable of the prefixes.
#[tactic(auto, using(crate::proofs::PassBy::pass_by), unfolding(crate::specs::EnvTool::env_tool))]
pub(crate) fn env_tool(
    alloc: Global,
    set: &BuildConfig,
    env: &BuildEnv,
    variable: &str,
    seen: &Answers,
    notes: &mut Notes,
) -> Planned<Option<Choice>>
    ensures { Passes seen.now notes.old notes.new (spec.env_tool set.now env.now variable.now) result }
{
    let names = value_names(alloc, set, env, variable)?;
    note_names(&names, seen, notes)?;
    let value = prefixed_value(alloc, set, env, variable)?;
    tool_in_value(alloc, env, &value, seen, notes)
}
