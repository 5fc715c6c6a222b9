// Whether the C++ library of a compiler is libc++.
ghost use Rattle.std.specs.Prelude.{◌≡◌, not, ◌&&◌, IfOk};
ghost use Rattle.cc_tool.specs.Libcxx as libcxx;
ghost use Rattle.cc_tool.specs.Libcxx.{libcxx_question};
ghost use Rattle.cc_tool.specs.Plans.{Passes};

use crate::{Answers, Notes, Planned, Tool, question_of, verdict};
use cc_host::{Ask, Question, is_yes};
use cc_text::{Mem, Words, begins_with, is_one_of};
use std::alloc::Global;

// It has dependencies written, by the compiler or its preprocessor (GCC's manual, "Preprocessor Options").
#[tactic(auto, unfolding(crate::specs::Libcxx::is_for_dependencies))]
fn is_for_dependencies(arg: &str) -> bool
    ensures { result ≡ libcxx.is_for_dependencies arg.now }
{
    begins_with(arg, "-M") || begins_with(arg, "-Wp,-M")
}

// A file or a target follows.
#[tactic(auto, unfolding(crate::specs::Libcxx::is_followed))]
fn is_followed(arg: &str) -> bool
    ensures { result ≡ libcxx.is_followed arg.now }
{
    is_one_of(arg, &["-MF", "-MT", "-MQ", "-MJ"])
}

// The args without those of dependencies, each with what follows it.
#[tactic(auto, unfolding(crate::specs::Libcxx::without_dependencies))]
fn without_dependencies(alloc: Global, args: &Words) -> Mem<Words>
    ensures { IfOk result (λ words. words ≡ libcxx.without_dependencies args.now) }
{
    let mut words = Words::new(alloc);
    let mut follows = false;
    for arg in args.as_slice() {
        let skipped = follows;
        follows = !skipped && is_followed(arg.as_str());
        if !skipped && !is_for_dependencies(arg.as_str()) {
            words.push(arg.as_str())?;
        }
    }
    Ok(words)
}

// The question of a tool.
#[tactic(auto, unfolding(crate::specs::Libcxx::libcxx_question))]
fn libcxx_question(alloc: Global, tool: &Tool) -> Mem<Question>
    ensures { IfOk result (λ q. q ≡ libcxx_question tool.now) }
{
    let args = without_dependencies(alloc, &tool.kept_args()?)?;
    let cmd = tool.command_with(&args)?;
    question_of(
        alloc,
        Ask::Libcxx,
        cmd.get_program(),
        cmd.get_args(),
        cmd.get_envs(),
    )
}

/// Whether the C++ library of a compiler is libc++: its preprocessor is asked for the macro by which that library's headers tell
/// their version. It is asked by the tool's command, in its environment, without the args that would have a file of dependencies
/// written beside those of the build: those that begin with `-M` or `-Wp,-M`, and what follows `-MF`, `-MT`, `-MQ` and `-MJ` (GCC's
/// manual, "Preprocessor Options"). Without an answer it isn't libc++.
#[tactic(auto, using(crate::proofs::PassLemmas::pass_laws), unfolding(crate::specs::Libcxx::uses_libcxx))]
pub fn uses_libcxx(alloc: Global, tool: &Tool, seen: &Answers, notes: &mut Notes) -> Planned<bool>
    ensures { Passes seen.now notes.old notes.new (libcxx.uses_libcxx tool.now) result }
{
    let question = libcxx_question(alloc, tool)?;
    let verdict = verdict(alloc, question, seen, notes)?;
    Ok(is_yes(&verdict))
}
