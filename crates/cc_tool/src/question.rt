// Questions, put together from what is asked of what.
ghost use Rattle.std.specs.Prelude.{◌≡◌, IfOk};
ghost use Rattle.cc_tool.specs.Family.{question};

use cc_host::{Ask, Question};
use cc_text::{Mem, Text, Vars, Words};
use std::alloc::Global;

/// A question to a program, with these words, in an environment of these variables. It is only put
/// together: `ask` gives its verdict. Refused for memory, there is none.
pub fn question_of(
    alloc: Global,
    ask: Ask,
    program: &str,
    words: &Words,
    vars: &Vars,
) -> Mem<Question>
    ensures { IfOk result (λ q. q ≡ question ask program.now words.now vars.now) }
{
    Ok(Question {
        ask,
        program: Text::of(alloc, program)?,
        words: words.try_clone()?,
        vars: vars.try_clone()?,
    })
}
