// A compiler with its family.

use crate::Choice;
use cc_text::{Detected, ToolFamily};

/// A compiler with its family.
#[derive(Drop, Debug)]
pub struct Compiler {
    /// Its path, its wrapper, and the words behind its name in `CC` or `CXX`.
    pub choice: Choice,
    /// The form of words that it takes.
    pub family: ToolFamily,
    /// How the family was found: a user is warned of one that no mark showed.
    pub detected: Detected,
}
