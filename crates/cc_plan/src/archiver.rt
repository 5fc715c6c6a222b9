// An archiver, and a library that it writes.

use cc_env::BuildEnv;
use cc_host::Command;
use cc_target::TargetInfo;
use cc_text::{Text, Words};

/// An archiver.
#[derive(Drop, Debug)]
pub struct Archiver {
    /// Its command up to the words of a form: the program with the words behind its name in `AR` and the flags that it
    /// is always given, in the environment of a child.
    pub cmd: Command,
    /// Its name, by which it takes words in one form or another: the program.
    pub name: Text,
    /// Whether a variable of `ARFLAGS` is set, or a flag.
    pub any_flags: bool,
    /// Whether there are words behind its name in `AR`.
    pub any_args: bool,
}

/// What a library is written by: its target, its archiver in the environment, its name and its path, and the paths of
/// its objects.
#[derive(Clone, Copy)]
pub struct Library<'a> {
    /// What it is for: by this the archiver takes words in one form or another.
    pub target: &'a TargetInfo<'a>,
    /// Its archiver.
    pub archiver: &'a Archiver,
    /// The environment that the archiver runs in.
    pub env: &'a BuildEnv,
    /// What a linker is given for it.
    pub name: &'a str,
    /// Its path.
    pub path: &'a str,
    /// The paths of the objects that it gets, in order.
    pub paths: &'a Words,
}
