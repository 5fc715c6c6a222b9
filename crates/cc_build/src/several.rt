// Compile commands that run beside each other.
ghost use Rattle.std.specs.Prelude.{◌≤◌, vec_len};

use cc_run::Planned;

/// Two compile commands or more.
#[derive(Drop)]
pub(crate) struct Several {
    pub cmds: Vec<Planned>,
    ghost several: { 2 ≤ vec_len cmds },
}
