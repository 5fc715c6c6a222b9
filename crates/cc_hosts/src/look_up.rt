// Where the program of a command is looked for.
ghost use Rattle.std.specs.Prelude.{◌≡◌};
ghost use Rattle.std.specs.Option.{option_copied};
ghost use Rattle.cc_hosts.specs.LookUp.{has_slash, child_path};

use cc_host::Command;
use cc_text::{Mem, NoMemory, Text, Vars, join};
use std::alloc::Global;
use std::env;
use std::env::{Env, VarError};

/// Where the program of a command is looked for.
#[derive(Drop)]
pub enum Place {
    /// Where its own name says, or where std looks by itself.
    Named,
    /// In the folders of the command's own PATH.
    Own(Text),
    /// In those folders of this process's PATH that are absolute. Another one would mean another folder to the child.
    Absolute(Text),
}

// Whether a name says itself where the program is.
fn has_slash(program: &str) -> bool
    ensures { result ≡ has_slash program.now }
{
    program.as_bytes().iter().any(|b| *b == b'/')
}

// The PATH that a child gets of these variables, or none. Of a name given twice the last counts.
fn child_path(vars: &Vars) -> Option<&Text>
    ensures { option_copied result ≡ child_path vars.now }
{
    let (_, value) = vars
        .as_slice()
        .iter()
        .rev()
        .find(|pair| pair.0.as_str() == "PATH")?;
    Some(value)
}

/// Where a program of this name is in a folder of a PATH. An empty one is the folder that the child starts in.
pub fn path_in(alloc: Global, folder: &str, program: &str) -> Mem<Text> {
    join(alloc, if folder.is_empty() { "." } else { folder }, program)
}

/// Where the program of a command is looked for. A name without a slash is searched on the PATH of the command, or on that of this
/// process where the command has none.
pub fn look_up<R: Env + AllocGlobal>(rt: &R, cmd: &Command) -> Mem<Place> {
    let program = cmd.get_program();
    if program.is_empty() || has_slash(program) {
        return Ok(Place::Named);
    }
    if let Some(folders) = child_path(cmd.get_envs()) {
        return Ok(Place::Own(folders.try_clone()?));
    }
    match env::var(rt, "PATH") {
        Ok(folders) => Ok(Place::Absolute(Text::of(rt.alloc(), folders.as_str())?)),
        Err(VarError::OutOfMemory) => Err(NoMemory),
        Err(VarError::NotPresent | VarError::NotUnicode) => Ok(Place::Named),
    }
}
