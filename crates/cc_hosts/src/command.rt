// A command as std starts it.
ghost use Rattle.std.specs.Prelude.{◌≡◌, ◌++◌, ◌∷◌, ◌<◌, ◌≤◌, List, ℕ, length, take, codes, true, Some, None, IfOk, OnOk};
ghost use Rattle.std.specs.Process.{command_program, command_args, command_var, command_dir, clears_env, SameProgramAndArgs, SameEnv, SameOtherVars, SameDir};
ghost use Rattle.cc_text.specs.Vars.{names_ascend};
ghost use Rattle.cc_hosts.specs.Child.{child_value, value_over};

use cc_host::Command;
use cc_text::{Mem, Text, Vars, Words};
use std::alloc::Global;
use std::process;

// Adds words last.
fn add_words(child: &mut process::Command, words: &Words) -> Mem<()>
    ensures args { OnOk result (command_args child.new ≡ command_args child.old ++ words.now) }
    ensures program { OnOk result (command_program child.new ≡ command_program child.old) }
    ensures env { OnOk result (SameEnv child.old child.new) }
    ensures dir { OnOk result (SameDir child.old child.new) }
{
    for word in words.as_slice() {
        child.arg(word.as_str())?;
    }
    Ok(())
}

// Sets one variable.
fn set_var(child: &mut process::Command, name: &str, value: &str) -> Mem<()>
    ensures set { OnOk result (command_var child.new name.now ≡ Some (Some value.now)) }
    ensures others { OnOk result (SameOtherVars child.old child.new name.now) }
    ensures clears { OnOk result (clears_env child.new ≡ clears_env child.old) }
    ensures call { OnOk result (SameProgramAndArgs child.old child.new) }
    ensures dir { OnOk result (SameDir child.old child.new) }
{
    child.env(name, value)?;
    Ok(())
}

// How many pairs from the first on have names that ascend.
fn ascending(vars: &[(Text, Text)]) -> usize
    requires { 0 < length vars.now }
    ensures some { 0 < result }
    ensures within { result ≤ length vars.now }
    ensures ascends { names_ascend (take result vars.now) ≡ true }
{
    let mut last = 0;
    while last + 1 < vars.len() && vars[last].0.as_str().cmp(vars[last + 1].0.as_str()).is_lt() {
        last += 1;
    }
    last + 1
}

// Sets variables whose names ascend, the last one first: the child keeps its variables in order, and each is looked for from the first on.
fn set_ascending(child: &mut process::Command, vars: &[(Text, Text)]) -> Mem<()>
    requires { names_ascend vars.now ≡ true }
    ensures vars { OnOk result ((name : List ℕ) → command_var child.new name
        ≡ value_over vars.now (command_var child.old) name) }
    ensures clears { OnOk result (clears_env child.new ≡ clears_env child.old) }
    ensures call { OnOk result (SameProgramAndArgs child.old child.new) }
    ensures dir { OnOk result (SameDir child.old child.new) }
{
    let mut left = vars.len();
    while left > 0 {
        left -= 1;
        let pair = &vars[left];
        set_var(child, pair.0.as_str(), pair.1.as_str())?;
    }
    Ok(())
}

// Sets the variables of a child that has none. Of a name given twice the last counts.
fn set_vars(child: &mut process::Command, vars: &Vars) -> Mem<()>
    requires { (name : List ℕ) → command_var child.old name ≡ None }
    ensures vars { OnOk result ((name : List ℕ)
        → command_var child.new name ≡ child_value vars.now name) }
    ensures clears { OnOk result (clears_env child.new ≡ clears_env child.old) }
    ensures call { OnOk result (SameProgramAndArgs child.old child.new) }
    ensures dir { OnOk result (SameDir child.old child.new) }
{
    let pairs = vars.as_slice();
    let mut start = 0;
    while start < pairs.len() {
        let rest = &pairs[start..];
        let count = ascending(rest);
        set_ascending(child, &rest[..count])?;
        start += count;
    }
    Ok(())
}

// The child with the words of a command behind its own, and with the folder and exactly the variables of the command.
fn completed(mut child: process::Command, cmd: &Command) -> Mem<process::Command>
    requires vars { (name : List ℕ) → command_var child name ≡ None }
    requires dir { command_dir child ≡ None }
    ensures program { IfOk result (λ c. command_program c ≡ command_program child) }
    ensures args { IfOk result (λ c. command_args c ≡ command_args child ++ cmd.now.args) }
    ensures clears { IfOk result (λ c. clears_env c ≡ clears_env child) }
    ensures vars { IfOk result (λ c. (name : List ℕ)
        → command_var c name ≡ child_value cmd.now.env name) }
    ensures dir { IfOk result (λ c. command_dir c ≡ cmd.now.dir) }
{
    add_words(&mut child, cmd.get_args())?;
    set_vars(&mut child, cmd.get_envs())?;
    if let Some(dir) = cmd.get_current_dir() {
        child.current_dir(dir)?;
    }
    Ok(child)
}

/// A child with the words, the folder and exactly the variables of a command, and the program at this path.
pub fn child_of(alloc: Global, program: &str, cmd: &Command) -> Mem<process::Command>
    ensures program { IfOk result (λ c. command_program c ≡ program.now) }
    ensures args { IfOk result (λ c. command_args c ≡ cmd.now.args) }
    ensures clears { IfOk result (λ c. clears_env c ≡ true) }
    ensures vars { IfOk result (λ c. (name : List ℕ)
        → command_var c name ≡ child_value cmd.now.env name) }
    ensures dir { IfOk result (λ c. command_dir c ≡ cmd.now.dir) }
{
    let mut child = process::Command::new(alloc, program)?;
    child.env_clear();
    completed(child, cmd)
}

/// A child as `child_of` makes it, where the shell is to read the program: the shell's first word is the program's path.
pub fn script_of(alloc: Global, script: &str, cmd: &Command) -> Mem<process::Command>
    ensures program { IfOk result (λ c. command_program c ≡ codes "/bin/sh") }
    ensures args { IfOk result (λ c. command_args c ≡ script.now ∷ cmd.now.args) }
    ensures clears { IfOk result (λ c. clears_env c ≡ true) }
    ensures vars { IfOk result (λ c. (name : List ℕ)
        → command_var c name ≡ child_value cmd.now.env name) }
    ensures dir { IfOk result (λ c. command_dir c ≡ cmd.now.dir) }
{
    let mut child = process::Command::new(alloc, "/bin/sh")?;
    child.env_clear();
    child.arg(script)?;
    completed(child, cmd)
}
