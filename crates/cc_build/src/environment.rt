// The flags that a build takes from its environment.
ghost use Rattle.std.specs.Prelude.{◌≡◌, IfOk, IfErr, OnOk, ◌⊎◌, ◌++◌, Some, None, false};
ghost use Rattle.std.specs.List.{list_any};
ghost use Rattle.std.specs.Option.{option_copied};
ghost use Rattle.cc_flags.specs.Given.{variable_flags};
ghost use Rattle.cc_host.specs.Call.{part};
ghost use Rattle.cc_plan.specs.Asking.{is_of_children};
ghost use Rattle.cc_build.specs.Build.{build_in, flags_in};
ghost use Rattle.cc_build.specs.Error.{no_memory};
ghost use Rattle.cc_build.specs.Flags.{always as always_given, absent_error, wanted_error, flags_error, flags_read as read_for_flags, FlagsEnd};
ghost use Rattle.cc_build.specs.Kept.{Aside};

use crate::lists::always;
use crate::message::or_no_memory;
use crate::refusal::not_set;
use crate::reruns::tell_names;
use crate::task::Task;
use crate::{Error, ErrorKind};
use cc_env::BuildEnv;
use cc_flags::{flags_names, in_order, wants_reruns};
use cc_host::{Host, World};
use cc_plan::{BuildConfig, Flags, host_of, target_of, variable_flags};
use cc_text::{Mem, Text, Words};
use cc_tool::Caches;
use std::alloc::Global;
use std::sync::Wait;

fn unset(alloc: Global, name: &str) -> Mem<Error>
    ensures { IfOk result (λ e. wanted_error name.now None ≡ Some e) }
{
    not_set(alloc, Text::of(alloc, name)?)
}

// None of the names of the variable is set.
fn absent(alloc: Global, name: &str) -> Mem<Error>
    ensures { IfOk result (λ e. e ≡ absent_error name.now) }
{
    let subject = Text::of(alloc, name)?;
    let mut message = Text::of(alloc, "could not find environment variable ")?;
    message.push_str(name)?;
    Ok(Error::new(ErrorKind::EnvVarNotFound, subject, message))
}

// A value that is wanted.
fn want(alloc: Global, name: &str, value: Option<&str>) -> Result<(), Error>
    ensures allowed { OnOk result (wanted_error name.now (option_copied value.entry) ≡ None) }
    ensures refused { IfErr result
        (λ e. (e ≡ no_memory) ⊎ (wanted_error name.now (option_copied value.entry) ≡ Some e)) }
{
    match value {
        Some(_) => Ok(()),
        None => Err(or_no_memory(unset(alloc, name))),
    }
}

// The flags of a variable for the build's target and host.
#[tactic(auto, unfolding(crate::specs::Flags::flags_error))]
fn flags_of_variable(
    alloc: Global,
    set: &BuildConfig,
    env: &BuildEnv,
    name: &str,
) -> Result<Words, Error>
    ensures flags { IfOk result (λ words. variable_flags set.now env.now name.now ≡ Some words) }
    ensures allowed { OnOk result (flags_error set.now env.now name.now ≡ None) }
    ensures refused { IfErr result (λ e. (e ≡ no_memory) ⊎
        (flags_error set.now env.now name.now ≡ Some e)) }
{
    want(alloc, "TARGET", target_of(set, env))?;
    want(alloc, "HOST", host_of(set, env))?;
    match variable_flags(alloc, set, env, name)? {
        Some(words) => Ok(words),
        None => Err(or_no_memory(absent(alloc, name))),
    }
}

// The flags of the settings, and behind them those of a variable.
fn flags_with(alloc: Global, set: &BuildConfig, env: &BuildEnv, name: &str) -> Result<Flags, Error>
    ensures flags { IfOk result (λ flags.
        flags ≡ set.now.flags ++ always_given (flags_in (build_in set.now env.now) name.now)) }
    ensures allowed { OnOk result (flags_error set.now env.now name.now ≡ None) }
    ensures refused { IfErr result (λ e. (e ≡ no_memory) ⊎
        (flags_error set.now env.now name.now ≡ Some e)) }
{
    let words = flags_of_variable(alloc, set, env, name)?;
    let mut flags = set.flags.try_clone()?;
    flags.append(always(alloc, &words)?)?;
    Ok(flags)
}

// The variables that are read for the flags of one, as far as Cargo is told of them.
fn flags_read(alloc: Global, set: &BuildConfig, env: &BuildEnv, name: &str) -> Mem<Words>
    ensures { IfOk result (λ names. names ≡ read_for_flags set.now env.now name.now) }
{
    if !wants_reruns(set) {
        return Ok(Words::new(alloc));
    }
    let names = flags_names(alloc, set, env, name)?;
    in_order(alloc, &names)
}

/// The flags of a build, and behind them those of a variable. The lines of the variables that were read for them are
/// printed.
#[tactic(auto, using(crate::proofs::Keeping::aside_none))]
pub(crate) fn told_flags<W: World, H: Host<W>>(
    rt: &impl Wait,
    task: &Task<'_>,
    caches: &Caches<W>,
    host: &mut H,
    name: &str,
) -> Result<Flags, Error>
    ensures aside { Aside H.log H.patience host.old host.new }
    ensures childless { list_any is_of_children (part H.log host.old host.new) ≡ false }
    ensures flags { IfOk result (λ flags. flags ≡ task.now.set.now.flags
        ++ always_given (flags_in (build_in task.now.set.now task.now.env.now) name.now)) }
    ensures outcome { FlagsEnd (build_in task.now.set.now task.now.env.now) name.now result
        (part H.log host.old host.new) }
{
    let (alloc, set, env) = (task.reporting.alloc, task.set, task.env);
    let flags = flags_with(alloc, set, env, name)?;
    let names = flags_read(alloc, set, env, name)?;
    tell_names(rt, task, caches, host, names)?;
    Ok(flags)
}
