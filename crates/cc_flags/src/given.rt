// What the settings say and, where they are silent, the variables that Cargo sets for a build script, as Cargo's book lists them.
ghost use Rattle.std.specs.Prelude.{◌≡◌, IfOk};
ghost use Rattle.std.specs.Option.{option_copied};
ghost use Rattle.cc_flags.specs.Given.{prefixed_value, temp_folder, probe_folder, or_variable, out_dir_of, target_of, host_of, level_of, is_value_of, is_cargos_target, is_true_variable, is_disabled, has_no_defaults, has_shell_flags, flags_variable, variable_flags, environment_flags};
ghost use Rattle.cc_flags.specs.Target.{target_name};

use crate::BuildConfig;
use crate::blanks::nonempty;
use cc_env::{BuildEnv, env_value_is_true, flags_of, single};
use cc_text::{Mem, Text, Words};
use std::alloc::Global;

// A value that is set, else that of a variable.
pub(crate) fn or_variable<'a>(
    value: &'a Option<Text>,
    env: &'a BuildEnv,
    name: &str,
) -> Option<&'a str>
    ensures { option_copied result ≡ or_variable value.now env.now name.now }
{
    match value {
        Some(value) => Some(value.as_str()),
        None => env.inherited().get(name),
    }
}

/// The folder of the objects and of the library, lent: the set one, else `OUT_DIR`, or none. It takes no memory.
pub fn out_dir_of<'a>(set: &'a BuildConfig, env: &'a BuildEnv) -> Option<&'a str>
    ensures { option_copied result ≡ out_dir_of set.now env.now }
{
    or_variable(&set.out_dir, env, "OUT_DIR")
}

/// The name of the target, lent: the set one, else `TARGET`, or none. It takes no memory.
pub fn target_of<'a>(set: &'a BuildConfig, env: &'a BuildEnv) -> Option<&'a str>
    ensures { option_copied result ≡ target_of set.now env.now }
{
    or_variable(&set.target, env, "TARGET")
}

/// The name of the target, lent, or the empty name where it is set nowhere. It takes no memory.
pub fn target_name<'a>(set: &'a BuildConfig, env: &'a BuildEnv) -> &'a str
    ensures { result.now ≡ target_name set.now env.now }
{
    target_of(set, env).unwrap_or("")
}

/// The name of the target of the machine that compiles, lent: the set one, else `HOST`, or none. It takes no memory.
pub fn host_of<'a>(set: &'a BuildConfig, env: &'a BuildEnv) -> Option<&'a str>
    ensures { option_copied result ≡ host_of set.now env.now }
{
    or_variable(&set.host, env, "HOST")
}

/// The optimisation level as text, lent: the set one, else `OPT_LEVEL`, or none. It takes no memory.
pub fn level_of<'a>(set: &'a BuildConfig, env: &'a BuildEnv) -> Option<&'a str>
    ensures { option_copied result ≡ level_of set.now env.now }
{
    or_variable(&set.opt_level, env, "OPT_LEVEL")
}

fn is_value_of(env: &BuildEnv, name: &str, value: &str) -> bool
    ensures { result ≡ is_value_of env.now name.now value.now }
{
    match env.inherited().get(name) {
        Some(other) => value == other,
        None => false,
    }
}

// Whether the target is the one that Cargo builds for.
pub(crate) fn is_cargos_target(set: &BuildConfig, env: &BuildEnv) -> bool
    ensures { result ≡ is_cargos_target set.now env.now }
{
    match &set.target {
        Some(target) => is_value_of(env, "TARGET", target.as_str()),
        None => true,
    }
}

fn is_true_variable(env: &BuildEnv, name: &str) -> bool
    ensures { result ≡ is_true_variable env.now name.now }
{
    match env.inherited().get(name) {
        Some(value) => env_value_is_true(value),
        None => false,
    }
}

/// Whether `CC_FORCE_DISABLE` is true, so that no command may run, as a build system wants that builds
/// all libraries itself. It takes no memory.
pub fn is_disabled(env: &BuildEnv) -> bool
    ensures { result ≡ is_disabled env.now }
{
    is_true_variable(env, "CC_FORCE_DISABLE")
}

/// Whether the words that a target and a level bring are left out: it is set, or `CRATE_CC_NO_DEFAULTS` is true. It
/// takes no memory.
pub fn has_no_defaults(set: &BuildConfig, env: &BuildEnv) -> bool
    ensures { result ≡ has_no_defaults set.now env.now }
{
    set.no_default_flags || is_true_variable(env, "CRATE_CC_NO_DEFAULTS")
}

fn has_shell_flags(set: &BuildConfig, env: &BuildEnv) -> bool
    ensures { result ≡ has_shell_flags set.now env.now }
{
    match set.shell_escaped_flags {
        Some(on) => on,
        None => is_true_variable(env, "CC_SHELL_ESCAPED_FLAGS"),
    }
}

pub(crate) fn flags_variable(set: &BuildConfig) -> &'static str
    ensures { result.now ≡ flags_variable set.now }
{
    if set.cpp { "CXXFLAGS" } else { "CFLAGS" }
}

/// The flags of a variable for this target and host: those of each of its four names that is set, the most general name first, parted
/// at blanks, or as a shell parts words where that is wanted. None where none of them is set. Only want of memory refuses.
pub fn variable_flags(
    alloc: Global,
    set: &BuildConfig,
    env: &BuildEnv,
    variable: &str,
) -> Mem<Option<Words>>
    ensures { IfOk result (λ flags. flags ≡ variable_flags set.now env.now variable.now) }
{
    let target = target_of(set, env).unwrap_or("");
    let host = host_of(set, env).unwrap_or("");
    flags_of(
        alloc,
        env.inherited(),
        variable,
        target,
        host,
        has_shell_flags(set, env),
    )
}

// The flags that the environment gives the compiler.
pub(crate) fn environment_flags(
    alloc: Global,
    set: &BuildConfig,
    env: &BuildEnv,
) -> Mem<Option<Words>>
    ensures { IfOk result (λ flags. flags ≡ environment_flags set.now env.now) }
{
    variable_flags(alloc, set, env, flags_variable(set))
}

/// The value of a variable of the prefixes: of its four names, with the target and without, the first that is set.
/// Without a target and a host there is none. Only want of memory refuses.
pub fn prefixed_value(
    alloc: Global,
    set: &BuildConfig,
    env: &BuildEnv,
    variable: &str,
) -> Mem<Option<Text>>
    ensures { IfOk result (λ value. value ≡ prefixed_value set.now env.now variable.now) }
{
    match (target_of(set, env), host_of(set, env)) {
        (Some(target), Some(host)) => single(alloc, env.inherited(), variable, target, host),
        _ => Ok(None),
    }
}

fn temp_folder(env: &BuildEnv) -> &str
    ensures { result.now ≡ temp_folder env.now }
{
    nonempty(env.inherited().get("TMPDIR")).unwrap_or("/tmp")
}

/// The folder of probe files, lent: the out dir, where it is set and not empty, else that for files that don't last. It takes no memory.
#[tactic(auto, unfolding(crate::specs::Given::probe_folder))]
pub fn probe_folder<'a>(set: &'a BuildConfig, env: &'a BuildEnv) -> &'a str
    ensures { result.now ≡ probe_folder set.now env.now }
{
    nonempty(out_dir_of(set, env)).unwrap_or(temp_folder(env))
}
