// What the words of a compiler and the names of tools of archives are refused for.
ghost use Rattle.cc_target.specs.Targets.{info_seen};
ghost use Rattle.cc_plan.specs.Refusal.{AllowedBy, RefusedBy, qnx_arch_refusal, unset, target_refusal, platform_refusal, given_refusal};
ghost use Rattle.cc_flags.specs.Compilation.{seen};
ghost use Rattle.cc_plan.specs.Checks as spec;
ghost use Rattle.cc_plan.specs.Checks.{qnx_refusal};
ghost use Rattle.std.specs.Prelude.{◌≡◌, ◌&&◌, IfOk, ◌⊎◌, Some};
ghost use Rattle.std.specs.Option.{option_copied};
ghost use Rattle.cc_flags.specs.Given.{target_of};
ghost use Rattle.cc_flags.specs.Target.{target_info};
ghost use Rattle.cc_plan.specs.Support.{compiler_refusal};
ghost use Rattle.cc_plan.specs.declared.error.PlanError.TheVariants.{NoMemory as WantsMemory, NotSet};

use crate::PlanError;
use cc_env::BuildEnv;
use cc_flags::{
    BuildConfig, Compilation, FlagError, has_no_defaults, host_of, is_qnx, is_wasm_linux,
    known_info, lacks_qnx_variant, level_of, musl_sysroot, names_target, qnx_arch, target_of,
};
use cc_target::TargetInfo;
use cc_text::{Text, ToolFamily};
use std::alloc::Global;

// QNX has a name for the architecture, where its tools are wanted.
#[tactic(auto, unfolding(crate::specs::Refusal::qnx_arch_refusal, cc_flags::specs::ArchiveNames::lacks_qnx_arch))]
pub(crate) fn check_qnx_arch(alloc: Global, target: &TargetInfo) -> Result<(), PlanError>
    ensures allowed { AllowedBy (qnx_arch_refusal (info_seen target.now)) result }
    ensures refused { RefusedBy (qnx_arch_refusal (info_seen target.now)) result }
{
    if is_qnx(target) && qnx_arch(target).is_none() {
        return Err(PlanError::QnxArch(Text::of(alloc, target.full_arch)?));
    }
    Ok(())
}

// QNX is refused on an architecture for which its compiler has no variant: `-V` of "qcc" in QNX's "Utilities
// Reference".
#[tactic(auto, unfolding(crate::specs::Checks::qnx_refusal))]
fn check_qnx(alloc: Global, target: &TargetInfo, family: ToolFamily) -> Result<(), PlanError>
    ensures allowed { AllowedBy (qnx_refusal family (info_seen target.now)) result }
    ensures refused { RefusedBy (qnx_refusal family (info_seen target.now)) result }
{
    if lacks_qnx_variant(family, target) {
        return Err(PlanError::QnxArch(Text::of(alloc, target.full_arch)?));
    }
    Ok(())
}

// Clang is refused a target whose sysroot isn't set, rather than left to fail at the first header.
#[tactic(auto, unfolding(crate::specs::Checks::clang_refusal, crate::specs::Checks::sysroot_refusal))]
fn check_sysroot(given: &Compilation<'_>) -> Result<(), PlanError>
    ensures allowed { AllowedBy (spec.clang_refusal (seen given.now)) result }
    ensures refused { RefusedBy (spec.clang_refusal (seen given.now)) result }
{
    let is_named = names_target(given);
    let sysroot = musl_sysroot(given);
    if is_named && is_wasm_linux(given.target) && sysroot.is_none() {
        return Err(PlanError::NotSet(Text::of(given.alloc, "WASM_MUSL_SYSROOT")?));
    }
    Ok(())
}

/// Whether there are the words that a target and a level bring, or they are left out.
///
/// Refused where QNX has no compiler for the architecture, or the sysroot of WebAssembly's threads isn't set, and for
/// memory. The refusal has the architecture, or the variable.
#[tactic(auto, unfolding(crate::specs::Checks::defaults_refusal))]
pub(crate) fn check_defaults(given: &Compilation<'_>) -> Result<(), PlanError>
    ensures allowed { AllowedBy (spec.defaults_refusal (seen given.now)) result }
    ensures refused { RefusedBy (spec.defaults_refusal (seen given.now)) result }
{
    if !has_no_defaults(given.set, given.env) {
        check_qnx(given.alloc, given.target, given.compiler.family)?;
        check_sysroot(given)?;
    }
    Ok(())
}

/// Whether the flags have no wrong one, where they are taken. The refusal has the key of the first
/// wrong one.
#[tactic(auto, unfolding(crate::specs::Checks::inherited_refusal))]
pub(crate) fn check_rustflags(given: &Compilation<'_>) -> Result<(), PlanError>
    ensures allowed { AllowedBy (spec.inherited_refusal
        given.now.set.now.inherit_rustflags given.now.env.now.inherited) result }
    ensures refused { RefusedBy (spec.inherited_refusal
        given.now.set.now.inherit_rustflags given.now.env.now.inherited) result }
{
    if !given.set.inherit_rustflags {
        return Ok(());
    }
    match &given.handed.rustflags.wrong {
        None => Ok(()),
        Some(FlagError::InvalidFlag(flag)) => Err(PlanError::Flag(flag.try_clone()?)),
        Some(FlagError::NoMemory) => Err(PlanError::NoMemory),
    }
}

fn not_set(alloc: Global, name: &str) -> PlanError
    ensures { (result ≡ WantsMemory) ⊎ (result ≡ NotSet name.now) }
{
    match Text::of(alloc, name) {
        Ok(name) => PlanError::NotSet(name),
        Err(_) => PlanError::NoMemory,
    }
}

// A value that is set, or else the refusal by its variable.
pub(crate) fn demand<'a>(
    alloc: Global,
    name: &str,
    value: Option<&'a str>,
) -> Result<&'a str, PlanError>
    ensures value { IfOk result (λ text. option_copied value.entry ≡ Some text.now) }
    ensures allowed { AllowedBy (unset name.now (option_copied value.entry)) result }
    ensures refused { RefusedBy (unset name.now (option_copied value.entry)) result }
{
    match value {
        Some(text) => Ok(text),
        None => Err(not_set(alloc, name)),
    }
}

/// What is known of the target, lent where Cargo describes it. Refused where it is set nowhere, or where the table has
/// no row of it and it isn't one that Cargo builds for and describes, and for memory.
#[tactic(auto, unfolding(crate::specs::Refusal::target_refusal))]
pub(crate) fn known_target<'a>(
    alloc: Global,
    set: &'a BuildConfig,
    env: &'a BuildEnv,
) -> Result<TargetInfo<'a>, PlanError>
    ensures info { IfOk result (λ target. info_seen target ≡ target_info set.now env.now) }
    ensures allowed { AllowedBy (target_refusal set.now env.now) result }
    ensures refused { RefusedBy (target_refusal set.now env.now) result }
{
    let name = match target_of(set, env) {
        Some(name) => name,
        None => return Err(not_set(alloc, "TARGET")),
    };
    match known_info(set, env, name) {
        Ok(target) => Ok(target),
        Err(_) => Err(PlanError::UnknownTarget(Text::of(alloc, name)?)),
    }
}

/// Whether the target is set and known, and the host set. Refused where one isn't, with the variable or the name, and
/// for memory.
#[tactic(auto, unfolding(crate::specs::Refusal::platform_refusal))]
pub(crate) fn check_platform(
    alloc: Global,
    set: &BuildConfig,
    env: &BuildEnv,
) -> Result<(), PlanError>
    ensures allowed { AllowedBy (platform_refusal set.now env.now) result }
    ensures refused { RefusedBy (platform_refusal set.now env.now) result }
{
    known_target(alloc, set, env)?;
    demand(alloc, "HOST", host_of(set, env))?;
    Ok(())
}

// The level, and the target with what is known of it.
#[tactic(auto, unfolding(crate::specs::Refusal::given_refusal))]
pub(crate) fn given_target<'a>(
    alloc: Global,
    set: &'a BuildConfig,
    env: &'a BuildEnv,
) -> Result<TargetInfo<'a>, PlanError>
    ensures info { IfOk result (λ target. info_seen target ≡ target_info set.now env.now) }
    ensures allowed { AllowedBy (given_refusal set.now env.now) result }
    ensures refused { RefusedBy (given_refusal set.now env.now) result }
{
    demand(alloc, "OPT_LEVEL", level_of(set, env))?;
    let target = known_target(alloc, set, env)?;
    Ok(target)
}

/// Whether a compiler has words. Refused by the words of the target and the level; then where the host is set nowhere,
/// which flags of the environment are looked up by; then by a wrong flag of Rust code; and for memory.
#[tactic(auto, unfolding(crate::specs::Refusal::refusal_by, crate::specs::Tool::defaults_refusal_by))]
pub(crate) fn check_compiler(given: &Compilation<'_>) -> Result<(), PlanError>
    ensures allowed { AllowedBy (compiler_refusal (seen given.now)) result }
    ensures refused { RefusedBy (compiler_refusal (seen given.now)) result }
{
    check_defaults(given)?;
    demand(given.alloc, "HOST", host_of(given.set, given.env))?;
    check_rustflags(given)?;
    Ok(())
}
