// What a compiler is chosen by, and a compilation: what the words of a tool, its warnings and the
// questions on its flags are made of.
ghost use Rattle.std.specs.Prelude.{◌≡◌};
ghost use Rattle.cc_flags.specs.Inherited.{handed as handed_down, inherited_flags};
ghost use Rattle.cc_flags.specs.Target.{target_info};
ghost use Rattle.cc_target.specs.Targets.{info_seen};
ghost use Rattle.std.specs.Option.{option_copied};
ghost use Rattle.cc_flags.specs.Compilers.{links_by_plugin};

use crate::compiler::Compiler;
use crate::inherited::Handed;
use crate::{BuildConfig, RustcCodegenFlags};
use cc_env::BuildEnv;
use cc_target::TargetInfo;
use std::alloc::Global;

/// The settings in their environment, what Cargo hands down in it, read once, and what is known of the
/// target.
#[derive(Clone, Copy)]
pub struct Inputs<'a> {
    pub alloc: Global,
    pub set: &'a BuildConfig,
    pub env: &'a BuildEnv,
    pub handed: &'a Handed,
    pub target: &'a TargetInfo<'a>,
    ghost read: { handed.now ≡ handed_down env.now.inherited },
    ghost known: { info_seen target.now ≡ target_info set.now env.now },
}

/// The same with a compiler.
#[derive(Clone, Copy)]
pub struct Compilation<'a> {
    pub alloc: Global,
    pub set: &'a BuildConfig,
    pub env: &'a BuildEnv,
    pub handed: &'a Handed,
    pub target: &'a TargetInfo<'a>,
    pub compiler: &'a Compiler,
    ghost read: { handed.now ≡ handed_down env.now.inherited },
    ghost known: { info_seen target.now ≡ target_info set.now env.now },
}

/// The flags, where they are taken: none where they aren't, none is set, or one is wrong. It takes no
/// memory.
#[tactic(auto, unfolding(crate::specs::Inherited::inherited_flags))]
pub(crate) fn taken_flags<'a>(given: &Compilation<'a>) -> Option<&'a RustcCodegenFlags>
    ensures { option_copied result
        ≡ inherited_flags given.now.set.now.inherit_rustflags given.now.env.now.inherited }
{
    if given.set.inherit_rustflags {
        given.handed.rustflags.flags.as_ref()
    } else {
        None
    }
}

/// Whether the linker optimises by its plugin, as the flags of Rust code say: it reads what Clang writes, so rustc's
/// book on linker-plugin-based LTO asks for Clang. It takes no memory.
#[tactic(auto, unfolding(crate::specs::Compilers::links_by_plugin))]
pub fn links_by_plugin(inputs: &Inputs<'_>) -> bool
    ensures { result ≡ links_by_plugin inputs.now.env.now }
{
    match &inputs.handed.rustflags.flags {
        Some(flags) => flags.linker_plugin_lto(),
        None => false,
    }
}
