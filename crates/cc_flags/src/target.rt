// What is known of a target by its name, and of the target of a build.
ghost use Rattle.std.specs.Prelude.{◌≡◌, ◌↔◌, IsErr, None, option_map};
ghost use Rattle.std.specs.Result.{result_ok};
ghost use Rattle.cc_target.specs.Targets.{info_seen};
ghost use Rattle.cc_flags.specs.Target.{known_info, target_info};

use crate::given::is_cargos_target;
use crate::{BuildConfig, target_name};
use cc_env::BuildEnv;
use cc_target::{TargetInfo, UnknownTarget};

/// What is known of the target with this name, lent: what the table says and, where it is the target that Cargo builds for, else what Cargo
/// describes in the inherited variables; of another target these say nothing (The Cargo Book, "Environment variables Cargo sets for build
/// scripts"). Refused exactly where nothing is known. It takes no memory.
#[tactic(auto, unfolding(crate::specs::Target::known_info))]
pub fn known_info<'a>(
    set: &BuildConfig,
    env: &'a BuildEnv,
    name: &'a str,
) -> Result<TargetInfo<'a>, UnknownTarget>
    ensures info { option_map info_seen (result_ok result) ≡ known_info set.now env.now name.now }
    ensures unknown { IsErr result ↔ (known_info set.now env.now name.now ≡ None) }
{
    if is_cargos_target(set, env) {
        TargetInfo::from_cargo(name, env.inherited())
    } else {
        TargetInfo::from_rustc_target(name)
    }
}

/// What is known of the target of these settings in this environment, lent: empty texts where it is set nowhere, or not known. It takes no
/// memory.
pub fn target_info<'a>(set: &'a BuildConfig, env: &'a BuildEnv) -> TargetInfo<'a>
    ensures { info_seen result ≡ target_info set.now env.now }
{
    match known_info(set, env, target_name(set, env)) {
        Ok(target) => target,
        Err(_) => TargetInfo {
            full_arch: "",
            arch: "",
            vendor: "",
            os: "",
            env: "",
            abi: "",
        },
    }
}
