// Flags that are left off since they are for the linker, and the warning of them.
ghost use Rattle.std.specs.Prelude.{◌≡◌, [], IfOk, unwrap_or};
ghost use Rattle.std.specs.List.{list_any};
ghost use Rattle.std.specs.Option.{option_copied};
ghost use Rattle.cc_flags.specs.Given.{environment_flags};
ghost use Rattle.cc_flags.specs.SettingWords as spec;

use crate::given::environment_flags;
use crate::words::is_link_flag;
use crate::{BuildConfig, BuildFlag, is_link};
use cc_env::BuildEnv;
use cc_text::{Mem, Text, ToolFamily, Words, is_visual_studio};
use std::alloc::Global;

fn has_link_flag(flags: &[BuildFlag]) -> bool
    ensures { result ≡ list_any spec.is_link_flag flags.now }
{
    flags.iter().any(|flag| is_link_flag(flag))
}

fn has_link_word(words: &[Text]) -> bool
    ensures { result ≡ list_any spec.is_link words.now }
{
    words.iter().any(|word| is_link(word.as_str()))
}

fn has_link_among(environment: Option<&Words>) -> bool
    ensures { result ≡ list_any spec.is_link (unwrap_or (option_copied environment.entry) []) }
{
    match environment {
        Some(words) => has_link_word(words.as_slice()),
        None => false,
    }
}

/// Whether flags are left off since they are for the linker: the compiler takes the words of Visual Studio's, and one
/// of its flags is `/link`. Only want of memory refuses.
#[tactic(auto, unfolding(crate::specs::SettingWords::leaves_off))]
pub fn leaves_off(alloc: Global, set: &BuildConfig, env: &BuildEnv, family: ToolFamily) -> Mem<bool>
    ensures { IfOk result (λ b. b ≡
        spec.leaves_off family set.now.flags (environment_flags set.now env.now)) }
{
    if !is_visual_studio(family) {
        return Ok(false);
    }
    let environment = environment_flags(alloc, set, env)?;
    Ok(has_link_flag(set.flags.as_slice()) || has_link_among(environment.as_ref()))
}
