// The names of a variable for a target and a host.
ghost use Rattle.std.specs.Prelude.{◌≡◌, ◌++◌, [], ◌∷◌, IfOk, OnOk};
ghost use Rattle.cc_env.specs.Names.{underscore as underscore_code, underscored, target_names};

use cc_text::{Mem, Text, Words};
use std::alloc::Global;

// The character, or `_` for `-` and `.`.
fn underscore(c: char) -> char
    ensures { result ≡ underscore_code c }
{
    if c == '-' || c == '.' { '_' } else { c }
}

// The text, with each `-` and each `.` as `_`.
fn underscored(alloc: Global, text: &str) -> Mem<Text>
    ensures { IfOk result (λ t. t ≡ underscored text.now) }
{
    let mut out = Text::new(alloc);
    for c in text.chars() {
        out.push(underscore(c))?;
    }
    Ok(out)
}

/// The four names of a variable for a target and a host, in the order in which they are looked up: with `_` and the
/// target; with `_` and the target in which each `-` and each `.` is `_`, since many shells take no other name;
/// after `HOST_` where target and host are the same, else after `TARGET_`; alone. As the documentation of the crate
/// `cc` has them. Only want of memory refuses; nothing is kept then.
#[tactic(auto, unfolding(crate::specs::Names::target_names))]
pub fn target_envs(alloc: Global, var: &str, target: &str, host: &str) -> Mem<Words>
    ensures { IfOk result (λ words. words ≡ target_names var.now target.now host.now) }
{
    let front = if target == host { "HOST_" } else { "TARGET_" };
    let mut stem = Text::of(alloc, var)?;
    stem.push_str("_")?;
    let target_word = underscored(alloc, target)?;
    let mut words = Words::new(alloc);
    words.push_joined(stem.as_str(), target)?;
    words.push_joined(stem.as_str(), target_word.as_str())?;
    words.push_joined(front, var)?;
    words.push(var)?;
    Ok(words)
}
