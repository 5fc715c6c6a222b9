// Look-ups by the names of a target and a host: the order is that of the crate `cc`, its documentation, "External
// configuration via environment variables".
ghost use Rattle.std.specs.Prelude.{◌≡◌, [], IfOk};
ghost use Rattle.cc_env.specs.Names.{single_of, flags_of, flag_words as words_of_value};

use crate::{EnvSnapshot, target_envs};
use cc_text::{Mem, Text, Words, ascii_words, shell_words};
use std::alloc::Global;

/// The value of a variable for a target and a host, as `CC`: that of the first of the names `target_envs` that is
/// set, so that the more specific one wins; none where none is set. A name that is set to the empty text counts as
/// set. Only want of memory refuses; nothing is kept then.
pub fn single(
    alloc: Global,
    env: &EnvSnapshot,
    var: &str,
    target: &str,
    host: &str,
) -> Mem<Option<Text>>
    ensures { IfOk result (λ value. value ≡ single_of env.now var.now target.now host.now) }
{
    let names = target_envs(alloc, var, target, host)?;
    for name in names.as_slice() {
        if let Some(value) = env.get(name.as_str()) {
            return Ok(Some(Text::of(alloc, value)?));
        }
    }
    Ok(None)
}

// The words of a value, as a shell reads them or between blanks.
fn flag_words(alloc: Global, value: &str, shell: bool) -> Mem<Words>
    ensures { IfOk result (λ words. words ≡ words_of_value shell value.now) }
{
    if shell {
        shell_words(alloc, value)
    } else {
        ascii_words(alloc, value)
    }
}

/// The words of a list of flags for a target and a host, as `CFLAGS`: those of each of the names `target_envs` that
/// is set, from the last name to the first, so that the more specific flags come later and win; none where no name
/// is set. Where `shell` holds, a value is split as a POSIX shell quotes words, else at ASCII blanks. Only want of
/// memory refuses; nothing is kept then.
pub fn flags_of(
    alloc: Global,
    env: &EnvSnapshot,
    var: &str,
    target: &str,
    host: &str,
    shell: bool,
) -> Mem<Option<Words>>
    ensures { IfOk result (λ flags. flags ≡ flags_of env.now var.now target.now host.now shell) }
{
    let names = target_envs(alloc, var, target, host)?;
    let names = names.as_slice();
    let mut words = Words::new(alloc);
    let mut found = false;
    let mut left = names.len();
    while left > 0 {
        left -= 1;
        if let Some(value) = env.get(names[left].as_str()) {
            found = true;
            words.append(flag_words(alloc, value, shell)?)?;
        }
    }
    if found { Ok(Some(words)) } else { Ok(None) }
}
