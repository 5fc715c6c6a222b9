// The prefix of the GNU tools' names, as far as no question decides it.
ghost use Rattle.std.specs.Prelude.{◌≡◌, ◌++◌, IfOk, OnOk, map};
ghost use Rattle.std.specs.Option.{option_copied};
ghost use Rattle.cc_text.specs.Words.{texts};
ghost use Rattle.cc_flags.specs.Prefixes as spec;

use crate::{BuildConfig, gnu_name, host_of, target_of};
use cc_env::BuildEnv;
use cc_target::gnu_prefix;
use cc_text::{Mem, Text, Vars, before_suffix, join};
use std::alloc::Global;

fn differ(target: Option<&str>, host: Option<&str>) -> bool
    ensures { result ≡ spec.differ (option_copied target.entry) (option_copied host.entry) }
{
    match (target, host) {
        (Some(target), Some(host)) => target != host,
        _ => false,
    }
}

/// Whether code is built for another target than the host: both are set, and differ. It takes no memory.
#[tactic(auto, unfolding(crate::specs::Prefixes::is_cross))]
pub fn is_cross(set: &BuildConfig, env: &BuildEnv) -> bool
    ensures { result ≡ spec.is_cross set.now env.now }
{
    differ(target_of(set, env), host_of(set, env))
}

// The text without the `-` signs at its end.
fn without_last_dashes(text: &str) -> &str
    ensures { result.now ≡ spec.without_last_dashes text.now }
{
    let mut rest = text;
    while let Some(before) = before_suffix(rest, "-") {
        rest = before;
    }
    rest
}

// The prefix that the environment names outright, as builds of Linux take it.
#[tactic(auto, unfolding(crate::specs::Prefixes::named_prefix))]
fn named_prefix(env: &BuildEnv) -> Option<&str>
    ensures { option_copied result ≡ spec.named_prefix env.now }
{
    Some(without_last_dashes(env.inherited().get("CROSS_COMPILE")?))
}

// The prefix of the linker that Rust's compiler is given, which Cargo's book lists among the variables of build scripts.
#[tactic(auto, unfolding(crate::specs::Prefixes::linker_prefix))]
fn linker_prefix(env: &BuildEnv) -> Option<&str>
    ensures { option_copied result ≡ spec.linker_prefix env.now }
{
    before_suffix(env.inherited().get("RUSTC_LINKER")?, "-gcc")
}

/// The prefix of the GNU tools' names that is known without a question, lent, or none: that of `CROSS_COMPILE`, else of
/// `RUSTC_LINKER`, else of the table of targets. It takes no memory.
#[tactic(auto, unfolding(crate::specs::Prefixes::known_prefix))]
pub fn known_prefix<'a>(env: &'a BuildEnv, name: &str) -> Option<&'a str>
    ensures { option_copied result ≡ spec.known_prefix env.now name.now }
{
    if let Some(prefix) = named_prefix(env) {
        return Some(prefix);
    }
    if let Some(prefix) = linker_prefix(env) {
        return Some(prefix);
    }
    gnu_prefix(name)
}

// A compiler with a candidate as its prefix.
fn tried_path(alloc: Global, cpp: bool, folder: &str, candidate: &str) -> Mem<Text>
    ensures { IfOk result (λ path. path ≡ spec.tried_path cpp folder.now candidate.now) }
{
    let mut name = Text::of(alloc, candidate)?;
    name.push_str("-")?;
    name.push_str(gnu_name(cpp))?;
    join(alloc, folder, name.as_str())
}

fn push_tried(
    tries: &mut Vars,
    alloc: Global,
    cpp: bool,
    folder: &str,
    candidates: &[&str],
) -> Mem<()>
    ensures { OnOk result (tries.new ≡
        tries.old ++ map (spec.tried_compiler cpp folder.now) (texts candidates.now)) }
{
    for candidate in candidates {
        let path = tried_path(alloc, cpp, folder, candidate)?;
        tries.push(path.as_str(), candidate)?;
    }
    Ok(())
}

/// The compilers by which a prefix is looked for, each with its candidate: folder by folder, and then candidate by
/// candidate. Only want of memory refuses.
#[tactic(auto, unfolding(crate::specs::Prefixes::tried_compilers))]
pub fn tried_compilers(alloc: Global, cpp: bool, folders: &[Text], candidates: &[&str]) -> Mem<Vars>
    ensures { IfOk result (λ tries.
        tries ≡ spec.tried_compilers cpp folders.now (texts candidates.now)) }
{
    let mut tries = Vars::new(alloc);
    for folder in folders {
        push_tried(&mut tries, alloc, cpp, folder.as_str(), candidates)?;
    }
    Ok(tries)
}

/// The first of some texts, owned, or none. Only want of memory refuses.
pub fn first_text(alloc: Global, candidates: &[&str]) -> Mem<Option<Text>>
    ensures { IfOk result (λ first. first ≡ spec.first_text (texts candidates.now)) }
{
    match candidates {
        [] => Ok(None),
        [first, ..] => Ok(Some(Text::of(alloc, first)?)),
    }
}
