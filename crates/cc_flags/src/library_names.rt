// The names of the variables that link lines are planned by.
ghost use Rattle.std.specs.Prelude.{◌≡◌, ◌++◌, IfOk, OnOk};
ghost use Rattle.cc_target.specs.Targets.{info_seen};
ghost use Rattle.cc_flags.specs.LibraryNames as spec;

use crate::stdlib::{given_library, is_wasm_wasi, links_cpp};
use crate::{BuildConfig, has, is_wasm_linux, target_info, value_names};
use cc_env::BuildEnv;
use cc_target::TargetInfo;
use cc_text::{Mem, Text, Words};
use std::alloc::Global;

fn links_some(library: &Option<Option<Text>>) -> bool
    ensures { result ≡ spec.links_some library.now }
{
    match library {
        Some(library) => library.is_some(),
        None => true,
    }
}

// Whether the name of a library brings its own kind.
fn brings_kind(library: &Option<Option<Text>>) -> bool
    ensures { result ≡ spec.brings_kind library.now }
{
    match library {
        Some(Some(library)) => has(library.as_str(), "="),
        Some(None) => false,
        None => false,
    }
}

// Those of the variable of the C++ library, where none is set.
fn stdlib_names(alloc: Global, set: &BuildConfig, env: &BuildEnv) -> Mem<Words>
    ensures { IfOk result (λ names. names ≡ spec.stdlib_names set.now env.now) }
{
    match &set.cpp_link_stdlib {
        Some(_) => Ok(Words::new(alloc)),
        None => value_names(alloc, set, env, "CXXSTDLIB"),
    }
}

// Those of the variable by which it is a static one.
fn static_names(
    alloc: Global,
    set: &BuildConfig,
    env: &BuildEnv,
    library: &Option<Option<Text>>,
) -> Mem<Words>
    ensures { IfOk result (λ names. names ≡ spec.static_names set.now env.now library.now) }
{
    if links_some(library) && !brings_kind(library) && !set.cpp_link_stdlib_static {
        value_names(alloc, set, env, "CXXSTDLIB_STATIC")
    } else {
        Ok(Words::new(alloc))
    }
}

fn would_ask(library: &Option<Option<Text>>, target: &TargetInfo) -> bool
    ensures { result ≡ spec.would_ask library.now (info_seen target.now) }
{
    library.is_none() && target.arch != "wasm32"
}

#[tactic(auto, unfolding(crate::specs::LibraryNames::wasm_library_names))]
fn push_wasm_library_names(
    names: &mut Words,
    library: &Option<Option<Text>>,
    target: &TargetInfo,
) -> Mem<()>
    ensures { OnOk result (names.new
        ≡ names.old ++ spec.wasm_library_names library.now (info_seen target.now)) }
{
    names.push_chosen(&[
        (would_ask(library, target), &["CC_FORCE_DISABLE"]),
        (is_wasm_wasi(target), &["WASI_SYSROOT"]),
        (is_wasm_linux(target), &["WASM_MUSL_SYSROOT"]),
    ])?;
    Ok(())
}

#[tactic(auto, unfolding(crate::specs::LibraryNames::library_names), using(std::proofs::Common::append_assoc))]
fn library_names(
    alloc: Global,
    set: &BuildConfig,
    env: &BuildEnv,
    library: &Option<Option<Text>>,
) -> Mem<Words>
    ensures { IfOk result (λ names. names ≡ spec.library_names set.now env.now library.now) }
{
    let mut names = stdlib_names(alloc, set, env)?;
    names.append(static_names(alloc, set, env, library)?)?;
    push_wasm_library_names(&mut names, library, &target_info(set, env))?;
    Ok(names)
}

/// Those by which link lines are planned.
#[tactic(auto, unfolding(crate::specs::LibraryNames::link_names))]
pub fn link_names(alloc: Global, set: &BuildConfig, env: &BuildEnv) -> Mem<Words>
    ensures { IfOk result (λ names. names ≡ spec.link_names set.now env.now) }
{
    if !links_cpp(set) {
        return Ok(Words::new(alloc));
    }
    let library = given_library(alloc, set, env)?;
    library_names(alloc, set, env, &library)
}
