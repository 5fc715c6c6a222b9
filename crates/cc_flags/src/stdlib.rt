// The C++ library that a library is linked with, as far as no compiler decides it, and its lines.
ghost use Rattle.std.specs.Prelude.{◌≡◌, ◌++◌, IfOk, OnOk, Some};
ghost use Rattle.cc_target.specs.Targets.{info_seen};
ghost use Rattle.cc_flags.specs.Blanks.{nonempty};
ghost use Rattle.cc_flags.specs.StdlibLines as spec;
ghost use Rattle.cc_flags.specs.Target.{target_info};

use crate::{
    BuildConfig, LinkLine, is_disabled, is_wasm_linux, prefixed_value, second, target_info,
    target_name,
};
use cc_env::{BuildEnv, env_value_is_true};
use cc_target::TargetInfo;
use cc_text::{Mem, Text, contains};
use std::alloc::Global;

fn has_bytes(value: Text) -> Option<Text>
    ensures { result ≡ nonempty (Some value) }
{
    if value.as_str().is_empty() {
        None
    } else {
        Some(value)
    }
}

// The library of the environment, or that there is none.
#[tactic(auto, unfolding(crate::specs::StdlibLines::environment_library))]
fn environment_library(
    alloc: Global,
    set: &BuildConfig,
    env: &BuildEnv,
) -> Mem<Option<Option<Text>>>
    ensures { IfOk result (λ library. library ≡ spec.environment_library set.now env.now) }
{
    match prefixed_value(alloc, set, env, "CXXSTDLIB")? {
        Some(value) => Ok(Some(has_bytes(value))),
        None => Ok(None),
    }
}

// The system of the target has libc++.
#[tactic(auto, unfolding(crate::specs::StdlibLines::has_libcxx))]
fn has_libcxx(target: &TargetInfo) -> bool
    ensures { result ≡ spec.has_libcxx (info_seen target.now) }
{
    target.os == "freebsd"
        || target.os == "openbsd"
        || target.os == "wasi"
        || (target.os == "linux" && target.env == "ohos")
}

// The library of the target's system, or that there is none, where that is so for all its compilers.
#[tactic(auto, unfolding(crate::specs::StdlibLines::target_library))]
fn target_library(alloc: Global, target: &TargetInfo) -> Mem<Option<Option<Text>>>
    ensures { IfOk result (λ library. library ≡ spec.target_library (info_seen target.now)) }
{
    if target.env == "msvc" {
        Ok(Some(None))
    } else if has_libcxx(target) {
        Ok(Some(Some(Text::of(alloc, "c++")?)))
    } else if target.os == "android" {
        Ok(Some(Some(Text::of(alloc, "c++_shared")?)))
    } else {
        Ok(None)
    }
}

/// The C++ library that is known without a compiler, or that there is none: the set one, else that of `CXXSTDLIB`, else
/// the target's. Only want of memory refuses.
#[tactic(auto, unfolding(crate::specs::StdlibLines::given_library))]
pub fn given_library(alloc: Global, set: &BuildConfig, env: &BuildEnv) -> Mem<Option<Option<Text>>>
    ensures { IfOk result (λ library. library ≡ spec.given_library set.now env.now) }
{
    if let Some(choice) = &set.cpp_link_stdlib {
        return Ok(Some(second(choice)?));
    }
    match environment_library(alloc, set, env)? {
        Some(choice) => Ok(Some(choice)),
        None => target_library(alloc, &target_info(set, env)),
    }
}

/// Whether a compiler may be asked for its C++ library: the lines are wanted, the target isn't WebAssembly's, which
/// links its own, and commands may run. It takes no memory.
#[tactic(auto, unfolding(crate::specs::StdlibLines::may_ask))]
pub fn may_ask(set: &BuildConfig, env: &BuildEnv) -> bool
    ensures { result ≡ spec.may_ask set.now env.now }
{
    set.cargo_metadata && target_info(set, env).arch != "wasm32" && !is_disabled(env)
}

/// The C++ library of a compiler: LLVM's where it has the headers of that, else GNU's. It takes no memory.
pub fn library_by(is_libcxx: bool) -> &'static str
    ensures { result.now ≡ spec.library_by is_libcxx }
{
    if is_libcxx { "c++" } else { "stdc++" }
}

/// Whether lines for a library of C++ are wanted. It takes no memory.
pub fn links_cpp(set: &BuildConfig) -> bool
    ensures { result ≡ spec.links_cpp set.now }
{
    set.cargo_metadata && set.cpp
}

#[tactic(auto, unfolding(crate::specs::StdlibLines::is_static))]
pub(crate) fn is_static(alloc: Global, set: &BuildConfig, env: &BuildEnv) -> Mem<bool>
    ensures { IfOk result (λ on. on ≡ spec.is_static set.now env.now) }
{
    if set.cpp_link_stdlib_static {
        return Ok(true);
    }
    match prefixed_value(alloc, set, env, "CXXSTDLIB_STATIC")? {
        Some(value) => Ok(env_value_is_true(value.as_str())),
        None => Ok(false),
    }
}

// A library behind its kind.
fn linked(alloc: Global, once: bool, kind: &str, library: &str) -> Mem<LinkLine>
    ensures { IfOk result (λ line. line ≡ spec.linked once kind.now library.now) }
{
    let mut text = Text::of(alloc, "cargo:rustc-link-lib=")?;
    text.push_str(kind)?;
    text.push_str(library)?;
    Ok(LinkLine { text, once })
}

#[tactic(auto, unfolding(crate::specs::StdlibLines::stdlib_line))]
fn stdlib_line(alloc: Global, is_static: bool, is_wasm: bool, library: &str) -> Mem<LinkLine>
    ensures { IfOk result (λ line. line ≡ spec.stdlib_line is_static is_wasm library.now) }
{
    if contains(library, "=") {
        linked(alloc, true, "", library)
    } else if !is_static {
        linked(alloc, false, "", library)
    } else if is_wasm {
        linked(alloc, false, "static=", library)
    } else {
        linked(alloc, true, "static:-bundle=", library)
    }
}

fn push_stdlib_line(
    lines: &mut Vec<LinkLine>,
    alloc: Global,
    set: &BuildConfig,
    env: &BuildEnv,
    library: &Option<Text>,
) -> Mem<()>
    ensures { OnOk result (lines.new.items
        ≡ lines.old.items ++ spec.stdlib_lines set.now env.now library.now) }
{
    if let Some(library) = library {
        let is_static = is_static(alloc, set, env)?;
        let is_wasm = target_info(set, env).arch == "wasm32";
        lines.push(stdlib_line(alloc, is_static, is_wasm, library.as_str())?)?;
    }
    Ok(())
}

pub(crate) fn is_wasm_wasi(target: &TargetInfo) -> bool
    ensures { result ≡ spec.is_wasm_wasi (info_seen target.now) }
{
    target.arch == "wasm32" && target.os == "wasi"
}

// A folder in the sysroot that a variable has.
fn folder_in(alloc: Global, env: &BuildEnv, variable: &str, behind: &str) -> Mem<Option<Text>>
    ensures { IfOk result (λ folder. folder ≡ spec.folder_in env.now variable.now behind.now) }
{
    match env.inherited().get(variable) {
        Some(sysroot) => {
            let mut folder = Text::of(alloc, sysroot)?;
            folder.push_str(behind)?;
            Ok(Some(folder))
        }
        None => Ok(None),
    }
}

// The folder of WebAssembly's C++ library, where the sysroot is known.
#[tactic(auto, unfolding(crate::specs::StdlibLines::wasm_folder))]
fn wasm_folder(alloc: Global, set: &BuildConfig, env: &BuildEnv) -> Mem<Option<Text>>
    ensures { IfOk result (λ folder. folder ≡ spec.wasm_folder set.now env.now) }
{
    let target = target_info(set, env);
    if is_wasm_wasi(&target) {
        let mut behind = Text::of(alloc, "/lib/")?;
        behind.push_str(target_name(set, env))?;
        folder_in(alloc, env, "WASI_SYSROOT", behind.as_str())
    } else if is_wasm_linux(&target) {
        folder_in(alloc, env, "WASM_MUSL_SYSROOT", "/lib")
    } else {
        Ok(None)
    }
}

fn wasm_line(alloc: Global, folder: &str) -> Mem<LinkLine>
    ensures { IfOk result (λ line. line ≡ spec.wasm_line folder.now) }
{
    let mut text = Text::of(alloc, "cargo:rustc-flags=-L ")?;
    text.push_str(folder)?;
    text.push_str(" -lstatic=c++ -lstatic=c++abi")?;
    Ok(LinkLine { text, once: false })
}

fn push_wasm_line(lines: &mut Vec<LinkLine>, alloc: Global, folder: &Option<Text>) -> Mem<()>
    ensures { OnOk result (lines.new.items ≡ lines.old.items ++ spec.wasm_lines folder.now) }
{
    if let Some(folder) = folder {
        lines.push(wasm_line(alloc, folder.as_str())?)?;
    }
    Ok(())
}

/// Adds the line for a C++ library and, for WebAssembly, that for the folder of its own. Only want of memory refuses.
#[tactic(auto, unfolding(crate::specs::StdlibLines::cpp_lines))]
pub(crate) fn push_cpp_lines(
    lines: &mut Vec<LinkLine>,
    alloc: Global,
    set: &BuildConfig,
    env: &BuildEnv,
    library: &Option<Text>,
) -> Mem<()>
    ensures { OnOk result (lines.new.items
        ≡ lines.old.items ++ spec.cpp_lines set.now env.now library.now) }
{
    push_stdlib_line(lines, alloc, set, env, library)?;
    let folder = wasm_folder(alloc, set, env)?;
    push_wasm_line(lines, alloc, &folder)?;
    Ok(())
}
