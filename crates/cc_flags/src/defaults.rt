// The words that a target and an optimisation level bring, a function a group. Setters count before the target. Only
// want of memory refuses; a part of the words may then stay, and the list is to be dropped.
ghost use Rattle.std.specs.Prelude.{◌≡◌, ◌++◌, OnOk};
ghost use Rattle.std.specs.Option.{option_copied};
ghost use Rattle.cc_target.specs.Targets.{info_seen};
ghost use Rattle.cc_flags.specs.DefaultWords as spec;

use crate::compiler_names::{has_android_target, has_windows_target};
use crate::texts::{has, value_or_empty};
use cc_env::EnvSnapshot;
use cc_target::TargetInfo;
use cc_text::{Mem, ToolFamily, Words, is_cl, is_clang, is_gnu, is_gnu_like};

// GCC spells the level `z` as `s`.
fn level_text(family: ToolFamily, level: &str) -> &str
    ensures { result.now ≡ spec.level_text family level.now }
{
    if is_gnu(family) && level == "z" {
        "s"
    } else {
        level
    }
}

/// Adds the level as `-O` and its text (`-Os` for level `z` of GCC, which lacked it long), and a section of its own for
/// each function and datum, so that linkers can drop what is unused (GCC's manual, "Options That Control
/// Optimization"); between them `-DANDROID` for Clang on Android, as the NDK has it. Refused, a part may stay.
#[tactic(auto, unfolding(crate::specs::DefaultWords::optimisation_words))]
pub fn push_optimisation_words(
    words: &mut Words,
    family: ToolFamily,
    target: &TargetInfo,
    level: &str,
) -> Mem<()>
    ensures { OnOk result (words.new
        ≡ words.old ++ spec.optimisation_words family (info_seen target.now) level.now) }
{
    words.push_joined("-O", level_text(family, level))?;
    if is_clang(family) && target.os == "android" {
        words.push("-DANDROID")?;
    }
    words.push("-ffunction-sections")?;
    words.push("-fdata-sections")?;
    Ok(())
}

// The target runs code wherever it is loaded.
#[tactic(auto, unfolding(crate::specs::DefaultWords::is_position_independent))]
fn is_position_independent(target: &TargetInfo) -> bool
    ensures { result ≡ spec.is_position_independent (info_seen target.now) }
{
    target.os != "windows"
        && target.os != "none"
        && target.os != "uefi"
        && target.os != "vita"
        && target.arch != "wasm32"
        && target.arch != "wasm64"
}

/// Adds `-fPIC` where `pic` says so or, unset, the target wants it: not Windows, UEFI, Vita, targets without a system,
/// whose linker may not take it, and WebAssembly, as rustc. With it, on Linux and Android, `-fno-plt` where `use_plt`
/// is false (GCC's manual, "Options for Code Generation Conventions"). Refused, a part may stay.
#[tactic(auto, unfolding(crate::specs::DefaultWords::position_independence_words))]
pub fn push_position_independence_words(
    words: &mut Words,
    target: &TargetInfo,
    pic: Option<bool>,
    use_plt: Option<bool>,
) -> Mem<()>
    ensures { OnOk result (words.new
        ≡ words.old ++ spec.position_independence_words (info_seen target.now) pic use_plt) }
{
    if pic.unwrap_or(is_position_independent(target)) {
        words.push("-fPIC")?;
        if (target.os == "linux" || target.os == "android") && !use_plt.unwrap_or(true) {
            words.push("-fno-plt")?;
        }
    }
    Ok(())
}

// Where the headers and libraries of the system are.
#[tactic(auto, unfolding(crate::specs::DefaultWords::sysroot_words))]
fn push_sysroot_words(words: &mut Words, sysroot: Option<&str>) -> Mem<()>
    ensures { OnOk result (words.new
        ≡ words.old ++ spec.sysroot_words (option_copied sysroot.entry)) }
{
    if let Some(sysroot) = sysroot {
        words.push_joined("--sysroot=", sysroot)?;
    }
    Ok(())
}

// Threads, where the target's name has them.
#[tactic(auto, unfolding(crate::specs::DefaultWords::thread_words))]
fn push_thread_words(words: &mut Words, name: &str) -> Mem<()>
    ensures { OnOk result (words.new ≡ words.old ++ spec.thread_words name.now) }
{
    if has(name, "threads") {
        words.push("-pthread")?;
    }
    Ok(())
}

/// Adds for WASI: `--sysroot=` and `sysroot`, the value of `WASI_SYSROOT`, where it is set, since Clang by itself has
/// no C library for it (WASI SDK's README); `-pthread` where the target's name has `threads`. Refused, a part may stay.
#[tactic(auto, unfolding(crate::specs::DefaultWords::wasi_words))]
pub fn push_wasi_words(
    words: &mut Words,
    target: &TargetInfo,
    name: &str,
    sysroot: Option<&str>,
) -> Mem<()>
    ensures { OnOk result (words.new
        ≡ words.old ++ spec.wasi_words (info_seen target.now) name.now
        (option_copied sysroot.entry)) }
{
    if target.os == "wasi" {
        push_sysroot_words(words, sysroot)?;
        push_thread_words(words, name)?;
    }
    Ok(())
}

// The variant of QNX's compiler for a full architecture.
#[tactic(auto, unfolding(crate::specs::DefaultWords::qnx_variant))]
fn qnx_variant(full_arch: &str) -> Option<&'static str>
    ensures { option_copied result ≡ spec.qnx_variant full_arch.now }
{
    match full_arch {
        "x86" | "i586" => Some("-Vgcc_ntox86_cxx"),
        "aarch64" => Some("-Vgcc_ntoaarch64le_cxx"),
        "x86_64" => Some("-Vgcc_ntox86_64_cxx"),
        _ => None,
    }
}

/// Whether the target runs QNX, by either name that its system has: `nto` or `qnx`. It takes no memory.
#[tactic(auto, unfolding(crate::specs::DefaultWords::is_qnx))]
pub fn is_qnx(target: &TargetInfo) -> bool
    ensures { result ≡ spec.is_qnx (info_seen target.now) }
{
    target.os == "nto" || target.os == "qnx"
}

/// Adds, for QNX, `-V` and its compiler's variant, where there is one (QNX's manual, `qcc`). Refused, a part may stay.
#[tactic(auto, unfolding(crate::specs::DefaultWords::qnx_words))]
pub fn push_qnx_words(words: &mut Words, target: &TargetInfo) -> Mem<()>
    ensures { OnOk result (words.new ≡ words.old ++ spec.qnx_words (info_seen target.now)) }
{
    if is_qnx(target) {
        if let Some(variant) = qnx_variant(target.full_arch) {
            words.push(variant)?;
        }
    }
    Ok(())
}

/// Whether GCC or Clang is to compile for QNX where `qcc` has no variant, which `cc_plan` refuses. It takes no memory.
#[tactic(auto, unfolding(crate::specs::DefaultWords::lacks_qnx_variant))]
pub fn lacks_qnx_variant(family: ToolFamily, target: &TargetInfo) -> bool
    ensures { result ≡ spec.lacks_qnx_variant family (info_seen target.now) }
{
    is_gnu_like(family) && is_qnx(target) && qnx_variant(target.full_arch).is_none()
}

/// Adds the width of addresses, since one GCC or Clang has several: `-m32` for x86, `-mx32` for the interface x32,
/// `-m64` for x86_64 and powerpc64 (GCC's manual, "x86 Options"). Refused, a part may stay.
#[tactic(auto, unfolding(crate::specs::DefaultWords::width_words))]
pub fn push_width_words(words: &mut Words, family: ToolFamily, target: &TargetInfo) -> Mem<()>
    ensures { OnOk result (words.new ≡ words.old ++ spec.width_words family (info_seen target.now)) }
{
    if is_gnu_like(family) {
        if target.arch == "x86" {
            words.push("-m32")?;
        } else if target.abi == "x32" {
            words.push("-mx32")?;
        } else if target.arch == "x86_64" || target.arch == "powerpc64" {
            words.push("-m64")?;
        }
    }
    Ok(())
}

/// Whether Clang is to get `--target`: not where the name of `program` is a wrapper's that gives it, which for Windows
/// counts only where no `compiler` is set. False for other families. It takes no memory.
#[tactic(auto, unfolding(crate::specs::DefaultWords::needs_target_word))]
pub fn needs_target_word(
    family: ToolFamily,
    compiler: Option<&str>,
    target: &TargetInfo,
    program: &str,
) -> bool
    ensures { result ≡ spec.needs_target_word family (option_copied compiler.entry)
        (info_seen target.now) program.now }
{
    is_clang(family)
        && !has_windows_target(compiler, target, program)
        && !has_android_target(target, program)
}

// The C++ library of FreeBSD, unless another is set.
#[tactic(auto, unfolding(crate::specs::DefaultWords::freebsd_words))]
fn push_freebsd_words(
    words: &mut Words,
    target: &TargetInfo,
    cpp: bool,
    set_stdlib: Option<&str>,
) -> Mem<()>
    ensures { OnOk result (words.new
        ≡ words.old ++ spec.freebsd_words (info_seen target.now) cpp
        (option_copied set_stdlib.entry)) }
{
    if target.os == "freebsd" && cpp && set_stdlib.is_none() {
        words.push("-stdlib=libc++")?;
    }
    Ok(())
}

/// Whether the target is WebAssembly on Linux; `cc_plan` wants `WASM_MUSL_SYSROOT` set for it. It takes no memory.
#[tactic(auto, unfolding(crate::specs::DefaultWords::is_wasm_linux))]
pub fn is_wasm_linux(target: &TargetInfo) -> bool
    ensures { result ≡ spec.is_wasm_linux (info_seen target.now) }
{
    target.arch == "wasm32" && target.os == "linux"
}

// What its C library and its threads want.
#[tactic(auto, unfolding(crate::specs::DefaultWords::wasm_feature_words))]
fn push_wasm_feature_words(words: &mut Words) -> Mem<()>
    ensures { OnOk result (words.new ≡ words.old ++ spec.wasm_feature_words) }
{
    words.push_all(&[
        "-matomics",
        "-mbulk-memory",
        "-mmutable-globals",
        "-msign-ext",
        "-mexception-handling",
        "-fwasm-exceptions",
        "-fdeclspec",
    ])?;
    Ok(())
}

#[tactic(auto, unfolding(crate::specs::DefaultWords::wasm_linux_words))]
fn push_wasm_linux_words(words: &mut Words, sysroot: Option<&str>) -> Mem<()>
    ensures { OnOk result (words.new
        ≡ words.old ++ spec.wasm_linux_words (option_copied sysroot.entry)) }
{
    push_wasm_feature_words(words)?;
    push_sysroot_words(words, sysroot)?;
    words.push("-pthread")?;
    Ok(())
}

// The target by LLVM's name.
#[tactic(auto, unfolding(crate::specs::DefaultWords::target_words))]
pub(crate) fn push_target_words(words: &mut Words, llvm: &str) -> Mem<()>
    ensures { OnOk result (words.new ≡ words.old ++ spec.target_words llvm.now) }
{
    words.push_joined("--target=", llvm)?;
    Ok(())
}

/// Adds `--target=` and LLVM's name `llvm`, without which Clang reads flags as for the system that it runs on (its page
/// "Cross-compilation using Clang"). Before it, for C++ on FreeBSD, `-stdlib=libc++` unless `set_stdlib` is set, which
/// Clang before 14 doesn't choose; for `is_wasm_linux` features, sysroot and threads. Refused, a part may stay.
#[tactic(auto, unfolding(crate::specs::DefaultWords::clang_target_words))]
pub fn push_clang_target_words(
    words: &mut Words,
    target: &TargetInfo,
    llvm: &str,
    cpp: bool,
    set_stdlib: Option<&str>,
    musl_sysroot: Option<&str>,
) -> Mem<()>
    ensures { OnOk result (words.new
        ≡ words.old ++ spec.clang_target_words (info_seen target.now) llvm.now cpp
        (option_copied set_stdlib.entry) (option_copied musl_sysroot.entry)) }
{
    push_freebsd_words(words, target, cpp, set_stdlib)?;
    if is_wasm_linux(target) {
        push_wasm_linux_words(words, musl_sysroot)?;
    }
    push_target_words(words, llvm)?;
    Ok(())
}

/// Adds, for `wasm32v1-none`, the features that rustc's book, "Platform Support", gives it, as Clang lacks the name;
/// for illumos `-D_REENTRANT`, so that headers are those of programs with threads (its manual, threads(7)); `-static`
/// and `-shared` where they are set (GCC's manual, "Options for Linking"). Refused, a part may stay.
#[tactic(auto, unfolding(crate::specs::DefaultWords::linkage_words))]
pub fn push_linkage_words(
    words: &mut Words,
    target: &TargetInfo,
    name: &str,
    static_flag: Option<bool>,
    shared_flag: Option<bool>,
) -> Mem<()>
    ensures { OnOk result (words.new
        ≡ words.old ++ spec.linkage_words (info_seen target.now) name.now static_flag shared_flag) }
{
    let bare_wasm = name == "wasm32v1-none";
    let illumos = target.os == "illumos";
    let is_static = static_flag.unwrap_or(false);
    let is_shared = shared_flag.unwrap_or(false);
    words.push_chosen(&[
        (bare_wasm, &["-mcpu=mvp", "-mmutable-globals"]),
        (illumos, &["-D_REENTRANT"]),
        (is_static, &["-static"]),
        (is_shared, &["-shared"]),
    ])?;
    Ok(())
}

/// Adds `-stdlib=lib` and the name `set_stdlib`, where one is set for C++. Nothing for Visual Studio's compilers, which
/// have no such word: `cc_plan` then warns. Refused, a part may stay.
#[tactic(auto, unfolding(crate::specs::DefaultWords::standard_library_words))]
pub fn push_standard_library_words(
    words: &mut Words,
    family: ToolFamily,
    cpp: bool,
    set_stdlib: Option<&str>,
) -> Mem<()>
    ensures { OnOk result (words.new
        ≡ words.old ++ spec.standard_library_words family cpp (option_copied set_stdlib.entry)) }
{
    if is_gnu_like(family) && cpp {
        if let Some(stdlib) = set_stdlib {
            words.push_joined("-stdlib=lib", stdlib)?;
        }
    }
    Ok(())
}

// One of the names between commas is that of the address sanitizer.
#[tactic(auto, unfolding(crate::specs::DefaultWords::has_address_sanitizer))]
fn has_address_sanitizer(sanitizers: &str) -> bool
    ensures { result ≡ spec.has_address_sanitizer sanitizers.now }
{
    sanitizers.split(',').any(|name| name == "address")
}

#[tactic(auto, unfolding(crate::specs::DefaultWords::is_x86_64_glibc))]
fn is_x86_64_glibc(target: &TargetInfo) -> bool
    ensures { result ≡ spec.is_x86_64_glibc (info_seen target.now) }
{
    target.arch == "x86_64" && target.os == "linux" && target.env == "gnu" && target.abi == ""
}

#[tactic(auto, unfolding(crate::specs::DefaultWords::is_x86_64_visual_studio))]
fn is_x86_64_visual_studio(target: &TargetInfo) -> bool
    ensures { result ≡ spec.is_x86_64_visual_studio (info_seen target.now) }
{
    target.arch == "x86_64" && target.os == "windows" && target.env == "msvc" && target.abi == ""
}

// The targets on which the sanitizer of the Rust code is given to the compiler.
fn is_sanitized(family: ToolFamily, target: &TargetInfo) -> bool
    ensures { result ≡ spec.is_sanitized family (info_seen target.now) }
{
    is_gnu_like(family) && is_x86_64_glibc(target)
        || is_cl(family) && is_x86_64_visual_studio(target)
}

// Cargo's target has the address sanitizer, and the compiler is given it.
#[tactic(auto, unfolding(crate::specs::DefaultWords::wants_sanitizer))]
fn wants_sanitizer(
    family: ToolFamily,
    target: &TargetInfo,
    is_cargos_target: bool,
    env: &EnvSnapshot,
) -> bool
    ensures { result ≡ spec.wants_sanitizer family (info_seen target.now) is_cargos_target env.now }
{
    is_cargos_target
        && has_address_sanitizer(value_or_empty(env, "CARGO_CFG_SANITIZE"))
        && is_sanitized(family, target)
}

/// Adds `-fsanitize=address` where `CARGO_CFG_SANITIZE`, which speaks of Cargo's target alone, has `address`. Only for
/// GCC and Clang on x86_64 Linux with glibc, and `cl.exe` on x86_64 Windows, whose objects fit the runtime that rustc
/// links (GCC's manual, "Program Instrumentation Options"). Refused, a part may stay.
#[tactic(auto, unfolding(crate::specs::DefaultWords::sanitizer_words))]
pub fn push_sanitizer_words(
    words: &mut Words,
    family: ToolFamily,
    target: &TargetInfo,
    is_cargos_target: bool,
    env: &EnvSnapshot,
) -> Mem<()>
    ensures { OnOk result (words.new
        ≡ words.old ++ spec.sanitizer_words family (info_seen target.now) is_cargos_target env.now) }
{
    if wants_sanitizer(family, target, is_cargos_target, env) {
        words.push("-fsanitize=address")?;
    }
    Ok(())
}
