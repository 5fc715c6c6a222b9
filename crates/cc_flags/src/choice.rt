// What targets call their compilers.
ghost use Rattle.std.specs.Prelude.{◌≡◌, IfOk};
ghost use Rattle.std.specs.Option.{option_copied};
ghost use Rattle.cc_target.specs.Targets.{info_seen};
ghost use Rattle.cc_flags.specs.Compilers as spec;

use crate::languages::{qnx_name, vxworks_name};
use crate::{clang_name, gnu_name, is_qnx};
use cc_target::TargetInfo;
use cc_text::{Mem, Text, Words, join};
use std::alloc::Global;

/// A chosen compiler.
#[derive(Drop, Debug)]
pub struct Choice {
    /// Its path, or its name where a shell would find it.
    pub path: Text,
    /// The program that runs it, as `ccache` does, where there is one.
    pub wrapper: Option<Text>,
    /// The words that it is given first: those behind its name in `CC` or `CXX`.
    pub words: Words,
}

/// A tool alone, by its path: without wrapper and words. Only want of memory refuses.
pub fn bare(alloc: Global, path: &str) -> Mem<Choice>
    ensures { IfOk result (λ choice. choice ≡ spec.bare path.now) }
{
    Ok(Choice {
        path: Text::of(alloc, path)?,
        wrapper: None,
        words: Words::new(alloc),
    })
}

/// Whether the target is WebAssembly, of 32 or 64 bits. It takes no memory.
#[tactic(auto, unfolding(crate::specs::Compilers::is_wasm))]
pub fn is_wasm(target: &TargetInfo) -> bool
    ensures { result ≡ spec.is_wasm (info_seen target.now) }
{
    target.arch == "wasm32" || target.arch == "wasm64"
}

/// The path of Clang in the kit of WASI, which has one for each target by its name, as the readme of the WASI SDK says.
/// Only want of memory refuses.
#[tactic(auto, unfolding(crate::specs::Compilers::wasi_path))]
pub fn wasi_path(alloc: Global, kit: &str, name: &str) -> Mem<Text>
    ensures { IfOk result (λ path. path ≡ spec.wasi_path kit.now name.now) }
{
    let folder = join(alloc, kit, "bin")?;
    let mut file = Text::of(alloc, name)?;
    file.push_str("-clang")?;
    join(alloc, folder.as_str(), file.as_str())
}

fn compiler_behind(cpp: bool, target: &TargetInfo) -> &'static str
    ensures { result.now ≡ spec.compiler_behind cpp (info_seen target.now) }
{
    if target.abi == "llvm" {
        clang_name(cpp)
    } else {
        gnu_name(cpp)
    }
}

/// The name of GCC behind a prefix of its tools, or of Clang on targets of LLVM's own. Only want of memory refuses.
#[tactic(auto, unfolding(crate::specs::Compilers::prefixed_compiler))]
pub fn prefixed_compiler(alloc: Global, cpp: bool, target: &TargetInfo, prefix: &str) -> Mem<Text>
    ensures { IfOk result (λ name.
        name ≡ spec.prefixed_compiler cpp (info_seen target.now) prefix.now) }
{
    let mut name = Text::of(alloc, prefix)?;
    name.push_str("-")?;
    name.push_str(compiler_behind(cpp, target))?;
    Ok(name)
}

/// The compiler of targets that have one name for it, or none: Clang for WebAssembly, and what the systems' own kits
/// have for VxWorks and QNX, as rustc's pages on platform support say. It takes no memory.
#[tactic(auto, unfolding(crate::specs::Compilers::fixed_compiler))]
pub fn fixed_compiler(cpp: bool, target: &TargetInfo) -> Option<&'static str>
    ensures { option_copied result ≡ spec.fixed_compiler cpp (info_seen target.now) }
{
    if is_wasm(target) {
        Some(clang_name(cpp))
    } else if target.os == "vxworks" {
        Some(vxworks_name(cpp))
    } else if is_qnx(target) {
        Some(qnx_name(cpp))
    } else {
        None
    }
}
