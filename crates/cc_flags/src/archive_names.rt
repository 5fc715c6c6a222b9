// The names of the tools of archives: those of LLVM, of GNU, of kits and of systems that have their own.
ghost use Rattle.std.specs.Prelude.{◌≡◌, ◌++◌, IfOk, OnOk};
ghost use Rattle.std.specs.Option.{option_copied};
ghost use Rattle.cc_target.specs.Targets.{info_seen};
ghost use Rattle.cc_flags.specs.ArchiveNames as spec;

use crate::android::replaced;
use crate::{BuildConfig, is_qnx};
use cc_target::TargetInfo;
use cc_text::{Mem, Text, Words};
use std::alloc::Global;

/// The name that Unix has for the tool: `ar` or `ranlib`. It takes no memory.
pub fn tool_name(tool: ArchiveTool) -> &'static str
    ensures { result.now ≡ spec.tool_name tool }
{
    match tool {
        ArchiveTool::Archiver => "ar",
        ArchiveTool::Ranlib => "ranlib",
    }
}

/// The variable of the environment that names the tool, as make has it: `AR` or `RANLIB`. It takes no memory.
pub fn tool_variable(tool: ArchiveTool) -> &'static str
    ensures { result.now ≡ spec.tool_variable tool }
{
    match tool {
        ArchiveTool::Archiver => "AR",
        ArchiveTool::Ranlib => "RANLIB",
    }
}

/// The path of the tool that the settings name, lent, or none. It takes no memory.
pub fn set_program(tool: ArchiveTool, set: &BuildConfig) -> Option<&str>
    ensures { option_copied result ≡ spec.set_program tool set.now }
{
    let program = match tool {
        ArchiveTool::Archiver => &set.archiver,
        ArchiveTool::Ranlib => &set.ranlib,
    };
    match program {
        Some(program) => Some(program.as_str()),
        None => None,
    }
}

/// The tool's name behind a text, as `llvm-ar`. Only want of memory refuses.
pub fn behind(alloc: Global, front: &str, tool: ArchiveTool) -> Mem<Text>
    ensures { IfOk result (λ name. name ≡ spec.behind front.now tool) }
{
    let mut name = Text::of(alloc, front)?;
    name.push_str(tool_name(tool))?;
    Ok(name)
}

/// The name of GNU's tool behind a prefix of its tools, as `aarch64-linux-gnu-ar`. Only want of memory refuses.
pub fn plain_name(alloc: Global, tool: ArchiveTool, prefix: &str) -> Mem<Text>
    ensures { IfOk result (λ name. name ≡ spec.plain_name tool prefix.now) }
{
    let mut front = Text::of(alloc, prefix)?;
    front.push_str("-")?;
    behind(alloc, front.as_str(), tool)
}

/// The name of GCC's own tool behind such a prefix, as `aarch64-linux-gnu-gcc-ar`, which loads the plugin of the linker
/// (GCC's manual, "Options That Control Optimization", `-flto`). Only want of memory refuses.
pub fn gcc_name(alloc: Global, tool: ArchiveTool, prefix: &str) -> Mem<Text>
    ensures { IfOk result (λ name. name ≡ spec.gcc_name tool prefix.now) }
{
    let mut front = Text::of(alloc, prefix)?;
    front.push_str("-gcc-")?;
    behind(alloc, front.as_str(), tool)
}

/// The name of the tool in kits for Android up to release 22, which had GNU tools behind the target's name, where Arm
/// has no version. Only want of memory refuses.
pub fn android_name(alloc: Global, tool: ArchiveTool, name: &str) -> Mem<Text>
    ensures { IfOk result (λ path. path ≡ spec.android_name tool name.now) }
{
    let plain = replaced(alloc, name, "armv7", "arm")?;
    plain_name(alloc, tool, plain.as_str())
}

/// Whether the target is one of Visual Studio. It takes no memory.
pub fn is_msvc(target: &TargetInfo) -> bool
    ensures { result ≡ spec.is_msvc (info_seen target.now) }
{
    target.env == "msvc"
}

/// Adds the word by which Microsoft's library manager is told of the architecture that mixes the two instruction sets
/// of Windows on Arm ("LIB Reference", `/MACHINE`). Only want of memory refuses.
#[tactic(auto, unfolding(crate::specs::ArchiveNames::machine_words))]
pub fn push_machine_words(words: &mut Words, target: &TargetInfo, path: &str) -> Mem<()>
    ensures { OnOk result (words.new
        ≡ words.old ++ spec.machine_words (info_seen target.now) path.now) }
{
    if target.full_arch == "arm64ec" && path == "lib.exe" {
        words.push("/machine:arm64ec")?;
    }
    Ok(())
}

/// The architecture as the names of QNX's tools have it, as its Utilities Reference lists them at `ar`, or none. It
/// takes no memory.
#[tactic(auto, unfolding(crate::specs::ArchiveNames::qnx_arch))]
pub fn qnx_arch<'a>(target: &TargetInfo<'a>) -> Option<&'a str>
    ensures { option_copied result ≡ spec.qnx_arch (info_seen target.now) }
{
    match target.full_arch {
        "i686" | "i586" => Some("x86"),
        "x86" | "aarch64" | "x86_64" => Some(target.arch),
        _ => None,
    }
}

fn qnx_name(alloc: Global, tool: ArchiveTool, arch: &str) -> Mem<Text>
    ensures { IfOk result (λ name. name ≡ spec.qnx_name tool arch.now) }
{
    let mut front = Text::of(alloc, "nto")?;
    front.push_str(arch)?;
    plain_name(alloc, tool, front.as_str())
}

fn qnx_tool(alloc: Global, tool: ArchiveTool, target: &TargetInfo) -> Mem<Option<Text>>
    ensures { IfOk result (λ name.
        name ≡ spec.qnx_tool tool (info_seen target.now)) }
{
    match qnx_arch(target) {
        Some(arch) => Ok(Some(qnx_name(alloc, tool, arch)?)),
        None => Ok(None),
    }
}

/// The name of the tool of a system that has its own, or none. illumos has tools of its own in place of GNU's, which
/// take other words; theirs are behind a `g`. Only want of memory refuses.
#[tactic(auto, unfolding(crate::specs::ArchiveNames::system_name))]
pub fn system_name(alloc: Global, tool: ArchiveTool, target: &TargetInfo) -> Mem<Option<Text>>
    ensures { IfOk result (λ name. name ≡ spec.system_name tool (info_seen target.now)) }
{
    if target.os == "illumos" {
        Ok(Some(behind(alloc, "g", tool)?))
    } else if target.os == "vxworks" {
        Ok(Some(behind(alloc, "wr-", tool)?))
    } else if is_qnx(target) {
        qnx_tool(alloc, tool, target)
    } else {
        Ok(None)
    }
}

/// A tool of archives.
#[derive(Clone, Copy, Debug, PartialEq, Eq)]
pub enum ArchiveTool {
    /// `ar`, which writes members.
    Archiver,
    /// `ranlib`, which writes the index.
    Ranlib,
}
