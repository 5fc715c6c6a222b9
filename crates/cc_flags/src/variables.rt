// The names of the variables that a plan reads, as far as no question decides them.
ghost use Rattle.std.specs.Prelude.{◌≡◌, ◌++◌, [], ◌∷◌, IfOk, OnOk};
ghost use Rattle.cc_text.specs.Words.{when};
ghost use Rattle.std.specs.BTreeSet.{keys};
ghost use Rattle.cc_target.specs.Targets.{info_seen};
ghost use Rattle.cc_flags.specs.Variables as spec;

use crate::given::{flags_variable, has_no_defaults, host_of, target_of, variable_flags};
use crate::{ArchiveTool, BuildConfig, Compiler, is_wasm_linux, lent, needs_target_word};
use cc_env::{BuildEnv, target_envs};
use cc_target::TargetInfo;
use cc_text::{
    Mem, Text, ToolFamily, Words, is_cl, is_clang, is_clang_cl, is_gnu, is_gnu_like,
    is_plain_clang, is_visual_studio,
};
use std::alloc::Global;
use std::collections::BTreeSet;

/// What a call reads variables for.
#[derive(Clone, Copy, Debug, PartialEq, Eq)]
pub struct Reads {
    /// It checks whether a command may run.
    pub disabled: bool,
    /// It runs a command that is no question, and asks whether it is shown.
    pub debug: bool,
    /// It plans a compiler.
    pub compiler: bool,
    /// It plans the commands of sources, with an assembler where one of them wants it.
    pub assembler: bool,
    /// It asks a compiler whether it takes a flag.
    pub flag: bool,
    /// It plans an archiver.
    pub archiver: bool,
    /// It plans the tool that writes an archive's index.
    pub ranlib: bool,
    /// It plans link lines.
    pub links: bool,
}

/// Adds a word last, where it is wanted.
pub fn push_if(words: &mut Words, wanted: bool, word: &str) -> Mem<()>
    ensures { OnOk result (words.new ≡ words.old ++ when wanted (word.now ∷ [])) }
{
    if wanted {
        words.push(word)?;
    }
    Ok(())
}

// The names of a variable of the prefixes. Without a target and a host there is none.
fn prefixed_names(alloc: Global, set: &BuildConfig, env: &BuildEnv, variable: &str) -> Mem<Words>
    ensures { IfOk result (λ names. names ≡ spec.prefixed_names set.now env.now variable.now) }
{
    match (target_of(set, env), host_of(set, env)) {
        (Some(target), Some(host)) => target_envs(alloc, variable, target, host),
        _ => Ok(Words::new(alloc)),
    }
}

// The names up to the first that is set.
fn looked_at(alloc: Global, env: &BuildEnv, names: &[Text]) -> Mem<Words>
    ensures { IfOk result (λ read. read ≡ spec.looked_at env.now names.now) }
{
    let mut read = Words::new(alloc);
    for name in names {
        read.push(name.as_str())?;
        if env.inherited().get(name.as_str()).is_some() {
            return Ok(read);
        }
    }
    Ok(read)
}

/// The names by which one value of the prefixes is read.
#[tactic(auto, unfolding(crate::specs::Variables::value_names))]
pub fn value_names(alloc: Global, set: &BuildConfig, env: &BuildEnv, variable: &str) -> Mem<Words>
    ensures { IfOk result (λ names. names ≡ spec.value_names set.now env.now variable.now) }
{
    let names = prefixed_names(alloc, set, env, variable)?;
    looked_at(alloc, env, names.as_slice())
}

fn asks_for_quotes(alloc: Global, set: &BuildConfig, env: &BuildEnv, variable: &str) -> Mem<bool>
    ensures { IfOk result (λ b. b ≡ spec.asks_for_quotes set.now env.now variable.now) }
{
    let flags = variable_flags(alloc, set, env, variable)?;
    Ok(flags.is_some() && set.shell_escaped_flags.is_none())
}

/// The names by which a list of flags is read: each of its four, and the one that says how flags are quoted.
#[tactic(auto, unfolding(crate::specs::Variables::flags_names))]
pub fn flags_names(alloc: Global, set: &BuildConfig, env: &BuildEnv, variable: &str) -> Mem<Words>
    ensures { IfOk result (λ names. names ≡ spec.flags_names set.now env.now variable.now) }
{
    let mut names = prefixed_names(alloc, set, env, variable)?;
    if asks_for_quotes(alloc, set, env, variable)? {
        names.push("CC_SHELL_ESCAPED_FLAGS")?;
    }
    Ok(names)
}

fn takes_wasi_sysroot(family: ToolFamily, target: &TargetInfo) -> bool
    ensures { result ≡ spec.takes_wasi_sysroot family (info_seen target.now) }
{
    is_gnu_like(family) && target.os == "wasi"
}

fn takes_musl_sysroot(set: &BuildConfig, target: &TargetInfo, compiler: &Compiler) -> bool
    ensures { result ≡ spec.takes_musl_sysroot set.now (info_seen target.now) compiler.now }
{
    let path = compiler.choice.path.as_str();
    needs_target_word(compiler.family, lent(&set.compiler), target, path) && is_wasm_linux(target)
}

#[tactic(auto, unfolding(crate::specs::Variables::sysroot_names))]
fn push_sysroot_names(
    names: &mut Words,
    set: &BuildConfig,
    target: &TargetInfo,
    compiler: &Compiler,
) -> Mem<()>
    ensures { OnOk result (names.new
        ≡ names.old ++ spec.sysroot_names set.now (info_seen target.now) compiler.now) }
{
    names.push_chosen(&[
        (
            takes_wasi_sysroot(compiler.family, target),
            &["WASI_SYSROOT"],
        ),
        (
            takes_musl_sysroot(set, target, compiler),
            &["WASM_MUSL_SYSROOT"],
        ),
    ])?;
    Ok(())
}

fn is_any_clang(family: ToolFamily) -> bool
    ensures { result ≡ spec.is_any_clang family }
{
    is_clang(family) || is_clang_cl(family)
}

fn is_zig(family: ToolFamily) -> bool
    ensures { result ≡ spec.is_zig family }
{
    is_clang(family) && !is_plain_clang(family)
}

fn reads_paths(family: ToolFamily) -> bool
    ensures { result ≡ spec.reads_paths family }
{
    is_gnu(family) || is_any_clang(family)
}

// What GCC and Clang read by themselves: GCC's "Environment Variables Affecting GCC", and Clang's and Zig's drivers.
#[tactic(auto, unfolding(crate::specs::Variables::gnu_like_names))]
fn push_gnu_like_names(names: &mut Words, family: ToolFamily) -> Mem<()>
    ensures { OnOk result (names.new ≡ names.old ++ spec.gnu_like_names family) }
{
    names.push_chosen(&[
        (
            reads_paths(family),
            &[
                "CPATH",
                "C_INCLUDE_PATH",
                "CPLUS_INCLUDE_PATH",
                "OBJC_INCLUDE_PATH",
                "OBJCPLUS_INCLUDE_PATH",
                "COMPILER_PATH",
                "SOURCE_DATE_EPOCH",
            ],
        ),
        (is_gnu(family), &["GCC_EXEC_PREFIX"]),
        (
            is_any_clang(family),
            &["CCC_OVERRIDE_OPTIONS", "CLANG_NO_DEFAULT_CONFIG"],
        ),
        (is_zig(family), &["ZIG_LIB_DIR", "ZIG_LIBC"]),
    ])?;
    Ok(())
}

fn seeks_visual_studio(family: ToolFamily, target: &TargetInfo) -> bool
    ensures { result ≡ spec.seeks_visual_studio family (info_seen target.now) }
{
    is_any_clang(family) && target.env == "msvc"
}

fn reads_includes(family: ToolFamily, target: &TargetInfo) -> bool
    ensures { result ≡ spec.reads_includes family (info_seen target.now) }
{
    is_cl(family) || seeks_visual_studio(family, target)
}

// What the Visual Studio compiler and what stands in for it read by themselves: its "CL environment variables", and LLVM's search for it.
#[tactic(auto, unfolding(crate::specs::Variables::visual_studio_names))]
fn push_visual_studio_names(names: &mut Words, family: ToolFamily, target: &TargetInfo) -> Mem<()>
    ensures { OnOk result (names.new
        ≡ names.old ++ spec.visual_studio_names family (info_seen target.now)) }
{
    names.push_chosen(&[
        (
            reads_includes(family, target),
            &["INCLUDE", "EXTERNAL_INCLUDE"],
        ),
        (
            seeks_visual_studio(family, target),
            &["VCToolsInstallDir", "VCINSTALLDIR"],
        ),
        (is_visual_studio(family), &["CL", "_CL_"]),
        (is_cl(family), &["LIBPATH"]),
    ])?;
    Ok(())
}

// What Emscripten reads by itself: its `emcc.py` and `config.py`.
#[tactic(auto, unfolding(crate::specs::Variables::emscripten_names))]
fn push_emscripten_names(names: &mut Words, target: &TargetInfo) -> Mem<()>
    ensures { OnOk result (names.new ≡ names.old ++ spec.emscripten_names (info_seen target.now)) }
{
    let is_emscripten = target.os == "emscripten";
    names.push_chosen(&[(
        is_emscripten,
        &[
            "EMCC_CFLAGS",
            "EMCC_LOCAL_PORTS",
            "EM_CONFIG",
            "EM_CACHE",
            "EM_PORTS",
            "EM_LLVM_ROOT",
            "EM_CLANG_ADD_VERSION",
            "EM_COMPILER_WRAPPER",
        ],
    )])?;
    Ok(())
}

// What a compiler reads by itself, or a program that it runs.
#[tactic(auto, unfolding(crate::specs::Variables::family_names), using(std::proofs::Common::append_assoc))]
fn push_family_names(names: &mut Words, family: ToolFamily, target: &TargetInfo) -> Mem<()>
    ensures { OnOk result (names.new
        ≡ names.old ++ spec.family_names family (info_seen target.now)) }
{
    push_gnu_like_names(names, family)?;
    push_visual_studio_names(names, family, target)?;
    push_emscripten_names(names, target)?;
    Ok(())
}

// Unless the words of a target are left out.
fn push_default_sysroots(
    names: &mut Words,
    set: &BuildConfig,
    env: &BuildEnv,
    target: &TargetInfo,
    compiler: &Compiler,
) -> Mem<()>
    ensures { OnOk result (names.new
        ≡ names.old ++ spec.default_sysroots set.now env.now (info_seen target.now) compiler.now) }
{
    if has_no_defaults(set, env) {
        return Ok(());
    }
    push_sysroot_names(names, set, target, compiler)
}

/// Those by which the words of a compiler are planned.
#[tactic(auto, unfolding(crate::specs::Variables::words_names))]
pub fn words_names(
    alloc: Global,
    set: &BuildConfig,
    env: &BuildEnv,
    target: &TargetInfo,
    compiler: &Compiler,
) -> Mem<Words>
    ensures { IfOk result (λ names. names
        ≡ spec.words_names set.now env.now (info_seen target.now) compiler.now) }
{
    let mut names = Words::new(alloc);
    push_if(&mut names, !set.no_default_flags, "CRATE_CC_NO_DEFAULTS")?;
    push_default_sysroots(&mut names, set, env, target, compiler)?;
    names.append(flags_names(alloc, set, env, flags_variable(set))?)?;
    push_family_names(&mut names, compiler.family, target)?;
    Ok(names)
}

/// The variable of the flags of a tool of archives.
pub fn tool_flags(tool: ArchiveTool) -> &'static str
    ensures { result.now ≡ spec.tool_flags tool }
{
    match tool {
        ArchiveTool::Archiver => "ARFLAGS",
        ArchiveTool::Ranlib => "RANLIBFLAGS",
    }
}

/// Those of a run itself: whether a command may run, and whether one is shown.
#[tactic(auto, unfolding(crate::specs::Variables::run_names))]
pub fn run_names(alloc: Global, reads: Reads) -> Mem<Words>
    ensures { IfOk result (λ names. names ≡ spec.run_names reads) }
{
    let mut names = Words::new(alloc);
    push_if(&mut names, reads.disabled, "CC_FORCE_DISABLE")?;
    push_if(&mut names, reads.debug, "CC_ENABLE_DEBUG_OUTPUT")?;
    Ok(names)
}

/// Whether lines of such names are wanted. It takes no memory.
pub fn wants_reruns(set: &BuildConfig) -> bool
    ensures { result ≡ spec.wants_reruns set.now }
{
    set.cargo_metadata && set.emit_rerun_if_env_changed
}

fn sorted(alloc: Global, names: &[Text]) -> Mem<BTreeSet<Text>>
    ensures { IfOk result (λ set. keys set ≡ spec.in_order names.now) }
{
    let mut set = BTreeSet::new(alloc);
    for name in names {
        set.insert(name.try_clone()?)?;
    }
    Ok(set)
}

/// Texts in the order of their bytes, each once.
pub fn in_order(alloc: Global, names: &Words) -> Mem<Words>
    ensures { IfOk result (λ list. list ≡ spec.in_order names.now) }
{
    let mut list = Words::new(alloc);
    for name in sorted(alloc, names.as_slice())? {
        list.push_text(name)?;
    }
    Ok(list)
}
