// The words that a target and a level bring, which a build may leave out. Each group adds its words last; only memory refuses. The groups of
// `cc_flags` have the reason and the manual of each word.
ghost use Rattle.std.specs.Prelude.{◌≡◌, ◌++◌, OnOk};
ghost use Rattle.std.specs.Option.{option_copied};
ghost use Rattle.cc_flags.specs.Compilation.{seen};
ghost use Rattle.cc_flags.specs.ToolWords as spec;

use crate::compilation::{Compilation, taken_flags};
use crate::given::{has_no_defaults, is_cargos_target, level_of, or_variable, target_of};
use crate::supported::Supported;
use crate::{
    has, keeps_frame_pointers, lent, needs_target_word, push_bare_and_arm_words,
    push_clang_target_words, push_debug_words, push_frame_pointer_words, push_gnu_words,
    push_linkage_words, push_optimisation_words, push_position_independence_words,
    push_processor_words, push_qnx_words, push_riscv_words, push_sanitizer_words,
    push_standard_library_words, push_visual_studio_target_words, push_visual_studio_words,
    push_wasi_words, push_width_words, value_or_empty,
};
use cc_target::llvm_target;
use cc_text::{Mem, Words, is_gnu, is_gnu_like};

// The optimisation level, empty where it is set nowhere.
fn level_name<'a>(given: &Compilation<'a>) -> &'a str
    ensures { result.now ≡ spec.level_name (seen given.now) }
{
    level_of(given.set, given.env).unwrap_or("")
}

// The name of the target, empty where it is set nowhere.
fn target_name<'a>(given: &Compilation<'a>) -> &'a str
    ensures { result.now ≡ spec.name_of (seen given.now) }
{
    target_of(given.set, given.env).unwrap_or("")
}

// The name that LLVM has for the target, else its own.
fn llvm_name<'a>(given: &Compilation<'a>) -> &'a str
    ensures { result.now ≡ spec.llvm_name (seen given.now) }
{
    let name = target_name(given);
    llvm_target(name).unwrap_or(name)
}

// Cargo's target wants its C library linked statically, by the Rust reference, "Linkage", "Static and dynamic C runtimes". Cargo's book says in
// "Environment Variables", "Environment variables Cargo sets for build scripts", that the features stand in `CARGO_CFG_TARGET_FEATURE`.
#[tactic(auto, unfolding(crate::specs::ToolWords::has_static_crt))]
fn has_static_crt(given: &Compilation<'_>) -> bool
    ensures { result ≡ spec.has_static_crt (seen given.now) }
{
    let env = given.env.inherited();
    is_cargos_target(given.set, given.env)
        && has(
            value_or_empty(env, "CARGO_CFG_TARGET_FEATURE"),
            "crt-static",
        )
}

// What GCC and Clang take: the level, position independence, and the sysroots of WASI and the variants of QNX.
#[tactic(auto, unfolding(crate::specs::ToolWords::gnu_like_words))]
fn push_gnu_like_words(words: &mut Words, given: &Compilation<'_>) -> Mem<()>
    ensures { OnOk result (words.new ≡ words.old ++ spec.gnu_like_words (seen given.now)) }
{
    let family = given.compiler.family;
    let target = given.target;
    if is_gnu_like(family) {
        let sysroot = given.env.inherited().get("WASI_SYSROOT");
        push_optimisation_words(words, family, target, level_name(given))?;
        push_position_independence_words(words, target, given.set.pic, given.set.use_plt)?;
        push_wasi_words(words, target, target_name(given), sysroot)?;
        push_qnx_words(words, target)?;
    }
    Ok(())
}

/// Whether the compiler is Clang, and the target is named to it: one program serves all targets (Clang's "Cross-
/// compilation using Clang", "Target Triple"), while each GCC has its own. It takes no memory.
pub fn names_target(given: &Compilation<'_>) -> bool
    ensures { result ≡ spec.names_target (seen given.now) }
{
    let set_compiler = lent(&given.set.compiler);
    let path = given.compiler.choice.path.as_str();
    needs_target_word(given.compiler.family, set_compiler, given.target, path)
}

/// The sysroot of musl for WebAssembly's threads, lent, where it is set: Clang brings no C library for that target. It
/// takes no memory.
pub fn musl_sysroot<'a>(given: &Compilation<'a>) -> Option<&'a str>
    ensures { option_copied result ≡ spec.musl_sysroot (seen given.now) }
{
    given.env.inherited().get("WASM_MUSL_SYSROOT")
}

// What Clang takes, where the target is named to it.
#[tactic(auto, unfolding(crate::specs::ToolWords::clang_words))]
pub(crate) fn push_clang_words(words: &mut Words, given: &Compilation<'_>) -> Mem<()>
    ensures { OnOk result (words.new ≡ words.old ++ spec.clang_words (seen given.now)) }
{
    if names_target(given) {
        let set = given.set;
        let set_stdlib = lent(&set.cpp_set_stdlib);
        let name = llvm_name(given);
        let sysroot = musl_sysroot(given);
        push_clang_target_words(words, given.target, name, set.cpp, set_stdlib, sysroot)?;
    }
    Ok(())
}

// The words for the processor, which the flags of Rust code may name: `-C target-cpu` of rustc's "Codegen Options".
#[tactic(auto, unfolding(crate::specs::Inherited::inherited_cpu))]
fn push_wanted_processor(words: &mut Words, given: &Compilation<'_>) -> Mem<()>
    ensures { OnOk result (words.new ≡ words.old ++ spec.wanted_processor (seen given.now)) }
{
    match taken_flags(given) {
        Some(flags) => push_processor_words(words, given.target, flags.target_cpu())?,
        None => push_processor_words(words, given.target, None)?,
    }
    Ok(())
}

// What GCC alone takes, which knows the target by its own name and its processor by `-m` words: GCC's "Machine-Dependent Options".
#[tactic(auto, unfolding(crate::specs::ToolWords::gcc_words))]
fn push_gcc_words(words: &mut Words, given: &Compilation<'_>) -> Mem<()>
    ensures { OnOk result (words.new ≡ words.old ++ spec.gcc_words (seen given.now)) }
{
    if is_gnu(given.compiler.family) {
        let crt = has_static_crt(given);
        push_gnu_words(words, given.target, given.set.static_flag, crt)?;
        push_wanted_processor(words, given)?;
        push_bare_and_arm_words(words, given.target)?;
        push_riscv_words(words, given.target)?;
    }
    Ok(())
}

// How much debug information is wanted: as it is set, else as Cargo says in `DEBUG`, which is what `debug` of the profile comes to (Cargo's
// book, "Environment Variables").
fn debug_of<'a>(given: &Compilation<'a>) -> Option<&'a str>
    ensures { option_copied result ≡ spec.debug_of (seen given.now) }
{
    or_variable(&given.set.debug, given.env, "DEBUG")
}

/// Whether frame pointers are kept, which profilers walk a stack by: where it isn't set, with debug information.
pub(crate) fn keeps_frames(given: &Compilation<'_>) -> bool
    ensures { result ≡ spec.keeps_frames (seen given.now) }
{
    let force = given.set.force_frame_pointer;
    keeps_frame_pointers(given.compiler.family, force, debug_of(given))
}

// Debug information and frame pointers: GCC's "Options for Debugging Your Program", and `-fno-omit-frame-pointer` of its "Options That Control
// Optimization". Not each compiler knows the word for leaves, so that one is asked about.
#[tactic(auto, unfolding(crate::specs::ToolWords::debugging_words))]
fn push_debugging_words(
    words: &mut Words,
    given: &Compilation<'_>,
    supported: &Supported,
) -> Mem<()>
    ensures { OnOk result (words.new ≡ words.old
        ++ spec.debugging_words (seen given.now) supported.now) }
{
    let family = given.compiler.family;
    let force = given.set.force_frame_pointer;
    let debug = debug_of(given);
    let takes_leaf = supported.has("-mno-omit-leaf-frame-pointer");
    push_debug_words(words, family, given.target, debug)?;
    push_frame_pointer_words(words, family, force, debug, takes_leaf)?;
    Ok(())
}

// The groups of the target and the level, in order.
#[tactic(auto, unfolding(crate::specs::ToolWords::default_words))]
fn push_default_words(words: &mut Words, given: &Compilation<'_>, supported: &Supported) -> Mem<()>
    ensures { OnOk result (words.new ≡ words.old
        ++ spec.default_words (seen given.now) supported.now) }
{
    let set = given.set;
    let target = given.target;
    let family = given.compiler.family;
    let level = level_name(given);
    let crt = has_static_crt(given);
    let set_stdlib = lent(&set.cpp_set_stdlib);
    let is_cargos = is_cargos_target(set, given.env);
    let env = given.env.inherited();
    push_visual_studio_words(words, family, set.static_crt, crt, level)?;
    push_gnu_like_words(words, given)?;
    push_debugging_words(words, given, supported)?;
    push_width_words(words, family, target)?;
    push_clang_words(words, given)?;
    push_visual_studio_target_words(words, family, target, llvm_name(given))?;
    push_gcc_words(words, given)?;
    push_linkage_words(
        words,
        target,
        target_name(given),
        set.static_flag,
        set.shared_flag,
    )?;
    push_standard_library_words(words, family, set.cpp, set_stdlib)?;
    push_sanitizer_words(words, family, target, is_cargos, env)?;
    Ok(())
}

// The words of the target and the level, unless they are left out.
#[tactic(auto, unfolding(crate::specs::ToolWords::wanted_defaults))]
pub(crate) fn push_wanted_defaults(
    words: &mut Words,
    given: &Compilation<'_>,
    supported: &Supported,
) -> Mem<()>
    ensures { OnOk result (words.new ≡ words.old
        ++ spec.wanted_defaults (seen given.now) supported.now) }
{
    if !has_no_defaults(given.set, given.env) {
        push_default_words(words, given, supported)?;
    }
    Ok(())
}
