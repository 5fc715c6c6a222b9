// The words that GCC takes for a target, which Clang knows by its `--target`: GCC's manual, "ARM Options", "x86
// Options" and "RISC-V Options". A distribution builds GCC with defaults of its own, which may be above rustc's.
ghost use Rattle.std.specs.Prelude.{◌≡◌, ◌++◌, [], ◌∷◌, codes, OnOk};
ghost use Rattle.std.specs.Option.{option_copied};
ghost use Rattle.cc_target.specs.Targets.{info_seen};
ghost use Rattle.cc_text.specs.Words.{texts};
ghost use Rattle.cc_flags.specs.GnuWords as spec;

use crate::arm::push_arm_words;
use crate::texts::{begins, has};
use cc_target::TargetInfo;
use cc_text::{Mem, Words, after_prefix};

// Numbers with a decimal point in registers of their own, also between functions.
#[tactic(auto, unfolding(crate::specs::GnuWords::is_hard_float))]
fn is_hard_float(target: &TargetInfo) -> bool
    ensures { result ≡ spec.is_hard_float (info_seen target.now) }
{
    target.abi == "eabihf"
}

#[tactic(auto, unfolding(crate::specs::GnuWords::is_v7_linux))]
fn is_v7_linux(target: &TargetInfo) -> bool
    ensures { result ≡ spec.is_v7_linux (info_seen target.now) }
{
    (begins(target.full_arch, "armv7") || begins(target.full_arch, "thumbv7"))
        && target.os == "linux"
}

#[tactic(auto, unfolding(crate::specs::GnuWords::is_v7_android))]
fn is_v7_android(target: &TargetInfo) -> bool
    ensures { result ≡ spec.is_v7_android (info_seen target.now) }
{
    target.os == "android" && has(target.full_arch, "v7")
}

#[tactic(auto, unfolding(crate::specs::GnuWords::has_neon))]
fn has_neon(target: &TargetInfo) -> bool
    ensures { result ≡ spec.has_neon (info_seen target.now) }
{
    has(target.full_arch, "neon")
}

/// Adds `-static` where rustc links its C library so (`crt`) and `static_flag` isn't set; then, for Armv7, what
/// each processor of Rust's target has: on Linux `-march=armv7-a`, and for `eabihf` the least floating-point unit
/// and calls by its registers; on Android what the NDK's guide "Android ABIs" promises of `armeabi-v7a`; and NEON
/// where the full architecture names it. Refused for memory, `words` may hold a part of them.
#[tactic(auto, unfolding(crate::specs::GnuWords::gnu_words, cc_text::specs::Words::choose))]
pub fn push_gnu_words(
    words: &mut Words,
    target: &TargetInfo,
    static_flag: Option<bool>,
    crt: bool,
) -> Mem<()>
    ensures { OnOk result (words.new
        ≡ words.old ++ spec.gnu_words (info_seen target.now) static_flag crt) }
{
    let is_static = static_flag.is_none() && crt;
    let linux = is_v7_linux(target);
    let linux_hard = linux && is_hard_float(target);
    let android = is_v7_android(target);
    let neon = has_neon(target);
    let android_bare = android && !neon;
    words.push_chosen(&[
        (is_static, &["-static"]),
        (linux, &["-march=armv7-a"]),
        (linux_hard, &["-mfpu=vfpv3-d16", "-mfloat-abi=hard"]),
        (android, &["-march=armv7-a", "-mthumb"]),
        (android_bare, &["-mfpu=vfpv3-d16"]),
        (android, &["-mfloat-abi=softfp"]),
        (neon, &["-mfpu=neon"]),
    ])?;
    Ok(())
}

// The oldest processor of a full architecture on Linux.
#[tactic(auto, unfolding(crate::specs::GnuWords::linux_processor))]
fn linux_processor(full_arch: &str, abi: &str, cpu: Option<&str>) -> &'static [&'static str]
    ensures { texts result.now
        ≡ spec.linux_processor full_arch.now abi.now (option_copied cpu.entry) }
{
    match full_arch {
        "armv4t" => &["-march=armv4t", "-marm", "-mfloat-abi=soft"],
        "armv5te" => &["-march=armv5te", "-marm", "-mfloat-abi=soft"],
        "arm" if abi == "eabihf" => &["-march=armv6", "-marm", "-mfpu=vfp"],
        "arm" => &["-march=armv6", "-marm", "-mfloat-abi=soft"],
        "i586" => &["-march=pentium"],
        "i686" => &["-march=i686"],
        "x86_64" => match cpu {
            None | Some("x86-64") => &["-march=x86-64"],
            Some(_) => &[],
        },
        _ => &[],
    }
}

/// Adds, on Linux, the oldest processor that rustc's targets of that full architecture run on, and for Arm how
/// floats are handed over: `arm` alone means Armv6 to rustc. Nothing for a full architecture that isn't listed.
/// `cpu` is the processor that the rustflags name: with another one than `x86-64`, nothing is added for `x86_64`,
/// so that C code isn't held below Rust code. Refused for memory, `words` may hold a part of them.
#[tactic(auto, unfolding(crate::specs::GnuWords::processor_words))]
pub fn push_processor_words(words: &mut Words, target: &TargetInfo, cpu: Option<&str>) -> Mem<()>
    ensures { OnOk result (words.new
        ≡ words.old ++ spec.processor_words (info_seen target.now) (option_copied cpu.entry)) }
{
    if target.os == "linux" {
        words.push_all(linux_processor(target.full_arch, target.abi, cpu))?;
    }
    Ok(())
}

#[tactic(auto, unfolding(crate::specs::GnuWords::is_x86_musl))]
fn is_x86_musl(target: &TargetInfo) -> bool
    ensures { result ≡ spec.is_x86_musl (info_seen target.now) }
{
    target.arch == "x86" && target.env == "musl"
}

#[tactic(auto, unfolding(crate::specs::GnuWords::is_bare_hard_float))]
fn is_bare_hard_float(target: &TargetInfo) -> bool
    ensures { result ≡ spec.is_bare_hard_float (info_seen target.now) }
{
    target.arch == "arm" && target.os == "none" && is_hard_float(target)
}

#[tactic(auto, unfolding(crate::specs::GnuWords::is_thumb))]
fn is_thumb(target: &TargetInfo) -> bool
    ensures { result ≡ spec.is_thumb (info_seen target.now) }
{
    begins(target.full_arch, "thumb")
}

#[tactic(auto, unfolding(crate::specs::GnuWords::bare_words))]
fn push_bare_words(words: &mut Words, target: &TargetInfo) -> Mem<()>
    ensures { OnOk result (words.new ≡ words.old ++ spec.bare_words (info_seen target.now)) }
{
    words.push_chosen(&[
        (is_x86_musl(target), &["-Wl,-melf_i386"]),
        (is_bare_hard_float(target), &["-mfloat-abi=hard"]),
        (is_thumb(target), &["-mthumb"]),
    ])?;
    Ok(())
}

/// Adds what some targets want whatever their system: for x86 with musl the linker's form of 32 bits, which
/// `musl-gcc` doesn't hand on by itself; calls by floating-point registers for `eabihf` without a system; `-mthumb`
/// for Thumb; and the words of the first row of the table of Arm processors that fits. Refused for memory, `words`
/// may hold a part of them.
pub fn push_bare_and_arm_words(words: &mut Words, target: &TargetInfo) -> Mem<()>
    ensures { OnOk result (words.new ≡ words.old ++ spec.bare_and_arm_words (info_seen target.now)) }
{
    push_bare_words(words, target)?;
    push_arm_words(words, target.full_arch, is_hard_float(target))?;
    Ok(())
}

#[tactic(auto, unfolding(crate::specs::GnuWords::is_riscv))]
fn is_riscv(target: &TargetInfo) -> bool
    ensures { result ≡ spec.is_riscv (info_seen target.now) }
{
    target.arch == "riscv32" || target.arch == "riscv64"
}

// Systems whose code of 64 bits is that of the general profile.
#[tactic(auto, unfolding(crate::specs::GnuWords::is_general_system))]
fn is_general_system(os: &str) -> bool
    ensures { result ≡ spec.is_general_system os.now }
{
    matches!(os, "linux" | "freebsd" | "netbsd" | "managarm" | "redox")
}

// The instructions that the full architecture names, and how functions are called.
fn push_named_riscv(words: &mut Words, rest: &str, abi: &str) -> Mem<()>
    ensures { OnOk result (words.new ≡ words.old ++ (codes "-march=rv" ++ rest.now) ∷ abi.now ∷ []) }
{
    words.push_joined("-march=rv", rest)?;
    words.push(abi)?;
    Ok(())
}

#[tactic(auto, unfolding(crate::specs::GnuWords::riscv_by))]
fn push_riscv_by(words: &mut Words, os: &str, rest: &str) -> Mem<()>
    ensures { OnOk result (words.new ≡ words.old ++ spec.riscv_by os.now rest.now) }
{
    if begins(rest, "64") {
        if is_general_system(os) {
            words.push_all(&["-march=rv64gc", "-mabi=lp64d"])?;
        } else {
            push_named_riscv(words, rest, "-mabi=lp64")?;
        }
    } else if begins(rest, "32") {
        if os == "linux" {
            words.push_all(&["-march=rv32gc", "-mabi=ilp32d"])?;
        } else {
            push_named_riscv(words, rest, "-mabi=ilp32")?;
        }
    } else {
        words.push("-mcmodel=medany")?;
    }
    Ok(())
}

/// Adds the instructions and the calling convention of a RISC-V target: the general profile of 64 or 32 bits with
/// calls by floating-point registers on systems that are built so, else those that the full architecture names,
/// with calls by integer registers. Nothing for other architectures. Refused for memory, `words` may hold a part of
/// them.
#[tactic(auto, unfolding(crate::specs::GnuWords::riscv_words))]
pub fn push_riscv_words(words: &mut Words, target: &TargetInfo) -> Mem<()>
    ensures { OnOk result (words.new ≡ words.old ++ spec.riscv_words (info_seen target.now)) }
{
    if is_riscv(target) {
        let rest = after_prefix(target.full_arch, "riscv").unwrap_or("");
        push_riscv_by(words, target.os, rest)?;
    }
    Ok(())
}
