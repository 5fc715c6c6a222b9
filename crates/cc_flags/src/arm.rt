// The table of Arm processors: GCC's manual, "ARM Options", `-march` and `-mfpu`; names of targets: rustc's book,
// "Platform Support".
ghost use Rattle.std.specs.Prelude.{◌≡◌, ◌++◌, OnOk, map, find, option_map};
ghost use Rattle.std.specs.Option.{option_copied};
ghost use Rattle.cc_flags.specs.GnuWords.{arm_lines, arm_line, arm_seen, arm_words};
ghost use Rattle.cc_flags.specs.Texts.{begins_with};

use crate::texts::begins;
use cc_text::{Mem, Words};

// A row: how the full architecture begins, its words, and those added for hard floats.
struct ArmRow {
    prefix: &'static str,
    words: &'static [&'static str],
    hard: &'static [&'static str],
}

macro_rules! row {
    ($prefix:literal, [$($word:literal),*], [$($hard:literal),*]) => {
        ArmRow {
            prefix: $prefix,
            words: &[$($word),*],
            hard: &[$($hard),*],
        }
    };
}

// Where the name of an Arm target has the version of its architecture, GCC gets it too, so that it makes no
// instruction that the target's processors lack; the first prefix that fits counts. The second list names the least
// floating-point unit of those processors, for targets that hand floats over in its registers. `armv6s-m` is the
// older name of Armv6-M with the supervisor call; some assemblers still distinguish the two.
static ARM_ROWS: [ArmRow; 14] = [
    row!("thumbv6m", ["-march=armv6s-m"], []),
    row!("thumbv7m", ["-march=armv7-m"], []),
    row!("thumbv7em", ["-march=armv7e-m"], ["-mfpu=fpv4-sp-d16"]),
    row!("thumbv8m.base", ["-march=armv8-m.base"], []),
    row!(
        "thumbv8m.main",
        ["-march=armv8-m.main"],
        ["-mfpu=fpv5-sp-d16"]
    ),
    row!("armv6", ["-march=armv6"], ["-mfpu=vfpv2"]),
    row!("thumbv6", ["-march=armv6"], ["-mfpu=vfpv2"]),
    row!(
        "armebv7r",
        ["-mbig-endian", "-march=armv7-r"],
        ["-mfpu=vfpv3-d16"]
    ),
    row!("armv7r", ["-march=armv7-r"], ["-mfpu=vfpv3-d16"]),
    row!("thumbv7r", ["-march=armv7-r"], ["-mfpu=vfpv3-d16"]),
    row!("armv7a", ["-march=armv7-a"], ["-mfpu=vfpv3-d16"]),
    row!("thumbv7a", ["-march=armv7-a"], ["-mfpu=vfpv3-d16"]),
    row!("armv8r", ["-march=armv8-r"], ["-mfpu=fp-armv8"]),
    row!("thumbv8r", ["-march=armv8-r"], ["-mfpu=fp-armv8"]),
];

fn arm_rows() -> &'static [ArmRow]
    ensures { map arm_seen result.now ≡ arm_lines }
{
    &ARM_ROWS
}

// The first of some rows whose prefix fits.
fn arm_row_among<'a>(rows: &'a [ArmRow], full_arch: &str) -> Option<&'a ArmRow>
    ensures { option_copied result ≡ find (λ r. begins_with full_arch.now r.prefix.now) rows.now }
{
    rows.iter().find(|row| begins(full_arch, row.prefix))
}

// The first row whose prefix fits.
fn arm_row(full_arch: &str) -> Option<&'static ArmRow>
    ensures { option_map arm_seen (option_copied result) ≡ arm_line full_arch.now }
{
    arm_row_among(arm_rows(), full_arch)
}

// The words of the first row whose prefix fits.
#[tactic(auto, unfolding(crate::specs::GnuWords::arm_words))]
pub(crate) fn push_arm_words(words: &mut Words, full_arch: &str, hard: bool) -> Mem<()>
    ensures { OnOk result (words.new ≡ words.old ++ arm_words full_arch.now hard) }
{
    if let Some(row) = arm_row(full_arch) {
        words.push_all(row.words)?;
        if hard {
            words.push_all(row.hard)?;
        }
    }
    Ok(())
}
