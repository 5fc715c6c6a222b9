// The family of a compiler, by what its preprocessor shows, else by the name of its file.
ghost use Rattle.std.specs.Prelude.{◌≡◌, [], codes, bytes_eq, true, false, if◌then◌else◌, ◌||◌};
ghost use Rattle.cc_host.specs.Question.{is_yes as yes};
ghost use Rattle.cc_text.specs.Case.{lowered};
ghost use Rattle.cc_text.specs.Within.{is_within};
ghost use Rattle.cc_text.specs.declared.family.ToolFamily.TheVariants.{Clang, Msvc};
ghost use Rattle.cc_tool.specs.Family as families;
ghost use Rattle.cc_tool.specs.Plans.{Passes, ask};

use crate::{Answers, Notes, Planned, question_of, verdict};
use cc_env::BuildEnv;
use cc_host::{Ask, Marks, Verdict, is_yes};
use cc_text::{
    Detected, Mem, Text, ToolFamily, Vars, Words, contains_ignore_ascii_case,
    ends_with_ignore_ascii_case, file_name, is_plain_clang,
};
use std::alloc::Global;

// The needle stands in the name, whatever the case of ASCII letters.
fn has_either(name: &str, needle: &str) -> bool
    ensures { result ≡ is_within (lowered needle.now) (lowered name.now) }
{
    contains_ignore_ascii_case(name, needle)
}

// The file name of a path, or the empty name.
#[tactic(auto, unfolding(crate::specs::Family::name_of))]
fn name_of(path: &str) -> &str
    ensures { result.now ≡ families.name_of path.now }
{
    file_name(path).unwrap_or("")
}

// The name is that of the Visual Studio compiler.
#[tactic(auto, unfolding(crate::specs::Family::is_cl_name))]
fn is_cl_name(name: &str) -> bool
    ensures { result ≡ families.is_cl_name name.now }
{
    ends_with_ignore_ascii_case(name, "cl") || name.eq_ignore_ascii_case("cl.exe")
}

fn is_cl_mode(arg: &Text) -> bool
    ensures { result ≡ bytes_eq (codes "--driver-mode=cl") arg.now }
{
    "--driver-mode=cl" == arg.as_str()
}

// Clang is asked to take the words of the Visual Studio compiler.
#[tactic(auto, unfolding(crate::specs::Family::drives_cl))]
fn drives_cl(args: &Words) -> bool
    ensures { result ≡ families.drives_cl args.now }
{
    args.as_slice().iter().any(is_cl_mode)
}

// A Clang by its name.
fn clang_of(args: &Words) -> ToolFamily
    ensures { result ≡ (if families.drives_cl args.now then Msvc true else Clang false) }
{
    if drives_cl(args) {
        ToolFamily::Msvc { clang_cl: true }
    } else {
        ToolFamily::Clang { zig_cc: false }
    }
}

// The family by the name of the file.
#[tactic(auto, unfolding(crate::specs::Family::family_of_file))]
fn family_of_file(name: &str, args: &Words) -> ToolFamily
    ensures { result ≡ families.family_of_file name.now args.now }
{
    if has_either(name, "clang-cl") {
        ToolFamily::Msvc { clang_cl: true }
    } else if is_cl_name(name) {
        ToolFamily::Msvc { clang_cl: false }
    } else if has_either(name, "clang") {
        clang_of(args)
    } else if has_either(name, "zig") {
        ToolFamily::Clang { zig_cc: true }
    } else {
        ToolFamily::Gnu
    }
}

// The family by the marks.
#[tactic(auto, unfolding(crate::specs::Family::family_of_marks))]
fn family_of_marks(helps: bool, marks: Marks) -> Option<ToolFamily>
    ensures { result ≡ families.family_of_marks helps marks }
{
    if helps && !marks.emscripten && !marks.vxworks {
        Some(ToolFamily::Msvc {
            clang_cl: marks.clang,
        })
    } else if (marks.clang || marks.emscripten) && !marks.vxworks {
        Some(ToolFamily::Clang { zig_cc: false })
    } else if marks.gcc || marks.vxworks {
        Some(ToolFamily::Gnu)
    } else {
        None
    }
}

// Asks a compiler.
fn asked_of(
    alloc: Global,
    asked: Ask,
    path: &str,
    words: &Words,
    vars: &Vars,
    seen: &Answers,
    notes: &mut Notes,
) -> Planned<Verdict>
    ensures { Passes seen.now notes.old notes.new
        (ask (families.question asked path.now words.now vars.now)) result }
{
    let question = question_of(alloc, asked, path, words, vars)?;
    verdict(alloc, question, seen, notes)
}

fn reads_option(verdict: &Verdict) -> bool
    ensures { result ≡ families.reads_option verdict.now }
{
    match verdict {
        Verdict::Unanswered => false,
        Verdict::Missing => false,
        Verdict::No => false,
        Verdict::Yes => false,
        Verdict::Marks(marks) => marks.slash_u,
        Verdict::Dirs(_) => false,
    }
}

// What the preprocessor shows; it is asked anew where it read a path as an option.
#[tactic(auto, using(crate::proofs::PassLemmas::pass_laws), unfolding(crate::specs::Family::shown_again))]
fn shown_again(
    alloc: Global,
    path: &str,
    vars: &Vars,
    first: Verdict,
    seen: &Answers,
    notes: &mut Notes,
) -> Planned<Verdict>
    ensures { Passes seen.now notes.old notes.new (families.shown_again path.now vars.now first) result }
{
    if reads_option(&first) {
        let none = Words::new(alloc);
        asked_of(alloc, Ask::PreprocessDashes, path, &none, vars, seen, notes)
    } else {
        Ok(first)
    }
}

// What the preprocessor shows.
#[tactic(auto, using(crate::proofs::PassLemmas::pass_laws), unfolding(crate::specs::Family::shown))]
fn shown(
    alloc: Global,
    path: &str,
    vars: &Vars,
    seen: &Answers,
    notes: &mut Notes,
) -> Planned<Verdict>
    ensures { Passes seen.now notes.old notes.new (families.shown path.now vars.now) result }
{
    let none = Words::new(alloc);
    let first = asked_of(alloc, Ask::Preprocess, path, &none, vars, seen, notes)?;
    shown_again(alloc, path, vars, first, seen, notes)
}

fn found(family: Option<ToolFamily>) -> (Option<ToolFamily>, Detected)
    ensures { result ≡ families.found family }
{
    match family {
        Some(family) => (Some(family), Detected::Marks),
        None => (None, Detected::Failed),
    }
}

fn marks_in(verdict: &Verdict) -> Option<Marks>
    ensures { result ≡ families.marks_in verdict.now }
{
    match verdict {
        Verdict::Unanswered => None,
        Verdict::Missing => None,
        Verdict::No => None,
        Verdict::Yes => None,
        Verdict::Marks(marks) => Some(*marks),
        Verdict::Dirs(_) => None,
    }
}

// What marks tell of the family. A compiler that shows marks is asked for `-?`.
#[tactic(auto, using(crate::proofs::PassLemmas::pass_laws), unfolding(crate::specs::Family::detected_by))]
fn detected_by(
    alloc: Global,
    path: &str,
    args: &Words,
    vars: &Vars,
    marks: Option<Marks>,
    seen: &Answers,
    notes: &mut Notes,
) -> Planned<(Option<ToolFamily>, Detected)>
    ensures { Passes seen.now notes.old notes.new
        (families.detected_by path.now args.now vars.now marks) result }
{
    match marks {
        Some(marks) => {
            let help = asked_of(alloc, Ask::HelpFlag, path, args, vars, seen, notes)?;
            Ok(found(family_of_marks(is_yes(&help), marks)))
        }
        None => Ok((None, Detected::NoMarks)),
    }
}

// What the preprocessor tells of the family.
#[tactic(auto, using(crate::proofs::PassLemmas::pass_laws), unfolding(crate::specs::Family::detection))]
fn detection(
    alloc: Global,
    path: &str,
    args: &Words,
    vars: &Vars,
    seen: &Answers,
    notes: &mut Notes,
) -> Planned<(Option<ToolFamily>, Detected)>
    ensures { Passes seen.now notes.old notes.new
        (families.detection path.now args.now vars.now) result }
{
    let first = shown(alloc, path, vars, seen, notes)?;
    detected_by(alloc, path, args, vars, marks_in(&first), seen, notes)
}

// A Clang of this version.
fn clang_of_version(version: &Verdict, path: &str) -> ToolFamily
    ensures { result ≡ families.clang_by (yes version.now) path.now }
{
    let zig_cc = is_yes(version) || has_either(name_of(path), "zig");
    ToolFamily::Clang { zig_cc }
}

// The same family, as that of Zig where its version or its file's name tells so.
#[tactic(auto, using(crate::proofs::PassLemmas::pass_laws), unfolding(crate::specs::Family::zig_family))]
fn zig_family(
    alloc: Global,
    path: &str,
    vars: &Vars,
    family: ToolFamily,
    seen: &Answers,
    notes: &mut Notes,
) -> Planned<ToolFamily>
    ensures { Passes seen.now notes.old notes.new (families.zig_family path.now vars.now family) result }
{
    if is_plain_clang(family) {
        let none = Words::new(alloc);
        let version = asked_of(alloc, Ask::Version, path, &none, vars, seen, notes)?;
        Ok(clang_of_version(&version, path))
    } else {
        Ok(family)
    }
}

// A family that was detected, or that the name tells, as that of Zig where that is what it is.
#[tactic(auto, using(crate::proofs::PassLemmas::pass_laws), unfolding(crate::specs::Family::settled_family))]
fn settled_family(
    alloc: Global,
    path: &str,
    args: &Words,
    vars: &Vars,
    detected: (Option<ToolFamily>, Detected),
    seen: &Answers,
    notes: &mut Notes,
) -> Planned<(ToolFamily, Detected)>
    ensures { Passes seen.now notes.old notes.new
        (families.settled_family path.now args.now vars.now detected) result }
{
    let (shown, how) = detected;
    let family = family_or(shown, family_of_file(name_of(path), args));
    let family = zig_family(alloc, path, vars, family, seen, notes)?;
    Ok((family, how))
}

// The family with these variables.
#[tactic(auto, using(crate::proofs::PassLemmas::pass_laws), unfolding(crate::specs::Family::family))]
fn family_with(
    alloc: Global,
    path: &str,
    args: &Words,
    vars: &Vars,
    seen: &Answers,
    notes: &mut Notes,
) -> Planned<(ToolFamily, Detected)>
    ensures { Passes seen.now notes.old notes.new (families.family path.now args.now vars.now) result }
{
    let detected = detection(alloc, path, args, vars, seen, notes)?;
    settled_family(alloc, path, args, vars, detected, seen, notes)
}

/// The family of the compiler at a path, and how it was detected. The preprocessor is asked for the
/// macros that it defines (`__clang__`, `__GNUC__`, `__EMSCRIPTEN__`, `__VXWORKS__`); where it
/// shows no known one, the name of the file tells. A compiler that shows marks is asked with `args`
/// for `-?`, which that of Visual Studio takes alone, and a Clang for its version, since `zig cc`
/// says there what it is; nothing else is asked. A question without an answer tells nothing.
///
/// The macros are those of the manual of GCC's preprocessor, "Common Predefined Macros", and of
/// Clang's "Language Extensions", "Builtin Macros"; `-?` is Microsoft's compiler option "/HELP".
pub fn family_of(
    alloc: Global,
    path: &str,
    args: &Words,
    env: &BuildEnv,
    seen: &Answers,
    notes: &mut Notes,
) -> Planned<(ToolFamily, Detected)>
    ensures { Passes seen.now notes.old notes.new
        (families.family_in path.now args.now env.now) result }
{
    let vars = env.child_vars(alloc)?;
    family_with(alloc, path, args, &vars, seen, notes)
}

fn family_or(seen: Option<ToolFamily>, named: ToolFamily) -> ToolFamily
    ensures { result ≡ families.family_or seen named }
{
    match seen {
        Some(family) => family,
        None => named,
    }
}
