// Words that a compiler is given only where it takes them.
ghost use Rattle.std.specs.Prelude.{◌≡◌, ◌++◌, [], ◌∷◌, map, IfOk, OnOk, is_none};
ghost use Rattle.cc_flags.specs.Compilation.{seen as shown};
ghost use Rattle.cc_tool.specs.Plans.{Passes};
ghost use Rattle.cc_plan.specs.Support as spec;
ghost use Rattle.cc_text.specs.Words.{when};

use crate::PlanError;
use crate::checks::check_compiler;
use cc_env::BuildEnv;
use cc_flags::{
    BuildConfig, BuildFlag, Choice, Compilation, Compiler, Flags, Supported, asked_words, is_clang,
    is_link, is_visual_studio, language_variable, push_if, tool_words,
};
use cc_host::{Ask, Question, Verdict, is_yes};
use cc_text::{Mem, NoMemory, Text, ToolFamily, Vars, Words};
use cc_tool::{Answers, Detected, Notes, Planned, family_of, verdicts_of};
use std::alloc::Global;

fn second(alloc: Global, text: &Option<Text>) -> Mem<Option<Text>>
    ensures { IfOk result (λ copy. copy ≡ text.now) }
{
    match text {
        Some(text) => Ok(Some(Text::of(alloc, text.as_str())?)),
        None => Ok(None),
    }
}

/// The settings of a question on a flag: the compiler and the flag, level 0, no debug information, and nothing that Cargo hands down, so that
/// the verdict speaks of the flag alone. Only want of memory refuses.
pub(crate) fn flag_settings(
    alloc: Global,
    set: &BuildConfig,
    path: &str,
    flag: &str,
) -> Mem<BuildConfig>
    ensures { IfOk result (λ plain. plain ≡ spec.flag_settings set.now path.now flag.now) }
{
    let mut flags = Flags::new(alloc);
    flags.push(BuildFlag::Always(Text::of(alloc, flag)?))?;
    let mut plain = BuildConfig::new(alloc);
    plain.flags = flags;
    plain.target = second(alloc, &set.target)?;
    plain.host = second(alloc, &set.host)?;
    plain.opt_level = Some(Text::of(alloc, "0")?);
    plain.debug = Some(Text::of(alloc, "false")?);
    plain.compiler = Some(Text::of(alloc, path)?);
    plain.cpp = set.cpp;
    plain.inherit_rustflags = false;
    plain.inherit_trim_paths = false;
    Ok(plain)
}

/// The compiler of a question on a flag: the path with its family, without a wrapper. Only want of memory refuses.
pub(crate) fn flag_compiler(alloc: Global, path: &str, family: ToolFamily) -> Mem<Compiler>
    ensures { IfOk result (λ compiler. compiler ≡ spec.flag_compiler path.now family) }
{
    Ok(Compiler {
        choice: Choice {
            path: Text::of(alloc, path)?,
            wrapper: None,
            words: Words::new(alloc),
        },
        family,
        detected: Detected::Marks,
    })
}

// Adds the words, less `-v`.
#[tactic(auto, unfolding(crate::specs::Support::quiet_words))]
fn quiet_words(alloc: Global, words: &Words) -> Mem<Words>
    ensures { IfOk result (λ quiet. quiet ≡ spec.quiet_words words.now) }
{
    let mut quiet = Words::new(alloc);
    for word in words.as_slice() {
        if word.as_str() != "-v" {
            quiet.push(word.as_str())?;
        }
    }
    Ok(quiet)
}

// The variables of a question on a flag: those of the tool.
fn flag_vars(alloc: Global, env: &BuildEnv, family: ToolFamily) -> Mem<Vars>
    ensures { IfOk result (λ vars. vars ≡ spec.flag_vars env.now family) }
{
    let (name, value) = language_variable(family);
    let mut entries = Vars::new(alloc);
    entries.push(name, value)?;
    entries.extend(env.explicit())?;
    env.inherited().child_vars(alloc, &entries)
}

// The words that a compiler is asked with. Clang would write on standard error at `-v`, and warns of a word that it has no use for
// (`-Wunused-command-line-argument` of Clang's "Diagnostic flags in Clang"): either would count as a no.
fn asking_words(alloc: Global, family: ToolFamily, words: Words) -> Mem<Words>
    ensures { IfOk result (λ asking. asking ≡ spec.asking_words family words) }
{
    if is_clang(family) {
        let mut quiet = quiet_words(alloc, &words)?;
        quiet.push("-Wno-unused-command-line-argument")?;
        Ok(quiet)
    } else {
        Ok(words)
    }
}

// The words of a question on a flag, by its settings.
#[tactic(auto, unfolding(crate::specs::Support::question_words))]
fn question_words(plain: &Compilation<'_>) -> Mem<Words>
    ensures { IfOk result (λ words. words ≡ spec.question_words (shown plain.now)) }
{
    let none = Supported::none(plain.alloc);
    let words = tool_words(plain, &none)?;
    asking_words(plain.alloc, plain.compiler.family, words)
}

/// The question whether a compiler takes a flag, by its settings. Only want of memory refuses.
pub(crate) fn plain_question(plain: &Compilation<'_>) -> Mem<Question>
    ensures { IfOk result (λ q. q ≡ spec.plain_question (shown plain.now)) }
{
    let family = plain.compiler.family;
    let words = question_words(plain)?;
    let vars = flag_vars(plain.alloc, plain.env, family)?;
    let program = Text::of(plain.alloc, plain.compiler.choice.path.as_str())?;
    let cpp = plain.set.cpp;
    Ok(Question {
        ask: Ask::Flag { cpp, family },
        program,
        words,
        vars,
    })
}

// Whether there is a command of a question on a flag.
fn can_ask(plain: &Compilation<'_>) -> Mem<bool>
    ensures { IfOk result (λ b. b ≡ is_none (spec.compiler_refusal (shown plain.now))) }
{
    match check_compiler(plain) {
        Ok(()) => Ok(true),
        Err(PlanError::NoMemory) => Err(NoMemory),
        Err(_) => Ok(false),
    }
}

/// Whether the flag is for the linker of Visual Studio. It takes no memory.
pub(crate) fn is_for_linker(family: ToolFamily, flag: &str) -> bool
    ensures { result ≡ spec.is_for_linker family flag.now }
{
    is_visual_studio(family) && is_link(flag)
}

// The question on a flag, where it is asked about.
#[tactic(auto, unfolding(crate::specs::Support::is_asked_of, cc_flags::specs::Target::known_info))]
fn question_of(given: &Compilation<'_>, flag: &str) -> Mem<Option<Question>>
    ensures { IfOk result (λ q. q ≡ spec.asked_question (shown given.now) flag.now) }
{
    if is_for_linker(given.compiler.family, flag) {
        return Ok(None);
    }
    let path = given.compiler.choice.path.as_str();
    let settings = flag_settings(given.alloc, given.set, path, flag)?;
    let plain = Compilation {
        alloc: given.alloc,
        set: &settings,
        env: given.env,
        handed: given.handed,
        target: given.target,
        compiler: given.compiler,
    };
    if can_ask(&plain)? {
        let question = plain_question(&plain)?;
        Ok(Some(question))
    } else {
        Ok(None)
    }
}

// The words that a compiler is asked about, with the questions on them.
#[derive(Drop)]
struct Asking {
    words: Words,
    questions: Vec<Question>,
}

// Adds a word with its question, where the compiler is asked about it.
fn push_asked(asking: &mut Asking, given: &Compilation<'_>, word: &str) -> Mem<()>
    ensures words { OnOk result (asking.new.words ≡ asking.old.words
        ++ when (spec.is_asked_of (shown given.now) word.now) (word.now ∷ [])) }
    ensures questions { OnOk result (asking.new.questions.items ≡ asking.old.questions.items
        ++ map (spec.flag_question (shown given.now))
        (when (spec.is_asked_of (shown given.now) word.now) (word.now ∷ []))) }
{
    match question_of(given, word)? {
        Some(question) => {
            asking.words.push(word)?;
            asking.questions.push(question)?;
            Ok(())
        }
        None => Ok(()),
    }
}

// The words of some that the compiler is asked about, with their questions.
#[tactic(auto, unfolding(crate::specs::Support::askable))]
fn asking_of(given: &Compilation<'_>, words: &Words) -> Mem<Asking>
    ensures words { IfOk result (λ asking. asking.words
        ≡ spec.askable (shown given.now) words.now) }
    ensures questions { IfOk result (λ asking. asking.questions.items
        ≡ spec.flag_questions (shown given.now) words.now) }
{
    let mut asking = Asking {
        words: Words::new(given.alloc),
        questions: Vec::new(given.alloc),
    };
    for word in words.as_slice() {
        push_asked(&mut asking, given, word.as_str())?;
    }
    Ok(asking)
}

// Those of some words whose verdicts say yes.
fn taken(alloc: Global, words: &[Text], verdicts: &[Verdict]) -> Mem<Words>
    ensures { IfOk result (λ taken. taken ≡ spec.taken words.now verdicts.now) }
{
    let mut taken = Words::new(alloc);
    for place in 0..words.len() {
        if place >= verdicts.len() {
            break;
        }
        push_if(&mut taken, is_yes(&verdicts[place]), words[place].as_str())?;
    }
    Ok(taken)
}

// Those of some words that the compiler takes, which is asked about all of them at once.
#[tactic(auto, using(crate::proofs::PassBy::pass_by), unfolding(crate::specs::Support::taken_among))]
fn taken_among(
    given: &Compilation<'_>,
    words: &Words,
    seen: &Answers,
    notes: &mut Notes,
) -> Planned<Words>
    ensures { Passes seen.now notes.old notes.new
        (spec.taken_among (shown given.now) words.now) result }
{
    let asking = asking_of(given, words)?;
    let verdicts = verdicts_of(given.alloc, asking.questions, seen, notes)?;
    let taken = taken(given.alloc, asking.words.as_slice(), verdicts.as_slice())?;
    Ok(taken)
}

/// The compiler that a question on a flag is asked of: the one at a path, with the family of the path alone.
#[tactic(auto, using(crate::proofs::PassBy::pass_by), unfolding(crate::specs::Support::bare_compiler))]
pub(crate) fn bare_compiler(
    alloc: Global,
    env: &BuildEnv,
    path: &str,
    seen: &Answers,
    notes: &mut Notes,
) -> Planned<Compiler>
    ensures { Passes seen.now notes.old notes.new (spec.bare_compiler env.now path.now) result }
{
    let none = Words::new(alloc);
    let (family, _) = family_of(alloc, path, &none, env, seen, notes)?;
    let compiler = flag_compiler(alloc, path, family)?;
    Ok(compiler)
}

// Those of some words that the compiler at the path of this one takes.
#[tactic(auto, using(crate::proofs::PassBy::pass_by), unfolding(crate::specs::Support::supported_among))]
fn supported_among(
    given: &Compilation<'_>,
    words: &Words,
    seen: &Answers,
    notes: &mut Notes,
) -> Planned<Words>
    ensures { Passes seen.now notes.old notes.new
        (spec.supported_among (shown given.now) words.now) result }
{
    let path = given.compiler.choice.path.as_str();
    let compiler = bare_compiler(given.alloc, given.env, path, seen, notes)?;
    let bare = Compilation {
        alloc: given.alloc,
        set: given.set,
        env: given.env,
        handed: given.handed,
        target: given.target,
        compiler: &compiler,
    };
    taken_among(&bare, words, seen, notes)
}

// No compiler is asked about no word.
#[tactic(auto, using(crate::proofs::PassBy::pass_by), unfolding(crate::specs::Support::supported_if))]
fn supported_if(
    given: &Compilation<'_>,
    words: Words,
    seen: &Answers,
    notes: &mut Notes,
) -> Planned<Words>
    ensures { Passes seen.now notes.old notes.new
        (spec.supported_if (shown given.now) words) result }
{
    if words.is_empty() {
        Ok(words)
    } else {
        supported_among(given, &words, seen, notes)
    }
}

// Those that the compiler takes of the words it is asked about, as a list.
#[tactic(auto, using(crate::proofs::PassBy::pass_by), unfolding(crate::specs::Support::supported_words))]
fn supported_list(given: &Compilation<'_>, seen: &Answers, notes: &mut Notes) -> Planned<Words>
    ensures { Passes seen.now notes.old notes.new
        (spec.supported_words (shown given.now)) result }
{
    let words = asked_words(given)?;
    supported_if(given, words, seen, notes)
}

/// Those that the compiler takes of the words it is asked about. Its family is asked for by its path alone.
pub(crate) fn supported_words(
    given: &Compilation<'_>,
    seen: &Answers,
    notes: &mut Notes,
) -> Planned<Supported>
    ensures { Passes seen.now notes.old notes.new
        (spec.supported_words (shown given.now)) result }
{
    let words = supported_list(given, seen, notes)?;
    let supported = Supported::of(given.alloc, words)?;
    Ok(supported)
}
