// The command that a question is asked by.
ghost use Rattle.std.specs.Prelude.{◌≡◌, ◌≢◌, ◌++◌, None, IfOk, OnOk};
ghost use Rattle.cc_host.specs.ProbeCommand.{object_words, dashes, flag_words, ask_words, probe_dir, probe_command_of};
ghost use Rattle.cc_host.specs.declared.question.Ask.TheVariants.{Exists as AsksExists};

use crate::{Ask, Command, ProbeFiles, Question};
use cc_text::{Mem, ToolFamily, Words, is_clang_cl, is_visual_studio};
use std::alloc::Global;

// Adds the words that name the object.
fn push_object(words: &mut Words, family: ToolFamily, object: &str) -> Mem<()>
    ensures { OnOk result (words.new ≡ words.old ++ object_words family object.now) }
{
    if is_visual_studio(family) {
        words.push_joined("-Fo", object)?;
    } else {
        words.push_all(&["-o", object])?;
    }
    Ok(())
}

// Adds the word after which no word is an option, where the family needs it.
fn push_dashes(words: &mut Words, family: ToolFamily) -> Mem<()>
    ensures { OnOk result (words.new ≡ words.old ++ dashes family) }
{
    if is_clang_cl(family) {
        words.push("--")?;
    }
    Ok(())
}

// Adds the words that compile the source into the object.
#[tactic(auto, unfolding(crate::specs::ProbeCommand::flag_words))]
fn push_flag_words(words: &mut Words, family: ToolFamily, files: &ProbeFiles) -> Mem<()>
    ensures { OnOk result (words.new ≡ words.old ++ flag_words family files.now) }
{
    push_object(words, family, files.object.as_str())?;
    words.push("-c")?;
    push_dashes(words, family)?;
    words.push(files.source.as_str())?;
    Ok(())
}

// Adds the words after those of the question.
#[tactic(auto, unfolding(crate::specs::ProbeCommand::ask_words))]
fn push_ask_words(words: &mut Words, ask: Ask, files: &ProbeFiles) -> Mem<()>
    ensures { OnOk result (words.new ≡ words.old ++ ask_words ask files.now) }
{
    let source = files.source.as_str();
    match ask {
        Ask::Preprocess => words.push_all(&["-E", source])?,
        Ask::PreprocessDashes => words.push_all(&["-E", "--", source])?,
        Ask::HelpFlag => words.push("-?")?,
        Ask::Version => words.push("--version")?,
        Ask::Flag { cpp: _, family } => push_flag_words(words, family, files)?,
        Ask::Libcxx => words.push_all(&["-E", source])?,
        Ask::SearchDirs => words.push("--print-search-dirs")?,
        Ask::ToolVersion => words.push("--version")?,
        Ask::Starts => {}
        Ask::Exists => {}
    }
    Ok(())
}

// Lets a command of no folder run in that of its question.
#[tactic(auto, unfolding(crate::specs::ProbeCommand::probe_dir))]
fn set_dir(cmd: &mut Command, ask: Ask, files: &ProbeFiles) -> Mem<()>
    requires { cmd.old.dir ≡ None }
    ensures { OnOk result (cmd.new ≡ record cmd.old { dir = probe_dir ask files.now }) }
{
    match ask {
        Ask::Flag { .. } => cmd.current_dir(files.dir.as_str()),
        Ask::Preprocess => Ok(()),
        Ask::PreprocessDashes => Ok(()),
        Ask::HelpFlag => Ok(()),
        Ask::Version => Ok(()),
        Ask::Libcxx => Ok(()),
        Ask::SearchDirs => Ok(()),
        Ask::ToolVersion => Ok(()),
        Ask::Starts => Ok(()),
        Ask::Exists => Ok(()),
    }
}

/// The command of a question that has one: the program, the words of the question and those of what is asked, in the question's
/// environment.
pub fn probe_command(alloc: Global, q: &Question, files: &ProbeFiles) -> Mem<Command>
    requires { q.now.ask ≢ AsksExists }
    ensures { IfOk result (λ cmd. cmd ≡ probe_command_of q.now files.now) }
{
    let mut words = q.words.try_clone()?;
    push_ask_words(&mut words, q.ask, files)?;
    let mut cmd = Command::new(alloc, q.program.as_str())?;
    cmd.args(&words)?;
    cmd.envs(&q.vars)?;
    set_dir(&mut cmd, q.ask, files)?;
    Ok(cmd)
}
