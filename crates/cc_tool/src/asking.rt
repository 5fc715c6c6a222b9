// Questions, behind the answers of a public call and what is kept of the world.
ghost use Rattle.std.specs.Prelude.{◌≡◌, ◌≢◌, ◌++◌, ◌∷◌, [], List, true, IfOk, OnOk, IsTrue, ◌↔◌};
ghost use Rattle.cc_host.specs.Call.{part};
ghost use Rattle.cc_host.specs.Question.{Answer, Settles, exists_question};
ghost use Rattle.cc_host.specs.Verdict.{yes_if as yes};
ghost use Rattle.cc_host.specs.declared.question.Ask.TheVariants.{Exists as AsksExists};
ghost use Rattle.cc_host.specs.declared.question.Verdict.TheVariants.{Unanswered};
ghost use Rattle.cc_tool.specs.Asks.{Asks};
ghost use Rattle.cc_tool.specs.Known.{IsHeard, asked, is_kept as keeps};
ghost use Rattle.cc_tool.specs.Own.{AnswersOnly, WhyUnanswered, OnlyForFiles, Looks, WordsUsed};
ghost use Rattle.cc_tool.specs.Probing.{Probes};
ghost use Rattle.cc_tool.specs.Heard.{heard_answer};

use crate::digest::Keyed;
use crate::probes::ask_host;
use crate::{Answers, Caches};
use cc_host::{Ask, Host, Question, Verdict, World, exists_of, into_verdict};
use cc_text::{Mem, NoMemory};
use std::alloc::Global;
use std::sync::Wait;

// What is heard of a question: its verdict, and whether the caches lack it.
#[derive(Drop)]
struct Heard {
    verdict: Verdict,
    fresh: bool,
}

// Whether the caches keep a verdict.
fn is_kept(verdict: &Verdict) -> bool
    ensures { result ≡ keeps verdict.now }
{
    match verdict {
        Verdict::Unanswered => false,
        Verdict::Missing => false,
        Verdict::No => true,
        Verdict::Yes => true,
        Verdict::Marks(_) => true,
        Verdict::Dirs(_) => true,
    }
}

fn yes_if(there: bool) -> Verdict
    ensures { result ≡ yes there }
{
    if there { Verdict::Yes } else { Verdict::No }
}

// Asks a question of the host.
fn ask_anew<W: World, H: Host<W>>(
    alloc: Global,
    host: &mut H,
    q: &Question,
    dir: &str,
) -> Mem<Heard>
    requires { q.now.ask ≢ AsksExists }
    ensures probes { Probes dir.now (H.log host.old) (H.log host.new) [] [] (heard_answer q.now result) 0 }
    ensures bare { OnlyForFiles q.now (part H.log host.old host.new) }
    ensures steady { IfOk result (λ heard. IsHeard W.steady W.answer q.now heard.verdict) }
    ensures used { OnOk result (WordsUsed (part H.log host.old host.new)) }
    ensures patient { H.patience host.new ≡ H.patience host.old }
{
    let outcome = ask_host(alloc, host, dir, q)?;
    Ok(Heard {
        verdict: into_verdict(q, outcome),
        fresh: true,
    })
}

// Takes a verdict that is kept, or asks.
#[tactic(auto, using(crate::proofs::ProbingLemmas::probes_reused))]
fn hear<W: World, H: Host<W>>(
    rt: &impl Wait,
    alloc: Global,
    host: &mut H,
    caches: &Caches<W>,
    key: &Keyed<'_>,
    dir: &str,
) -> Mem<Heard>
    requires { key.now.question.now.ask ≢ AsksExists }
    ensures probes { Probes dir.now (H.log host.old) (H.log host.new) [] []
        (heard_answer key.now.question.now result) 0 }
    ensures bare { OnlyForFiles key.now.question.now (part H.log host.old host.new) }
    ensures steady { IfOk result
        (λ heard. IsHeard W.steady W.answer key.now.question.now heard.verdict) }
    ensures used { OnOk result (WordsUsed (part H.log host.old host.new)) }
    ensures patient { H.patience host.new ≡ H.patience host.old }
{
    let q = key.question;
    if let Some(verdict) = caches.find_keyed(rt, key)? {
        host.reused(q, &verdict)?;
        return Ok(Heard {
            verdict,
            fresh: false,
        });
    }
    ask_anew(alloc, host, q, dir)
}

// Keeps what was heard.
fn keep<W: World>(rt: &impl Wait, caches: &Caches<W>, key: &Keyed<'_>, heard: &Heard) -> Mem<()>
    requires command { key.now.question.now.ask ≢ AsksExists }
    requires steady { IsHeard W.steady W.answer key.now.question.now heard.now.verdict }
{
    if heard.fresh && is_kept(&heard.verdict) {
        caches.keep_keyed(rt, key, &heard.verdict)?;
    }
    Ok(())
}

// Ends a question that was begun, with what was heard of it.
fn finish<W: World>(
    rt: &impl Wait,
    caches: &Caches<W>,
    answers: &mut Answers,
    key: &Keyed<'_>,
    heard: Heard,
) -> Mem<Verdict>
    requires command { key.now.question.now.ask ≢ AsksExists }
    requires steady { IsHeard W.steady W.answer key.now.question.now heard.verdict }
    ensures ends { (known : List Answer) (a : Answer) → answers.old ≡ known ++ a ∷ []
        → answers.new ≡ known ++ (a.0, heard.verdict) ∷ [] }
    ensures same { IfOk result (λ v. v ≡ heard.verdict) }
{
    let kept = keep(rt, caches, key, &heard);
    let verdict = heard.verdict.try_clone();
    answers.end(heard.verdict);
    kept?;
    verdict
}

// The verdict of a question that is asked by a command.
fn ask_command<W: World, H: Host<W>>(
    rt: &impl Wait,
    host: &mut H,
    caches: &Caches<W>,
    answers: &mut Answers,
    q: &Question,
    dir: &str,
) -> Mem<Verdict>
    requires { q.now.ask ≢ AsksExists }
    ensures asks { Asks W.steady W.answer dir.now (H.log host.old) (H.log host.new)
        answers.old answers.new }
    ensures settles { IfOk result (Settles answers.new (λ look. look q.now)) }
    ensures own { AnswersOnly q.now answers.old (part H.log host.old host.new) result }
    ensures bare { OnlyForFiles q.now (part H.log host.old host.new) }
    ensures used { OnOk result (WordsUsed (part H.log host.old host.new)) }
    ensures patient { H.patience host.new ≡ H.patience host.old }
{
    let key = Keyed::of(q);
    match answers.get_keyed(&key) {
        Some(verdict) => return verdict.try_clone(),
        None => {}
    }
    answers.begin(&key)?;
    match hear(rt, answers.allocator(), host, caches, &key, dir) {
        Ok(heard) => finish(rt, caches, answers, &key, heard),
        Err(NoMemory) => {
            answers.give_up();
            Err(NoMemory)
        }
    }
}

// Whether a file of this path is there.
fn ask_exists<W: World, H: Host<W>>(
    alloc: Global,
    host: &mut H,
    answers: &mut Answers,
    path: &str,
    dir: &str,
) -> Mem<Verdict>
    ensures asks { Asks W.steady W.answer dir.now (H.log host.old) (H.log host.new)
        answers.old answers.new }
    ensures settles { IfOk result (Settles answers.new (λ look. look (exists_question path.now))) }
    ensures looks { Looks path.now answers.old (part H.log host.old host.new) result }
    ensures used { OnOk result (WordsUsed (part H.log host.old host.new)) }
    ensures patient { H.patience host.new ≡ H.patience host.old }
{
    let _ = dir;
    let question = exists_of(alloc, path)?;
    let key = Keyed::of(&question);
    match answers.get_keyed(&key) {
        Some(verdict) => return verdict.try_clone(),
        None => {}
    }
    answers.begin(&key)?;
    match host.exists(path) {
        Ok(there) => {
            answers.end(yes_if(there));
            Ok(yes_if(there))
        }
        Err(NoMemory) => {
            answers.give_up();
            Err(NoMemory)
        }
    }
}

pub(crate) fn is_exists(ask: Ask) -> bool
    ensures { IsTrue result ↔ ask ≡ AsksExists }
{
    ask == Ask::Exists
}

/// The verdict of a question: that of this public call, else the one that is kept, else the host's. A question for a
/// file is one for its path alone, and the disk is looked at. Files for a question are made in `dir`, and dropped.
///
/// It answers this question and no other. The verdict is `Unanswered` where the answers of this public call had it so, where the
/// command couldn't be run for another cause than absence, and where its files couldn't be made, so that it isn't asked at all.
/// The caches keep each verdict of a command that ran. No lock is held while it runs. Refused for memory, the question has no answer,
/// or the one that came before the refusal. Unless it is refused, each word that is drawn is used: a file of its name is tried.
pub fn ask<W: World, H: Host<W>>(
    rt: &impl Wait,
    alloc: Global,
    host: &mut H,
    caches: &Caches<W>,
    answers: &mut Answers,
    q: &Question,
    dir: &str,
) -> Mem<Verdict>
    ensures asks { Asks W.steady W.answer dir.now (H.log host.old) (H.log host.new)
        answers.old answers.new }
    ensures settles { IfOk result (Settles answers.new (λ look. look (asked q.now))) }
    ensures own { AnswersOnly (asked q.now) answers.old (part H.log host.old host.new) result }
    ensures cause { IfOk result (WhyUnanswered (asked q.now) answers.old
        (part H.log host.old host.new)) }
    ensures bare { OnlyForFiles (asked q.now) (part H.log host.old host.new) }
    ensures used { OnOk result (WordsUsed (part H.log host.old host.new)) }
    ensures patient { H.patience host.new ≡ H.patience host.old }
{
    if is_exists(q.ask) {
        ask_exists(alloc, host, answers, q.program.as_str(), dir)
    } else {
        ask_command(rt, host, caches, answers, q, dir)
    }
}
