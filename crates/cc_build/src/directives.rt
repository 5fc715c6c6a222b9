// What is printed for Cargo at the end of a call: how the library is linked, and by which variables the build script is
// to run again. Right before it a host that listens is told of the compiler that decides on the C++ library.
ghost use Rattle.std.specs.Prelude.{◌≡◌, ◌++◌, [], ◌∷◌, true, IfOk, OnOk};
ghost use Rattle.cc_text.specs.Words.{when};
ghost use Rattle.cc_host.specs.declared.event.LineKind.TheVariants.{Link, Rerun};
ghost use Rattle.cc_plan.specs.Link.{printed_links};
ghost use Rattle.cc_plan.specs.Plan.{prints};
ghost use Rattle.cc_plan.specs.Reruns.{rerun_line as line_of};
ghost use Rattle.cc_build.specs.Questions.{AreFirst};
ghost use Rattle.cc_build.specs.Seen.{stages_seen};
ghost use Rattle.cc_build.specs.Stage.{calls, said_steps, rerun_lines as lines_of};
ghost use Rattle.cc_build.specs.Way.{AreChosen, AreFirsts};

use crate::compiles::warnings_of;
use crate::stage::{Stage, push_lines};
use cc_host::{LineKind, World};
use cc_plan::{BuildConfig, LinkLine, LinkPlan};
use cc_text::{Mem, Text, Words, after_prefix};
use cc_tool::Caches;
use std::alloc::Global;
use std::sync::Wait;

/// What is planned for Cargo: link lines, with warnings that are said, and names of variables.
#[derive(Drop)]
pub(crate) struct Lines {
    pub links: LinkPlan,
    pub names: Words,
}

/// Names of variables alone.
pub(crate) fn names_alone(alloc: Global, names: Words) -> Lines
    ensures links { result.links.lines.items ≡ [] }
    ensures warnings { result.links.warnings ≡ [] }
    ensures names { result.names ≡ names }
{
    let links = LinkPlan {
        lines: Vec::new(alloc),
        warnings: Words::new(alloc),
    };
    Lines { links, names }
}

// The value of a library, behind the key of its line.
fn value_of(line: &str) -> &str {
    match after_prefix(line, "cargo:rustc-link-lib=") {
        Some(value) => value,
        None => line,
    }
}

// Whether the line that is printed once, if there is one, is new to the caches.
fn is_new<W: World>(rt: &impl Wait, caches: &Caches<W>, lines: &[LinkLine]) -> Mem<bool> {
    for line in lines {
        if line.once {
            return caches.new_library(rt, value_of(line.text.as_str()));
        }
    }
    Ok(true)
}

// Whether this run, of those that share its caches, is the one that prints the line that is printed once. No clause
// says which run it is, since the mark stands behind a lock.
fn is_first_link<W: World>(
    rt: &impl Wait,
    caches: &Caches<W>,
    set: &BuildConfig,
    lines: &[LinkLine],
) -> Mem<bool>
    ensures { IfOk result (λ is_first. set.now.repeat_lines ≡ true → is_first ≡ true) }
{
    Ok(set.repeat_lines || is_new(rt, caches, lines)?)
}

// The texts of the lines that are printed.
fn printed_texts(alloc: Global, lines: &[LinkLine], is_first: bool) -> Mem<Words>
    ensures { IfOk result (λ texts. texts ≡ printed_links is_first lines.now) }
{
    let mut texts = Words::new(alloc);
    for line in lines {
        if !line.once || is_first {
            texts.push(line.text.as_str())?;
        }
    }
    Ok(texts)
}

// Adds a name, where it is new.
fn push_if(names: &mut Words, is_new: bool, name: &str) -> Mem<()>
    ensures { OnOk result (names.new ≡ names.old ++ when is_new (name.now ∷ [])) }
{
    if is_new {
        names.push(name)?;
    }
    Ok(())
}

// The names that no other run printed, of those that share its caches.
fn new_names<W: World>(
    rt: &impl Wait,
    alloc: Global,
    caches: &Caches<W>,
    names: &[Text],
) -> Mem<Words>
    ensures { IfOk result (λ printed. AreChosen names.now printed) }
{
    let mut printed = Words::new(alloc);
    for name in names {
        let name = name.as_str();
        let is_new = caches.new_rerun(rt, name)?;
        push_if(&mut printed, is_new, name)?;
    }
    Ok(printed)
}

// The names of variables that this run tells Cargo of: all of them where lines are repeated, else those that no other
// run told of those that share its caches. No clause says which run tells of which, since what was told stands behind a
// lock.
fn first_names<W: World>(
    rt: &impl Wait,
    alloc: Global,
    caches: &Caches<W>,
    set: &BuildConfig,
    names: &Words,
) -> Mem<Words>
    ensures { IfOk result (λ printed. AreFirsts set.now names.now printed) }
{
    if set.repeat_lines {
        return names.try_clone();
    }
    new_names(rt, alloc, caches, names.as_slice())
}

fn rerun_line(alloc: Global, name: &str) -> Mem<Text>
    ensures { IfOk result (λ line. line ≡ line_of name.now) }
{
    let mut line = Text::of(alloc, "cargo:rerun-if-env-changed=")?;
    line.push_str(name)?;
    Ok(line)
}

fn rerun_lines(alloc: Global, names: &[Text]) -> Mem<Words>
    ensures { IfOk result (λ lines. lines ≡ lines_of names.now) }
{
    let mut lines = Words::new(alloc);
    for name in names {
        lines.push_text(rerun_line(alloc, name.as_str())?)?;
    }
    Ok(lines)
}

// What is done with them as stages: the warnings are said where the host listens, and the link lines that this run
// prints are printed, and then those of the names.
fn cargo_stages(
    alloc: Global,
    listens: bool,
    warnings: &Words,
    links: &[LinkLine],
    is_first: bool,
    names: &Words,
) -> Mem<Vec<Stage>>
    ensures { IfOk result (λ stages. stages_seen stages.items
        ≡ (calls (said_steps listens warnings.now)
        ++ calls (prints Link (printed_links is_first links.now)))
        ++ calls (prints Rerun (lines_of names.now))) }
{
    let links = printed_texts(alloc, links, is_first)?;
    let names = rerun_lines(alloc, names.as_slice())?;
    let mut stages = warnings_of(alloc, false, listens, warnings)?;
    push_lines(&mut stages, LineKind::Link, &links)?;
    push_lines(&mut stages, LineKind::Rerun, &names)?;
    Ok(stages)
}

/// Those of the lines that this run prints, as stages, and before them what a host that listens is told.
pub(crate) fn first_stages<W: World>(
    rt: &impl Wait,
    alloc: Global,
    caches: &Caches<W>,
    set: &BuildConfig,
    listens: bool,
    lines: &Lines,
) -> Mem<Vec<Stage>>
    ensures { IfOk result (λ stages.
        AreFirst set.now listens lines.now (stages_seen stages.items)) }
{
    let links = &lines.links;
    let is_first = is_first_link(rt, caches, set, &links.lines)?;
    let names = first_names(rt, alloc, caches, set, &lines.names)?;
    let stages = cargo_stages(
        alloc,
        listens,
        &links.warnings,
        &links.lines,
        is_first,
        &names,
    )?;
    Ok(stages)
}
