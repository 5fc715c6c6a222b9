// Setters that no word of the command calls, read back.
use crate::same::{holds, same};
use crate::setup::with_build;
use cc_build::Build;
use cc_host::Bench;
use cc_plan::{BuildFlag, Flags};
use cc_text::{Mem, Text, Words, join_texts};
use std::alloc::{AllocGlobal, Global};
use std::process::Abort;

fn push_flag(text: &mut Text, flag: &BuildFlag) -> Mem<()> {
    match flag {
        BuildFlag::Always(word) => text.push_str(word.as_str())?,
        BuildFlag::IfSupported(word) => {
            text.push_str(word.as_str())?;
            text.push_str(" where supported")?;
        }
    }
    text.push('\n')
}

// The flags, a line each.
fn flags_text(alloc: Global, flags: &Flags) -> Mem<Text> {
    let mut text = Text::new(alloc);
    for flag in flags.as_slice() {
        push_flag(&mut text, flag)?;
    }
    Ok(text)
}

fn two_words(alloc: Global, first: &str, second: &str) -> Mem<Words> {
    let mut words = Words::new(alloc);
    words.push(first)?;
    words.push(second)?;
    Ok(words)
}

fn add_files(rt: &(impl AllocGlobal + Abort), build: &mut Build<Bench>) {
    let words = two_words(rt.alloc(), "b.c", "a.c").expect(rt, "memory");
    build.files(&words).expect(rt, "memory");
}

fn add_objects(rt: &(impl AllocGlobal + Abort), build: &mut Build<Bench>) {
    let words = two_words(rt.alloc(), "b.o", "a.o").expect(rt, "memory");
    build.objects(&words).expect(rt, "memory");
}

fn add_includes(rt: &(impl AllocGlobal + Abort), build: &mut Build<Bench>) {
    let words = two_words(rt.alloc(), "/h", "/g").expect(rt, "memory");
    build.includes(&words).expect(rt, "memory");
}

fn add_flags(rt: &(impl AllocGlobal + Abort), build: &mut Build<Bench>) {
    let words = two_words(rt.alloc(), "-b", "-a").expect(rt, "memory");
    build.flags(&words).expect(rt, "memory");
}

fn add_one_each(rt: &impl Abort, build: &mut Build<Bench>) {
    build.file("c.c").expect(rt, "memory");
    build.object("c.o").expect(rt, "memory");
    build.include("/i").expect(rt, "memory");
    build.flag_if_supported("-c").expect(rt, "memory");
}

// Adds one item by itself, and then two at once.
fn add_all(rt: &(impl AllocGlobal + Abort), build: &mut Build<Bench>) {
    add_one_each(rt, build);
    add_files(rt, build);
    add_objects(rt, build);
    add_includes(rt, build);
    add_flags(rt, build);
}

// The words, with a blank between.
pub(crate) fn check_words(rt: &(impl AllocGlobal + Abort), words: &Words, want: &str) {
    let text = join_texts(rt.alloc(), words, ' ').expect(rt, "memory");
    same(rt, text.as_str(), want);
}

// The flags, a line each, are these.
pub(crate) fn check_flags(rt: &(impl AllocGlobal + Abort), build: &Build<Bench>, want: &str) {
    let text = flags_text(rt.alloc(), &build.settings().flags).expect(rt, "memory");
    same(rt, text.as_str(), want);
}

fn check_added(rt: &(impl AllocGlobal + Abort), build: &mut Build<Bench>) {
    add_all(rt, build);
    check_words(rt, build.get_files(), "c.c b.c a.c");
    check_words(rt, &build.settings().objects, "c.o b.o a.o");
    check_words(rt, &build.settings().includes, "/i /h /g");
    check_flags(rt, build, "-c where supported\n-b\n-a\n");
}

#[test]
fn several_items_are_added_in_order_behind_those_that_are_there(rt: HostRuntime) {
    with_build(&rt, |build| check_added(&rt, build));
}

fn set_words(rt: &impl Abort, build: &mut Build<Bench>) {
    build.source_root("/q").expect(rt, "memory");
    build.source_root("/r").expect(rt, "memory");
    build.asm_flag("-x").expect(rt, "memory");
    build.asm_flag("-w").expect(rt, "memory");
}

fn set_variable(rt: &impl Abort, build: &mut Build<Bench>) {
    build.env("K", "a").expect(rt, "memory");
    build.set_env("K", "é").expect(rt, "memory");
}

fn root_of(build: &Build<Bench>) -> &str {
    match &build.settings().source_root {
        Some(root) => root.as_str(),
        None => "none",
    }
}

fn check_variable(rt: &impl Abort, build: &Build<Bench>) {
    let (value, count) = (
        build.environment().overridable("K"),
        build.environment().explicit().len(),
    );
    holds(rt, "the last value counts", value == Some("é"));
    holds(rt, "both are kept", count == 2);
}

fn check_texts(rt: &(impl AllocGlobal + Abort), build: &mut Build<Bench>) {
    set_words(rt, build);
    set_variable(rt, build);
    same(rt, root_of(build), "/r");
    check_variable(rt, build);
    check_words(rt, &build.settings().asm_flags, "-x -w");
}

#[test]
fn a_setter_of_one_text_replaces_it_or_adds_it_last(rt: HostRuntime) {
    with_build(&rt, |build| check_texts(&rt, build));
}
