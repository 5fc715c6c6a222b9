// What a build and its clone are answered of their compiler: whether it takes a flag, what it is, and the words for the linker, of which they tell once.
ghost use Rattle.std.specs.Prelude.{◌≢◌, IfOk};
ghost use Rattle.cc_host.specs.declared.question.Outcome.TheVariants.{Unanswered};

use crate::same::{check_log, same};
use crate::setup::{set_all, with_both};
use cc_build::{Build, ErrorKind};
use cc_host::{Ask, Bench, BenchHost, Host, Outcome, Status, World};
use cc_text::{Bytes, Mem, ToolFamily};
use std::alloc::{AllocGlobal, Global};
use std::process::Abort;
use std::sync::Wait;

// A command that ended well, and wrote this.
pub(crate) fn done(alloc: Global, out: &str, err: &str) -> Mem<Outcome>
    ensures { IfOk result (λ o. o ≢ Unanswered) }
{
    Ok(Outcome::Done {
        status: Status::Code(0),
        out: Bytes::of(alloc, out.as_bytes())?,
        err: Bytes::of(alloc, err.as_bytes())?,
    })
}

// What the question answers whether a flag is taken.
fn answer<W: World, H: Host<W>>(rt: &impl Wait, build: &Build<W>, host: &mut H) -> &'static str {
    match build.is_flag_supported(rt, host, "-fx") {
        Ok(true) => "yes",
        Ok(false) => "no",
        Err(error) => match error.kind() {
            ErrorKind::IOError => "not tried",
            _ => "refused",
        },
    }
}

fn clones_answer<W: World, H: Host<W>>(
    rt: &(impl Wait + Abort),
    build: &Build<W>,
    host: &mut H,
) -> &'static str {
    let clone = build.try_clone().expect(rt, "a clone");
    answer(rt, &clone, host)
}

// A build takes the flag, and so do its clones.
pub(crate) fn check_answers<W: World, H: Host<W>>(
    rt: &(impl Wait + Abort),
    build: &Build<W>,
    host: &mut H,
    clones: u32,
) {
    same(rt, answer(rt, build, host), "yes");
    for _ in 0..clones {
        same(rt, clones_answer(rt, build, host), "yes");
    }
}

const TRIED_ONCE: &str = "makes /o
draws
opens /o/0detect_compiler_family.c
asks macros
drops
asks help
makes /o
draws
opens /o/0flag_check.c
draws
opens /o/0flag_check
asks flag
drops
drops
knows macros
knows help
knows flag
knows macros
knows help
knows flag
";

fn check_tried(
    rt: &(impl Wait + AllocGlobal + Abort),
    build: &mut Build<Bench>,
    host: &mut BenchHost,
) {
    set_all(rt, build, "/o", "cc");
    check_answers(rt, build, host, 2);
    check_log(rt, host, TRIED_ONCE);
}

#[test]
fn a_flag_is_tried_once_for_a_build_and_its_clones(rt: HostRuntime) {
    with_both(&rt, |build, host| check_tried(&rt, build, host));
}

const FLAG: Ask = Ask::Flag {
    cpp: false,
    family: ToolFamily::Gnu,
};

fn answer_noisily(host: &mut BenchHost, alloc: Global) -> Mem<()> {
    host.answer(FLAG, "cc", done(alloc, "", "!")?)
}

// A compiler that warns of a flag doesn't take it. Where it is missing then, the flag isn't tried: what is known of another build's questions isn't known of
// these.
fn check_untried(
    rt: &(impl Wait + AllocGlobal + Abort),
    build: &mut Build<Bench>,
    host: &mut BenchHost,
) {
    set_all(rt, build, "/o", "cc");
    host.answer(FLAG, "cc", Outcome::Missing)
        .expect(rt, "memory");
    same(rt, answer(rt, build, host), "not tried");
    answer_noisily(host, rt.alloc()).expect(rt, "memory");
    same(rt, answer(rt, build, host), "no");
}

#[test]
fn a_noisy_compiler_takes_no_flag_and_a_missing_one_is_not_tried(rt: HostRuntime) {
    with_both(&rt, |build, host| check_untried(&rt, build, host));
}

// The compiler says of itself that it is Clang, and where it is asked so, that it takes `-?`.
fn answer_as_clang(host: &mut BenchHost, alloc: Global, compiler: &str) -> Mem<()> {
    host.answer(Ask::Preprocess, compiler, done(alloc, "\"clang\"", "")?)
}

fn answer_as_clang_cl(host: &mut BenchHost, alloc: Global) -> Mem<()> {
    answer_as_clang(host, alloc, "clang-cl")?;
    host.answer(Ask::HelpFlag, "clang-cl", done(alloc, "", "")?)
}

fn text_of(alloc: Global, family: ToolFamily, path: &str) -> Mem<String> {
    Ok(format!(in alloc; "{family:?} {path}")?)
}

// The family and the path of the compiler.
fn compiler_of(
    rt: &(impl Wait + AllocGlobal + Abort),
    build: &Build<Bench>,
    host: &mut BenchHost,
) -> String {
    let tool = build.try_get_compiler(rt, host).expect(rt, "a compiler");
    text_of(rt.alloc(), tool.family(), tool.path()).expect(rt, "memory")
}

fn check_compiler(
    rt: &(impl Wait + AllocGlobal + Abort),
    build: &Build<Bench>,
    host: &mut BenchHost,
    want: &str,
) {
    let text = compiler_of(rt, build, host);
    same(rt, text.as_str(), want);
}

// A build and its clone have this compiler.
fn check_compilers(
    rt: &(impl Wait + AllocGlobal + Abort),
    build: &Build<Bench>,
    host: &mut BenchHost,
    want: &str,
) {
    check_compiler(rt, build, host, want);
    let clone = build.try_clone().expect(rt, "a clone");
    check_compiler(rt, &clone, host, want);
}

const ASKED_ONCE: &str = "makes /o
draws
opens /o/0detect_compiler_family.c
asks macros
drops
asks help
asks version
knows macros
knows help
knows version
";

fn check_asked_once(
    rt: &(impl Wait + AllocGlobal + Abort),
    build: &mut Build<Bench>,
    host: &mut BenchHost,
) {
    set_all(rt, build, "/o", "cc");
    answer_as_clang(host, rt.alloc(), "cc").expect(rt, "memory");
    check_compilers(rt, build, host, "Clang { zig_cc: false } cc");
    check_log(rt, host, ASKED_ONCE);
}

#[test]
fn a_compiler_is_asked_once_what_it_is(rt: HostRuntime) {
    with_both(&rt, |build, host| check_asked_once(&rt, build, host));
}

const TOLD_ONCE: &str = "makes /o
draws
opens /o/0detect_compiler_family.c
asks macros
drops
asks help
prints cargo:warning=Ignoring linker flags after /link
knows macros
knows help
";

const TOLD_TWICE: &str = "makes /o
draws
opens /o/0detect_compiler_family.c
asks macros
drops
asks help
prints cargo:warning=Ignoring linker flags after /link
knows macros
knows help
prints cargo:warning=Ignoring linker flags after /link
";

// A build with a word for the linker, and its clone.
fn check_link_words(
    rt: &(impl Wait + AllocGlobal + Abort),
    build: &mut Build<Bench>,
    host: &mut BenchHost,
    want: &str,
) {
    set_all(rt, build, "/o", "clang-cl");
    build.flag("/link").expect(rt, "memory");
    answer_as_clang_cl(host, rt.alloc()).expect(rt, "memory");
    check_compilers(rt, build, host, "Msvc { clang_cl: true } clang-cl");
    check_log(rt, host, want);
}

#[test]
fn words_for_the_linker_are_told_of_once(rt: HostRuntime) {
    with_both(
        &rt,
        |build, host| check_link_words(&rt, build, host, TOLD_ONCE),
    );
}

#[test]
fn words_for_the_linker_are_told_of_at_each_call(rt: HostRuntime) {
    with_both(&rt, |build, host| {
        build.repeat_lines(true);
        check_link_words(&rt, build, host, TOLD_TWICE);
    });
}
