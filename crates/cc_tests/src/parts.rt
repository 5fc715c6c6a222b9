// The parts of a library's build, each by a call of its own.
use crate::same::{check_log, same};
use crate::settings::check_words;
use crate::setup::{set_all, with_both};
use cc_build::{Build, Error, ErrorKind, try_emit_link_directives};
use cc_host::{Bench, BenchHost, command_line};
use cc_jobs::OneCaller;
use cc_text::{Text, Vars, Words};
use std::alloc::{AllocGlobal, Global};
use std::process::Abort;
use std::sync::Wait;

fn set_ranlib(rt: &(impl AllocGlobal + Abort), build: &mut Build<Bench>) {
    let mut vars = Vars::new(rt.alloc());
    vars.push("RANLIB", "rl -x").expect(rt, "memory");
    build.set_envs_snapshot(&vars).expect(rt, "memory");
}

fn set_build(rt: &(impl AllocGlobal + Abort), build: &mut Build<Bench>) {
    set_all(rt, build, "/o", "cc");
    build.archiver("ar").expect(rt, "memory");
    build.file("src/a.c").expect(rt, "memory");
    build.file("src/b.c").expect(rt, "memory");
    set_ranlib(rt, build);
}

fn compile(rt: &impl Wait, build: &Build<Bench>, host: &mut BenchHost) -> Result<Words, Error> {
    let (jobs, mut seat) = OneCaller::new(2);
    build.try_compile_intermediates(rt, host, &jobs, &mut seat, 50)
}

fn archive(
    rt: &impl Wait,
    alloc: Global,
    build: &Build<Bench>,
    host: &mut BenchHost,
) -> Result<Text, Error> {
    let mut objects = Words::new(alloc);
    objects.push("/x/p.o")?;
    build.try_create_archive(rt, host, 50, "foo", &objects)
}

// The quoted commands of the archiver and of the tool that writes an index.
fn tools(
    rt: &impl Wait,
    alloc: Global,
    build: &Build<Bench>,
    host: &mut BenchHost,
) -> Result<Text, Error> {
    let archiver = build.try_get_archiver(rt, host)?;
    let ranlib = build.try_get_ranlib(rt, host)?;
    let mut text = command_line(alloc, &archiver)?;
    text.push_str(", ")?;
    text.push_str(command_line(alloc, &ranlib)?.as_str())?;
    Ok(text)
}

const DONE: &str = "makes /o
makes /o
draws
opens /o/0detect_compiler_family.c
asks macros
drops
asks help
starts cc
starts cc
turns
ends
ends
removes nothing at /o/libfoo.a
runs ar
starts ar
turns
ends
doesn't see rl -x
";

const OBJECTS: &str = "/o/f268e9834a4b7b98-a.o /o/f268e9834a4b7b98-b.o";

fn check_objects(
    rt: &(impl Wait + AllocGlobal + Abort),
    build: &Build<Bench>,
    host: &mut BenchHost,
) {
    let objects = compile(rt, build, host).expect(rt, "objects");
    check_words(rt, &objects, OBJECTS);
}

fn check_library(
    rt: &(impl Wait + AllocGlobal + Abort),
    build: &Build<Bench>,
    host: &mut BenchHost,
) {
    let library = archive(rt, rt.alloc(), build, host).expect(rt, "a library");
    same(rt, library.as_str(), "/o/libfoo.a");
}

fn check_tools(rt: &(impl Wait + AllocGlobal + Abort), build: &Build<Bench>, host: &mut BenchHost) {
    let tools = tools(rt, rt.alloc(), build, host).expect(rt, "the tools");
    same(rt, tools.as_str(), "\"ar\", \"rl\" \"-x\"");
}

fn check_parts(
    rt: &(impl Wait + AllocGlobal + Abort),
    build: &mut Build<Bench>,
    host: &mut BenchHost,
) {
    set_build(rt, build);
    check_objects(rt, build, host);
    check_library(rt, build, host);
    check_tools(rt, build, host);
    check_log(rt, host, DONE);
}

#[test]
fn objects_library_and_tools_come_by_calls_of_their_own(rt: HostRuntime) {
    with_both(&rt, |build, host| check_parts(&rt, build, host));
}

// Whether link lines were printed for the library of this path, or why not.
fn is_linked(
    rt: &impl Wait,
    build: &Build<Bench>,
    host: &mut BenchHost,
    library: &str,
) -> &'static str {
    match try_emit_link_directives(rt, build, host, library) {
        Ok(()) => "linked",
        Err(error) => match error.kind() {
            ErrorKind::InvalidArgument => "invalid argument",
            _ => "refused",
        },
    }
}

fn check_unlinked(
    rt: &(impl Wait + Abort),
    build: &Build<Bench>,
    host: &mut BenchHost,
    library: &str,
) {
    same(rt, is_linked(rt, build, host, library), "invalid argument");
}

const LINKED: &str = "prints cargo:rustc-link-lib=static=foo
prints cargo:rustc-link-search=native=/x
";

fn check_linked(
    rt: &(impl Wait + AllocGlobal + Abort),
    build: &Build<Bench>,
    host: &mut BenchHost,
) {
    same(rt, is_linked(rt, build, host, "/x/libfoo.a"), "linked");
    check_unlinked(rt, build, host, "libfoo.a");
    check_unlinked(rt, build, host, "/x/lib.a");
    check_log(rt, host, LINKED);
}

#[test]
fn a_library_is_linked_by_its_path(rt: HostRuntime) {
    with_both(&rt, |build, host| check_linked(&rt, build, host));
}
