// A whole run on the host of fixed outcomes, and a question there of builds that share what they were answered, and of one that doesn't.
use crate::same::check_log;
use crate::setup::set_all;
use crate::verdicts::check_answers;
use cc_build::{Build, Error};
use cc_hosts::{Fixed, FixedHost};
use cc_jobs::OneCaller;
use std::alloc::AllocGlobal;
use std::process::Abort;
use std::sync::Wait;

fn add_sources(rt: &impl Abort, build: &mut Build<Fixed>) {
    build.archiver("ar").expect(rt, "memory");
    build.file("src/a.c").expect(rt, "memory");
    build.file("src/b.c").expect(rt, "memory");
}

fn compile(rt: &impl Wait, build: &Build<Fixed>, host: &mut FixedHost) -> Result<(), Error> {
    let (jobs, mut seat) = OneCaller::new(2);
    build.try_compile(rt, host, &jobs, &mut seat, 50, "foo")
}

const DONE: &str = "makes /o
makes /o
draws
opens /o/0detect_compiler_family.c
asks macros
drops
asks help
starts cc
starts cc
turns
ends
ends
removes nothing at /o/libfoo.a
runs ar
starts ar
turns
ends
prints cargo:rustc-link-lib=static=foo
prints cargo:rustc-link-search=native=/o
";

fn check_library(
    rt: &(impl Wait + AllocGlobal + Abort),
    build: &mut Build<Fixed>,
    host: &mut FixedHost,
) {
    set_all(rt, build, "/o", "cc");
    add_sources(rt, build);
    compile(rt, build, host).expect(rt, "a library");
    check_log(rt, host, DONE);
}

#[test]
fn two_sources_become_a_library_on_the_host_of_fixed_outcomes(rt: HostRuntime) {
    let mut build = Build::new(rt.alloc()).expect(&rt, "a build");
    let mut host = FixedHost::new(rt.alloc()).expect(&rt, "a host");
    check_library(&rt, &mut build, &mut host);
}

const TRIED_TWICE: &str = "makes /o
draws
opens /o/0detect_compiler_family.c
asks macros
drops
asks help
makes /o
draws
opens /o/0flag_check.c
draws
opens /o/0flag_check
asks flag
drops
drops
knows macros
knows help
knows flag
makes /o
draws
opens /o/0detect_compiler_family.c
asks macros
drops
asks help
makes /o
draws
opens /o/0flag_check.c
draws
opens /o/0flag_check
asks flag
drops
drops
";

// A build and its clone take the flag, and so does another build, which asks again.
fn check_caches(
    rt: &(impl Wait + AllocGlobal + Abort),
    build: &mut Build<Fixed>,
    other: &mut Build<Fixed>,
    host: &mut FixedHost,
) {
    set_all(rt, build, "/o", "cc");
    check_answers(rt, build, host, 1);
    set_all(rt, other, "/o", "cc");
    check_answers(rt, other, host, 0);
    check_log(rt, host, TRIED_TWICE);
}

#[test]
fn in_a_steady_world_new_caches_are_answered_as_old_ones(rt: HostRuntime) {
    let mut build = Build::new(rt.alloc()).expect(&rt, "a build");
    let mut other = Build::new(rt.alloc()).expect(&rt, "a build");
    let mut host = FixedHost::new(rt.alloc()).expect(&rt, "a host");
    check_caches(&rt, &mut build, &mut other, &mut host);
}
