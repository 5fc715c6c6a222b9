// Lines that a build and its clones print once.
use crate::same::{holds, same};
use crate::setup::{set_all, with_both};
use cc_build::{Build, Error};
use cc_host::{Bench, BenchHost, Event, Host, LineKind};
use cc_jobs::OneCaller;
use cc_text::{Mem, Text, Words};
use std::alloc::{AllocGlobal, Global};
use std::process::Abort;
use std::sync::Wait;

// The lines of a kind in a log.
fn lines(alloc: Global, host: &BenchHost, wanted: LineKind) -> Mem<Text> {
    let mut text = Text::new(alloc);
    for event in host.log() {
        if let Event::Printed { kind, bytes } = event {
            if *kind == wanted {
                text.push_str(str::from_utf8(bytes.as_slice()).unwrap_or("?"))?;
            }
        }
    }
    Ok(text)
}

fn compile(rt: &impl Wait, build: &Build<Bench>, host: &mut BenchHost) -> Result<(), Error> {
    let (jobs, mut seat) = OneCaller::new(2);
    build.try_compile(rt, host, &jobs, &mut seat, 50, "foo")
}

// Compiles by a build, and then by its clone.
fn compile_twice(rt: &(impl Wait + Abort), build: &Build<Bench>, host: &mut BenchHost) {
    let clone = build.try_clone().expect(rt, "memory");
    compile(rt, build, host).expect(rt, "a library");
    compile(rt, &clone, host).expect(rt, "a library");
}

fn check_links(
    rt: &(impl Wait + AllocGlobal + Abort),
    build: &mut Build<Bench>,
    host: &mut BenchHost,
    repeats: bool,
    want: &str,
) {
    set_all(rt, build, "/o", "c++");
    build.cpp(true);
    build.cpp_link_stdlib_static(true);
    build.repeat_lines(repeats);
    build.file("a.cpp").expect(rt, "memory");
    compile_twice(rt, build, host);
    let links = lines(rt.alloc(), host, LineKind::Link).expect(rt, "memory");
    same(rt, links.as_str(), want);
}

const ONCE: &str = "cargo:rustc-link-lib=static=foo
cargo:rustc-link-search=native=/o
cargo:rustc-link-lib=static:-bundle=stdc++
cargo:rustc-link-lib=static=foo
cargo:rustc-link-search=native=/o
";

#[test]
fn a_clone_leaves_out_the_line_of_the_static_cpp_library(rt: HostRuntime) {
    with_both(
        &rt,
        |build, host| check_links(&rt, build, host, false, ONCE),
    );
}

const TWICE: &str = "cargo:rustc-link-lib=static=foo
cargo:rustc-link-search=native=/o
cargo:rustc-link-lib=static:-bundle=stdc++
cargo:rustc-link-lib=static=foo
cargo:rustc-link-search=native=/o
cargo:rustc-link-lib=static:-bundle=stdc++
";

#[test]
fn a_clone_that_repeats_lines_has_the_line_of_the_static_cpp_library_too(rt: HostRuntime) {
    with_both(
        &rt,
        |build, host| check_links(&rt, build, host, true, TWICE),
    );
}

const VARIABLES: &str = "cargo:rerun-if-env-changed=AR
cargo:rerun-if-env-changed=ARFLAGS
cargo:rerun-if-env-changed=ARFLAGS_x86_64-unknown-linux-gnu
cargo:rerun-if-env-changed=ARFLAGS_x86_64_unknown_linux_gnu
cargo:rerun-if-env-changed=AR_x86_64-unknown-linux-gnu
cargo:rerun-if-env-changed=AR_x86_64_unknown_linux_gnu
cargo:rerun-if-env-changed=CC_ENABLE_DEBUG_OUTPUT
cargo:rerun-if-env-changed=CC_FORCE_DISABLE
cargo:rerun-if-env-changed=CFLAGS
cargo:rerun-if-env-changed=CFLAGS_x86_64-unknown-linux-gnu
cargo:rerun-if-env-changed=CFLAGS_x86_64_unknown_linux_gnu
cargo:rerun-if-env-changed=COMPILER_PATH
cargo:rerun-if-env-changed=CPATH
cargo:rerun-if-env-changed=CPLUS_INCLUDE_PATH
cargo:rerun-if-env-changed=CRATE_CC_NO_DEFAULTS
cargo:rerun-if-env-changed=C_INCLUDE_PATH
cargo:rerun-if-env-changed=GCC_EXEC_PREFIX
cargo:rerun-if-env-changed=HOST_AR
cargo:rerun-if-env-changed=HOST_ARFLAGS
cargo:rerun-if-env-changed=HOST_CFLAGS
cargo:rerun-if-env-changed=OBJCPLUS_INCLUDE_PATH
cargo:rerun-if-env-changed=OBJC_INCLUDE_PATH
cargo:rerun-if-env-changed=SOURCE_DATE_EPOCH
";

fn check_variables(
    rt: &(impl Wait + AllocGlobal + Abort),
    build: &mut Build<Bench>,
    host: &mut BenchHost,
) {
    set_all(rt, build, "/o", "cc");
    build.emit_rerun_if_env_changed(true);
    build.file("a.c").expect(rt, "memory");
    compile_twice(rt, build, host);
    let variables = lines(rt.alloc(), host, LineKind::Rerun).expect(rt, "memory");
    same(rt, variables.as_str(), VARIABLES);
}

#[test]
fn a_clone_tells_cargo_of_no_variable_twice(rt: HostRuntime) {
    with_both(&rt, |build, host| check_variables(&rt, build, host));
}

// Compiles the sources, and archives what was added, by calls of their own.
fn run_parts(
    rt: &impl Wait,
    alloc: Global,
    build: &Build<Bench>,
    host: &mut BenchHost,
) -> Result<Text, Error> {
    let (jobs, mut seat) = OneCaller::new(2);
    build.try_compile_intermediates(rt, host, &jobs, &mut seat, 50)?;
    build.try_create_archive(rt, host, 50, "foo", &Words::new(alloc))
}

const PARTS: &str = "cargo:rerun-if-env-changed=CC_ENABLE_DEBUG_OUTPUT
cargo:rerun-if-env-changed=CC_FORCE_DISABLE
cargo:rerun-if-env-changed=CFLAGS
cargo:rerun-if-env-changed=CFLAGS_x86_64-unknown-linux-gnu
cargo:rerun-if-env-changed=CFLAGS_x86_64_unknown_linux_gnu
cargo:rerun-if-env-changed=COMPILER_PATH
cargo:rerun-if-env-changed=CPATH
cargo:rerun-if-env-changed=CPLUS_INCLUDE_PATH
cargo:rerun-if-env-changed=CRATE_CC_NO_DEFAULTS
cargo:rerun-if-env-changed=C_INCLUDE_PATH
cargo:rerun-if-env-changed=GCC_EXEC_PREFIX
cargo:rerun-if-env-changed=HOST_CFLAGS
cargo:rerun-if-env-changed=OBJCPLUS_INCLUDE_PATH
cargo:rerun-if-env-changed=OBJC_INCLUDE_PATH
cargo:rerun-if-env-changed=SOURCE_DATE_EPOCH
cargo:rerun-if-env-changed=AR
cargo:rerun-if-env-changed=ARFLAGS
cargo:rerun-if-env-changed=ARFLAGS_x86_64-unknown-linux-gnu
cargo:rerun-if-env-changed=ARFLAGS_x86_64_unknown_linux_gnu
cargo:rerun-if-env-changed=AR_x86_64-unknown-linux-gnu
cargo:rerun-if-env-changed=AR_x86_64_unknown_linux_gnu
cargo:rerun-if-env-changed=HOST_AR
cargo:rerun-if-env-changed=HOST_ARFLAGS
";

fn check_parts(
    rt: &(impl Wait + AllocGlobal + Abort),
    build: &mut Build<Bench>,
    host: &mut BenchHost,
) {
    set_all(rt, build, "/o", "cc");
    build.emit_rerun_if_env_changed(true);
    build.file("a.c").expect(rt, "memory");
    run_parts(rt, rt.alloc(), build, host).expect(rt, "a library");
    run_parts(rt, rt.alloc(), build, host).expect(rt, "a library");
    let variables = lines(rt.alloc(), host, LineKind::Rerun).expect(rt, "memory");
    same(rt, variables.as_str(), PARTS);
}

#[test]
fn each_part_of_a_run_tells_cargo_of_what_it_reads_and_of_nothing_twice(rt: HostRuntime) {
    with_both(&rt, |build, host| check_parts(&rt, build, host));
}

const TRIAL: &str = "cargo:rerun-if-env-changed=CFLAGS
cargo:rerun-if-env-changed=CFLAGS_x86_64-unknown-linux-gnu
cargo:rerun-if-env-changed=CFLAGS_x86_64_unknown_linux_gnu
cargo:rerun-if-env-changed=COMPILER_PATH
cargo:rerun-if-env-changed=CPATH
cargo:rerun-if-env-changed=CPLUS_INCLUDE_PATH
cargo:rerun-if-env-changed=CRATE_CC_NO_DEFAULTS
cargo:rerun-if-env-changed=C_INCLUDE_PATH
cargo:rerun-if-env-changed=GCC_EXEC_PREFIX
cargo:rerun-if-env-changed=HOST_CFLAGS
cargo:rerun-if-env-changed=OBJCPLUS_INCLUDE_PATH
cargo:rerun-if-env-changed=OBJC_INCLUDE_PATH
cargo:rerun-if-env-changed=SOURCE_DATE_EPOCH
";

// The defaults that the build is to leave out are among the words of the question all the same, so that their variable is read.
fn check_trial(
    rt: &(impl Wait + AllocGlobal + Abort),
    build: &mut Build<Bench>,
    host: &mut BenchHost,
) {
    set_all(rt, build, "/o", "cc");
    build.emit_rerun_if_env_changed(true);
    build.no_default_flags(true);
    let first = build
        .is_flag_supported(rt, host, "-fx")
        .expect(rt, "an answer");
    let second = build
        .is_flag_supported(rt, host, "-fx")
        .expect(rt, "an answer");
    holds(rt, "both answers are alike", first == second);
    let variables = lines(rt.alloc(), host, LineKind::Rerun).expect(rt, "memory");
    same(rt, variables.as_str(), TRIAL);
}

#[test]
fn a_question_on_a_flag_tells_cargo_of_what_it_reads_and_of_nothing_twice(rt: HostRuntime) {
    with_both(&rt, |build, host| check_trial(&rt, build, host));
}
