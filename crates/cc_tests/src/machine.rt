// A compiler of the machine, asked what it is.
use crate::on_machine::on_machine;
use crate::same::holds;
use crate::setup::set_all;
use cc_build::Build;
use cc_host::Host;
use cc_hosts::Real;
use cc_run_tests::log_text;
use std::alloc::AllocGlobal;
use std::fs;
use std::process::Abort;
use std::rt::Files;
use std::sync::Wait;

// Sets a compiler whose commands are sought in the folders of the system.
fn set_gcc(rt: &impl Abort, build: &mut Build<Real>, dir: &str) {
    set_all(rt, build, dir, "gcc");
    build.env("PATH", "/usr/bin:/bin").expect(rt, "memory");
}

// Whether the compiler is known for GCC or the like, and not for Clang.
fn is_gnu(rt: &(impl Wait + Abort), build: &Build<Real>, host: &mut impl Host<Real>) -> bool {
    let tool = build.try_get_compiler(rt, host).expect(rt, "a compiler");
    tool.is_like_gnu()
}

// The compiler is asked, and no warning says that its name alone tells what it is.
fn check_asked(rt: &(impl AllocGlobal + Abort), host: &mut impl Host<Real>) {
    let text = log_text(rt.alloc(), host).expect(rt, "memory");
    let asked = text.as_str().ends_with("asks macros\ndrops\nasks help\n");
    holds(rt, "it is asked", asked);
}

fn check_build(
    rt: &(impl Wait + Files + AllocGlobal + Abort),
    build: &mut Build<Real>,
    host: &mut impl Host<Real>,
    dir: &str,
) {
    set_gcc(rt, build, dir);
    holds(rt, "it is like GCC", is_gnu(rt, build, host));
    check_asked(rt, host);
    fs::remove_dir(rt, dir).expect(rt, "the folder is empty");
}

pub(crate) fn check_known(
    rt: &(impl Wait + Files + AllocGlobal + Abort),
    host: &mut impl Host<Real>,
    dir: &str,
) {
    let mut build = Build::new(rt.alloc()).expect(rt, "a build");
    check_build(rt, &mut build, host, dir);
}

#[test]
fn the_machines_gcc_is_known_and_no_file_is_left(rt: HostRuntime) {
    on_machine(rt, rt.process(), "folder");
}
