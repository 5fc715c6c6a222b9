// What a build takes from variables, and what is left of its flags.
use crate::same::{check_log, holds, same};
use crate::settings::check_flags;
use crate::setup::{set_places, with_both, with_build};
use cc_build::{Build, Error, ErrorKind};
use cc_host::{Bench, BenchHost, HostCall};
use cc_text::Vars;
use std::alloc::AllocGlobal;
use std::process::Abort;
use std::sync::Wait;

fn set_one(rt: &(impl AllocGlobal + Abort), host: &mut BenchHost, name: &str, value: &str) {
    let mut vars = Vars::new(rt.alloc());
    vars.push(name, value).expect(rt, "memory");
    host.set_vars(vars);
}

fn capture(build: &mut Build<Bench>, host: &mut BenchHost) -> Result<(), Error> {
    build.capture(host)
}

// Has a build capture one variable, of a host of its own.
fn capture_one(rt: &(impl AllocGlobal + Abort), build: &mut Build<Bench>, name: &str, value: &str) {
    let mut host = BenchHost::new(rt.alloc()).expect(rt, "a host");
    set_one(rt, &mut host, name, value);
    capture(build, &mut host).expect(rt, "variables");
}

fn inherits(build: &Build<Bench>, value: Option<&str>) -> bool {
    build.environment().inherited().get("A") == value
}

fn overrides(build: &Build<Bench>, value: Option<&str>) -> bool {
    build.environment().overridable("A") == value
}

// A variable of its own counts before the one that was captured.
fn check_captured(rt: &impl Abort, build: &mut Build<Bench>) {
    build.env("A", "b").expect(rt, "memory");
    holds(rt, "it is captured", inherits(build, Some("é")));
    holds(rt, "its own counts", overrides(build, Some("b")));
}

// A listing that faults replaces nothing, and another replaces all.
fn check_replaced(rt: &impl Abort, build: &mut Build<Bench>, host: &mut BenchHost) {
    holds(rt, "the listing faults", capture(build, host).is_err());
    holds(rt, "it is still there", inherits(build, Some("é")));
    holds(rt, "the second lists", capture(build, host).is_ok());
    holds(rt, "it is gone", inherits(build, None));
}

fn check_captures(rt: &(impl AllocGlobal + Abort), build: &mut Build<Bench>, host: &mut BenchHost) {
    capture_one(rt, build, "A", "é");
    check_captured(rt, build);
    host.fail(HostCall::Vars, 1).expect(rt, "memory");
    check_replaced(rt, build, host);
}

#[test]
fn a_capture_replaces_the_variables(rt: HostRuntime) {
    with_both(&rt, |build, host| check_captures(&rt, build, host));
}

fn add(
    rt: &impl Wait,
    build: &mut Build<Bench>,
    host: &mut BenchHost,
    name: &str,
) -> Result<(), Error> {
    build.try_flags_from_environment(rt, host, name)
}

fn same_error(rt: &impl Abort, error: &Error, kind: ErrorKind, subject: &str) {
    assert_eq!(rt; error.kind(), kind);
    same(rt, error.subject(), subject);
}

// The flags of a variable are refused, and those that were there stay.
fn check_refused(
    rt: &(impl Wait + Abort),
    build: &mut Build<Bench>,
    host: &mut BenchHost,
    name: &str,
    subject: &str,
) {
    let error = add(rt, build, host, name).expect_err(rt, "refused");
    same_error(rt, &error, ErrorKind::EnvVarNotFound, subject);
}

// Target and host are wanted, in this order, and then the variable.
fn check_wanted(rt: &(impl Wait + Abort), build: &mut Build<Bench>, host: &mut BenchHost) {
    check_refused(rt, build, host, "XF", "TARGET");
    build.target("t-u").expect(rt, "memory");
    check_refused(rt, build, host, "XF", "HOST");
    build.host("h").expect(rt, "memory");
    add(rt, build, host, "XF").expect(rt, "flags");
    check_refused(rt, build, host, "YF", "YF");
}

const READ: &str = "prints cargo:rerun-if-env-changed=CC_SHELL_ESCAPED_FLAGS
prints cargo:rerun-if-env-changed=TARGET_XF
prints cargo:rerun-if-env-changed=XF
prints cargo:rerun-if-env-changed=XF_t-u
prints cargo:rerun-if-env-changed=XF_t_u
";

fn check_added(
    rt: &(impl Wait + AllocGlobal + Abort),
    build: &mut Build<Bench>,
    host: &mut BenchHost,
) {
    capture_one(rt, build, "XF_t_u", "-a -b");
    check_wanted(rt, build, host);
    check_flags(rt, build, "-a\n-b\n");
    check_log(rt, host, READ);
}

#[test]
fn flags_of_the_environment_want_target_host_and_variable(rt: HostRuntime) {
    with_both(&rt, |build, host| check_added(&rt, build, host));
}

// Gives a flag, gives it where it is supported, gives it once more, and removes it.
fn remove_flags(rt: &impl Abort, build: &mut Build<Bench>) {
    build.flag("-a").expect(rt, "memory");
    build.flag_if_supported("-a").expect(rt, "memory");
    build.flag("-a").expect(rt, "memory");
    build.remove_flag("-a");
}

fn count_of_files(build: &Build<Bench>) -> usize {
    build.get_files().len()
}

// A clone has the flags that are left, and none of the sources that come later.
fn check_clone(rt: &(impl AllocGlobal + Abort), build: &mut Build<Bench>) {
    let clone = build.try_clone().expect(rt, "a clone");
    build.file("a.c").expect(rt, "memory");
    holds(rt, "there is a source", count_of_files(build) == 1);
    holds(rt, "the clone has none", count_of_files(&clone) == 0);
    check_flags(rt, &clone, "-a where supported\n");
}

fn check_removed(rt: &(impl AllocGlobal + Abort), build: &mut Build<Bench>) {
    remove_flags(rt, build);
    check_flags(rt, build, "-a where supported\n");
    check_clone(rt, build);
}

#[test]
fn removed_flags_are_those_that_are_always_given(rt: HostRuntime) {
    with_build(&rt, |build| check_removed(&rt, build));
}

fn check_unset(
    rt: &(impl Wait + AllocGlobal + Abort),
    build: &mut Build<Bench>,
    host: &mut BenchHost,
) {
    remove_flags(rt, build);
    set_places(rt, build);
    check_refused(rt, build, host, "XF", "XF");
    check_flags(rt, build, "-a where supported\n");
}

#[test]
fn a_variable_that_is_set_nowhere_adds_no_flag(rt: HostRuntime) {
    with_both(&rt, |build, host| check_unset(&rt, build, host));
}

// The first line can't be printed: the flags stay as they were.
fn check_unprinted(
    rt: &(impl Wait + AllocGlobal + Abort),
    build: &mut Build<Bench>,
    host: &mut BenchHost,
) {
    set_places(rt, build);
    capture_one(rt, build, "XF", "-a");
    host.fail(HostCall::Print, 1).expect(rt, "memory");
    let error = add(rt, build, host, "XF").expect_err(rt, "refused");
    same_error(rt, &error, ErrorKind::IOError, "");
    check_flags(rt, build, "");
}

#[test]
fn flags_whose_variables_cannot_be_told_are_not_added(rt: HostRuntime) {
    with_both(&rt, |build, host| check_unprinted(&rt, build, host));
}

fn check_error(rt: &impl Abort, error: &Error) {
    same_error(rt, error, ErrorKind::Disabled, "s");
    same(rt, error.message(), "m");
}

#[test]
fn an_error_keeps_what_it_is_given(rt: HostRuntime) {
    let error = Error::of(rt.alloc(), ErrorKind::Disabled, "s", "m").expect(&rt, "an error");
    check_error(&rt, &error);
    check_error(&rt, &error.try_clone().expect(&rt, "a copy"));
}
