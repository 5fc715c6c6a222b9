// The errors of builds, their copies, and those that are made of the same three parts.
ghost use Rattle.std.specs.Prelude.{◌≡◌};
ghost use Rattle.cc_build.specs.declared.error.ErrorKind.TheVariants.{NoMemory as OutOfMemory};

use crate::same::{holds, same};
use crate::setup::{set_all, with_both};
use cc_build::{Build, Error, ErrorKind};
use cc_host::{Bench, BenchHost, HostCall, HostError, Why};
use cc_jobs::OneCaller;
use cc_text::Vars;
use std::alloc::AllocGlobal;
use std::process::Abort;
use std::sync::Wait;

fn compile(rt: &impl Wait, build: &Build<Bench>, host: &mut BenchHost) -> Result<(), Error> {
    let (jobs, mut seat) = OneCaller::new(2);
    build.try_compile(rt, host, &jobs, &mut seat, 50, "foo")
}

fn check_same(rt: &impl Abort, error: &Error, other: &Error) {
    holds(rt, "the kinds are alike", error.kind() == other.kind());
    same(rt, error.subject(), other.subject());
    same(rt, error.message(), other.message());
}

fn check_copies(rt: &(impl AllocGlobal + Abort), error: &Error, kind: ErrorKind)
    requires { kind ≡ OutOfMemory → ⊥ }
{
    let clone = error.try_clone().expect(rt, "a copy");
    check_same(rt, error, &clone);
    let made = Error::of(rt.alloc(), kind, error.subject(), error.message()).expect(rt, "an error");
    check_same(rt, error, &made);
}

// The build is refused with this kind and subject, and so is its clone.
fn check_refused(
    rt: &(impl Wait + AllocGlobal + Abort),
    build: &Build<Bench>,
    host: &mut BenchHost,
    kind: ErrorKind,
    subject: &str,
)
    requires { kind ≡ OutOfMemory → ⊥ }
{
    let error = compile(rt, build, host).expect_err(rt, "refused");
    holds(rt, "it is of the kind", error.kind() == kind);
    same(rt, error.subject(), subject);
    check_copies(rt, &error, kind);
}

fn set_source(rt: &impl Abort, build: &mut Build<Bench>) {
    set_all(rt, build, "/o", "cc");
    build.file("src/a.c").expect(rt, "memory");
}

fn disable(rt: &(impl AllocGlobal + Abort), build: &mut Build<Bench>) {
    let mut vars = Vars::new(rt.alloc());
    vars.push("CC_FORCE_DISABLE", "1").expect(rt, "memory");
    build.set_envs_snapshot(&vars).expect(rt, "memory");
}

fn check_disabled(
    rt: &(impl Wait + AllocGlobal + Abort),
    build: &mut Build<Bench>,
    host: &mut BenchHost,
) {
    set_source(rt, build);
    disable(rt, build);
    check_refused(rt, build, host, ErrorKind::Disabled, "CC_FORCE_DISABLE");
}

#[test]
fn the_error_of_a_disabled_build_is_copied(rt: HostRuntime) {
    with_both(&rt, |build, host| check_disabled(&rt, build, host));
}

fn check_unknown(
    rt: &(impl Wait + AllocGlobal + Abort),
    build: &mut Build<Bench>,
    host: &mut BenchHost,
) {
    set_source(rt, build);
    build.target("x").expect(rt, "memory");
    check_refused(rt, build, host, ErrorKind::UnknownTarget, "x");
}

#[test]
fn the_error_of_an_unknown_target_is_copied(rt: HostRuntime) {
    with_both(&rt, |build, host| check_unknown(&rt, build, host));
}

fn check_unset(
    rt: &(impl Wait + AllocGlobal + Abort),
    build: &mut Build<Bench>,
    host: &mut BenchHost,
) {
    build.file("src/a.c").expect(rt, "memory");
    check_refused(rt, build, host, ErrorKind::EnvVarNotFound, "OUT_DIR");
}

#[test]
fn the_error_of_an_unset_folder_is_copied(rt: HostRuntime) {
    with_both(&rt, |build, host| check_unset(&rt, build, host));
}

fn check_empty(
    rt: &(impl Wait + AllocGlobal + Abort),
    build: &mut Build<Bench>,
    host: &mut BenchHost,
) {
    set_source(rt, build);
    build.out_dir("").expect(rt, "memory");
    check_refused(rt, build, host, ErrorKind::InvalidArgument, "");
}

#[test]
fn the_error_of_an_empty_folder_is_copied(rt: HostRuntime) {
    with_both(&rt, |build, host| check_empty(&rt, build, host));
}

fn check_parts(rt: &impl Abort, error: &Error, kind: ErrorKind, subject: &str, message: &str) {
    holds(rt, "it is of the kind", error.kind() == kind);
    same(rt, error.subject(), subject);
    same(rt, error.message(), message);
}

#[test]
fn the_error_of_a_refused_call_has_its_name_and_cause(rt: HostRuntime) {
    let fault = HostError::Fault(HostCall::Copy, Why::Denied);
    let error = Error::of_host(rt.alloc(), fault, "/s");
    check_parts(&rt, &error, ErrorKind::IOError, "/s", "copy failed: denied");
}

#[test]
fn the_error_of_a_call_that_wants_memory_tells_nothing(rt: HostRuntime) {
    let error = Error::of_host(rt.alloc(), HostError::NoMemory, "/s");
    check_parts(&rt, &error, ErrorKind::NoMemory, "", "");
}
