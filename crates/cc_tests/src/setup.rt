// Builds, hosts and settings that the tests share. A host and a build are made and dropped here alone, and the checks borrow them, since a value of many parts
// takes long to prove wherever it is dropped.
use cc_build::Build;
use cc_host::{Bench, BenchHost, World};
use std::alloc::AllocGlobal;
use std::process::Abort;

// Has a check made on a build.
pub(crate) fn with_build<F: FnOnce(&mut Build<Bench>)>(rt: &(impl AllocGlobal + Abort), check: F)
    requires { F.IsAlwaysCallable check }
{
    let mut build = Build::new(rt.alloc()).expect(rt, "a build");
    check(&mut build);
}

// Has a check made on a build and a host in memory.
pub(crate) fn with_both<F: FnOnce(&mut Build<Bench>, &mut BenchHost)>(
    rt: &(impl AllocGlobal + Abort),
    check: F,
)
    requires { F.IsAlwaysCallable check }
{
    let mut build = Build::new(rt.alloc()).expect(rt, "a build");
    let mut host = BenchHost::new(rt.alloc()).expect(rt, "a host");
    check(&mut build, &mut host);
}

pub(crate) fn set_places<W: World>(rt: &impl Abort, build: &mut Build<W>) {
    build
        .target("x86_64-unknown-linux-gnu")
        .expect(rt, "memory");
    build.host("x86_64-unknown-linux-gnu").expect(rt, "memory");
}

// A target, a host, a level, a folder and a compiler.
pub(crate) fn set_all<W: World>(rt: &impl Abort, build: &mut Build<W>, dir: &str, compiler: &str) {
    set_places(rt, build);
    build.emit_rerun_if_env_changed(false);
    build.opt_level(0).expect(rt, "memory");
    build.compiler(compiler).expect(rt, "memory");
    build.out_dir(dir).expect(rt, "memory");
}
