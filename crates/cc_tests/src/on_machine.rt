// The check on a host over the machine. The host is made and named here alone, since its bounds take long to prove wherever it is named.
use crate::machine::check_known;
use cc_hosts::{ProcessHost, Real};
use cc_text::Mem;
use std::alloc::{AllocGlobal, Global};
use std::env::Env;
use std::io::{Eprint, Print};
use std::os::fd::AsRawFd;
use std::process::{Abort, OpenProcess, Process, Processes};
use std::random::RandomSource;
use std::rt::Files;
use std::sync::Wait;
use std::thread::Threads;
use std::{env, process};

fn path_below(alloc: Global, above: &str, name: &str, id: u32) -> Mem<String> {
    Ok(format!(in alloc; "{above}/cc_tests é {name} {id}")?)
}

// A path of a test's own, where nothing is yet.
fn own_path(rt: &(impl Env + AllocGlobal + Abort), name: &str, process: Process) -> String {
    let above = env::temp_dir(rt).expect(rt, "a folder");
    path_below(rt.alloc(), above.as_str(), name, process::id(process)).expect(rt, "memory")
}

// Has the compiler of the machine checked on a host over it, with a path of its own, where nothing is yet.
pub(crate) fn on_machine<R>(rt: R, process: Process, name: &str)
where
    R: Processes
        + Threads
        + Wait
        + Copy
        + Send
        + 'static
        + Files
        + Env
        + Print
        + Eprint
        + RandomSource
        + AllocGlobal
        + Abort,
    R::Started: Send + 'static,
    <R::Started as OpenProcess>::Stdin: Send + 'static,
    <R::Started as OpenProcess>::Stdout: Send + 'static,
    <R::Started as OpenProcess>::Stderr: AsRawFd + Send + 'static,
{
    let path = own_path(&rt, name, process);
    let mut host = ProcessHost::new(rt).expect(&rt, "a host");
    check_known(&rt, &mut host, path.as_str());
}
