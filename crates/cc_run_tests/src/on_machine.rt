// Checks on a host over the machine. The host is made and named here alone, since its bounds take long to prove wherever it is named; a test says which check
// it is.
use crate::files::{
    check_copied, check_folders, check_probe_file, check_removed, check_taken_over, check_written,
};
use crate::processes::{
    check_beside, check_folder, check_late, check_lines, check_listed, check_missing,
    check_searched, check_unheard, check_unread, check_variables, check_versions,
};
use crate::turns::{check_behind, check_grown, check_stopped, check_turns};
use cc_host::Host;
use cc_hosts::{ProcessHost, Real};
use cc_text::Mem;
use std::alloc::{AllocGlobal, Global};
use std::env::Env;
use std::io::{Eprint, Print};
use std::os::fd::AsRawFd;
use std::process::{Abort, OpenProcess, Process, Processes};
use std::random::RandomSource;
use std::rt::Files;
use std::sync::Wait;
use std::thread::Threads;
use std::{env, process};

#[derive(Clone, Copy)]
pub(crate) enum Check {
    Lines,
    Late,
    Unread,
    Variables,
    Folder,
    Searched,
    Missing,
    Listed,
    Versions,
    Turns,
    Behind,
    Grown,
    Stopped,
    Unheard,
    Beside,
    Probe,
    Folders,
    Removed,
    Written,
    TakenOver,
    Copied,
}

// Makes a check, with a path where nothing is yet.
fn make(
    rt: &(impl Wait + Files + Env + AllocGlobal + Abort),
    host: &mut impl Host<Real>,
    path: &str,
    check: Check,
) {
    match check {
        Check::Lines => check_lines(rt, host),
        Check::Late => check_late(rt, host),
        Check::Unread => check_unread(rt, host, path),
        Check::Variables => check_variables(rt, host),
        Check::Folder => check_folder(rt, host),
        Check::Searched => check_searched(rt, host, path),
        Check::Missing => check_missing(rt, host),
        Check::Listed => check_listed(rt, host),
        Check::Versions => check_versions(rt, host),
        Check::Turns => check_turns(rt, host),
        Check::Behind => check_behind(rt, host),
        Check::Grown => check_grown(rt, host),
        Check::Stopped => check_stopped(rt, host, path),
        Check::Unheard => check_unheard(rt, host),
        Check::Beside => check_beside(rt, host, path),
        Check::Probe => check_probe_file(rt, host, path),
        Check::Folders => check_folders(rt, host, path),
        Check::Removed => check_removed(rt, host, path),
        Check::Written => check_written(rt, host, path),
        Check::TakenOver => check_taken_over(rt, host, path),
        Check::Copied => check_copied(rt, host, path),
    }
}

fn path_below(alloc: Global, above: &str, name: &str, id: u32) -> Mem<String> {
    Ok(format!(in alloc; "{above}/cc_run_tests é {name} {id}")?)
}

// A path of a test's own, where nothing is yet.
fn own_path(rt: &(impl Env + AllocGlobal + Abort), name: &str, process: Process) -> String {
    let above = env::temp_dir(rt).expect(rt, "a folder");
    path_below(rt.alloc(), above.as_str(), name, process::id(process)).expect(rt, "memory")
}

// Has a check made on a host over the machine, with a path of its own, where nothing is yet.
pub(crate) fn on_machine<R>(rt: R, process: Process, name: &str, check: Check)
where
    R: Processes
        + Threads
        + Wait
        + Copy
        + Send
        + 'static
        + Files
        + Env
        + Print
        + Eprint
        + RandomSource
        + AllocGlobal
        + Abort,
    R::Started: Send + 'static,
    <R::Started as OpenProcess>::Stdin: Send + 'static,
    <R::Started as OpenProcess>::Stdout: Send + 'static,
    <R::Started as OpenProcess>::Stderr: AsRawFd + Send + 'static,
{
    let path = own_path(&rt, name, process);
    let mut host = ProcessHost::new(rt).expect(&rt, "a host");
    make(&rt, &mut host, path.as_str(), check);
}
