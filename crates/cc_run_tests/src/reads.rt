// Files that are read, in memory and on the machine.
use crate::same::same;
use cc_host::{FileError, Files, Held, MemoryFiles};
use cc_hosts::RealFiles;
use cc_text::Mem;
use std::alloc::{AllocGlobal, Global};
use std::env::Env;
use std::process::{Abort, Process};
use std::{env, fs, process, rt};

fn word_of(alloc: Global, read: &Result<Held, FileError>) -> Mem<String> {
    match read {
        Ok(Held::Absent) => Ok(String::from_str(alloc, "absent")?),
        Ok(Held::Bytes(bytes)) => {
            let text = str::from_utf8(bytes.as_slice()).unwrap_or("?");
            Ok(String::from_str(alloc, text)?)
        }
        Err(FileError::Fault) => Ok(String::from_str(alloc, "fault")?),
        Err(FileError::NoMemory) => Ok(String::from_str(alloc, "no memory")?),
    }
}

fn read<F: Files>(alloc: Global, files: &mut F, path: &str) -> Mem<String> {
    let read = files.read(path);
    word_of(alloc, &read)
}

// A read of a path gives this.
fn check<F: Files>(rt: &(impl AllocGlobal + Abort), files: &mut F, path: &str, want: &str) {
    let word = read(rt.alloc(), files, path).expect(rt, "memory");
    same(rt, word.as_str(), want);
}

fn put_twice(alloc: Global) -> Mem<MemoryFiles> {
    let mut files = MemoryFiles::new(alloc)?;
    files.put("a", b"one")?;
    files.put("b", b"")?;
    files.put("a", b"two")?;
    Ok(files)
}

#[test]
fn a_file_in_memory_has_the_bytes_that_were_put_last(rt: HostRuntime) {
    let mut files = put_twice(rt.alloc()).expect(&rt, "memory");
    check(&rt, &mut files, "a", "two");
    check(&rt, &mut files, "b", "");
    check(&rt, &mut files, "c", "absent");
}

fn failing(alloc: Global) -> Mem<MemoryFiles> {
    let mut files = MemoryFiles::new(alloc)?;
    files.put("a", b"one")?;
    files.fail(2)?;
    Ok(files)
}

#[test]
fn the_read_that_is_named_faults_and_no_other(rt: HostRuntime) {
    let mut files = failing(rt.alloc()).expect(&rt, "memory");
    check(&rt, &mut files, "a", "one");
    check(&rt, &mut files, "a", "fault");
    check(&rt, &mut files, "a", "one");
}

fn path_below(alloc: Global, above: &str, id: u32) -> Mem<String> {
    Ok(format!(in alloc; "{above}/cc_run_tests é read {id}")?)
}

// A path of this test's own, where nothing is yet.
fn own_path(rt: &(impl Env + AllocGlobal + Abort), process: Process) -> String {
    let above = env::temp_dir(rt).expect(rt, "a folder");
    path_below(rt.alloc(), above.as_str(), process::id(process)).expect(rt, "memory")
}

fn write(rt: &(impl rt::Files + Abort), path: &str) {
    fs::write(rt, path, b"int x;\n").expect(rt, "a file");
}

fn remove(rt: &(impl rt::Files + Abort), path: &str) {
    fs::remove_file(rt, path).expect(rt, "it is removed");
}

#[test]
fn a_file_of_the_machine_is_read_or_absent(rt: HostRuntime) {
    let path = own_path(&rt, rt.process());
    let mut files = RealFiles::new(rt).expect(&rt, "memory");
    check(&rt, &mut files, path.as_str(), "absent");
    write(&rt, path.as_str());
    check(&rt, &mut files, path.as_str(), "int x;\n");
    remove(&rt, path.as_str());
    check(&rt, &mut files, "/dev/null/a", "absent");
    check(&rt, &mut files, "/", "fault");
}
