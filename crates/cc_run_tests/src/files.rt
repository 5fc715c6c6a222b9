// The files and folders of the host over the machine, below a folder for temporary files.
use crate::calls::{copy, create, make_dir, make_twice, remove, stands, write};
use crate::on_machine::{Check, on_machine};
use crate::same::holds;
use cc_host::{Created, Host, HostCall, HostError, Removal, Scope, Why};
use cc_hosts::Real;
use cc_text::Mem;
use std::alloc::{AllocGlobal, Global};
use std::fs;
use std::process::Abort;
use std::rt::Files;

fn make_folder(rt: &impl Abort, host: &mut impl Host<Real>, folder: &str) {
    make_dir(host, Scope::Build, folder).expect(rt, "a folder");
}

fn is_folder(rt: &(impl Files + AllocGlobal + Abort), path: &str) -> bool {
    fs::metadata(rt, path).expect(rt, "what it is").is_dir()
}

fn check_made(rt: &(impl Files + AllocGlobal + Abort), host: &mut impl Host<Real>, folder: &str) {
    make_folder(rt, host, folder);
    make_folder(rt, host, folder);
    holds(rt, "it is a folder", is_folder(rt, folder));
}

fn is_no_folder(host: &mut impl Host<Real>, path: &str) -> bool {
    let refused = HostError::Fault(HostCall::MakeDir(Scope::Probe), Why::Other);
    make_dir(host, Scope::Probe, path).err() == Some(refused)
}

fn below(alloc: Global, above: &str) -> Mem<String> {
    Ok(format!(in alloc; "{above}/a b/ü")?)
}

pub(crate) fn check_folders(
    rt: &(impl Files + AllocGlobal + Abort),
    host: &mut impl Host<Real>,
    above: &str,
) {
    let folder = below(rt.alloc(), above).expect(rt, "memory");
    check_made(rt, host, folder.as_str());
    fs::remove_dir_all(rt, above).expect(rt, "it is removed");
    holds(rt, "none is made there", is_no_folder(host, "/dev/null/a"));
}

#[test]
fn folders_are_made_with_those_above(rt: HostRuntime) {
    on_machine(rt, rt.process(), "folders", Check::Folders);
}

fn is_gone(host: &mut impl Host<Real>, file: &str) -> bool {
    matches!(remove(host, file), Ok(Removal::Gone))
}

fn is_absent(host: &mut impl Host<Real>, file: &str) -> bool {
    matches!(remove(host, file), Ok(Removal::Absent))
}

pub(crate) fn check_removed(
    rt: &(impl Files + AllocGlobal + Abort),
    host: &mut impl Host<Real>,
    file: &str,
) {
    fs::write(rt, file, "x").expect(rt, "a file");
    holds(rt, "it is gone", is_gone(host, file));
    holds(rt, "it is absent", is_absent(host, file));
    holds(rt, "none is there", is_absent(host, "/dev/null/a"));
}

#[test]
fn a_removed_file_is_gone_and_then_absent(rt: HostRuntime) {
    on_machine(rt, rt.process(), "file", Check::Removed);
}

// What is written in place of a longer file.
fn write_twice(rt: &impl Abort, host: &mut impl Host<Real>, path: &str) {
    write(host, path, b"a line that is longer\n").expect(rt, "a file");
    write(host, path, b"A\0\xFF\n").expect(rt, "a file");
}

fn has(rt: &(impl Files + AllocGlobal + Abort), path: &str, want: &[u8]) -> bool {
    let bytes = fs::read(rt, path).expect(rt, "its bytes");
    bytes.as_slice() == want
}

fn refuses(host: &mut impl Host<Real>, path: &str, why: Why) -> bool {
    write(host, path, b"A").err() == Some(HostError::Fault(HostCall::Write, why))
}

pub(crate) fn check_written(
    rt: &(impl Files + AllocGlobal + Abort),
    host: &mut impl Host<Real>,
    path: &str,
) {
    write_twice(rt, host, path);
    holds(rt, "it has these bytes", has(rt, path, b"A\0\xFF\n"));
    fs::remove_file(rt, path).expect(rt, "it is removed");
    let (lost, full) = ("/no such folder/a", "/dev/full");
    holds(rt, "no folder", refuses(host, lost, Why::NotFound));
    holds(rt, "no room", refuses(host, full, Why::Other));
}

#[test]
fn a_written_file_has_these_bytes_alone(rt: HostRuntime) {
    on_machine(rt, rt.process(), "written", Check::Written);
}

// The name that a new file has until it takes the place of this one.
fn beside(alloc: Global, path: &str) -> Mem<String> {
    let (folder, name) = path.rsplit_once('/').unwrap_or((".", path));
    Ok(format!(in alloc; "{folder}/.{name}.cc.tmp")?)
}

fn is_left(rt: &(impl Files + AllocGlobal + Abort), path: &str) -> bool {
    fs::exists(rt, path).expect(rt, "whether it stands")
}

pub(crate) fn check_taken_over(
    rt: &(impl Files + AllocGlobal + Abort),
    host: &mut impl Host<Real>,
    path: &str,
) {
    let left = beside(rt.alloc(), path).expect(rt, "memory");
    fs::write(rt, left.as_str(), "a part").expect(rt, "a file");
    write(host, path, b"whole").expect(rt, "a file");
    holds(rt, "it is whole", has(rt, path, b"whole"));
    holds(rt, "nothing is left", !is_left(rt, left.as_str()));
    fs::remove_file(rt, path).expect(rt, "it is removed");
}

#[test]
fn a_file_that_an_ended_run_left_is_taken_over(rt: HostRuntime) {
    on_machine(rt, rt.process(), "left", Check::TakenOver);
}

fn path_in(alloc: Global, folder: &str, name: &str) -> Mem<String> {
    Ok(format!(in alloc; "{folder}/{name}")?)
}

fn in_folder(rt: &(impl AllocGlobal + Abort), folder: &str, name: &str) -> String {
    path_in(rt.alloc(), folder, name).expect(rt, "memory")
}

// Copies a file over one that has a second name, which keeps the old bytes.
fn check_copy(
    rt: &(impl Files + AllocGlobal + Abort),
    host: &mut impl Host<Real>,
    from: &str,
    to: &str,
    also: &str,
) {
    fs::write(rt, from, "new").expect(rt, "a file");
    fs::write(rt, to, "old").expect(rt, "a file");
    fs::hard_link(rt, to, also).expect(rt, "a second name");
    copy(host, from, to).expect(rt, "a copy");
    holds(rt, "it is the new one", has(rt, to, b"new"));
    holds(rt, "the old one stands", has(rt, also, b"old"));
}

pub(crate) fn check_copied(
    rt: &(impl Files + AllocGlobal + Abort),
    host: &mut impl Host<Real>,
    folder: &str,
) {
    make_folder(rt, host, folder);
    let from = in_folder(rt, folder, "from");
    let to = in_folder(rt, folder, "to");
    let also = in_folder(rt, folder, "also");
    check_copy(rt, host, from.as_str(), to.as_str(), also.as_str());
    fs::remove_dir_all(rt, folder).expect(rt, "it is removed");
}

#[test]
fn a_copy_is_a_new_file(rt: HostRuntime) {
    on_machine(rt, rt.process(), "copies", Check::Copied);
}

fn is_there(rt: &impl Abort, host: &mut impl Host<Real>, path: &str) -> bool {
    stands(host, path).expect(rt, "memory")
}

fn stands_at_second(host: &mut impl Host<Real>, path: &str) -> bool {
    matches!(make_twice(host, path), Ok(Some(Created::Exists)))
}

// A probe file that was made and dropped is gone.
fn check_dropped(rt: &impl Abort, host: &mut impl Host<Real>, path: &str) {
    holds(rt, "it isn't there yet", !is_there(rt, host, path));
    holds(rt, "it is made once", stands_at_second(host, path));
    holds(rt, "it is gone", !is_there(rt, host, path));
}

fn create_twice(rt: &impl Abort, host: &mut impl Host<Real>, path: &str) {
    create(host, path, b"int x;\n").expect(rt, "a file");
    create(host, path, b"int y;\n").expect(rt, "a file");
}

fn is_first(rt: &(impl Files + AllocGlobal + Abort), path: &str) -> bool {
    let text = fs::read_to_string(rt, path).expect(rt, "its text");
    text.as_str() == "int x;\n"
}

fn finds_no_folder(host: &mut impl Host<Real>, path: &str) -> bool {
    let refused = HostError::Fault(HostCall::CreateProbe, Why::NotFound);
    create(host, path, b"").err() == Some(refused)
}

// One that stands is left as it is.
fn check_kept(rt: &(impl Files + AllocGlobal + Abort), host: &mut impl Host<Real>, path: &str) {
    create_twice(rt, host, path);
    holds(rt, "it is the first", is_first(rt, path));
    fs::remove_file(rt, path).expect(rt, "it is removed");
    holds(rt, "no folder", finds_no_folder(host, "/no such folder/a"));
}

pub(crate) fn check_probe_file(
    rt: &(impl Files + AllocGlobal + Abort),
    host: &mut impl Host<Real>,
    path: &str,
) {
    check_dropped(rt, host, path);
    check_kept(rt, host, path);
}

#[test]
fn a_probe_file_is_made_where_none_stands(rt: HostRuntime) {
    on_machine(rt, rt.process(), "probe.c", Check::Probe);
}
