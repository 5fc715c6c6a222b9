// Apple's libtool in the place of `ar`, which reads the paths of the objects from a list file.
ghost use Rattle.std.specs.Prelude.{◌≡◌, ◌<◌, IfOk, IfSome, length};
ghost use Rattle.std.specs.List.{position};
ghost use Rattle.cc_plan.specs.Archive.{libtool_of};
ghost use Rattle.cc_plan.specs.Libtool.{names_libtool, is_libtool, list_path, list_text, list_of, has_line_feed, list_refusal};
ghost use Rattle.cc_plan.specs.Refusal.{AllowedBy, RefusedBy};

use crate::{Archiver, ArgumentCause, PlanError};
use cc_host::Command;
use cc_text::{Bytes, Mem, Text, Words, contains_ignore_ascii_case, file_name};
use std::alloc::Global;

// The name has it, whatever the case of ASCII letters.
fn names_libtool(name: &str) -> bool
    ensures { result ≡ names_libtool name.now }
{
    contains_ignore_ascii_case(name, "libtool")
}

/// Whether the archiver is Apple's libtool, or one that takes its words: its file name has `libtool` in it, whatever
/// the case of ASCII letters. It takes no memory.
#[tactic(auto, unfolding(crate::specs::Libtool::is_libtool))]
pub fn is_libtool(archiver: &Archiver) -> bool
    ensures { result ≡ is_libtool archiver.now }
{
    names_libtool(file_name(archiver.name.as_str()).unwrap_or(""))
}

fn list_path(alloc: Global, library: &str) -> Mem<Text>
    ensures { IfOk result (λ path. path ≡ list_path library.now) }
{
    let mut path = Text::of(alloc, library)?;
    path.push_str(".filelist")?;
    Ok(path)
}

// The command that writes the library. By the manual of Apple's libtool, `-static` makes a static library, `-D` writes
// the same times and owners each time, and `-filelist` takes the paths from a file, and a folder to put before each
// behind the last comma, if there is one.
pub(crate) fn libtool_command(alloc: Global, archiver: &Archiver, library: &str) -> Mem<Command>
    ensures { IfOk result (λ cmd. cmd ≡ libtool_of archiver.now library.now) }
{
    let mut list = list_path(alloc, library)?;
    list.push_str(",")?;
    let mut cmd = archiver.cmd.try_clone()?;
    cmd.arg("-static")?;
    cmd.arg("-D")?;
    cmd.arg("-o")?;
    cmd.arg(library)?;
    cmd.arg("-filelist")?;
    cmd.arg(list.as_str())?;
    Ok(cmd)
}

fn list_text(alloc: Global, paths: &[Text]) -> Mem<Text>
    ensures { IfOk result (λ text. text ≡ list_text paths.now) }
{
    let mut text = Text::new(alloc);
    for path in paths {
        text.push_str(path.as_str())?;
        text.push_str("\n")?;
    }
    Ok(text)
}

/// The list file of the objects of these paths, its path and its bytes, which is to be written before the library where
/// the archiver is libtool; else none. It lies beside the library and has a path a line. Only want of memory refuses.
///
/// By the manual of Apple's libtool only line feeds part the paths: blanks are part of one. `check_list` finds paths
/// with a line feed.
pub fn list_file(
    alloc: Global,
    archiver: &Archiver,
    library: &str,
    paths: &Words,
) -> Mem<Option<(Text, Bytes)>>
    ensures { IfOk result (λ file. file ≡ list_of archiver.now library.now paths.now) }
{
    if !is_libtool(archiver) {
        return Ok(None);
    }
    let text = list_text(alloc, paths.as_slice())?;
    let bytes = Bytes::of(alloc, text.as_str().as_bytes())?;
    Ok(Some((list_path(alloc, library)?, bytes)))
}

fn has_line_feed(path: &str) -> bool
    ensures { result ≡ has_line_feed path.now }
{
    path.as_bytes().contains(&b'\n')
}

// The place of the first path with a line feed.
fn line_feed_place(paths: &[Text]) -> Option<usize>
    ensures place { result ≡ position has_line_feed paths.now }
    ensures within { IfSome result (λ place. place < length paths.now) }
{
    paths.iter().position(|path| has_line_feed(path.as_str()))
}

/// Checks that a list of these paths can be read, where the archiver is libtool, which takes each line of it for a
/// path. It takes no memory.
///
/// Refused at the place of the first path with a line feed, counted from 0.
pub(crate) fn check_list(archiver: &Archiver, paths: &Words) -> Result<(), PlanError>
    ensures allowed { AllowedBy (list_refusal archiver.now paths.now) result }
    ensures refused { RefusedBy (list_refusal archiver.now paths.now) result }
{
    if !is_libtool(archiver) {
        return Ok(());
    }
    match line_feed_place(paths.as_slice()) {
        Some(place) => Err(PlanError::Argument(ArgumentCause::LineFeed(place as u64))),
        None => Ok(()),
    }
}
