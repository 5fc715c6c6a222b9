// Questions to a host, and the probe files that they need.
ghost use Rattle.std.specs.Prelude.{◌≡◌, ◌≢◌, ◌++◌, ◌∷◌, [], Some, None, IfOk, OnOk};
ghost use Rattle.cc_host.specs.Call.{part};
ghost use Rattle.cc_host.specs.Event.{unasked as noted};
ghost use Rattle.cc_host.specs.declared.question.Ask.TheVariants.{Exists as AsksExists};
ghost use Rattle.cc_host.specs.declared.question.Outcome.TheVariants.{Unanswered};
ghost use Rattle.cc_tool.specs.Files as probe_files;
ghost use Rattle.cc_tool.specs.Own.{OnlyForFiles, WordsUsed};
ghost use Rattle.cc_tool.specs.Probing.{Probes, AreOpen, IsMade, MakesFile, Needs, IsHonest, file_of, both_of, heard};

use crate::kinds::{object_of, source_of};
use crate::{FileKind, NamedTempfile};
use cc_host::{Host, HostError, Outcome, ProbeFiles, Question, Scope, World};
use cc_text::{Mem, NoMemory, Text};
use std::alloc::Global;

// Makes a file of a kind, or none where it can't be made.
fn make_file<W: World, H: Host<W>>(
    alloc: Global,
    host: &mut H,
    dir: &str,
    kind: FileKind,
) -> Mem<Option<NamedTempfile>>
    ensures makes { MakesFile dir.now kind (H.log host.old) (H.log host.new) result }
    ensures made { IsMade dir.now kind result }
    ensures used { OnOk result (WordsUsed (part H.log host.old host.new)) }
    ensures patient { H.patience host.new ≡ H.patience host.old }
{
    let contents = kind.contents().as_bytes();
    match NamedTempfile::create(alloc, host, dir, kind.suffix(), contents) {
        Ok(file) => Ok(file),
        Err(HostError::Fault(_, _)) => Ok(None),
        Err(HostError::NoMemory) => Err(NoMemory),
    }
}

// Makes the folder, and a source in it.
fn make_source<W: World, H: Host<W>>(
    alloc: Global,
    host: &mut H,
    dir: &str,
    kind: FileKind,
) -> Mem<Option<NamedTempfile>>
    ensures makes { MakesFile dir.now kind (H.log host.old) (H.log host.new) result }
    ensures made { IsMade dir.now kind result }
    ensures used { OnOk result (WordsUsed (part H.log host.old host.new)) }
    ensures patient { H.patience host.new ≡ H.patience host.old }
{
    match host.make_dir(Scope::Probe, dir) {
        Ok(()) => make_file(alloc, host, dir, kind),
        Err(HostError::Fault(_, _)) => Ok(None),
        Err(HostError::NoMemory) => Err(NoMemory),
    }
}

// Notes that a question couldn't be asked.
fn leave<W: World, H: Host<W>>(host: &mut H, q: &Question) -> Mem<Outcome>
    ensures adds { H.log host.new ≡ H.log host.old ++ noted q.now result }
    ensures unanswered { IfOk result (λ outcome. outcome ≡ Unanswered) }
    ensures patient { H.patience host.new ≡ H.patience host.old }
{
    host.unasked(q)?;
    Ok(Outcome::Unanswered)
}

// Asks with a source that is there, and drops it.
fn ask_source<W: World, H: Host<W>>(
    host: &mut H,
    dir: &str,
    kind: FileKind,
    q: &Question,
    files: ProbeFiles,
) -> Mem<Outcome>
    requires needs { Needs q.now (Some kind) None }
    requires given { (files.dir ≡ dir.now) × (files.object ≡ []) }
    requires open { AreOpen (file_of kind files.source ∷ []) (H.log host.old) }
    requires named { probe_files.IsPath dir.now kind files.source }
    ensures probes { Probes dir.now (H.log host.old) (H.log host.new)
        (file_of kind files.source ∷ []) [] (heard q.now result) 0 }
    ensures steady { IsHonest W.steady W.answer q.now result }
    ensures used { OnOk result (WordsUsed (part H.log host.old host.new)) }
    ensures patient { H.patience host.new ≡ H.patience host.old }
{
    let outcome = host.probe(q, &files);
    host.drop_probe(files.source.as_str());
    outcome
}

// The kinds of the two files that a question on a flag needs.
#[derive(Clone, Copy)]
struct Kinds {
    source: FileKind,
    object: FileKind,
}

// Asks with a source and an object that are there, and drops them.
fn ask_both<W: World, H: Host<W>>(
    host: &mut H,
    dir: &str,
    kinds: Kinds,
    q: &Question,
    files: ProbeFiles,
) -> Mem<Outcome>
    requires needs { Needs q.now (Some kinds.source) (Some kinds.object) }
    requires given { files.dir ≡ dir.now }
    requires open { AreOpen (both_of kinds.source kinds.object files) (H.log host.old) }
    requires source { probe_files.IsPath dir.now kinds.source files.source }
    requires object { probe_files.IsPath dir.now kinds.object files.object }
    ensures probes { Probes dir.now (H.log host.old) (H.log host.new)
        (both_of kinds.source kinds.object files) [] (heard q.now result) 0 }
    ensures steady { IsHonest W.steady W.answer q.now result }
    ensures used { OnOk result (WordsUsed (part H.log host.old host.new)) }
    ensures patient { H.patience host.new ≡ H.patience host.old }
{
    let outcome = host.probe(q, &files);
    host.drop_probe(files.source.as_str());
    host.drop_probe(files.object.as_str());
    outcome
}

// Asks with a source that is there, and an object that is made. Both are dropped.
fn ask_object<W: World, H: Host<W>>(
    alloc: Global,
    host: &mut H,
    dir: &str,
    kinds: Kinds,
    q: &Question,
    files: ProbeFiles,
) -> Mem<Outcome>
    requires needs { Needs q.now (Some kinds.source) (Some kinds.object) }
    requires given { files.dir ≡ dir.now }
    requires open { AreOpen (file_of kinds.source files.source ∷ []) (H.log host.old) }
    requires named { probe_files.IsPath dir.now kinds.source files.source }
    ensures probes { Probes dir.now (H.log host.old) (H.log host.new)
        (file_of kinds.source files.source ∷ []) [] (heard q.now result) 0 }
    ensures steady { IsHonest W.steady W.answer q.now result }
    ensures used { OnOk result (WordsUsed (part H.log host.old host.new)) }
    ensures patient { H.patience host.new ≡ H.patience host.old }
{
    match make_file(alloc, host, dir, kinds.object) {
        Ok(Some(file)) => {
            let both = ProbeFiles {
                dir: files.dir,
                source: files.source,
                object: file.into_path(),
            };
            ask_both(host, dir, kinds, q, both)
        }
        Ok(None) => {
            let outcome = leave(host, q);
            host.drop_probe(files.source.as_str());
            outcome
        }
        Err(NoMemory) => {
            host.drop_probe(files.source.as_str());
            Err(NoMemory)
        }
    }
}

// Asks a question that needs files. They are made in the folder, which is made first, and dropped.
fn ask_with_files<W: World, H: Host<W>>(
    alloc: Global,
    host: &mut H,
    dir: &str,
    kind: FileKind,
    q: &Question,
) -> Mem<Outcome>
    requires command { q.now.ask ≢ AsksExists }
    requires needs { probe_files.source_of q.now.ask ≡ Some kind }
    ensures probes { Probes dir.now (H.log host.old) (H.log host.new) [] [] (heard q.now result) 0 }
    ensures steady { IsHonest W.steady W.answer q.now result }
    ensures used { OnOk result (WordsUsed (part H.log host.old host.new)) }
    ensures patient { H.patience host.new ≡ H.patience host.old }
{
    let folder = Text::of(alloc, dir)?;
    // (no probe file was dropped more often than made: a law of the log that is lent)
    let _tidy = host.log();
    match make_source(alloc, host, dir, kind)? {
        None => leave(host, q),
        Some(file) => {
            let files = ProbeFiles {
                dir: folder,
                source: file.into_path(),
                object: Text::new(alloc),
            };
            match object_of(q.ask) {
                Some(object) => {
                    let kinds = Kinds {
                        source: kind,
                        object,
                    };
                    ask_object(alloc, host, dir, kinds, q, files)
                }
                None => ask_source(host, dir, kind, q, files),
            }
        }
    }
}

// Asks a question that needs no file.
fn ask_bare<W: World, H: Host<W>>(
    alloc: Global,
    host: &mut H,
    dir: &str,
    q: &Question,
) -> Mem<Outcome>
    requires command { q.now.ask ≢ AsksExists }
    requires needs { probe_files.source_of q.now.ask ≡ None }
    ensures probes { Probes dir.now (H.log host.old) (H.log host.new) [] [] (heard q.now result) 0 }
    ensures bare { OnlyForFiles q.now (part H.log host.old host.new) }
    ensures steady { IsHonest W.steady W.answer q.now result }
    ensures used { OnOk result (WordsUsed (part H.log host.old host.new)) }
    ensures patient { H.patience host.new ≡ H.patience host.old }
{
    let _ = dir;
    let files = ProbeFiles {
        dir: Text::new(alloc),
        source: Text::new(alloc),
        object: Text::new(alloc),
    };
    host.probe(q, &files)
}

/// Asks a question by its command, with the files that it needs.
pub(crate) fn ask_host<W: World, H: Host<W>>(
    alloc: Global,
    host: &mut H,
    dir: &str,
    q: &Question,
) -> Mem<Outcome>
    requires { q.now.ask ≢ AsksExists }
    ensures probes { Probes dir.now (H.log host.old) (H.log host.new) [] [] (heard q.now result) 0 }
    ensures bare { OnlyForFiles q.now (part H.log host.old host.new) }
    ensures steady { IsHonest W.steady W.answer q.now result }
    ensures used { OnOk result (WordsUsed (part H.log host.old host.new)) }
    ensures patient { H.patience host.new ≡ H.patience host.old }
{
    match source_of(q.ask) {
        Some(kind) => ask_with_files(alloc, host, dir, kind, q),
        None => ask_bare(alloc, host, dir, q),
    }
}
