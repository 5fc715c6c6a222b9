// The compilation database of a compile run: the folder that it tells is asked for, its text is made of the log, and
// its file is written.
ghost use Rattle.std.specs.Prelude.{◌≡◌, ◌++◌, [], ◌∷◌, map, slice_get, string_bytes, IfOk, IfErr, OnOk};
ghost use Rattle.std.specs.Option.{option_copied};
ghost use Rattle.cc_db.specs.Database.{database};
ghost use Rattle.cc_host.specs.Call.{part};
ghost use Rattle.cc_host.specs.Script.{same_role};
ghost use Rattle.cc_host.specs.declared.event.Event.TheVariants.{Here, Wrote};
ghost use Rattle.cc_host.specs.declared.event.HostCall.TheVariants.{CurrentDir as TellsFolder, Write as Writes};
ghost use Rattle.cc_host.specs.declared.event.Role.TheVariants.{Compile as Compiles};
ghost use Rattle.cc_plan.specs.Plan.{objects_of};
ghost use Rattle.cc_build.specs.Kept.{Aside};
ghost use Rattle.cc_command.specs.Database.{optional, compile_start, compile_starts, entry_of, entries_by, last_of, logged_entries, Faults};

use cc_build::{Build, Error};
use cc_db::json_compilation_database;
use cc_host::{Command, CompileCommand, Event, Host, Role, World};
use cc_plan::{Object, plan_objects};
use cc_text::{Mem, NoMemory, Text};
use std::alloc::Global;

/// Asks for the folder that relative paths count from.
#[tactic(auto, using(cc_host::proofs::Parts::since_append))]
pub(crate) fn find_folder<W: World, H: Host<W>>(alloc: Global, host: &mut H) -> Result<Text, Error>
    ensures aside { Aside H.log H.patience host.old host.new }
    ensures ear { H.listens host.new ≡ H.listens host.old }
    ensures told { IfOk result (λ here. part H.log host.old host.new ≡ Here here ∷ []) }
    ensures refused { IfErr result (Faults TellsFolder [] (part H.log host.old host.new)) }
{
    match host.current_dir() {
        Ok(here) => Ok(here),
        Err(error) => Err(Error::of_host(alloc, error, "")),
    }
}

fn is_compile(role: Role) -> bool
    ensures { result ≡ same_role role Compiles }
{
    role == Role::Compile
}

// The command of an event that starts it to compile.
fn compile_start(event: &Event) -> Option<&Command>
    ensures { optional (option_copied result) ≡ compile_start event.now }
{
    match event {
        Event::Started { role, cmd, .. } => { if is_compile(*role) { Some(cmd) } else { None } }
        _ => None,
    }
}

// The commands that were started to compile, in order. They are shared with the log.
fn compile_starts(alloc: Global, log: &[Event]) -> Mem<Vec<Command>>
    ensures { IfOk result (λ cmds. cmds.items ≡ compile_starts log.now) }
{
    let mut cmds = Vec::new(alloc);
    for event in log {
        if let Some(cmd) = compile_start(event) {
            cmds.push(cmd.try_clone()?)?;
        }
    }
    Ok(cmds)
}

// The command at a place, if there is one.
fn command_at(cmds: &[Command], place: usize) -> Option<&Command>
    ensures { option_copied result ≡ slice_get cmds.now place }
{
    cmds.get(place)
}

// Puts the entry of an object behind others, where it has a command.
fn push_entry(
    alloc: Global,
    entries: &mut Vec<CompileCommand>,
    here: &str,
    object: &Object,
    cmd: Option<&Command>,
) -> Mem<()>
    ensures { OnOk result (entries.new.items ≡ entries.old.items
        ++ map (entry_of here.now object.now) (optional (option_copied cmd.entry))) }
{
    match cmd {
        Some(cmd) => {
            let (src, dst) = (object.src.as_str(), object.dst.as_str());
            entries.push(CompileCommand::new(alloc, cmd, src, dst, here)?)?;
            Ok(())
        }
        None => Ok(()),
    }
}

// The entries of objects, each with the command at its place.
#[tactic(auto, using(crate::proofs::EntryLaws::entries_next))]
fn entries_by(
    alloc: Global,
    here: &str,
    objects: &[Object],
    cmds: &[Command],
) -> Mem<Vec<CompileCommand>>
    ensures { IfOk result (λ entries.
        entries.items ≡ entries_by here.now objects.now cmds.now) }
{
    let mut entries = Vec::new(alloc);
    for (place, object) in objects.iter().enumerate() {
        push_entry(alloc, &mut entries, here, object, command_at(cmds, place))?;
    }
    Ok(entries)
}

// So many of the commands, the last ones.
fn last_of(cmds: &[Command], count: usize) -> &[Command]
    ensures { result.now ≡ last_of count cmds.now }
{
    let from = cmds.len().saturating_sub(count);
    &cmds[from..]
}

// The objects of the sources, which the run of the build was planned with.
fn objects_of<W: World>(alloc: Global, build: &Build<W>) -> Mem<Vec<Object>>
    ensures { IfOk result (λ objects.
        objects.items ≡ objects_of build.now.config build.now.env) }
{
    match plan_objects(alloc, build.settings(), build.environment()) {
        Ok((_, objects)) => Ok(objects),
        Err(_) => Err(NoMemory),
    }
}

// The text of the database of the sources of a build, by a log whose last compile commands are theirs.
fn database_text<W: World>(
    alloc: Global,
    build: &Build<W>,
    here: &str,
    log: &[Event],
) -> Mem<String>
    ensures { IfOk result (λ text. string_bytes text ≡ database (logged_entries
        here.now (objects_of build.now.config build.now.env) log.now)) }
{
    let objects = objects_of(alloc, build)?;
    let cmds = compile_starts(alloc, log)?;
    let cmds = last_of(cmds.as_slice(), objects.len());
    let entries = entries_by(alloc, here, objects.as_slice(), cmds)?;
    let mut text = String::new(alloc);
    json_compilation_database(entries, &mut text)?;
    Ok(text)
}

// Writes the file of these bytes.
#[tactic(auto, using(cc_host::proofs::Parts::since_append))]
fn write_bytes<W: World, H: Host<W>>(
    alloc: Global,
    host: &mut H,
    path: &str,
    bytes: &[u8],
) -> Result<(), Error>
    ensures aside { Aside H.log H.patience host.old host.new }
    ensures wrote { OnOk result (part H.log host.old host.new ≡ Wrote path.now bytes.now ∷ []) }
    ensures refused { IfErr result (Faults Writes path.now (part H.log host.old host.new)) }
{
    match host.write_file(path, bytes) {
        Ok(()) => Ok(()),
        Err(error) => Err(Error::of_host(alloc, error, path)),
    }
}

/// Writes the database of the sources of a build, by the log of the host, whose last compile commands are theirs.
#[tactic(auto, using(cc_host::proofs::Parts::since_append))]
pub(crate) fn write_database<W: World, H: Host<W>>(
    alloc: Global,
    build: &Build<W>,
    path: &str,
    here: &str,
    host: &mut H,
) -> Result<(), Error>
    ensures aside { Aside H.log H.patience host.old host.new }
    ensures wrote { OnOk result (part H.log host.old host.new ≡ Wrote path.now (database
        (logged_entries here.now (objects_of build.now.config build.now.env)
        (H.log host.old))) ∷ []) }
    ensures refused { IfErr result (Faults Writes path.now (part H.log host.old host.new)) }
{
    let text = database_text(alloc, build, here, host.log())?;
    write_bytes(alloc, host, path, text.as_str().as_bytes())
}
