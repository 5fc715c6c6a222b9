// The commands of an archiver in the form of `ar`.
ghost use Rattle.std.specs.Prelude.{◌≡◌, [], ◌∷◌, ◌++◌, map, take, false, IfOk};
ghost use Rattle.cc_plan.specs.Archive.{archive_env, timeless, adding, archive_of, archives_by, index_of, plain_index_of, indexes_by};
ghost use Rattle.cc_text.specs.Batches.{batches_of};

use crate::Archiver;
use cc_env::BuildEnv;
use cc_host::Command;
use cc_text::{Mem, Vars, Words, batches};
use std::alloc::Global;
use std::slice;

// The environment of a command that writes no times into members.
fn archive_env(alloc: Global, env: &BuildEnv) -> Mem<Vars>
    ensures { IfOk result (λ vars. vars ≡ archive_env env.now) }
{
    let mut entries = env.explicit().try_clone()?;
    entries.push("ZERO_AR_DATE", "1")?;
    env.inherited().child_vars(alloc, &entries)
}

// A second command with the words of the first, and then these. They share their environment.
fn with_words(start: &Command, words: &Words) -> Mem<Command>
    ensures { IfOk result (λ cmd.
        cmd ≡ record start.now { args = start.now.args ++ words.now }) }
{
    let mut cmd = start.try_clone()?;
    cmd.args(words)?;
    Ok(cmd)
}

// A command of the archiver that writes no times into members, with a form and the library.
fn timeless(
    alloc: Global,
    archiver: &Archiver,
    env: &BuildEnv,
    form: &str,
    library: &str,
) -> Mem<Command>
    ensures { IfOk result (λ cmd.
        cmd ≡ timeless archiver.now env.now (form.now ∷ library.now ∷ [])) }
{
    let mut cmd = Command::new(alloc, archiver.cmd.get_program())?;
    cmd.envs(&archive_env(alloc, env)?)?;
    cmd.args(archiver.cmd.get_args())?;
    cmd.arg(form)?;
    cmd.arg(library)?;
    Ok(cmd)
}

fn adding(plain: bool) -> &'static str
    ensures { result.now ≡ adding plain }
{
    if plain { "cq" } else { "cqD" }
}

// The command that adds no member yet.
fn archive_start(
    alloc: Global,
    archiver: &Archiver,
    env: &BuildEnv,
    library: &str,
    plain: bool,
) -> Mem<Command>
    ensures { IfOk result (λ cmd. cmd ≡ archive_of archiver.now env.now library.now plain []) }
{
    let cmd = timeless(alloc, archiver, env, adding(plain), library)?;
    Ok(cmd)
}

// Adds a command of each batch. They share their environment.
fn push_batches(
    cmds: &mut Vec<Command>,
    archiver: &Archiver,
    env: &BuildEnv,
    library: &str,
    plain: bool,
    batches: &[Words],
) -> Mem<()>
    ensures { IfOk result (λ _. cmds.new.items ≡ cmds.old.items
        ++ map (archive_of archiver.now env.now library.now plain) batches.now) }
{
    let start = archive_start(*cmds.allocator(), archiver, env, library, plain)?;
    for batch in batches {
        cmds.push(with_words(&start, batch)?)?;
    }
    Ok(())
}

// The command that was refused: that of the first batch, where there is one.
fn push_refused(
    cmds: &mut Vec<Command>,
    archiver: &Archiver,
    env: &BuildEnv,
    library: &str,
    batches: &[Words],
) -> Mem<()>
    ensures { IfOk result (λ _. cmds.new.items ≡ cmds.old.items
        ++ map (archive_of archiver.now env.now library.now false) (take 1 batches.now)) }
{
    match batches {
        [first, ..] => {
            push_batches(cmds, archiver, env, library, false, slice::from_ref(first))
        },
        [] => Ok(()),
    }
}

/// The commands that write objects of these paths into the library: one a batch, and behind a refused first one all in
/// the plain form.
pub(crate) fn batch_commands(
    alloc: Global,
    archiver: &Archiver,
    env: &BuildEnv,
    library: &str,
    paths: &Words,
    plain: bool,
) -> Mem<Vec<Command>>
    ensures { IfOk result (λ cmds. cmds.items
        ≡ archives_by archiver.now env.now library.now plain (batches_of paths.now)) }
{
    let batches = batches(alloc, paths)?;
    let mut cmds = Vec::new(alloc);
    if plain {
        push_refused(&mut cmds, archiver, env, library, batches.as_slice())?;
    }
    push_batches(&mut cmds, archiver, env, library, plain, batches.as_slice())?;
    Ok(cmds)
}

fn index_command(archiver: &Archiver, library: &str) -> Mem<Command>
    ensures { IfOk result (λ cmd. cmd ≡ index_of archiver.now library.now) }
{
    let mut cmd = archiver.cmd.try_clone()?;
    cmd.arg("sD")?;
    cmd.arg(library)?;
    Ok(cmd)
}

fn plain_index_command(
    alloc: Global,
    archiver: &Archiver,
    env: &BuildEnv,
    library: &str,
) -> Mem<Command>
    ensures { IfOk result (λ cmd. cmd ≡ plain_index_of archiver.now env.now library.now) }
{
    timeless(alloc, archiver, env, "s", library)
}

/// The commands that write its index: one, or the plain one behind a refused one.
pub(crate) fn batch_index_commands(
    alloc: Global,
    archiver: &Archiver,
    env: &BuildEnv,
    library: &str,
    paths: &Words,
    plain: bool,
) -> Mem<Vec<Command>>
    ensures { IfOk result (λ cmds.
        cmds.items ≡ indexes_by archiver.now env.now library.now plain paths.now) }
{
    let mut cmds = Vec::new(alloc);
    if !plain || paths.is_empty() {
        cmds.push(index_command(archiver, library)?)?;
    }
    if plain {
        cmds.push(plain_index_command(alloc, archiver, env, library)?)?;
    }
    Ok(cmds)
}
