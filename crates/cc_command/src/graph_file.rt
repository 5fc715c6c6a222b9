// A graph of commands from a file: the host's variables, the read, and the commands that it gives.
ghost use Rattle.std.specs.Prelude.{◌≡◌, ◌∷◌, ◌++◌, [], Some, IfOk, IfErr, OnErr};
ghost use Rattle.std.specs.Option.{option_map};
ghost use Rattle.std.specs.Str.{is_utf8};
ghost use Rattle.cc_host.specs.Call.{part};
ghost use Rattle.cc_graph.specs.Read.{read_graph};
ghost use Rattle.cc_command.specs.Graphed.{shelf, graph_in, nodes_if, nodes_by, IsListed, IsUnlisted, IsUnread, IsNoGraph};

use crate::graph_errors::{file_error, or_wanting};
use cc_build::{Error, ErrorKind};
use cc_env::EnvSnapshot;
use cc_graph::{GraphFileError, Node, read_graph};
use cc_host::{FileError, Files, Held, Host, World};
use cc_text::{Mem, NoMemory};
use std::alloc::Global;
use std::str::from_utf8;

/// The variables of the host.
#[tactic(auto, using(cc_host::proofs::Parts::since_append))]
pub(crate) fn list_vars<W: World, H: Host<W>>(
    alloc: Global,
    host: &mut H,
) -> Result<EnvSnapshot, Error>
    ensures extends { H.log host.new ≡ H.log host.old ++ part H.log host.old host.new }
    ensures patient { H.patience host.new ≡ H.patience host.old }
    ensures ear { H.listens host.new ≡ H.listens host.old }
    ensures listed { IfOk result (IsListed (part H.log host.old host.new)) }
    ensures refused { IfErr result (IsUnlisted (part H.log host.old host.new)) }
{
    match host.vars() {
        Ok(vars) => Ok(EnvSnapshot::from_vars(alloc, &vars)?),
        Err(error) => Err(Error::of_host(alloc, error, "")),
    }
}

/// What the file holds.
pub(crate) fn read_file<F: Files>(alloc: Global, files: &mut F, path: &str) -> Result<Held, Error>
    ensures read { IfOk result
        (λ held. F.reads files.new ≡ F.reads files.old ++ (path.now, held) ∷ []) }
    ensures refused { IfErr result
        (IsUnread path.now (shelf F.reads F.faults files.old) (shelf F.reads F.faults files.new)) }
    ensures unread { OnErr result (F.reads files.new ≡ F.reads files.old) }
{
    match files.read(path) {
        Ok(held) => Ok(held),
        Err(FileError::Fault) => {
            let error = file_error(alloc, ErrorKind::IOError, "failed to read ", path);
            Err(or_wanting(error))
        }
        Err(FileError::NoMemory) => Err(Error::from(NoMemory)),
    }
}

// The commands of a text, or none.
fn nodes_in(alloc: Global, text: &str, env: &EnvSnapshot) -> Mem<Option<Vec<Node>>>
    ensures { IfOk result (λ nodes.
        nodes_if (read_graph env.now text.now) ≡ option_map (λ v. v.items) nodes) }
{
    match read_graph(alloc, text, env) {
        Ok(nodes) => Ok(Some(nodes)),
        Err(GraphFileError::NoMemory) => Err(NoMemory),
        Err(_) => Ok(None),
    }
}

// The commands of bytes, or none where they aren't UTF-8 or no such text.
fn nodes_by(alloc: Global, bytes: &[u8], env: &EnvSnapshot) -> Mem<Option<Vec<Node>>>
    ensures { IfOk result (λ nodes. nodes_by env.now bytes.now (is_utf8 bytes.now)
        ≡ option_map (λ v. v.items) nodes) }
{
    match from_utf8(bytes) {
        Ok(text) => nodes_in(alloc, text, env),
        Err(_) => Ok(None),
    }
}

fn nodes_held(alloc: Global, held: &Held, env: &EnvSnapshot) -> Mem<Option<Vec<Node>>>
    ensures { IfOk result (λ nodes.
        graph_in env.now held.now ≡ option_map (λ v. v.items) nodes) }
{
    match held {
        Held::Absent => Ok(None),
        Held::Bytes(bytes) => nodes_by(alloc, bytes.as_slice(), env),
    }
}

/// The commands of what the file holds.
pub(crate) fn nodes_of(
    alloc: Global,
    path: &str,
    held: &Held,
    env: &EnvSnapshot,
) -> Result<Vec<Node>, Error>
    ensures ok { IfOk result (λ nodes. graph_in env.now held.now ≡ Some nodes.items) }
    ensures err { IfErr result (IsNoGraph path.now env.now held.now) }
{
    match nodes_held(alloc, held, env) {
        Ok(Some(nodes)) => Ok(nodes),
        Ok(None) => {
            let text = "no command graph in ";
            let error = file_error(alloc, ErrorKind::InvalidArgument, text, path);
            Err(or_wanting(error))
        }
        Err(memory) => Err(Error::from(memory)),
    }
}
