// Commands with prerequisites of a JSON text.
ghost use Rattle.std.specs.Prelude.{◌≡◌, ◌≢◌, map, codes, length, Some, None, Ok, Err, IfOk, IfErr, option_map};
ghost use Rattle.serde_json.specs.Read.{read};
ghost use Rattle.serde_json.specs.Find.{as_str, as_array};
ghost use Rattle.serde_json.specs.View.{view};
ghost use Rattle.cc_graph.specs.Read.{all_some, place_of, places_of, command_of, command_in, needs_in, node_of, nodes_of, nodes_upto, array_nodes, read_graph};
ghost use Rattle.cc_graph.specs.declared.read.GraphFileError.TheVariants.{NotJson, NoMemory as WantsMemory};

use crate::entries::nodes_by_entry;
use crate::{Needs, Node};
use cc_env::EnvSnapshot;
use cc_host::{Command, Role};
use cc_run::Planned;
use cc_text::{Mem, NoMemory, Vars, Words};
use json::Invalid;
use serde_json::Value;
use std::alloc::{AllocError, AllocFailed, Global};

/// Why a text gives no commands.
#[derive(Clone, Copy, PartialEq, Eq, Debug)]
pub enum GraphFileError {
    /// It isn't JSON, or a number in it or its depth is too large for the reader.
    NotJson,
    /// It is JSON, and not an array.
    NotArray,
    /// The entry at that place, from 0, is the first that lacks the shape.
    Entry(u64),
    /// Memory was wanted and refused.
    NoMemory,
}

impl From<NoMemory> for GraphFileError {
    ghost from_gives = { λ _ e. e ≡ WantsMemory };

    fn from(_: NoMemory) -> Self {
        GraphFileError::NoMemory
    }
}

impl From<AllocError> for GraphFileError {
    ghost from_gives = { λ _ e. e ≡ WantsMemory };

    fn from(_: AllocError) -> Self {
        GraphFileError::NoMemory
    }
}

impl From<Invalid> for GraphFileError {
    ghost from_gives = { λ _ e. e ≡ NotJson };

    fn from(_: Invalid) -> Self {
        GraphFileError::NotJson
    }
}

impl<T: Drop> From<AllocFailed<T>> for GraphFileError {
    ghost from_gives = { λ _ e. e ≡ WantsMemory };

    fn from(_: AllocFailed<T>) -> Self {
        GraphFileError::NoMemory
    }
}

// How many nodes there may be.
const MOST: usize = 4294967295;

// The texts of some values, if each is one.
fn texts_among(alloc: Global, values: &[Value]) -> Mem<Option<Words>>
    ensures { IfOk result (λ words. words ≡ all_some (map as_str (map view values.now))) }
{
    let mut words = Words::new(alloc);
    for value in values {
        match value.as_str() {
            Some(text) => words.push(text)?,
            None => return Ok(None),
        }
    }
    Ok(Some(words))
}

// The place that a value is, if it is one.
fn place_in(value: &Value) -> Option<u64>
    ensures { result ≡ place_of (view value.now) }
{
    match value.as_u64() {
        Some(place) => {
            if place < 4294967296 {
                Some(place)
            } else {
                None
            }
        }
        None => None,
    }
}

// The places of some values, if each is one.
fn places_among(alloc: Global, values: &[Value]) -> Mem<Option<Needs>>
    ensures { IfOk result (λ needs. needs ≡ all_some (map place_of (map view values.now))) }
{
    let mut needs = Needs::new(alloc);
    for value in values {
        match place_in(value) {
            Some(place) => needs.push(place)?,
            None => return Ok(None),
        }
    }
    Ok(Some(needs))
}

// The places of an array of places.
fn places_in(alloc: Global, value: &Value) -> Mem<Option<Needs>>
    ensures { IfOk result (λ needs. needs ≡ places_of (view value.now)) }
{
    match value.as_array() {
        Some(values) => {
            let needs = places_among(alloc, values.as_slice())?;
            Ok(needs)
        }
        None => Ok(None),
    }
}

// The needs of an entry; none where there is no key `needs`.
fn needs_in(alloc: Global, entry: &Value) -> Mem<Option<Needs>>
    ensures { IfOk result (λ needs. needs ≡ needs_in (view entry.now)) }
{
    match entry.get("needs") {
        Some(needs) => {
            let places = places_in(alloc, needs)?;
            Ok(places)
        }
        None => Ok(Some(Needs::new(alloc))),
    }
}

// A command of these.
fn command_with(alloc: Global, program: &str, words: &Words, vars: &Vars) -> Mem<Command>
    ensures { IfOk result (λ c. c
        ≡ record { program = program.now; args = words.now; env = vars.now; dir = None }) }
{
    let mut cmd = Command::new(alloc, program)?;
    cmd.args(words)?;
    cmd.envs(vars)?;
    Ok(cmd)
}

// The command of some values, if each is a text and there is one.
fn command_among(alloc: Global, values: &[Value], vars: &Vars) -> Mem<Option<Command>>
    ensures { IfOk result (λ c. c ≡ command_of vars.now (map view values.now)) }
{
    let Some(first) = values.first() else {
        return Ok(None);
    };
    let Some(program) = first.as_str() else {
        return Ok(None);
    };
    let Some(words) = texts_among(alloc, &values[1..])? else {
        return Ok(None);
    };
    let cmd = command_with(alloc, program, &words, vars)?;
    Ok(Some(cmd))
}

// The command of an entry.
fn command_in(alloc: Global, entry: &Value, vars: &Vars) -> Mem<Option<Command>>
    ensures { IfOk result (λ c. c ≡ command_in vars.now (view entry.now)) }
{
    let Some(found) = entry.get("command") else {
        return Ok(None);
    };
    match found.as_array() {
        Some(values) => {
            let cmd = command_among(alloc, values.as_slice(), vars)?;
            Ok(cmd)
        }
        None => Ok(None),
    }
}

// The node of an entry, if it has the shape.
#[tactic(auto, unfolding(crate::specs::Read::node_of))]
pub(crate) fn node_in(alloc: Global, entry: &Value, vars: &Vars) -> Mem<Option<Node>>
    ensures { IfOk result (λ node. node ≡ node_of vars.now (view entry.now)) }
{
    let Some(cmd) = command_in(alloc, entry, vars)? else {
        return Ok(None);
    };
    let Some(needs) = needs_in(alloc, entry)? else {
        return Ok(None);
    };
    Ok(Some(Node {
        cmd: Planned {
            role: Role::Compile,
            cmd,
            message: None,
        },
        needs,
    }))
}

// The nodes of entries.
fn nodes_in(alloc: Global, values: &[Value], vars: &Vars) -> Result<Vec<Node>, GraphFileError>
    ensures ok { IfOk result (λ nodes. nodes_of vars.now (map view values.now) ≡ Ok nodes.items) }
    ensures err { IfErr result (λ e. e ≢ WantsMemory
        → nodes_of vars.now (map view values.now) ≡ Err e) }
{
    let mut nodes = Vec::new(alloc);
    for value in values {
        match node_in(alloc, value, vars)? {
            Some(node) => nodes.push(node)?,
            None => return Err(GraphFileError::Entry(nodes.len() as u64)),
        }
    }
    Ok(nodes)
}

// The nodes of entries, of which there are no more than so many.
#[tactic(auto, using(crate::proofs::ReadLemmas::few_nodes, crate::proofs::ReadLemmas::many_nodes, crate::proofs::ReadLemmas::many_refused))]
fn nodes_upto(
    alloc: Global,
    values: &[Value],
    vars: &Vars,
    most: usize,
) -> Result<Vec<Node>, GraphFileError>
    ensures ok { IfOk result (λ nodes.
        nodes_upto vars.now most (map view values.now) ≡ Ok nodes.items) }
    ensures err { IfErr result (λ e. e ≢ WantsMemory
        → nodes_upto vars.now most (map view values.now) ≡ Err e) }
{
    if values.len() <= most {
        let nodes = nodes_in(alloc, values, vars)?;
        return Ok(nodes);
    }
    match nodes_in(alloc, &values[..most], vars) {
        Ok(_) => Err(GraphFileError::Entry(most as u64)),
        Err(e) => Err(e),
    }
}

// The nodes of an array of entries.
#[tactic(auto, using(crate::proofs::ReadLemmas::nodes_there))]
fn array_nodes(
    alloc: Global,
    value: &Value,
    vars: &Vars,
    most: usize,
) -> Result<Vec<Node>, GraphFileError>
    ensures ok { IfOk result (λ nodes. array_nodes vars.now most (as_array (view value.now))
        ≡ Ok nodes.items) }
    ensures err { IfErr result (λ e. e ≢ WantsMemory
        → array_nodes vars.now most (as_array (view value.now)) ≡ Err e) }
{
    match value.as_array() {
        Some(values) => {
            let nodes = nodes_upto(alloc, values.as_slice(), vars, most)?;
            Ok(nodes)
        }
        None => Err(GraphFileError::NotArray),
    }
}

// The value of a JSON text.
fn parse(alloc: Global, text: &str) -> Result<Value, GraphFileError>
    ensures ok { IfOk result (λ value. read text.now ≡ Some (view value)) }
    ensures err { IfErr result (λ e. e ≢ WantsMemory
        → (e ≡ NotJson) × (read text.now ≡ None)) }
{
    match Value::from_str(alloc, text) {
        Ok(value) => Ok(value),
        Err(error) => {
            if error.is_memory() {
                Err(GraphFileError::NoMemory)
            } else {
                Err(GraphFileError::NotJson)
            }
        }
    }
}

// The nodes of a text that is read as a whole, or why there are none.
#[tactic(auto, unfolding(crate::specs::Read::read_graph))]
fn nodes_at_once(alloc: Global, text: &str, vars: &Vars) -> Result<Vec<Node>, GraphFileError>
    ensures ok { IfOk result (λ nodes. read_graph vars.now text.now ≡ Ok nodes.items) }
    ensures err { IfErr result (λ e. e ≢ WantsMemory → read_graph vars.now text.now ≡ Err e) }
{
    let value = parse(alloc, text)?;
    let nodes = array_nodes(alloc, &value, vars, MOST)?;
    Ok(nodes)
}

/// The commands of a text, in order, each with the environment of the snapshot and the role of a compilation. The text
/// is a JSON array of objects with an array of at least one text under `command`: the program and its words; and with
/// an array of whole numbers below 2^32 under `needs`, the places of the commands that it needs, or without that key.
/// Other keys are ignored. Refused are a text that `serde_json` refuses, a value that is no array, and the first entry
/// without the shape or at place 4294967295; else only want of memory refuses. Nothing is kept then. Whether needs are
/// places is left to `check_graph`.
#[tactic(auto, unfolding(crate::specs::Read::read_graph))]
pub fn read_graph(alloc: Global, text: &str, env: &EnvSnapshot) -> Result<Vec<Node>, GraphFileError>
    ensures ok { IfOk result (λ nodes. read_graph env.now text.now ≡ Ok nodes.items) }
    ensures err { IfErr result (λ e. e ≢ WantsMemory → read_graph env.now text.now ≡ Err e) }
{
    match nodes_by_entry(alloc, text, env.vars(), MOST) {
        Ok(nodes) => Ok(nodes),
        Err(GraphFileError::NoMemory) => Err(GraphFileError::NoMemory),
        Err(_) => nodes_at_once(alloc, text, env.vars()),
    }
}

#[cfg(test)]
mod tests {
    use super::*;
    use std::test::Fail;

    fn told(alloc: Global, text: &str) -> Result<String, Fail> {
        let env = EnvSnapshot::empty(alloc);
        match read_graph(alloc, text, &env) {
            Ok(nodes) => {
                let mut told = String::new(alloc);
                for node in &nodes {
                    told.push_str(node.cmd.cmd.get_program())?;
                    let needs = format!(in alloc; "{:?}", node.needs.as_slice())?;
                    told.push_str(needs.as_str())?;
                }
                Ok(told)
            }
            Err(e) => Ok(format!(in alloc; "{:?}", e)?),
        }
    }

    #[test]
    fn texts(rt: HostRuntime) -> Result<(), Fail> {
        let alloc = rt.alloc();
        assert_eq!(rt;
            told(
                alloc,
                r#"[{"command":["a","x"],"needs":[1]},{"command":["b"]}]"#
            )?
            .as_str(),
            "a[1]b[]"
        );
        assert_eq!(rt; told(alloc, "[]")?.as_str(), "");
        assert_eq!(rt; told(alloc, "{}")?.as_str(), "NotArray");
        assert_eq!(rt; told(alloc, "[")?.as_str(), "NotJson");
        assert_eq!(rt;
            told(alloc, r#"[{"command":["a"]},{"command":[]}]"#)?.as_str(),
            "Entry(1)"
        );
        assert_eq!(rt; told(alloc, r#"[{"needs":[]}]"#)?.as_str(), "Entry(0)");
        assert_eq!(rt;
            told(alloc, r#"[{"command":["a"],"needs":[0.5]}]"#)?.as_str(),
            "Entry(0)"
        );
        assert_eq!(rt;
            told(alloc, r#"[{"command":["a"],"needs":[-1]}]"#)?.as_str(),
            "Entry(0)"
        );
        assert_eq!(rt;
            told(alloc, r#"[{"command":["a"],"needs":[4294967296]}]"#)?.as_str(),
            "Entry(0)"
        );
        assert_eq!(rt;
            told(alloc, r#"[{"command":["a"],"needs":[4294967295]}]"#)?.as_str(),
            "a[4294967295]"
        );
        Ok(())
    }
}
