// Nodes of entries that are read one at a time.
ghost use Rattle.std.specs.Prelude.{◌≡◌, ◌<◌, length, Ok, IfOk, OnOk};
ghost use Rattle.serde_json.specs.Read.{read as read_text};
ghost use Rattle.cc_graph.specs.Read.{value_nodes};
ghost use Rattle.cc_graph.specs.Entries.{IsEntry, AreEntries};

use crate::read::node_in;
use crate::tokens::read;
use crate::{GraphFileError, Node};
use cc_text::Vars;
use json::{Reader, Scratch, Token};
use std::alloc::Global;

// An entry stands in an array.
const DEPTH: usize = 126;

// The node of the next entry.
#[tactic(auto, using(crate::proofs::EntryLemmas::entry_read))]
fn entry(alloc: Global, reader: &mut Reader<'_>, vars: &Vars) -> Result<Node, GraphFileError>
    ensures ok { IfOk result (λ node. IsEntry vars.now reader.old node reader.new) }
    ensures shorter { OnOk result (length reader.new < length reader.old) }
{
    let value = read(alloc, reader, DEPTH)?;
    match node_in(alloc, &value, vars)? {
        Some(node) => Ok(node),
        None => Err(GraphFileError::NotArray),
    }
}

// The nodes of the entries up to the end of the array, if there are no more than so many.
fn entries(
    alloc: Global,
    reader: &mut Reader<'_>,
    vars: &Vars,
    most: usize,
) -> Result<Vec<Node>, GraphFileError>
    ensures { IfOk result (λ nodes. AreEntries vars.now most reader.old nodes.items reader.new) }
{
    let mut nodes = Vec::new(alloc);
    'entries: while !reader.take_end_array() {
        let node = entry(alloc, reader, vars)?;
        if nodes.len() >= most {
            return Err(GraphFileError::NotArray);
        }
        nodes.push(node)?;
    }
    Ok(nodes)
}

/// The nodes of a text, where it says some. Only the tree of one entry lives at a time. An error doesn't say why there
/// are none, but for want of memory.
pub(crate) fn nodes_by_entry(
    alloc: Global,
    text: &str,
    vars: &Vars,
    most: usize,
) -> Result<Vec<Node>, GraphFileError>
    ensures { IfOk result (λ nodes. value_nodes vars.now most (read_text text.now)
        ≡ Ok nodes.items) }
{
    let mut scratch = Scratch::new(alloc);
    let mut reader = Reader::new(text, &mut scratch)?;
    let Some(Token::BeginArray) = reader.next() else {
        return Err(GraphFileError::NotArray);
    };
    let nodes = entries(alloc, &mut reader, vars, most)?;
    if reader.next().is_some() {
        return Err(GraphFileError::NotJson);
    }
    Ok(nodes)
}
