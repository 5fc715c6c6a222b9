// Whether commands can be put in an order.
ghost use Rattle.std.specs.Prelude.{◌≡◌, None, List, ℕ, IfOk, IfErr, OnOk, find, nat_le};
ghost use Rattle.cc_graph.specs.Graph.{Graph, graph_of, off, IsOrder, IsCycle, IsOff, IsRefusal};

use crate::walk::Walk;
use crate::{GraphError, Needs, Node};
use std::alloc::Global;

// The first of these places that is none of so many.
fn first_past(places: &[u64], count: usize) -> Option<u64>
    ensures { result ≡ find (nat_le count) places.now }
{
    places.iter().copied().find(|place| *place >= count as u64)
}

// Whether each need is a place. Refused is the first that isn't, with its node.
fn check_places(nodes: &[Node]) -> Result<(), GraphError>
    ensures fine { OnOk result (off (graph_of nodes.now) ≡ None) }
    ensures refused { IfErr result (IsOff (graph_of nodes.now)) }
{
    for (node, item) in nodes.iter().enumerate() {
        if let Some(need) = first_past(item.needs.as_slice(), nodes.len()) {
            return Err(GraphError::OutOfRange {
                node: node as u64,
                need,
            });
        }
    }
    Ok(())
}

/// An order of the places of all nodes in which each stands behind what it needs.
///
/// Refused are a need that is no place (OutOfRange), the first one with its node; else, where there is no order, for a
/// cycle (Cycle); and want of memory. It takes as many steps as there are nodes and needs, and no stack for them.
pub fn check_graph(alloc: Global, nodes: &[Node]) -> Result<Needs, GraphError>
    ensures order { IfOk result (IsOrder (graph_of nodes.now)) }
    ensures closed { OnOk result (off (graph_of nodes.now) ≡ None) }
    ensures refused { IfErr result (IsRefusal (graph_of nodes.now)) }
{
    check_places(nodes)?;
    let mut walk = Walk::new(alloc, nodes)?;
    for place in 0..nodes.len() {
        walk.begin(nodes, place)?;
        walk.finish(alloc, nodes)?;
    }
    Ok(walk.into_order())
}

/// A graph that has an order has no cycle. This is the law alone; it does nothing.
pub fn one_or_the_other()
    ensures { (g : Graph) (order cycle : List ℕ) → IsOrder g order → IsCycle g cycle → ⊥ }
{}

#[cfg(test)]
mod tests {
    use super::*;
    use cc_host::{Command, Role};
    use cc_run::Planned;
    use std::test::Fail;

    fn nodes_of(alloc: Global, graph: &[&[u64]]) -> Result<Vec<Node>, Fail> {
        let mut nodes = Vec::new(alloc);
        for needs in graph {
            let mut list = Needs::new(alloc);
            for need in *needs {
                list.push(*need)?;
            }
            nodes.push(Node {
                cmd: Planned {
                    role: Role::Compile,
                    cmd: Command::new(alloc, "true")?,
                    message: None,
                },
                needs: list,
            })?;
        }
        Ok(nodes)
    }

    fn told(alloc: Global, graph: &[&[u64]]) -> Result<String, Fail> {
        let nodes = nodes_of(alloc, graph)?;
        let text = match check_graph(alloc, &nodes) {
            Ok(order) => format!(in alloc; "{:?}", order.as_slice())?,
            Err(GraphError::OutOfRange { node, need }) => format!(in alloc;
                "node {node} needs {need}"
            )?,
            Err(GraphError::Cycle(cycle)) => format!(in alloc; "cycle {:?}", cycle.as_slice())?,
            Err(GraphError::Run(_)) => format!(in alloc; "run")?,
            Err(GraphError::NoMemory) => format!(in alloc; "no memory")?,
        };
        Ok(text)
    }

    #[test]
    fn graphs(rt: HostRuntime) -> Result<(), Fail> {
        let alloc = rt.alloc();
        assert_eq!(rt; told(alloc, &[&[1], &[], &[0, 1]])?.as_str(), "[1, 0, 2]");
        assert_eq!(rt; told(alloc, &[&[1], &[2], &[1]])?.as_str(), "cycle [1, 2]");
        assert_eq!(rt; told(alloc, &[&[0]])?.as_str(), "cycle [0]");
        assert_eq!(rt; told(alloc, &[&[7]])?.as_str(), "node 0 needs 7");
        assert_eq!(rt;
            told(alloc, &[&[3], &[0], &[1], &[2], &[]])?.as_str(),
            "cycle [0, 3, 2, 1]"
        );
        assert_eq!(rt; told(alloc, &[])?.as_str(), "[]");
        Ok(())
    }
}
