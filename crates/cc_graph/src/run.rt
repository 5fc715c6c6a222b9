// Runs commands with prerequisites.
ghost use Rattle.std.specs.Prelude.{◌≡◌, ◌+◌, ◌<◌, ◌^◌, [], length, None, IfOk};
ghost use Rattle.cc_host.specs.Call.{part};
ghost use Rattle.cc_run.specs.Keeping.{IsIdle};
ghost use Rattle.cc_run.specs.Rules.{rules};
ghost use Rattle.cc_run.specs.Seat.{seen_by};
ghost use Rattle.cc_graph.specs.Ends.{ends_of};
ghost use Rattle.cc_graph.specs.Graph.{graph_of, off};
ghost use Rattle.cc_graph.specs.Queue.{graph_plan, Tells};
ghost use Rattle.cc_graph.specs.Run.{HasOrder, HasRunGraph, PrintsGraph, IsChecked, GraphRun, error_of};

use crate::queue::Graph;
use crate::{GraphError, Node, NodeEnds, check_graph};
use cc_host::{Host, World};
use cc_jobs::Jobs;
use cc_run::{RunError, Shows, Turns, run_queue};
use cc_text::Mem;
use std::alloc::Global;

// The error of a run.
fn run_error(e: RunError) -> GraphError
    ensures { result ≡ error_of e }
{
    match e {
        RunError::NoMemory => GraphError::NoMemory,
        e => GraphError::Run(e),
    }
}

// The ends of nodes of which none was started, and their queue.
#[derive(Drop)]
struct Prepared<'a> {
    ends: NodeEnds,
    queue: Graph<'a>,
}

fn prepare<'a>(alloc: Global, nodes: &'a [Node]) -> Mem<Prepared<'a>>
    requires closed { off (graph_of nodes.now) ≡ None }
    ensures ends { IfOk result (λ p. p.ends ≡ ends_of (length nodes.now) []) }
    ensures nodes { IfOk result (λ p. p.queue.nodes.now ≡ nodes.now) }
    ensures fresh { IfOk result (λ p.
        Tells (graph_of p.queue.nodes.now) p.queue.waiters.items p.queue.frontier []) }
{
    let ends = NodeEnds::skipped(alloc, nodes.len())?;
    let queue = Graph::new(alloc, nodes)?;
    Ok(Prepared { ends, queue })
}

// Runs nodes that have an order.
fn run_nodes<W: World, H: Host<W>, J: Jobs>(
    alloc: Global,
    host: &mut H,
    jobs: &J,
    seat: &mut J::Seat,
    turns: &mut Turns,
    nodes: &[Node],
    shows: &Shows,
) -> Result<NodeEnds, GraphError>
    requires idle { IsIdle J.fits J.held jobs.now seat.old }
    requires few { turns.old.left + turns.old.used < 2 ^ 64 }
    requires ordered { HasOrder (graph_of nodes.now) }
    ensures idle { IsIdle J.fits J.held jobs.now seat.new }
    ensures checked { IsChecked (graph_of nodes.now) result }
    ensures ran { HasRunGraph H.log H.patience (seen_by J.held J.total J.taken J.load J.faults)
        (length nodes.now) (rules (graph_plan nodes.now) shows.now) (J.total seat.old)
        host.old seat.old turns.old result host.new seat.new turns.new }
    ensures lines { PrintsGraph (rules (graph_plan nodes.now) shows.now) result
        (part H.log host.old host.new) }
{
    let Ok(prepared) = prepare(alloc, nodes) else {
        return Err(GraphError::NoMemory);
    };
    let ends = prepared.ends;
    let mut queue = prepared.queue;
    match run_queue(alloc, host, jobs, seat, turns, &mut queue, shows) {
        Ok(marks) => Ok(ends.noted(marks.as_slice())),
        Err(e) => Err(run_error(e)),
    }
}

/// Runs commands with prerequisites to their ends, each under a token, and as many side by side as there are tokens.
/// One is ready where all that it needs ended with the status 0; the next is the least that is ready. A node of which a
/// need was skipped or ended with another status is skipped. It answers what became of each.
///
/// Refused before any command are needs that are no places (OutOfRange) and nodes without an order (Cycle), as by
/// `check_graph`. Else it is refused as `run_queue` is: what ends a run at once is `Run` of it, with places of nodes,
/// and never a failed command; want of memory is `NoMemory` alone. After each answer the seat holds nothing.
///
/// What is printed and said is as for `run_all`; `stop` of `shows` isn't used.
pub fn run_graph<W: World, H: Host<W>, J: Jobs>(
    alloc: Global,
    host: &mut H,
    jobs: &J,
    seat: &mut J::Seat,
    turns: &mut Turns,
    nodes: &[Node],
    shows: &Shows,
) -> Result<NodeEnds, GraphError>
    requires idle { IsIdle J.fits J.held jobs.now seat.old }
    requires few { turns.old.left + turns.old.used < 2 ^ 64 }
    ensures idle { IsIdle J.fits J.held jobs.now seat.new }
    ensures checked { IsChecked (graph_of nodes.now) result }
    ensures ran { HasRunGraph H.log H.patience (seen_by J.held J.total J.taken J.load J.faults)
        (length nodes.now) (rules (graph_plan nodes.now) shows.now) (J.total seat.old)
        host.old seat.old turns.old result host.new seat.new turns.new }
    ensures graph { IfOk result (GraphRun nodes.now (rules (graph_plan nodes.now) shows.now)
        (J.total seat.old) (part H.log host.old host.new)) }
    ensures lines { PrintsGraph (rules (graph_plan nodes.now) shows.now) result
        (part H.log host.old host.new) }
{
    match check_graph(alloc, nodes) {
        Ok(_) => run_nodes(alloc, host, jobs, seat, turns, nodes, shows),
        Err(e) => Err(e),
    }
}

#[cfg(test)]
mod tests {
    use super::*;
    use crate::{Needs, NodeEnd, NodeEnds};
    use cc_host::{BenchHost, Command, OutputKind, Role, Script, Status};
    use cc_jobs::OneCaller;
    use cc_run::Planned;
    use std::test::Fail;

    const QUIET: Shows = Shows {
        warnings: true,
        debug: false,
        out: OutputKind::Forward,
        listens: false,
        stop: false,
    };

    fn node(alloc: Global, program: &str, places: &[u64]) -> Result<Node, Fail> {
        let mut needs = Needs::new(alloc);
        for place in places {
            needs.push(*place)?;
        }
        Ok(Node {
            cmd: Planned {
                role: Role::Compile,
                cmd: Command::new(alloc, program)?,
                message: None,
            },
            needs,
        })
    }

    fn script(alloc: Global, status: i32, turns: u64) -> Script {
        Script {
            status: Status::Code(status),
            pieces: Vec::new(alloc),
            unread: false,
            turns,
            after: None,
        }
    }

    fn told(alloc: Global, ends: &NodeEnds) -> Result<String, Fail> {
        let mut text = String::new(alloc);
        for place in 0..ends.len() {
            match ends.get(place) {
                Some(NodeEnd::Ended(status)) if status.is_success() => text.push_str("+")?,
                Some(NodeEnd::Ended(_)) => text.push_str("-")?,
                Some(NodeEnd::Skipped) => text.push_str("s")?,
                None => text.push_str("?")?,
            }
        }
        Ok(text)
    }

    // Three commands, of which the middle one ends so: the others need it.
    fn three(alloc: Global, status: i32, turns: u64, left: u64) -> Result<String, Fail> {
        let mut host = BenchHost::new(alloc)?;
        host.script(Role::Compile, "b", script(alloc, status, turns))?;
        let nodes = [
            node(alloc, "a", &[1])?,
            node(alloc, "b", &[])?,
            node(alloc, "c", &[0, 1])?,
        ];
        let (jobs, mut seat) = OneCaller::new(2);
        let mut budget = Turns { left, used: 0 };
        match run_graph(
            alloc,
            &mut host,
            &jobs,
            &mut seat,
            &mut budget,
            &nodes,
            &QUIET,
        ) {
            Ok(ends) => told(alloc, &ends),
            Err(GraphError::Run(e)) => Ok(format!(in alloc; "{:?}", e)?),
            Err(_) => Ok(format!(in alloc; "refused")?),
        }
    }

    #[test]
    fn ends_are_told(rt: HostRuntime) -> Result<(), Fail> {
        let alloc = rt.alloc();
        assert_eq!(rt; three(alloc, 0, 2, 50)?.as_str(), "+++");
        assert_eq!(rt; three(alloc, 3, 2, 50)?.as_str(), "s-s");
        assert_eq!(rt; three(alloc, 0, 90, 50)?.as_str(), "TurnsSpent");
        Ok(())
    }
}
