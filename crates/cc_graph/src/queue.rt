// Commands with prerequisites as a queue.
ghost use Rattle.std.specs.Prelude.{◌≡◌, ◌+◌, ◌<◌, ◌*◌, ◌==◌, ◌++◌, ◌∷◌, ℕ, List, [], true, length, replicate, None, IfOk, OnOk};
ghost use Rattle.std.specs.List.{All};
ghost use Rattle.cc_host.specs.Status.{is_success};
ghost use Rattle.cc_host.specs.declared.event.Status.{Status};
ghost use Rattle.cc_run.specs.Book.{one_where};
ghost use Rattle.cc_run.specs.declared.mark.Mark.{Mark};
ghost use Rattle.cc_run.specs.declared.mark.Mark.TheVariants.{Over};
ghost use Rattle.cc_graph.specs.Frontier.{times};
ghost use Rattle.cc_graph.specs.Graph.{graph_of, off};
ghost use Rattle.cc_graph.specs.Queue.{Tells, waiters_at};

use crate::frontier::Frontier;
use crate::{Needs, Node};
use cc_host::Status;
use cc_run::{Planned, Queue};
use cc_text::Mem;
use std::alloc::Global;

/// Commands with prerequisites. One is started only after all that it needs ended with the status 0. Each place has
/// those that wait for it, so each need is looked at once.
#[derive(Drop)]
pub(crate) struct Graph<'a> {
    nodes: &'a [Node],
    waiters: Vec<Needs>,
    frontier: Frontier,
}

// So many lists without a place.
fn empty_lists(alloc: Global, count: usize) -> Mem<Vec<Needs>>
    ensures { IfOk result (λ lists. lists.items ≡ replicate count []) }
{
    let mut lists = Vec::new(alloc);
    for place in 0..count {
        let _ = place;
        lists.push(Needs::new(alloc))?;
    }
    Ok(lists)
}

// Lets a place wait for each of its needs.
fn wait_for(waiters: &mut Vec<Needs>, place: usize, needs: &[u64]) -> Mem<()>
    requires within { All (λ k. k < length waiters.old.items) needs.now }
    ensures size { length waiters.new.items ≡ length waiters.old.items }
    ensures waits { OnOk result ((k q : ℕ) → times q (waiters_at waiters.new.items k)
        ≡ times q (waiters_at waiters.old.items k) + one_where (place == q) * times k needs.now) }
{
    for need in needs {
        waiters[*need as usize].push(place as u64)?;
    }
    Ok(())
}

impl<'a> Graph<'a> {
    /// Nodes of which none was started, and of which each need is a place.
    pub(crate) fn new(alloc: Global, nodes: &'a [Node]) -> Mem<Graph<'a>>
        requires closed { off (graph_of nodes.now) ≡ None }
        ensures nodes { IfOk result (λ g. g.nodes.now ≡ nodes.now) }
        ensures fresh { IfOk result (λ g.
            Tells (graph_of g.nodes.now) g.waiters.items g.frontier []) }
    {
        let mut frontier = Frontier::new(alloc, nodes.len())?;
        let mut waiters = empty_lists(alloc, nodes.len())?;
        for (place, node) in nodes.iter().enumerate() {
            wait_for(&mut waiters, place, node.needs.as_slice())?;
            frontier.add(node.needs.len())?;
        }
        Ok(Graph {
            nodes,
            waiters,
            frontier,
        })
    }

    // The command at a place ended with 0: those that wait for it are counted down, once.
    fn succeed(&mut self, place: usize)
        ensures nodes { self.new.nodes ≡ self.old.nodes }
        ensures stands { (marks : List Mark) (status : Status) → is_success status ≡ true
            → Tells (graph_of self.old.nodes.now) self.old.waiters.items self.old.frontier marks
            → Tells (graph_of self.old.nodes.now) self.new.waiters.items self.new.frontier
            (marks ++ Over place status ∷ []) }
    {
        if place < self.waiters.len() {
            self.frontier.lower_all(self.waiters[place].as_slice());
            self.waiters[place].clear();
        }
    }
}

impl Queue for Graph<'_> {
    ghost use Rattle.cc_graph.specs.Graph.{graph_of};
    ghost use Rattle.cc_graph.specs.Queue.{graph_plan, Tells};

    ghost plan = { λ g. graph_plan g.nodes.now };

    ghost stands = { λ g marks. Tells (graph_of g.nodes.now) g.waiters.items g.frontier marks };

    fn next(&self) -> Option<usize> {
        self.frontier.first()
    }

    fn command(&self, place: usize) -> Option<&Planned> {
        match self.nodes.get(place) {
            Some(node) => Some(&node.cmd),
            None => None,
        }
    }

    fn begin(&mut self, _place: usize) {
        self.frontier.take();
    }

    fn end(&mut self, place: usize, status: Status) {
        if status.is_success() {
            self.succeed(place);
        }
    }
}
