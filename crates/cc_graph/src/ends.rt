// What became of commands with prerequisites.
ghost use Rattle.std.specs.Prelude.{◌≡◌, [], List, length, IfOk};
ghost use Rattle.std.specs.List.{slice_get};
ghost use Rattle.std.specs.Option.{option_copied};
ghost use Rattle.cc_graph.specs.Ends.{ends_from, ends_of};

use cc_host::Status;
use cc_run::Mark;
use cc_text::Mem;
use std::alloc::Global;
use std::marker::Model;

/// What became of a node.
#[derive(Clone, Copy, PartialEq, Eq, Debug)]
pub enum NodeEnd {
    /// It was started, and ended so.
    Ended(Status),
    /// It was never started, since something that it needs was skipped or ended with another status than 0.
    Skipped,
}

/// What became of each node, by place. Contracts see the list of them.
#[derive(Drop, Debug)]
pub struct NodeEnds {
    ends: Vec<NodeEnd>,
}

impl Model for NodeEnds {
    ghost use Rattle.std.specs.Prelude.{List};
    ghost use Rattle.cc_graph.specs.declared.ends.NodeEnd.{NodeEnd};

    ghost Value = { List NodeEnd };

    ghost view = { λ e. e.ends.items };
}

// Notes each end at its place.
fn note(ends: &mut Vec<NodeEnd>, marks: &[Mark])
    ensures { ends.new.items ≡ ends_from ends.old.items marks.now }
{
    for mark in marks {
        if let Mark::Over(place, status) = *mark {
            if place < ends.len() {
                ends[place] = NodeEnd::Ended(status);
            }
        }
    }
}

impl NodeEnds {
    // So many nodes, of which none was started.
    pub(crate) fn skipped(alloc: Global, count: usize) -> Mem<NodeEnds>
        ensures { IfOk result (λ ends. ends ≡ ends_of count []) }
    {
        let ends = vec![in alloc; NodeEnd::Skipped; count]?;
        Ok(NodeEnds { ends })
    }

    // The ends, with what ended noted.
    pub(crate) fn noted(self, marks: &[Mark]) -> NodeEnds
        ensures { result ≡ ends_from self marks.now }
    {
        let mut ends = self.ends;
        note(&mut ends, marks);
        NodeEnds { ends }
    }

    /// How many nodes there are. It takes no memory.
    pub fn len(&self) -> usize
        ensures { result ≡ length self.now }
    {
        self.ends.len()
    }

    /// What became of the node at a place, and none where there is no such node. It takes no memory.
    pub fn get(&self, place: usize) -> Option<&NodeEnd>
        ensures { option_copied result ≡ slice_get self.now place }
    {
        self.ends.get(place)
    }
}
