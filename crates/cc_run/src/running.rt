// The children of a run that run, and its book: what began and what ended.
ghost use Rattle.std.specs.Prelude.{◌≡◌, ◌+◌, ◌-◌, ◌<◌, ◌^◌, length, map, MatchOption, IfOk, IfSome, List, Some, Option, Bool};
ghost use Rattle.std.specs.Option.{option_map};
ghost use Rattle.cc_run.specs.Children.{IsOneLess, nothing_kept, run_of, seat, without_child, IsNoChild, IsFirst};
ghost use Rattle.cc_run.specs.Hearing.{of_child, of_some};
ghost use Rattle.cc_run.specs.Marks.{begins, has_failed, last_failure};
ghost use Rattle.cc_run.specs.Run.{ended_run, place_of};
ghost use Rattle.cc_run.specs.declared.mark.Mark.{Mark as MarkSeen};
ghost use Rattle.cc_run.specs.declared.print.Notice.{Notice as LineSeen};
ghost use Rattle.cc_run.specs.declared.running.Child.{Child as ChildSeen};

use crate::{Forwarder, Mark};
use cc_host::Status;
use std::alloc::Global;
use std::marker::Model;

/// A child that runs: its id, its place in the queue, and the bytes that it gave since its last line feed.
#[derive(Drop)]
pub(crate) struct Child {
    pub id: u64,
    pub place: usize,
    pub rest: Forwarder,
}

/// What began and what ended in a run, in order.
#[derive(Drop)]
pub struct Marks {
    marks: Vec<Mark>,
}

impl Model for Marks {
    ghost use Rattle.std.specs.Prelude.{List};
    ghost use Rattle.cc_run.specs.declared.mark.Mark.{Mark};

    ghost Value = { List Mark };

    ghost view = { λ m. m.marks.items };
}

impl Marks {
    /// The marks, oldest first.
    pub fn as_slice(&self) -> &[Mark]
        ensures { result.now ≡ self.now }
    {
        self.marks.as_slice()
    }
}

/// The children of a run that run, in start order, each with its place in the queue and with what it wrote on its
/// standard error since its last line feed; and what began and what ended, in order. It is kept between the polls of
/// one run.
#[derive(Drop)]
pub struct Running {
    pub(crate) children: Vec<Child>,
    pub(crate) marks: Vec<Mark>,
    pub(crate) begun: usize,
    pub(crate) failed: bool,
}

impl Model for Running {
    ghost use Rattle.std.specs.Prelude.{vec_capacity};
    ghost use Rattle.cc_run.specs.Children.{Kept, IsBooked};

    ghost Value = { Kept };

    ghost view = { λ r. record { children = r.children.items; marks = r.marks.items } };

    ghost invariant = { λ r. IsBooked r.children.items r.marks.items (vec_capacity r.marks) r.begun r.failed };
}

impl Running {
    /// A run in which no command was started. It takes no memory.
    pub fn new(alloc: Global) -> Running
        ensures { result ≡ nothing_kept }
    {
        Running {
            children: Vec::new(alloc),
            marks: Vec::new(alloc),
            begun: 0,
            failed: false,
        }
    }

    /// What began and what ended, oldest first: with the place of each end its status.
    pub fn marks(&self) -> &[Mark]
        ensures { result.now ≡ self.now.marks }
    {
        self.marks.as_slice()
    }

    /// Whether one of its commands ended with another status than 0.
    pub fn has_failed(&self) -> bool
        ensures { result ≡ has_failed self.now.marks }
    {
        self.failed
    }

    // How many commands were started.
    pub(crate) fn begun(&self) -> usize
        ensures { result ≡ begins self.now.marks }
    {
        self.begun
    }

    // The allocator of its list.
    pub(crate) fn alloc(&self) -> Global {
        *self.children.allocator()
    }

    // How many children run.
    pub(crate) fn len(&self) -> usize
        ensures len { result ≡ length self.now.children }
        ensures few { result < 2 ^ 64 - 1 }
    {
        self.children.len()
    }

    // The child of that id has ended. Gives it, where it is one of this run.
    #[tactic(auto, using(crate::proofs::ChildLemmas::seats_without, crate::proofs::MarkLemmas::begins_over, crate::proofs::MarkLemmas::failed_over))]
    pub(crate) fn end(&mut self, id: u64, status: Status) -> Option<Child>
        ensures place { option_map (λ c. c.place) result
            ≡ place_of id (map seat self.old.children) }
        ensures run { run_of self.new ≡ ended_run (run_of self.old) id (Some status) }
        ensures len { MatchOption result (self.new ≡ self.old) (λ _. IsOneLess self.old self.new) }
        ensures kept { self.new.children ≡ without_child id self.old.children }
        ensures own { (f : ChildSeen → List LineSeen)
            → of_child id f self.old.children ≡ of_some f result }
    {
        let at = find(&self.children, id)?;
        let child = self.children.remove(at);
        self.marks.push_reserved(Mark::Over(child.place, status));
        if !status.is_success() {
            self.failed = true;
        }
        Some(child)
    }

    // What began and what ended.
    pub(crate) fn into_marks(self) -> Marks
        ensures { result ≡ self.marks }
    {
        Marks { marks: self.marks }
    }
}

// Where the first child of that id stands.
#[tactic(auto, using(crate::proofs::ChildLemmas::place_here, crate::proofs::ChildLemmas::rest_here, crate::proofs::ChildLemmas::place_on, crate::proofs::ChildLemmas::rest_on))]
pub(crate) fn find(children: &[Child], id: u64) -> Option<usize>
    ensures { MatchOption result (IsNoChild id children.now) (IsFirst id children.now) }
{
    for (at, child) in children.iter().enumerate() {
        if child.id == id {
            return Some(at);
        }
    }
    None
}
