// The log of a host, and the children that run on it.
ghost use Rattle.std.specs.Prelude.{◌≡◌, ◌+◌, ◌-◌, ◌^◌, ◌<◌, ◌≤◌, [], ◌∷◌, ◌++◌, filter, map, vec_len, vec_capacity, IfOk, IfSome, OnOk, OnErr, MatchOption};
ghost use Rattle.std.specs.List.{flat_map, Contains};
ghost use Rattle.cc_host.specs.declared.event.Event.TheVariants.{Started, Abandoned, Opened, Dropped, Turn as OneTurn};
ghost use Rattle.cc_host.specs.declared.event.Start.TheVariants.{Child};
ghost use Rattle.cc_host.specs.declared.event.HostError.TheVariants.{Fault as Failed};
ghost use Rattle.cc_host.specs.Children.{live, running, IsFresh, IsNews, Waits};
ghost use Rattle.cc_host.specs.Journal.{IsQuiet, AreJoined};
ghost use Rattle.cc_host.specs.Probe.{IsOpen, IsTidy};
ghost use Rattle.cc_host.specs.Script.{patience_of, was_met};
ghost use Rattle.cc_host.specs.Event.{apart, turned};
ghost use Rattle.cc_host.specs.ChildLog.{ChildLogSeen, AreRunning, AreTold, IsIdle, live_of, has_news, news_in, left_in, left_by, without_child, begun, IsChildAt, Reserves, ReservesChild, Adds, AddsProbe, AddsFault};

use crate::child::{self, RunningChild};
use crate::script::{self, Scripted};
use crate::{Command, Event, HostCall, HostError, Journal, News, Pipes, Role, Why};
use cc_text::{Bytes, Mem, NoMemory, Text};
use std::alloc::Global;
use std::marker::Model;

/// The events of a host, oldest first, how often it failed, and the children that run, in start order. Ids are drawn upwards from 0.
#[derive(Drop)]
pub struct ChildLog {
    alloc: Global,
    journal: Journal,
    children: Vec<RunningChild>,
    next: u64,
}

impl Model for ChildLog {
    ghost Value = { ChildLogSeen };

    ghost view = { λ c. record {
      log = c.journal.log;
      faults = c.journal.faults;
      children = c.children.items;
      next = c.next;
      places = c.journal.places;
      probe_places = c.journal.probe_places;
      child_places = vec_capacity c.children - vec_len c.children;
    } };

    ghost invariant = { λ c. record {
      alive : AreRunning c.journal.log c.next c.children.items;
      kept : c.journal.children ≡ vec_len c.children;
    } };
}

impl ChildLog {
    /// No event and no child. It takes no memory.
    pub fn new(alloc: Global) -> ChildLog
        ensures log { result.log ≡ [] }
        ensures faults { result.faults ≡ 0 }
        ensures children { result.children ≡ [] }
    {
        ChildLog {
            alloc,
            journal: Journal::new(alloc),
            children: Vec::new(alloc),
            next: 0,
        }
    }

    /// Reserves the places of so many events. Refused for memory, the events are as before.
    pub fn reserve(&mut self, more: usize) -> Mem<()>
        ensures same { self.new ≡ record self.old { places = self.new.places } }
        ensures places { OnOk result (more ≤ self.new.places) }
    {
        self.journal.reserve(more)
    }

    /// Reserves the places of a probe file. Refused for memory, the events are as before.
    pub fn reserve_probe(&mut self) -> Mem<()>
        ensures same { Reserves self.old self.new }
        ensures places { OnOk result (2 ≤ self.new.places) }
        ensures probe_places { OnOk result (0 < self.new.probe_places) }
    {
        self.journal.reserve_probe()
    }

    /// Adds an event last that is of no child, no turn and no probe file.
    pub fn note(&mut self, event: Event)
        requires place { 0 < self.old.places }
        requires quiet { IsQuiet (event ∷ []) }
        requires idle { IsIdle event }
        ensures same { Adds event self.old self.new }
        ensures places { self.old.places ≤ self.new.places + 1 }
    {
        self.journal.note(event);
    }

    /// Adds a fault, and counts it. A count that stands at its last value stays there.
    pub fn fault(&mut self, call: HostCall, why: Why) -> HostError
        requires { 0 < self.old.places }
        ensures same { AddsFault call why self.old self.new }
        ensures refusal { result ≡ Failed call why }
        ensures later { self.old.faults ≤ self.new.faults }
        ensures places { self.old.places ≤ self.new.places + 1 }
    {
        self.journal.fault(call, why)
    }

    /// Adds the event of a probe file that was made.
    pub fn note_opened(&mut self, path: Text, kept: Text, bytes: Bytes)
        requires places { 2 ≤ self.old.places }
        requires probe_places { 0 < self.old.probe_places }
        requires same_path { kept ≡ path }
        ensures { AddsProbe (Opened path bytes) self.old self.new }
    {
        self.journal.note_opened(path, kept, bytes);
    }

    /// Adds the event of a probe file that is dropped, which takes no memory.
    pub fn note_dropped(&mut self, path: &str)
        requires { IsOpen path.now self.old.log }
        ensures { AddsProbe (Dropped path.now) self.old self.new }
    {
        self.journal.note_dropped(path);
    }

    /// Reserves the places and the id of a child. Refused for memory, the events are as before.
    pub fn reserve_child(&mut self) -> Mem<()>
        ensures same { ReservesChild self.old self.new }
        ensures places { OnOk result (2 ≤ self.new.places) }
        ensures child_places { OnOk result (0 < self.new.child_places) }
        ensures next { OnOk result (self.new.next < 2 ^ 64 - 1) }
    {
        if self.next == u64::MAX {
            return Err(NoMemory);
        }
        self.journal.reserve(2)?;
        self.children.reserve(1)?;
        Ok(())
    }

    /// Adds a child that was started, with the place of its script where it has one. Its id is answered.
    pub fn note_child(
        &mut self,
        role: Role,
        cmd: Command,
        pipes: Pipes,
        held: u64,
        place: Option<usize>,
    ) -> u64
        requires places { 2 ≤ self.old.places }
        requires child_places { 0 < self.old.child_places }
        requires next { self.old.next < 2 ^ 64 - 1 }
        ensures log { self.new.log ≡ self.old.log ++ Started result role cmd pipes held ∷ [] }
        ensures children { self.new.children ≡ self.old.children ++ begun result place ∷ [] }
        ensures fresh { IsFresh self.old.log (Child result) }
        ensures faults { self.new.faults ≡ self.old.faults }
    {
        let id = self.next;
        self.next = id + 1;
        self.children.push_reserved(RunningChild {
            id,
            polls: 0,
            mute: false,
            place,
        });
        self.journal.note_child(Event::Started {
            id,
            role,
            cmd,
            pipes,
            held,
        });
        id
    }

    /// The children that run, in start order, lent.
    pub fn children(&self) -> &[RunningChild]
        ensures { result.now ≡ self.now.children }
    {
        &self.children
    }

    /// Adds a turn in which each child that runs did what is told of it, one item for each in start order, and answers the items
    /// of those that did something. Refused for memory, the events are as before.
    pub fn turn_told(&mut self, mut told: Vec<News>) -> Mem<Vec<News>>
        requires { AreTold self.old.children told.items }
        ensures log { IfOk result (λ news. self.new.log ≡ self.old.log ++ turned news.items) }
        ensures told { IfOk result (λ news. news.items ≡ filter has_news told.items) }
        ensures children { OnOk result
            (self.new.children ≡ left_by self.old.children told.items) }
        ensures run { OnOk result (live self.new.log ≡ map live_of self.new.children) }
        ensures news { IfOk result (λ news. IsNews self.old.log news.items) }
        ensures faults { self.new.faults ≡ self.old.faults }
        ensures err { OnErr result (self.new ≡ record self.old { places = self.new.places }) }
    {
        let left = child::left_by(self.alloc, &self.children, &told)?;
        let events = child::events_of(self.alloc, &told)?;
        let Some(more) = events.len().checked_add(1) else {
            return Err(NoMemory);
        };
        self.journal.reserve(more)?;
        self.journal.note_turn();
        self.journal.note_all(events);
        self.journal.keep_children(left.len());
        self.children = left;
        keep_news(&mut told);
        Ok(told)
    }

    /// Lets each child run through one turn. Refused for memory, the events are as before.
    pub fn turn(&mut self, scripts: &[Scripted]) -> Mem<Vec<News>>
        ensures log { IfOk result (λ news. self.new.log ≡ self.old.log ++ turned news.items) }
        ensures reported { IfOk result
            (λ news. news.items ≡ news_in scripts.now self.old.children) }
        ensures children { OnOk result
            (self.new.children ≡ left_in scripts.now self.old.children) }
        ensures news { IfOk result (λ news. IsNews self.old.log news.items) }
        ensures waits { OnOk result (Waits (patience_of scripts.now) self.new.log) }
        ensures faults { self.new.faults ≡ self.old.faults }
        ensures err { OnErr result (self.new ≡ record self.old { places = self.new.places }) }
    {
        let told = child::told_by(self.alloc, &self.children, scripts)?;
        let news = self.turn_told(told)?;
        Ok(news)
    }

    /// Leaves a child alone that runs, which takes no memory. The place is answered at which it stood.
    pub fn abandon(&mut self, id: u64) -> usize
        requires { Contains (running self.old.log) id }
        ensures log { self.new.log ≡ self.old.log ++ Abandoned id ∷ [] }
        ensures children { self.new.children ≡ without_child id self.old.children }
        ensures place { IsChildAt id self.old.children result }
        ensures faults { self.new.faults ≡ self.old.faults }
    {
        match place_of(&self.children, id) {
            Some(place) => {
                self.children.remove(place);
                self.journal.note_gone(Event::Abandoned { id });
                place
            }
            None => unreachable!(),
        }
    }

    /// Whether a command that is waited for was started.
    pub fn was_met(&self, after: &Option<Text>) -> bool
        ensures { result ≡ was_met after.now self.now.log }
    {
        script::was_met(after, self.journal.events())
    }

    /// The events, oldest first, lent.
    pub fn events(&self) -> &[Event]
        ensures events { flat_map apart result.now ≡ self.now.log }
        ensures joined { AreJoined result.now }
        ensures tidy { IsTidy self.now.log }
    {
        self.journal.events()
    }
}

// Takes out the items of those that did nothing.
fn keep_news(told: &mut Vec<News>)
    ensures { told.new.items ≡ filter has_news told.old.items }
{
    told.retain(|news| child::has_news(news));
}

// The place of the first child of an id.
#[tactic(auto, using(crate::proofs::ChildLogLemmas::child_here, crate::proofs::ChildLogLemmas::child_on))]
fn place_of(children: &[RunningChild], id: u64) -> Option<usize>
    ensures { MatchOption result (without_child id children.now ≡ children.now)
        (IsChildAt id children.now) }
{
    for (at, child) in children.iter().enumerate() {
        if child.id == id {
            return Some(at);
        }
    }
    None
}
