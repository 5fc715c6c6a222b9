// The log of a host, the count of its faults, and the places that it reserved.
ghost use Rattle.std.specs.Prelude.{◌≡◌, ◌+◌, ◌-◌, ◌^◌, ◌<◌, ◌≤◌, [], ◌∷◌, ◌++◌, min, length, vec_len, vec_capacity, OnOk, MatchOption, replicate};
ghost use Rattle.std.specs.List.{flat_map, slice_index_or};
ghost use Rattle.cc_host.specs.declared.event.Event.TheVariants.{Fault, Opened, Dropped, Turn as OneTurn};
ghost use Rattle.cc_host.specs.declared.event.HostError.TheVariants.{Fault as Failed};
ghost use Rattle.cc_host.specs.Event.{apart};
ghost use Rattle.cc_host.specs.Probe.{times, opens, drops, IsOpen, IsTidy};
ghost use Rattle.cc_host.specs.Journal.{JournalSeen, IsKept, IsQuiet, turn_of, AreJoined, IsPlaceOf, Reserves, Adds, AddsKeeping, AddsProbe, AddsFault};

use crate::{Event, HostCall, HostError, Why};
use cc_text::{Bytes, Mem, NoMemory, Text};
use std::alloc::Global;
use std::marker::Model;

/// The events of a host, oldest first, how often it failed, and its probe files. Turns one after another stand as one event with their
/// sum. A place for an event can be reserved, so that noting it can't be refused: each child that runs keeps one, and so does each
/// probe file that isn't dropped.
#[derive(Drop)]
pub struct Journal {
    events: Vec<Event>,
    faults: u64,
    children: usize,
    probes: Vec<Text>,
}

impl Model for Journal {
    ghost Value = { JournalSeen };

    ghost view = { λ j. record {
      log = flat_map apart j.events.items;
      faults = j.faults;
      children = j.children;
      places = vec_capacity j.events - (vec_len j.events + j.children + vec_len j.probes);
      probe_places = vec_capacity j.probes - vec_len j.probes;
    } };

    ghost invariant = { λ j. record {
      kept : IsKept (flat_map apart j.events.items) j.probes.items;
      joined : AreJoined j.events.items;
      room : vec_len j.events + j.children + vec_len j.probes ≤ vec_capacity j.events;
    } };
}

impl Journal {
    /// The journal of a host before its first call. It takes no memory.
    pub fn new(alloc: Global) -> Journal
        ensures log { result.log ≡ [] }
        ensures faults { result.faults ≡ 0 }
        ensures children { result.children ≡ 0 }
    {
        Journal {
            events: Vec::new(alloc),
            faults: 0,
            children: 0,
            probes: Vec::new(alloc),
        }
    }

    /// Reserves the places of so many events. Refused for memory, the events are as before.
    pub fn reserve(&mut self, more: usize) -> Mem<()>
        ensures same { self.new ≡ record self.old { places = self.new.places } }
        ensures places { OnOk result (more ≤ self.new.places) }
    {
        let kept = self.children + self.probes.len();
        let Some(all) = kept.checked_add(more) else {
            return Err(NoMemory);
        };
        self.events.reserve(all)?;
        Ok(())
    }

    /// Reserves the places of a probe file. Refused for memory, the events are as before.
    pub fn reserve_probe(&mut self) -> Mem<()>
        ensures same { Reserves self.old self.new }
        ensures places { OnOk result (2 ≤ self.new.places) }
        ensures probe_places { OnOk result (0 < self.new.probe_places) }
    {
        self.reserve(2)?;
        self.probes.reserve(1)?;
        Ok(())
    }

    /// Adds an event last that is of no probe file and no turn.
    pub fn note(&mut self, event: Event)
        requires place { 0 < self.old.places }
        requires quiet { IsQuiet (event ∷ []) }
        ensures same { Adds (apart event) self.old self.new }
        ensures places { self.old.places ≤ self.new.places + 1 }
    {
        self.events.push_reserved(event);
    }

    /// Adds events last that are of no probe file and no turn.
    pub fn note_all(&mut self, mut events: Vec<Event>)
        requires places { vec_len events ≤ self.old.places }
        requires quiet { IsQuiet events.items }
        ensures same { Adds (flat_map apart events.items) self.old self.new }
        ensures places { self.old.places ≤ self.new.places + vec_len events }
    {
        match self.events.append(&mut events) {
            Ok(()) => {}
            Err(_) => unreachable!(),
        }
    }

    /// Adds a fault, and counts it. A count that stands at its last value stays there.
    pub fn fault(&mut self, call: HostCall, why: Why) -> HostError
        requires { 0 < self.old.places }
        ensures same { AddsFault call why self.old self.new }
        ensures refusal { result ≡ Failed call why }
        ensures later { self.old.faults ≤ self.new.faults }
        ensures places { self.old.places ≤ self.new.places + 1 }
    {
        self.note(Event::Fault { call, why });
        self.faults = self.faults.saturating_add(1);
        HostError::Fault(call, why)
    }

    /// Adds an event of a child that begins to run. The child keeps a place.
    pub fn note_child(&mut self, event: Event)
        requires places { 2 ≤ self.old.places }
        requires quiet { IsQuiet (event ∷ []) }
        ensures same { AddsKeeping (self.old.children + 1) (apart event) self.old self.new }
    {
        self.note(event);
        self.children += 1;
    }

    /// Leaves so many children their places, and gives back those of the others.
    pub fn keep_children(&mut self, left: usize)
        requires { left ≤ self.old.children }
        ensures { self.new ≡ record self.old
            { children = left; places = self.old.places + (self.old.children - left) } }
    {
        self.children = left;
    }

    /// Adds an event of a child that runs no more, which takes no memory. The child's place is given back.
    pub fn note_gone(&mut self, event: Event)
        requires child { 0 < self.old.children }
        requires quiet { IsQuiet (event ∷ []) }
        ensures { AddsKeeping (self.old.children - 1) (apart event) self.old self.new }
    {
        self.children -= 1;
        self.note(event);
    }

    /// Adds a turn last.
    pub fn note_turn(&mut self)
        requires { 0 < self.old.places }
        ensures same { Adds (OneTurn 1 ∷ []) self.old self.new }
        ensures places { self.old.places ≤ self.new.places + 1 }
    {
        add_turn(&mut self.events);
    }

    /// Adds the event of a probe file that was made. The file keeps a place.
    pub fn note_opened(&mut self, path: Text, kept: Text, bytes: Bytes)
        requires places { 2 ≤ self.old.places }
        requires probe_places { 0 < self.old.probe_places }
        requires same_path { kept ≡ path }
        ensures { AddsProbe (Opened path bytes) self.old self.new }
    {
        self.events.push_reserved(Event::Opened { path, bytes });
        self.probes.push_reserved(kept);
    }

    /// Adds the event of a probe file that is dropped, which takes no memory.
    pub fn note_dropped(&mut self, path: &str)
        requires { IsOpen path.now self.old.log }
        ensures { AddsProbe (Dropped path.now) self.old self.new }
    {
        match place_of(&self.probes, path) {
            Some(place) => {
                let path = self.probes.remove(place);
                self.events.push_reserved(Event::Dropped { path });
            }
            None => unreachable!(),
        }
    }

    /// The events, oldest first, lent.
    pub fn events(&self) -> &[Event]
        ensures events { flat_map apart result.now ≡ self.now.log }
        ensures joined { AreJoined result.now }
        ensures tidy { IsTidy self.now.log }
    {
        &self.events
    }
}

// The first place of a path among these, or none where it isn't there.
#[tactic(auto, using(crate::proofs::JournalLemmas::times_more))]
fn place_of(files: &[Text], path: &str) -> Option<usize>
    ensures { MatchOption result (times path.now files.now ≡ 0) (IsPlaceOf path.now files.now) }
{
    for (at, file) in files.iter().enumerate() {
        if path == file.as_str() {
            return Some(at);
        }
    }
    None
}

// How many turns an event stands for, where it is of turns.
fn turns_in(event: &Event) -> Option<u64>
    ensures { MatchOption result (turn_of event.now ≡ []) (λ count. event.now ≡ OneTurn count) }
{
    match event {
        Event::Turn { count } => Some(*count),
        _ => None,
    }
}

// Adds a turn last, after so many turns that were the last event.
fn put_turn(events: &mut Vec<Event>, count: u64)
    requires { vec_len events.old + 2 ≤ vec_capacity events.old }
    ensures log { flat_map apart events.new.items
        ≡ (flat_map apart events.old.items ++ replicate count (OneTurn 1)) ++ OneTurn 1 ∷ [] }
    ensures joined { AreJoined (events.old.items ++ OneTurn count ∷ [])
        → AreJoined events.new.items }
    ensures len { vec_len events.new ≤ vec_len events.old + 2 }
    ensures capacity { vec_capacity events.new ≡ vec_capacity events.old }
{
    match count.checked_add(1) {
        Some(count) => events.push_reserved(Event::Turn { count }),
        None => {
            events.push_reserved(Event::Turn { count });
            events.push_reserved(Event::Turn { count: 1 });
        }
    }
}

// Adds a turn to the last event where that is of turns, and as an event of its own where it isn't.
fn add_turn(events: &mut Vec<Event>)
    requires { vec_len events.old < vec_capacity events.old }
    ensures log { flat_map apart events.new.items
        ≡ flat_map apart events.old.items ++ OneTurn 1 ∷ [] }
    ensures joined { AreJoined events.old.items → AreJoined events.new.items }
    ensures len { vec_len events.new ≤ vec_len events.old + 1 }
    ensures capacity { vec_capacity events.new ≡ vec_capacity events.old }
{
    match events.pop() {
        Some(event) => match turns_in(&event) {
            Some(count) => put_turn(events, count),
            None => {
                events.push_reserved(event);
                events.push_reserved(Event::Turn { count: 1 });
            }
        },
        None => events.push_reserved(Event::Turn { count: 1 }),
    }
}
