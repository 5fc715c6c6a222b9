// Members of a fleet, and what becomes of them.
ghost use Rattle.std.specs.Prelude.{◌≡◌, ◌++◌, [], ◌∷◌, length, OnOk, OnErr};
ghost use Rattle.std.specs.List.{slice_get};
ghost use Rattle.std.specs.Option.{option_copied};

use cc_build::{Build, Error};
use cc_host::World;
use cc_text::{Mem, Text};
use std::alloc::Global;
use std::marker::Model;

/// A build of a fleet, with the name of its library.
#[derive(Drop)]
pub struct Member<W: World> {
    /// The name of its library, such as `foo` or `libfoo.a`.
    pub output: Text,
    /// Its settings and its environment.
    pub build: Build<W>,
}

/// What became of a member.
#[derive(Drop, Debug)]
pub enum FleetEnd {
    /// Its library is written, and its link lines are printed.
    Built,
    /// A command of it failed, or its library or link lines were refused.
    Refused(Error),
}

/// What became of each member, by its place. Contracts see the list of them.
#[derive(Drop, Debug)]
pub struct FleetEnds {
    ends: Vec<FleetEnd>,
}

impl Model for FleetEnds {
    ghost use Rattle.std.specs.Prelude.{List};
    ghost use Rattle.cc_fleet.specs.declared.members.FleetEnd.{FleetEnd};

    ghost Value = { List FleetEnd };

    ghost view = { λ e. e.ends.items };
}

impl FleetEnds {
    // The ends of no member. It takes no memory.
    pub(crate) fn new(alloc: Global) -> FleetEnds
        ensures { result ≡ [] }
    {
        FleetEnds {
            ends: Vec::new(alloc),
        }
    }

    // Adds the end of the next member.
    pub(crate) fn push(&mut self, end: FleetEnd) -> Mem<()>
        ensures ok { OnOk result (self.new ≡ self.old ++ end ∷ []) }
        ensures err { OnErr result (self.new ≡ self.old) }
    {
        self.ends.push(end)?;
        Ok(())
    }

    /// How many members there are. It takes no memory.
    pub fn len(&self) -> usize
        ensures { result ≡ length self.now }
    {
        self.ends.len()
    }

    /// What became of the member at a place, and none where there is no such member. It takes no memory.
    pub fn get(&self, place: usize) -> Option<&FleetEnd>
        ensures { option_copied result ≡ slice_get self.now place }
    {
        self.ends.get(place)
    }
}
