// The commands of all members as one list.
ghost use Rattle.std.specs.Prelude.{◌≡◌, [], None, OnOk};
ghost use Rattle.cc_fleet.specs.Joined.{Adds};

use cc_run::{Planned, Shows};
use cc_text::{Mem, Words};
use std::alloc::Global;

/// The plans of members, put together.
#[derive(Drop)]
pub struct Joined {
    /// The commands of all members, in order.
    pub commands: Vec<Planned>,
    /// For each of them the place of its member.
    pub owners: Vec<usize>,
    /// For each member the paths of its objects.
    pub objects: Vec<Words>,
    /// What the first member shows.
    pub shows: Option<Shows>,
}

impl Joined {
    /// The plans of no member. It takes no memory.
    pub fn new(alloc: Global) -> Joined
        ensures commands { result.commands.items ≡ [] }
        ensures owners { result.owners.items ≡ [] }
        ensures objects { result.objects.items ≡ [] }
        ensures shows { result.shows ≡ None }
    {
        Joined {
            commands: Vec::new(alloc),
            owners: Vec::new(alloc),
            objects: Vec::new(alloc),
            shows: None,
        }
    }

    /// Adds the plan of the next member.
    pub fn add(
        &mut self,
        alloc: Global,
        commands: Vec<Planned>,
        objects: Words,
        shows: Shows,
    ) -> Mem<()>
        ensures { OnOk result (Adds self.old self.new commands.items objects shows) }
    {
        let member = self.objects.len();
        let mut owners = vec![in alloc; member; commands.len()]?;
        let mut commands = commands;
        self.commands.append(&mut commands)?;
        self.owners.append(&mut owners)?;
        self.objects.push(objects)?;
        if let None = self.shows {
            self.shows = Some(shows);
        }
        Ok(())
    }
}
