// The environment of a build: what the process had, and what the build sets for its commands.
ghost use Rattle.std.specs.Prelude.{◌≡◌, ◌++◌, [], ◌∷◌, List, ℕ, IfOk, OnOk, OnErr};
ghost use Rattle.std.specs.Option.{option_copied};
ghost use Rattle.cc_env.specs.Env.{EnvSeen, overridable};
ghost use Rattle.cc_env.specs.Snapshot.{child_of, last_value};

use crate::EnvSnapshot;
use cc_text::{Mem, Text, Vars};
use std::alloc::Global;
use std::marker::Model;

/// A snapshot that is inherited, and explicit entries that the build adds for its commands. Where both have a name,
/// the explicit entry counts for the commands; variables that are meant for this program alone, as
/// `CC_FORCE_DISABLE`, are read from the snapshot.
#[derive(Drop)]
pub struct BuildEnv {
    inherited: EnvSnapshot,
    explicit: Vars,
}

impl Model for BuildEnv {
    ghost Value = { EnvSeen };

    ghost view = { λ e. record { inherited = e.inherited; explicit = e.explicit } };
}

// The last value of a name, or none.
#[tactic(auto, unfolding(crate::specs::Snapshot::last_value))]
fn last_of<'a>(vars: &'a Vars, name: &str) -> Option<&'a Text>
    ensures { option_copied result ≡ last_value vars.now name.now }
{
    let (_, value) = vars
        .as_slice()
        .iter()
        .rev()
        .find(|pair| pair.0.as_str() == name)?;
    Some(value)
}

impl BuildEnv {
    /// Nothing inherited, and no explicit entry. It takes no memory.
    pub fn empty(alloc: Global) -> BuildEnv
        ensures { result ≡ record { inherited = []; explicit = [] } }
    {
        BuildEnv {
            inherited: EnvSnapshot::empty(alloc),
            explicit: Vars::new(alloc),
        }
    }

    /// The inherited snapshot, lent, without the explicit entries. It takes no memory.
    pub fn inherited(&self) -> &EnvSnapshot
        ensures { result.now ≡ self.now.inherited }
    {
        &self.inherited
    }

    /// The explicit entries in the order in which they came, lent; a name may stand more than once. It takes no
    /// memory.
    pub fn explicit(&self) -> &Vars
        ensures { result.now ≡ self.now.explicit }
    {
        &self.explicit
    }

    /// Takes over another snapshot in the place of the inherited one, which is dropped; the explicit entries stay.
    /// It takes no memory.
    pub fn set_inherited(&mut self, snapshot: EnvSnapshot)
        ensures { self.new ≡ record self.old { inherited = snapshot } }
    {
        self.inherited = snapshot;
    }

    /// Adds an explicit entry last; from now on it counts before all that have its name. Refused for memory, the
    /// environment stays as it was.
    pub fn add_explicit(&mut self, name: &str, value: &str) -> Mem<()>
        ensures ok { OnOk result (self.new
            ≡ record self.old { explicit = self.old.explicit ++ (name.now, value.now) ∷ [] }) }
        ensures err { OnErr result (self.new ≡ self.old) }
    {
        self.explicit.push(name, value)
    }

    /// The value of a name as a command would see it: that of its last explicit entry, else the snapshot's, lent,
    /// or none. For variables that compilers read too, as `WASI_SDK_PATH`. It takes no memory.
    #[tactic(auto, using(crate::proofs::EnvLemmas::overridable_is))]
    pub fn overridable(&self, name: &str) -> Option<&str>
        ensures value { option_copied result ≡ overridable self.now name.now }
        ensures inherits { last_value self.now.explicit name.now ≡ None
            → option_copied result ≡ last_value self.now.inherited name.now }
    {
        match last_of(&self.explicit, name) {
            Some(value) => Some(value.as_str()),
            None => self.inherited.get(name),
        }
    }

    /// The variables of a command: the snapshot's, in which each explicit entry, in order, replaces the value of
    /// its name or is added last. So each name stands once, with the value that `overridable` gives. Only want of
    /// memory refuses; nothing is kept then.
    #[tactic(auto, unfolding(crate::specs::Env::overridable))]
    pub fn child_vars(&self, alloc: Global) -> Mem<Vars>
        ensures child { IfOk result (λ vars. vars ≡ child_of self.now.inherited self.now.explicit) }
        ensures last { IfOk result (λ vars. (name : List ℕ)
            → last_value vars name ≡ overridable self.now name) }
    {
        self.inherited.child_vars(alloc, &self.explicit)
    }

    /// A second environment with the same snapshot and entries. Only want of memory refuses; nothing is kept then.
    pub fn try_clone(&self) -> Mem<BuildEnv>
        ensures { IfOk result (λ env. env ≡ self.now) }
    {
        Ok(BuildEnv {
            inherited: self.inherited.try_clone()?,
            explicit: self.explicit.try_clone()?,
        })
    }
}
