// A snapshot of an environment, which no later change of the process reaches.
ghost use Rattle.std.specs.Prelude.{◌≡◌, ◌↔◌, [], ◌++◌, List, ℕ, IfOk, OnOk, IsErr, IsTrue, Some, None, bytes_eq};
ghost use Rattle.std.specs.Option.{option_copied};
ghost use Rattle.std.specs.Cmp.{partial_equiv_from_equiv};
ghost use Rattle.cc_text.specs.Map.{HasDistinctKeys};
ghost use Rattle.cc_text.specs.Vars.{same_vars, same_vars-equiv};
ghost use Rattle.cc_env.specs.Index.{IsIndexed, shared_place};
ghost use Rattle.cc_env.specs.Snapshot.{last_value, snapshot_of, child_of, debug_text};

use crate::index::{Places, put_all};
use cc_text::{Mem, Vars};
use std::alloc::Global;
use std::collections::BTreeMap;
use std::fmt;
use std::marker::Model;
use std::sync::Arc;

/// The name isn't set in the snapshot. Set to the empty text is set.
#[derive(Clone, Copy, Debug, PartialEq, Eq)]
pub struct NotSet;

/// The variables of an environment at one time. Two are equal where they have the same names and values in the same
/// order. Its `Debug` text gives how many variables there are and none of them, since values may be secret.
///
/// A second snapshot of the same variables shares them and the places of their names, so that twenty builds hold one
/// environment.
///
/// Contracts see a list of names and values in which no name is there twice.
#[derive(Drop)]
pub struct EnvSnapshot {
    alloc: Global,
    vars: Vars,
    places: Option<Arc<Places, Global>>,
}

impl Model for EnvSnapshot {
    ghost use Rattle.std.specs.Prelude.{List, ℕ};
    ghost use Rattle.cc_env.specs.Index.{IsIndexed, shared_place};

    ghost Value = { List (List ℕ × List ℕ) };

    ghost view = { λ e. e.vars };

    ghost invariant = { λ e. IsIndexed e.vars (shared_place e.places) };
}

// The place of a name, counted from 0, or none where it isn't there.
fn place_of(places: &Option<Arc<Places, Global>>, name: &str) -> Option<usize>
    ensures { result ≡ shared_place places.now name.now }
{
    match places {
        Some(shared) => shared.get(name).copied(),
        None => None,
    }
}

// Gives each entry's name its value, in order: in place where the name is there, else in a pair added last. Refused
// for memory, `vars` may hold a part of the entries, and its caller drops it.
fn put_over(
    alloc: Global,
    vars: &mut Vars,
    places: &Option<Arc<Places, Global>>,
    entries: &Vars,
) -> Mem<()>
    requires { IsIndexed vars.old (shared_place places.now) }
    ensures { OnOk result (vars.new ≡ child_of vars.old entries.now) }
{
    let mut more = BTreeMap::new(alloc);
    match places {
        Some(shared) => put_all(alloc, vars, shared, &mut more, entries),
        None => put_all(alloc, vars, &BTreeMap::new(alloc), &mut more, entries),
    }
}

impl EnvSnapshot {
    /// The environment without variables. It takes no memory.
    pub fn empty(alloc: Global) -> EnvSnapshot
        ensures { result ≡ [] }
    {
        EnvSnapshot {
            alloc,
            vars: Vars::new(alloc),
            places: None,
        }
    }

    /// The snapshot of some pairs: each name once, at the place of its first pair, with the value of its last. The
    /// pairs are copied. Only want of memory refuses; nothing is kept then.
    pub fn from_vars(alloc: Global, vars: &Vars) -> Mem<EnvSnapshot>
        ensures snapshot { IfOk result (λ env. env ≡ snapshot_of vars.now) }
        ensures last { IfOk result (λ env. (name : List ℕ)
            → last_value env name ≡ last_value vars.now name) }
    {
        let mut kept = Vars::new(alloc);
        let mut places = BTreeMap::new(alloc);
        put_all(alloc, &mut kept, &BTreeMap::new(alloc), &mut places, vars)?;
        Ok(EnvSnapshot {
            alloc,
            vars: kept,
            places: Some(Arc::new(alloc, places)?),
        })
    }

    /// The value of a name, lent, or none where it isn't set. Case counts. It takes no memory.
    pub fn get(&self, name: &str) -> Option<&str>
        ensures { option_copied result ≡ last_value self.now name.now }
    {
        let place = place_of(&self.places, name)?;
        let (_, value) = self.vars.get(place)?;
        Some(value.as_str())
    }

    /// The value of a name that Cargo sets for build scripts (The Cargo Book, "Environment Variables"), lent.
    /// Refused with `NotSet` exactly where it isn't set, as when no build script runs. It takes no memory.
    pub fn get_cargo_var(&self, name: &str) -> Result<&str, NotSet>
        ensures set { IfOk result (λ value. last_value self.now name.now ≡ Some value.now) }
        ensures unset { IsErr result ↔ (last_value self.now name.now ≡ None) }
    {
        match self.get(name) {
            Some(value) => Ok(value),
            None => Err(NotSet),
        }
    }

    /// The variables in order, lent; no name is there twice. It takes no memory.
    pub fn vars(&self) -> &Vars
        ensures vars { result.now ≡ self.now }
        ensures distinct { HasDistinctKeys bytes_eq self.now }
    {
        &self.vars
    }

    /// The variables of a child that inherits these and is given some entries: each entry, in order, replaces the
    /// value of its name, or is added last. The snapshot stays as it is. Only want of memory refuses; nothing is
    /// kept then.
    pub fn child_vars(&self, alloc: Global, entries: &Vars) -> Mem<Vars>
        ensures child { IfOk result (λ vars. vars ≡ child_of self.now entries.now) }
        ensures last { IfOk result (λ vars. (name : List ℕ)
            → last_value vars name ≡ last_value (self.now ++ entries.now) name) }
        ensures inherits { IfOk result (λ vars. (name : List ℕ) → last_value entries.now name ≡ None
            → last_value vars name ≡ last_value self.now name) }
    {
        let mut vars = self.vars.try_clone()?;
        put_over(alloc, &mut vars, &self.places, entries)?;
        Ok(vars)
    }

    /// A second snapshot of the same variables, which shares them. Only want of memory refuses; nothing is kept then.
    pub fn try_clone(&self) -> Mem<EnvSnapshot>
        ensures { IfOk result (λ env. env ≡ self.now) }
    {
        let places = match &self.places {
            Some(shared) => Some(Arc::try_clone(shared)?),
            None => None,
        };
        Ok(EnvSnapshot {
            alloc: self.alloc,
            vars: self.vars.try_clone()?,
            places,
        })
    }
}

impl PartialEq for EnvSnapshot {
    ghost eq = { same_vars };

    ghost laws = { partial_equiv_from_equiv same_vars-equiv };

    fn eq(&self, other: &EnvSnapshot) -> bool
        ensures value { result ≡ same_vars self.now other.now }
        ensures equal { IsTrue result ↔ (self.now ≡ other.now) }
    {
        self.vars == other.vars
    }
}

impl Eq for EnvSnapshot {
    ghost laws = { same_vars-equiv };
}

impl fmt::Debug for EnvSnapshot {
    ghost debug_output = { λ env. Some (debug_text env) };

    fn fmt<W: fmt::Write>(&self, f: &mut fmt::Formatter<W>) -> fmt::Result {
        let count = self.vars.len();
        write!(f, "EnvSnapshot(<{count} variables>)")
    }
}
