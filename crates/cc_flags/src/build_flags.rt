// The flags and the macros of a build.
ghost use Rattle.std.specs.Prelude.{◌≡◌, ◌++◌, [], ◌∷◌, length, slice_get, IfOk, OnOk, OnErr};
ghost use Rattle.std.specs.Option.{option_copied};
ghost use Rattle.cc_flags.specs.BuildFlags.{is_always, without};

use cc_text::{Mem, Text};
use std::alloc::Global;
use std::marker::Model;

/// A flag of the compiler.
#[derive(Drop, Debug)]
pub enum BuildFlag {
    /// It is always given.
    Always(Text),
    /// It is given where the compiler supports it.
    IfSupported(Text),
}

impl BuildFlag {
    /// A second flag, equal to this one. Only want of memory refuses.
    pub fn try_clone(&self) -> Mem<BuildFlag>
        ensures { IfOk result (λ flag. flag ≡ self.now) }
    {
        match self {
            BuildFlag::Always(word) => Ok(BuildFlag::Always(word.try_clone()?)),
            BuildFlag::IfSupported(word) => Ok(BuildFlag::IfSupported(word.try_clone()?)),
        }
    }
}

fn is_always(flag: &BuildFlag, word: &str) -> bool
    ensures { result ≡ is_always word.now flag.now }
{
    match flag {
        BuildFlag::Always(text) => text.as_str() == word,
        BuildFlag::IfSupported(_) => false,
    }
}

/// A list of flags. Contracts see the list.
#[derive(Drop, Debug)]
pub struct Flags {
    flags: Vec<BuildFlag>,
}

impl Model for Flags {
    ghost use Rattle.std.specs.Prelude.{List};
    ghost use Rattle.cc_flags.specs.declared.build_flags.BuildFlag.{BuildFlag as Flag};

    ghost Value = { List Flag };

    ghost view = { λ f. f.flags.items };
}

impl Flags {
    /// The empty list. It takes no memory.
    pub fn new(alloc: Global) -> Flags
        ensures { result ≡ [] }
    {
        Flags {
            flags: Vec::new(alloc),
        }
    }

    /// Adds a flag last. Refused for memory, the list stays as it was.
    pub fn push(&mut self, flag: BuildFlag) -> Mem<()>
        ensures ok { OnOk result (self.new ≡ self.old ++ flag ∷ []) }
        ensures err { OnErr result (self.new ≡ self.old) }
    {
        self.flags.push(flag)?;
        Ok(())
    }

    /// Adds other flags last, and takes them over. Refused for memory, the list stays as it was.
    pub fn append(&mut self, flags: Flags) -> Mem<()>
        ensures ok { OnOk result (self.new ≡ self.old ++ flags) }
        ensures err { OnErr result (self.new ≡ self.old) }
    {
        let mut flags = flags.flags;
        self.flags.append(&mut flags)?;
        Ok(())
    }

    /// Takes out every `Always` flag that is this word, and no other. It takes no memory.
    pub fn remove(&mut self, word: &str)
        ensures { self.new ≡ without word.now self.old }
    {
        self.flags.retain(|flag| !is_always(flag, word));
    }

    /// How many flags there are.
    pub fn len(&self) -> usize
        ensures { result ≡ length self.now }
    {
        self.flags.len()
    }

    /// The flag at a place, from 0, lent, or none past the end. It takes no memory.
    pub fn get(&self, place: usize) -> Option<&BuildFlag>
        ensures { option_copied result ≡ slice_get self.now place }
    {
        self.flags.get(place)
    }

    /// The flags in order, lent.
    pub fn as_slice(&self) -> &[BuildFlag]
        ensures { result.now ≡ self.now }
    {
        self.flags.as_slice()
    }

    /// A second list of the same flags. Only want of memory refuses; this list stays as it is.
    pub fn try_clone(&self) -> Mem<Flags>
        ensures { IfOk result (λ flags. flags ≡ self.now) }
    {
        let mut flags = Flags::new(*self.flags.allocator());
        for flag in &self.flags {
            flags.push(flag.try_clone()?)?;
        }
        Ok(flags)
    }
}

/// A macro, with its value where it has one.
#[derive(Drop, Debug)]
pub struct Definition {
    /// Its name, as the user has it: nothing is checked.
    pub name: Text,
    /// Its value, or none, which the preprocessor reads as 1.
    pub value: Option<Text>,
}

impl Definition {
    /// A second macro, equal to this one. Only want of memory refuses.
    pub fn try_clone(&self) -> Mem<Definition>
        ensures { IfOk result (λ definition. definition ≡ self.now) }
    {
        let value = match &self.value {
            Some(value) => Some(value.try_clone()?),
            None => None,
        };
        Ok(Definition {
            name: self.name.try_clone()?,
            value,
        })
    }
}

/// A list of macros. Contracts see the list.
#[derive(Drop, Debug)]
pub struct Definitions {
    definitions: Vec<Definition>,
}

impl Model for Definitions {
    ghost use Rattle.std.specs.Prelude.{List};
    ghost use Rattle.cc_flags.specs.declared.build_flags.Definition.{Definition as Macro};

    ghost Value = { List Macro };

    ghost view = { λ d. d.definitions.items };
}

impl Definitions {
    /// The empty list. It takes no memory.
    pub fn new(alloc: Global) -> Definitions
        ensures { result ≡ [] }
    {
        Definitions {
            definitions: Vec::new(alloc),
        }
    }

    /// Adds a macro last. Refused for memory, the list stays as it was.
    pub fn push(&mut self, definition: Definition) -> Mem<()>
        ensures ok { OnOk result (self.new ≡ self.old ++ definition ∷ []) }
        ensures err { OnErr result (self.new ≡ self.old) }
    {
        self.definitions.push(definition)?;
        Ok(())
    }

    /// How many macros there are.
    pub fn len(&self) -> usize
        ensures { result ≡ length self.now }
    {
        self.definitions.len()
    }

    /// The macro at a place, from 0, lent, or none past the end. It takes no memory.
    pub fn get(&self, place: usize) -> Option<&Definition>
        ensures { option_copied result ≡ slice_get self.now place }
    {
        self.definitions.get(place)
    }

    /// The macros in order, lent.
    pub fn as_slice(&self) -> &[Definition]
        ensures { result.now ≡ self.now }
    {
        self.definitions.as_slice()
    }

    /// A second list of the same macros. Only want of memory refuses; this list stays as it is.
    pub fn try_clone(&self) -> Mem<Definitions>
        ensures { IfOk result (λ definitions. definitions ≡ self.now) }
    {
        let mut definitions = Definitions::new(*self.definitions.allocator());
        for definition in &self.definitions {
            definitions.push(definition.try_clone()?)?;
        }
        Ok(definitions)
    }
}
