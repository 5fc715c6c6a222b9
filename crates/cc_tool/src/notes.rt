// What a plan notes on the way.
ghost use Rattle.std.specs.Prelude.{◌≡◌, ◌++◌, fold, IfOk, OnOk};
ghost use Rattle.cc_tool.specs.Notes.{Note, add_note, no_notes, named, warned};
ghost use Rattle.cc_tool.specs.Notes.Note.{Name, Warning};

use cc_text::{Mem, Text, Words};
use std::alloc::Global;
use std::collections::BTreeSet;
use std::marker::Model;

/// What a plan notes on the way: the names of the variables that it reads, in the order of their bytes and each once, and what a user is
/// warned of, in the order in which it came. It is seen as these two lists.
#[derive(Drop, Debug)]
pub struct Notes {
    alloc: Global,
    names: BTreeSet<Text>,
    warnings: Words,
}

impl Model for Notes {
    ghost use Rattle.std.specs.BTreeSet.{keys};
    ghost use Rattle.cc_tool.specs.Notes.{Noted};

    ghost Value = { Noted };

    ghost view = { λ n. record { names = keys n.names; warnings = n.warnings } };
}

impl Notes {
    /// Nothing. It takes no memory.
    pub fn new(alloc: Global) -> Notes
        ensures { result ≡ no_notes }
    {
        Notes {
            alloc,
            names: BTreeSet::new(alloc),
            warnings: Words::new(alloc),
        }
    }

    /// Notes the name of a variable.
    pub fn name(&mut self, name: &str) -> Mem<()>
        ensures { OnOk result (self.new ≡ add_note self.old (Name name.now)) }
    {
        self.names.insert(Text::of(self.alloc, name)?)?;
        Ok(())
    }

    /// Notes the names of some variables.
    pub fn names(&mut self, names: &Words) -> Mem<()>
        ensures { OnOk result (self.new ≡ fold add_note self.old (named names.now)) }
    {
        for name in names.as_slice() {
            self.name(name.as_str())?;
        }
        Ok(())
    }

    /// Notes a text that a user is warned of.
    pub fn warning(&mut self, text: &str) -> Mem<()>
        ensures { OnOk result (self.new ≡ add_note self.old (Warning text.now)) }
    {
        self.warnings.push(text)
    }

    /// Notes some texts that a user is warned of.
    pub fn warnings(&mut self, texts: &Words) -> Mem<()>
        ensures { OnOk result (self.new ≡ fold add_note self.old (warned texts.now)) }
    {
        for text in texts.as_slice() {
            self.warning(text.as_str())?;
        }
        Ok(())
    }

    /// The names, in the order of their bytes, each once.
    pub fn into_names(self) -> Mem<Words>
        ensures { IfOk result (λ names. names ≡ self.names) }
    {
        let mut list = Words::new(self.alloc);
        for name in self.names {
            list.push_text(name)?;
        }
        Ok(list)
    }

    /// The warnings, in the order in which they came.
    pub fn into_warnings(self) -> Words
        ensures { result ≡ self.warnings }
    {
        self.warnings
    }
}
