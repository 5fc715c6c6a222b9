// A reader of a rule.
ghost use Rattle.std.specs.Prelude.{◌≡◌, ◌++◌, ◌∷◌, ◌<◌, ◌≤◌, ◌+◌, ◌-◌, ◌^◌, [], ℕ, List, IfOk, OnOk};
ghost use Rattle.cc_fresh.specs.Deps.{backslash, names_by, slashes, with_slashes, slashes_of};
ghost use Rattle.cc_fresh.specs.Reading.{beginning, reads, kept, waiting, found};
ghost use Rattle.cc_fresh.specs.declared.step.Mark.{Mark as MarkSeen};

use crate::step::{Mark, Mode, ending, is_target, step};
use cc_text::{Mem, Text, Words};
use std::alloc::Global;

// Adds so many backslashes.
fn push_slashes(word: &mut Text, count: usize) -> Mem<()>
    ensures { OnOk result (word.new ≡ word.old ++ slashes count) }
{
    for _slash in 0..count {
        word.push('\\')?;
    }
    Ok(())
}

// The name in work with so many backslashes more, if there is one then.
fn with_slashes(alloc: Global, word: Option<Text>, count: usize) -> Mem<Option<Text>>
    ensures { IfOk result (λ next. next ≡ with_slashes count word) }
{
    if count == 0 {
        return Ok(word);
    }
    let mut word = match word {
        Some(word) => word,
        None => Text::new(alloc),
    };
    push_slashes(&mut word, count)?;
    Ok(Some(word))
}

// Does what a mark says: the names so far and those of any marks behind it are as before.
fn apply(alloc: Global, names: &mut Words, word: Option<Text>, mark: Mark) -> Mem<Option<Text>>
    ensures { IfOk result (λ next. (marks : List MarkSeen)
        → names.new ++ names_by marks next ≡ names.old ++ names_by (mark ∷ marks) word) }
{
    match mark {
        Mark::Nothing => Ok(word),
        Mark::Adds(count, c) => {
            let mut word = match with_slashes(alloc, word, count)? {
                Some(word) => word,
                None => Text::new(alloc),
            };
            word.push(c)?;
            Ok(Some(word))
        }
        Mark::Ends(count) => {
            if let Some(word) = with_slashes(alloc, word, count)? {
                names.push_text(word)?;
            }
            Ok(None)
        }
    }
}

/// What was read of a rule: the names so far, the one in work, and where the reader stands.
#[derive(Drop)]
pub(crate) struct Reader {
    pub names: Words,
    pub word: Option<Text>,
    pub mode: Mode,
}

impl Reader {
    /// A reader of a rule that begins.
    pub(crate) fn new(alloc: Global) -> Reader
        ensures { result ≡ beginning }
    {
        Reader {
            names: Words::new(alloc),
            word: None,
            mode: Mode::Target,
        }
    }

    // Takes a character: what the reader makes of it and of any behind it is as before.
    fn take(&mut self, alloc: Global, c: char) -> Mem<()>
        requires { c ≡ backslash → slashes_of self.old.mode < 2 ^ 64 - 1 }
        ensures reads { OnOk result ((cs : List ℕ)
            → reads self.new cs ≡ reads self.old (c ∷ cs)) }
        ensures more { OnOk result (slashes_of self.new.mode ≤ slashes_of self.old.mode + 1) }
        ensures none { OnOk result (c ≡ 13 → slashes_of self.new.mode ≡ 0) }
    {
        let (mark, mode) = step(self.mode, c);
        let word = self.word.take();
        self.word = apply(alloc, &mut self.names, word, mark)?;
        self.mode = mode;
        Ok(())
    }

    // Takes a carriage return that waits, unless a line feed comes.
    fn take_waiting(&mut self, alloc: Global, waits: bool, c: char) -> Mem<()>
        ensures reads { OnOk result ((cs : List ℕ)
            → reads self.new cs ≡ reads self.old (waiting waits c ++ cs)) }
        ensures less { OnOk result (slashes_of self.new.mode ≤ slashes_of self.old.mode) }
    {
        if waits && c != '\n' {
            self.take(alloc, '\r')
        } else {
            Ok(())
        }
    }

    /// Takes a character, and before it a carriage return that waits, unless the character is a line feed. Answers
    /// whether it is a carriage return itself, which waits then.
    pub(crate) fn take_next(&mut self, alloc: Global, waits: bool, c: char) -> Mem<bool>
        requires { slashes_of self.old.mode < 2 ^ 64 - 1 }
        ensures reads { IfOk result (λ next. (cs : List ℕ)
            → reads self.new (kept next cs) ≡ reads self.old (kept waits (c ∷ cs))) }
        ensures more { OnOk result (slashes_of self.new.mode ≤ slashes_of self.old.mode + 1) }
    {
        self.take_waiting(alloc, waits, c)?;
        if c == '\r' {
            return Ok(true);
        }
        self.take(alloc, c)?;
        Ok(false)
    }

    // The names, behind the end of the text, unless that stands in the target.
    fn end(self, alloc: Global) -> Mem<Option<Words>>
        ensures { IfOk result (λ names. names ≡ found (reads self [])) }
    {
        if is_target(self.mode) {
            return Ok(None);
        }
        let Reader {
            mut names,
            word,
            mode,
        } = self;
        apply(alloc, &mut names, word, ending(mode))?;
        Ok(Some(names))
    }

    /// The names, behind the end of the text, unless that stands in the target. A carriage return that waits stands
    /// there.
    pub(crate) fn finish(mut self, alloc: Global, waits: bool) -> Mem<Option<Words>>
        ensures { IfOk result (λ names. names ≡ found (reads self (kept waits []))) }
    {
        if waits {
            self.take(alloc, '\r')?;
            let names = self.end(alloc)?;
            Ok(names)
        } else {
            let names = self.end(alloc)?;
            Ok(names)
        }
    }
}
