// Distinct texts.
ghost use Rattle.std.specs.Prelude.{◌≡◌, [], true};
ghost use Rattle.cc_text.specs.Words.{is_among};
ghost use Rattle.cc_tool.specs.Emitted.{is_distinct};

use cc_text::{Mem, Text, is_among};
use std::alloc::Global;

/// Distinct texts, in the order in which they came, as the lines that a build has printed once.
#[derive(Drop)]
pub struct Emitted {
    pub(crate) list: Vec<Text>,
    ghost distinct: { is_distinct list.items ≡ true },
}

impl Emitted {
    ghost use Rattle.std.specs.Prelude.{◌++◌, ◌∷◌, not, IfOk, OnErr};
    ghost use Rattle.cc_text.specs.Words.{when};

    /// No texts. It takes no memory.
    pub fn new(alloc: Global) -> Emitted
        ensures { result.list.items ≡ [] }
    {
        Emitted {
            list: Vec::new(alloc),
        }
    }

    /// The texts, lent. None is there twice.
    pub fn texts(&self) -> &[Text]
        ensures lent { result.now ≡ self.now.list.items }
        ensures distinct { is_distinct result.now ≡ true }
    {
        self.list.as_slice()
    }

    /// Adds a text last where it isn't there, and answers whether it was added. Refused for memory, the texts stay as they were.
    pub fn push_if_new(&mut self, value: &str) -> Mem<bool>
        ensures new { IfOk result (λ b. b ≡ not (is_among self.old.list.items value.now)) }
        ensures texts { IfOk result
            (λ b. self.new.list.items ≡ self.old.list.items ++ when b (value.now ∷ [])) }
        ensures err { OnErr result (self.new.list.items ≡ self.old.list.items) }
    {
        if is_among(self.list.as_slice(), value) {
            return Ok(false);
        }
        let text = Text::of(*self.list.allocator(), value)?;
        self.list.push(text)?;
        Ok(true)
    }
}
