// The words that a compiler takes, with an index of them.
ghost use Rattle.std.specs.Prelude.{◌≡◌, List, ℕ, [], IfOk};
ghost use Rattle.std.specs.BTreeSet.{contains_text};
ghost use Rattle.cc_text.specs.Words.{is_among};

use cc_text::{Mem, Text, Words};
use std::alloc::Global;
use std::collections::BTreeSet;
use std::marker::Model;

/// The words that a compiler takes of those it is asked about, in order. Each flag that wants support is looked up among them, so an index
/// stands beside the list. Contracts see the list.
#[derive(Drop, Debug)]
pub struct Supported {
    words: Words,
    index: BTreeSet<String>,
}

impl Model for Supported {
    ghost use Rattle.std.specs.Prelude.{◌≡◌, List, ℕ};
    ghost use Rattle.std.specs.BTreeSet.{contains_text};
    ghost use Rattle.cc_text.specs.Words.{is_among};

    ghost Value = { List (List ℕ) };

    ghost view = { λ s. s.words };

    ghost invariant = { λ s. (text : List ℕ) → contains_text s.index text ≡ is_among s.words text };
}

// The index of some words, which has those and no other.
fn index_of(alloc: Global, words: &[Text]) -> Mem<BTreeSet<String>>
    ensures { IfOk result (λ index. (text : List ℕ)
        → contains_text index text ≡ is_among words.now text) }
{
    let mut index = BTreeSet::new(alloc);
    for word in words {
        index.insert(String::from_str(alloc, word.as_str())?)?;
    }
    Ok(index)
}

impl Supported {
    /// No words. It takes no memory.
    pub fn none(alloc: Global) -> Supported
        ensures { result ≡ [] }
    {
        Supported {
            words: Words::new(alloc),
            index: BTreeSet::new(alloc),
        }
    }

    /// Takes some words over, and makes their index, which is a copy of each. Only want of memory refuses.
    pub fn of(alloc: Global, words: Words) -> Mem<Supported>
        ensures { IfOk result (λ s. s ≡ words) }
    {
        let index = index_of(alloc, words.as_slice())?;
        Ok(Supported { words, index })
    }

    /// Whether the word is one of these, as `is_among` of their list. It takes no memory.
    pub fn has(&self, word: &str) -> bool
        ensures { result ≡ is_among self.now word.now }
    {
        self.index.contains(word)
    }

    /// The words in order, lent. It takes no memory.
    pub fn as_slice(&self) -> &[Text]
        ensures { result.now ≡ self.now }
    {
        self.words.as_slice()
    }
}
