// The variables of a tool, one after the other, from both ends.
ghost use Rattle.std.specs.Prelude.{◌≡◌, length};
ghost use Rattle.std.specs.Iterator.{at_most};
ghost use Rattle.std.specs.Map.Iter.{TakesFirst, TakesLast, deref_pair};

use cc_text::{Text, Vars};
use std::marker::Model;
use std::slice;

/// The variables that a tool adds, as pairs of name and value, in order. It goes from both ends, and knows how many are left.
#[derive(Drop)]
pub struct Envs<'a> {
    pairs: slice::Iter<'a, (Text, Text)>,
}

impl<'a> Model for Envs<'a> {
    ghost use Rattle.std.specs.Prelude.{List, ℕ};
    ghost use Rattle.std.specs.Slice.Iter.{iter_rest};

    ghost Value = { List (List ℕ × List ℕ) };

    ghost view = { λ e. iter_rest e.pairs };
}

impl<'a> Envs<'a> {
    pub(crate) fn new(vars: &'a Vars) -> Self
        ensures { result ≡ vars.now }
    {
        Envs {
            pairs: vars.as_slice().iter(),
        }
    }
}

impl<'a> Iterator for Envs<'a> {
    type Item = (&'a Text, &'a Text);

    ghost next_gives = { TakesFirst deref_pair };

    ghost remaining = { λ s. at_most (length s) };

    fn next(&mut self) -> Option<(&'a Text, &'a Text)> {
        let pair = self.pairs.next()?;
        Some((&pair.0, &pair.1))
    }

    fn size_hint(&self) -> (usize, Option<usize>) {
        let len = self.len();
        (len, Some(len))
    }
}

impl<'a> DoubleEndedIterator for Envs<'a> {
    ghost next_back_gives = { TakesLast deref_pair };

    fn next_back(&mut self) -> Option<(&'a Text, &'a Text)> {
        let pair = self.pairs.next_back()?;
        Some((&pair.0, &pair.1))
    }
}

impl<'a> ExactSizeIterator for Envs<'a> {
    fn len(&self) -> usize
        ensures { result ≡ length self.now }
    {
        self.pairs.len()
    }
}
