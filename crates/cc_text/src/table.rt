// Look-ups in a list of names and values. Names are compared byte for byte.
ghost use Rattle.std.specs.Prelude.{◌≡◌, IsTrue};
ghost use Rattle.std.specs.Option.{option_copied};
ghost use Rattle.std.specs.Ordering.{nat_cmp};
ghost use Rattle.std.specs.Cmp.Lexicographic.{slice_cmp};
ghost use Rattle.cc_text.specs.Vars.{lookup, names_ascend};

use crate::{Text, Vars};
use std::cmp::Ordering;

/// The value of the first pair of a name, lent, or none. It goes through the pairs, and takes no memory.
pub fn lookup<'a>(table: &'a Vars, key: &str) -> Option<&'a Text>
    ensures { option_copied result ≡ lookup table.now key.now }
{
    let (_, value) = table.as_slice().iter().find(|pair| pair.0.as_str() == key)?;
    Some(value)
}

/// How the name of a pair stands to a key, by bytes.
fn name_order(pair: &(Text, Text), key: &str) -> Ordering
    ensures { result ≡ slice_cmp nat_cmp pair.now.0 key.now }
{
    pair.0.as_str().cmp(key)
}

/// The value of a name, lent, or none: what `lookup` gives, found by halves. The caller sees to it that the names
/// ascend strictly by bytes. It takes no memory.
pub fn lookup_sorted<'a>(table: &'a Vars, key: &str) -> Option<&'a Text>
    requires { IsTrue (names_ascend table.now) }
    ensures { option_copied result ≡ lookup table.now key.now }
{
    let pairs = table.as_slice();
    match pairs.binary_search_by(|pair| name_order(pair, key)) {
        Ok(place) => Some(&pairs[place].1),
        Err(_) => None,
    }
}
