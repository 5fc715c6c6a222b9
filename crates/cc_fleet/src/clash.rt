// Whether two members write one file.
ghost use Rattle.std.specs.Prelude.{◌≡◌, IfOk, MatchOption};
ghost use Rattle.std.specs.Path.{path_components};
ghost use Rattle.cc_fleet.specs.Clash.{NoClash, IsFirstClash, key_of as key_by};
ghost use Rattle.cc_fleet.specs.Clash.{first_of_two as first_by, first_with as first_of};

use cc_text::{Mem, PathPlaces, Text, Words};
use std::alloc::Global;
use std::path::Path;

// A text that is the same for all paths of the same components, and for no others.
fn key_of(alloc: Global, path: &str) -> Mem<Text>
    ensures { IfOk result (λ key. key ≡ key_by (path_components path.now)) }
{
    let mut key = Text::new(alloc);
    for component in Path::new(path) {
        key.push_str(component)?;
        key.push_str("/")?;
    }
    Ok(key)
}

// The first pair, where an earlier member and the one at a place write one file.
fn first_of_two(first: Option<(usize, usize)>, earlier: usize, place: usize) -> (usize, usize)
    ensures { result ≡ first_by first earlier place }
{
    match first {
        Some((a, b)) => {
            if earlier < a {
                (earlier, place)
            } else {
                (a, b)
            }
        }
        None => (earlier, place),
    }
}

// The same, where the member at a place writes a file too, whose last owner so far is given.
fn first_with(
    first: Option<(usize, usize)>,
    owner: Option<u64>,
    place: usize,
) -> Option<(usize, usize)>
    ensures { result ≡ first_of first owner place }
{
    match owner {
        Some(owner) => {
            let owner = owner as usize;
            if owner < place {
                Some(first_of_two(first, owner, place))
            } else {
                first
            }
        }
        None => first,
    }
}

/// The first two members that write one file, by the place of the one and then of the other, from the files of each.
/// Each file is looked at once.
pub fn find_clash(alloc: Global, members: &[Words]) -> Mem<Option<(usize, usize)>>
    ensures { IfOk result (λ clash.
        MatchOption clash (NoClash members.now) (IsFirstClash members.now)) }
{
    let mut owners = PathPlaces::new(alloc);
    let mut first = None;
    for (place, files) in members.iter().enumerate() {
        for path in files.as_slice() {
            let key = key_of(alloc, path.as_str())?;
            let owner = owners.put(alloc, key.as_str(), place as u64)?;
            first = first_with(first, owner, place);
        }
    }
    Ok(first)
}
