// Paths in batches, for command lines that don't grow long.
ghost use Rattle.std.specs.Prelude.{◌≡◌, ◌++◌, ◌-◌, [], ◌∷◌, List, ℕ, length, IfOk};
ghost use Rattle.cc_text.specs.Batches.{room, cut_from, batches_of, AreBatchesOf};

use crate::{Mem, Text, Words};
use std::alloc::Global;

const ROOM: usize = 4000;

// A batch that is begun, and how many bytes of paths it can still take.
#[derive(Drop)]
struct Batch {
    paths: Words,
    left: usize,
}
// A batch with its first path, however long that is.
fn begun(alloc: Global, path: &str) -> Mem<Batch>
    ensures paths { IfOk result (λ b. b.paths ≡ path.now ∷ []) }
    ensures left { IfOk result (λ b. b.left ≡ room - length path.now) }
{
    let mut paths = Words::new(alloc);
    paths.push(path)?;
    Ok(Batch {
        paths,
        left: ROOM.saturating_sub(path.len()),
    })
}
// Takes a path into the batch that is begun where it fits, and else into the next one. Cutting goes on so, whatever the other paths are.
fn taken(full: &mut Vec<Words>, mut last: Batch, path: &str) -> Mem<Batch>
    ensures { IfOk result (λ b. (rest : List (List ℕ)) →
        full.new.items ++ cut_from b.paths b.left rest
        ≡ full.old.items ++ cut_from last.paths last.left (path.now ∷ rest)) }
{
    if path.len() <= last.left {
        last.paths.push(path)?;
        last.left -= path.len();
        return Ok(last);
    }
    let next = begun(*full.allocator(), path)?;
    full.push(last.paths)?;
    Ok(next)
}

fn cut(alloc: Global, first: &str, rest: &[Text]) -> Mem<Vec<Words>>
    ensures { IfOk result (λ cut. cut.items ≡ batches_of (first.now ∷ rest.now)) }
{
    let mut batches = Vec::new(alloc);
    let mut last = begun(alloc, first)?;
    for path in rest {
        last = taken(&mut batches, last, path.as_str())?;
    }
    batches.push(last.paths)?;
    Ok(batches)
}
/// The paths, in order, in batches: the first path of a batch is always taken, and later ones while their lengths fit what is left of 4000
/// bytes. So no batch is empty, and no paths make no batch. Only want of memory refuses; nothing is kept then.
///
/// An archive command gets one batch, so that its line stays short: by the documentation of `cmd.exe` one has at most 8191 characters. The
/// crate `cc` cuts its objects so too.
pub fn batches(alloc: Global, paths: &Words) -> Mem<Vec<Words>>
    ensures batches { IfOk result (λ cut. cut.items ≡ batches_of paths.now) }
    ensures law { IfOk result (λ cut. AreBatchesOf paths.now cut.items) }
{
    match paths.as_slice() {
        [first, rest @ ..] => {
            let batches = cut(alloc, first.as_str(), rest)?;
            Ok(batches)
        }
        [] => Ok(Vec::new(alloc)),
    }
}
