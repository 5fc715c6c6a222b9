// Which command of each member failed last.
ghost use Rattle.std.specs.Prelude.{◌≡◌, ◌<◌, ℕ, length, IfOk, None};
ghost use Rattle.std.specs.List.{slice_index_or};
ghost use Rattle.cc_run.specs.declared.mark.Mark.TheVariants.{Over};
ghost use Rattle.cc_fleet.specs.Failures.{failure_of, noted};

use cc_host::Status;
use cc_run::Mark;
use cc_text::Mem;
use std::alloc::Global;

/// The place of a command that failed, and how it ended.
pub type Failure = (usize, Status);

// Notes an end of the command at a place, where it failed, for the member that it is of.
fn note_end(failures: &mut Vec<Option<Failure>>, owners: &[usize], place: usize, status: Status)
    ensures size { length failures.new.items ≡ length failures.old.items }
    ensures each { (member : ℕ) → member < length failures.old.items
        → slice_index_or failures.new.items member None
        ≡ noted owners.now member (Over place status)
        (slice_index_or failures.old.items member None) }
{
    if !status.is_success() && place < owners.len() {
        let member = owners[place];
        if member < failures.len() {
            failures[member] = Some((place, status));
        }
    }
}

// Notes what began, which changes nothing, or what ended.
fn note(failures: &mut Vec<Option<Failure>>, owners: &[usize], mark: Mark)
    ensures size { length failures.new.items ≡ length failures.old.items }
    ensures each { (member : ℕ) → member < length failures.old.items
        → slice_index_or failures.new.items member None
        ≡ noted owners.now member mark (slice_index_or failures.old.items member None) }
{
    match mark {
        Mark::Began(_) => {}
        Mark::Over(place, status) => note_end(failures, owners, place, status),
    }
}

/// For each of so many members the last of its commands that ended with another status than 0, and how. `owners` has
/// the member of each command.
pub fn last_failures(
    alloc: Global,
    count: usize,
    owners: &[usize],
    marks: &[Mark],
) -> Mem<Vec<Option<Failure>>>
    ensures size { IfOk result (λ failures. length failures.items ≡ count) }
    ensures each { IfOk result (λ failures. (member : ℕ) → member < count
        → slice_index_or failures.items member None
        ≡ failure_of owners.now marks.now member) }
{
    let mut failures = vec![in alloc; None; count]?;
    for mark in marks {
        note(&mut failures, owners, *mark);
    }
    Ok(failures)
}
