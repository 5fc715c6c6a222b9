// What a run asks of a queue.
ghost use Rattle.std.specs.Prelude.{◌≡◌, ◌++◌, [], ◌∷◌, List, Some};
ghost use Rattle.std.specs.List.{slice_get};
ghost use Rattle.std.specs.Option.{option_copied};
ghost use Rattle.cc_run.specs.declared.mark.Mark.{Mark};
ghost use Rattle.cc_run.specs.declared.mark.Mark.TheVariants.{Began, Over};
ghost use Rattle.cc_run.specs.Plan.{Plan, IsNext};

use crate::Planned;
use cc_host::Status;

/// Commands that are to be run, each at its place, of which some may have to wait for others. A run asks its queue
/// which command comes next, and tells it what began and what ended. What a queue keeps for that is its own.
pub trait Queue {
    /// The commands, and which of them may be started after what. No call changes it.
    ghost plan: { Self → Plan };

    /// The queue was told of these, and of nothing else.
    ghost stands: { Self → List Mark → Type 0 };

    /// The least place that may be started, and none exactly where none may be.
    fn next(&self) -> Option<usize>
        ensures { (marks : List Mark) → stands self.now marks
            → IsNext (plan self.now) marks result };

    /// The command at a place, and none where there is no such place.
    fn command(&self, place: usize) -> Option<&Planned>
        ensures { option_copied result ≡ slice_get (plan self.now).cmds place };

    /// The command at that place was started.
    fn begin(&mut self, place: usize)
        ensures plan { plan self.new ≡ plan self.old }
        ensures stands { (marks : List Mark) → stands self.old marks
            → IsNext (plan self.old) marks (Some place)
            → stands self.new (marks ++ Began place ∷ []) };

    /// The command at that place has ended.
    fn end(&mut self, place: usize, status: Status)
        ensures plan { plan self.new ≡ plan self.old }
        ensures stands { (marks : List Mark) → stands self.old marks
            → stands self.new (marks ++ Over place status ∷ []) };
}
