// Objects that were compiled elsewhere and are added to the library.
ghost use Rattle.std.specs.Prelude.{◌≡◌, ◌<◌, IfSome, length};
ghost use Rattle.std.specs.List.{position};
ghost use Rattle.cc_plan.specs.Added.{is_library, added_refusal};
ghost use Rattle.cc_plan.specs.Refusal.{AllowedBy, RefusedBy};

use crate::{ArgumentCause, PlanError};
use cc_text::{Text, Words, same_path};

// Whether a path is that of the library, component by component.
fn is_library(library: &str, path: &str) -> bool
    ensures { result ≡ is_library library.now path.now }
{
    same_path(path, library)
}

// The place of the first object that is the library.
fn library_place(objects: &[Text], library: &str) -> Option<usize>
    ensures place { result ≡ position (is_library library.now) objects.now }
    ensures within { IfSome result (λ place. place < length objects.now) }
{
    objects
        .iter()
        .position(|object| is_library(library, object.as_str()))
}

// Checks that none of these objects is the library.
pub(crate) fn check_added(objects: &Words, library: &str) -> Result<(), PlanError>
    ensures allowed { AllowedBy (added_refusal library.now objects.now) result }
    ensures refused { RefusedBy (added_refusal library.now objects.now) result }
{
    match library_place(objects.as_slice(), library) {
        Some(place) => Err(PlanError::Argument(ArgumentCause::LibraryIsObject(place as u64))),
        None => Ok(()),
    }
}
