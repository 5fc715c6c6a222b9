// The objects of sources.
ghost use Rattle.std.specs.Prelude.{◌≡◌, IfOk, Some};
ghost use Rattle.std.specs.Option.{option_copied};
ghost use Rattle.cc_flags.specs.Object.{objects_of};
ghost use Rattle.cc_plan.specs.Refusal.{objects_refusal, AllowedBy, RefusedBy};

use crate::{ArgumentCause, PlanError};
use cc_env::EnvSnapshot;
use cc_flags::{Object, object_in, roots_of};
use cc_text::{PathPlaces, Text, Words, file_name};
use std::alloc::Global;

/// The object of each source in the folder `dst`, in the order of the sources.
///
/// Refused at the first source that has no file name, or the object of an earlier one: two commands would write one
/// file. Places count from 0. Also refused for memory.
pub fn objects_from_files(
    alloc: Global,
    files: &Words,
    dst: &str,
    env: &EnvSnapshot,
    source_root: Option<&str>,
) -> Result<Vec<Object>, PlanError>
    ensures objects { IfOk result (λ objects. objects.items ≡
        objects_of env.now (option_copied source_root.entry) dst.now files.now) }
    ensures allowed { AllowedBy
        (objects_refusal env.now (option_copied source_root.entry) dst.now files.now) result }
    ensures refused { RefusedBy
        (objects_refusal env.now (option_copied source_root.entry) dst.now files.now) result }
{
    let roots = roots_of(env, source_root);
    let mut objects = Vec::new(alloc);
    let mut places = PathPlaces::new(alloc);
    for (place, src) in files.as_slice().iter().enumerate() {
        let src = src.as_str();
        let place = place as u64;
        if file_name(src).is_none() {
            return Err(PlanError::Argument(ArgumentCause::NoFileName(place)));
        }
        let dst = object_in(alloc, &roots, dst, src)?;
        if let Some(earlier) = places.put(alloc, dst.as_str(), place)? {
            return Err(PlanError::Argument(ArgumentCause::SameObject(earlier, place)));
        }
        objects.push(Object {
            src: Text::of(alloc, src)?,
            dst,
        })?;
    }
    Ok(objects)
}
