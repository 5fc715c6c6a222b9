// The files that members write.
ghost use Rattle.std.specs.Prelude.{◌≡◌, ◌∷◌, ◌++◌, [], map, length, IfOk};
ghost use Rattle.cc_plan.specs.Archive.{paths_of};
ghost use Rattle.cc_plan.specs.Plan.{library_of};
ghost use Rattle.cc_fleet.specs.Fleet.{objects_at, files_of as files_by, members_seen};

use crate::Member;
use cc_host::World;
use cc_plan::{Object, lib_and_archive_names, out_dir_of};
use cc_text::{Mem, NoMemory, Text, Words, join};
use std::alloc::Global;

/// The paths of these objects.
pub(crate) fn object_paths(alloc: Global, objects: &[Object]) -> Mem<Words>
    ensures { IfOk result (λ paths. paths ≡ paths_of objects.now) }
{
    let mut paths = Words::new(alloc);
    for object in objects {
        paths.push(object.dst.as_str())?;
    }
    Ok(paths)
}

// The path of the library of a member that was planned, so that its name and its out dir are in order.
fn library_path<W: World>(alloc: Global, member: &Member<W>) -> Mem<Text>
    ensures { IfOk result (λ path. path
        ≡ library_of member.now.build.config member.now.build.env member.now.output) }
{
    let (set, env) = (member.build.settings(), member.build.environment());
    let Ok((_, file)) = lib_and_archive_names(alloc, member.output.as_str()) else {
        return Err(NoMemory);
    };
    join(alloc, out_dir_of(set, env).unwrap_or(""), file.as_str())
}

// The files that a member writes: its objects, and its library.
fn files_of<W: World>(alloc: Global, member: &Member<W>, objects: &Words) -> Mem<Words>
    ensures { IfOk result (λ files. files ≡ objects.now
        ++ library_of member.now.build.config member.now.build.env member.now.output ∷ []) }
{
    let mut files = objects.try_clone()?;
    files.push_text(library_path(alloc, member)?)?;
    Ok(files)
}

/// The files that each member writes, from the paths of its objects.
pub(crate) fn written_files<W: World>(
    alloc: Global,
    members: &[Member<W>],
    objects: &[Words],
) -> Mem<Vec<Words>>
    requires objects { objects.now ≡ map objects_at (members_seen members.now) }
    ensures { IfOk result (λ files. files.items ≡ map files_by (members_seen members.now)) }
{
    let mut files = Vec::new(alloc);
    for (place, member) in members.iter().enumerate() {
        files.push(files_of(alloc, member, &objects[place])?)?;
    }
    Ok(files)
}
