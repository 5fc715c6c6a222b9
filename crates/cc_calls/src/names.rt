// The names of libraries and objects, batches of paths, and macros.
use crate::CallError;
use crate::answer::{Answer, none, one, push, push_number, refused, strs};
use crate::given::{Read, number, one_text, snapshot_in, words_of};
use cc_env::EnvSnapshot;
use cc_plan::{ArgumentCause, Definition, Object, PlanError};
use cc_text::{Mem, Text, Words};
use std::alloc::Global;

// `refused`, the kind and its places.
fn refused_at(alloc: Global, kind: &str, places: &[u64]) -> Answer {
    let mut texts = refused(alloc, kind)?;
    for place in places {
        push_number(&mut texts, *place)?;
    }
    Ok(texts)
}

fn refused_argument(alloc: Global, cause: ArgumentCause) -> Answer {
    match cause {
        ArgumentCause::Output => refused_at(alloc, "Output", &[]),
        ArgumentCause::OutDir => refused_at(alloc, "OutDir", &[]),
        ArgumentCause::NoFileName(place) => refused_at(alloc, "NoFileName", &[place]),
        ArgumentCause::SameObject(first, second) => {
            refused_at(alloc, "SameObject", &[first, second])
        }
        ArgumentCause::LibraryIsObject(place) => refused_at(alloc, "LibraryIsObject", &[place]),
        ArgumentCause::LineFeed(place) => refused_at(alloc, "LineFeed", &[place]),
        ArgumentCause::FileCount => refused_at(alloc, "FileCount", &[]),
        ArgumentCause::Library => refused_at(alloc, "Library", &[]),
    }
}

fn refused_plan(alloc: Global, error: PlanError) -> Answer {
    match error {
        PlanError::Argument(cause) => refused_argument(alloc, cause),
        PlanError::NoMemory => Err(CallError::NoMemory),
        _ => refused(alloc, "other"),
    }
}

// An output; the library's name and its file's.
fn lib_and_archive_names(alloc: Global, given: &[String]) -> Answer {
    match cc_plan::lib_and_archive_names(alloc, one_text(given)?) {
        Ok((name, file)) => strs(alloc, &[name.as_str(), file.as_str()]),
        Err(error) => refused_plan(alloc, error),
    }
}

// The root that a text names; an empty one names none.
fn root_of(root: &str) -> Option<&str> {
    if root.is_empty() { None } else { Some(root) }
}

// The out dir, the source root or an empty text, the variables between blanks, and a source.
fn object_path(alloc: Global, given: &[String]) -> Answer {
    let [dst, root, vars, source] = given else {
        return Err(CallError::Given);
    };
    let env = snapshot_in(alloc, vars.as_str())?;
    let root = root_of(root.as_str());
    one(
        alloc,
        cc_plan::object_path(alloc, &env, root, dst.as_str(), source.as_str())?.as_str(),
    )
}

fn push_object(texts: &mut Vec<String>, object: &Object) -> Mem<()> {
    let alloc = *texts.allocator();
    let (src, dst) = (object.src.as_str(), object.dst.as_str());
    texts.push(format!(in alloc; "{src} {dst}")?)?;
    Ok(())
}

fn texts_of(alloc: Global, objects: &[Object]) -> Answer {
    let mut texts = Vec::new(alloc);
    for object in objects {
        push_object(&mut texts, object)?;
    }
    Ok(texts)
}

fn objects_in(
    alloc: Global,
    env: &EnvSnapshot,
    root: &str,
    dst: &str,
    sources: &[String],
) -> Answer {
    let sources = words_of(alloc, sources)?;
    match cc_plan::objects_from_files(alloc, &sources, dst, env, root_of(root)) {
        Ok(objects) => texts_of(alloc, &objects),
        Err(error) => refused_plan(alloc, error),
    }
}

// The out dir, the source root or an empty text, the variables between blanks, and the sources; each source and its
// object, with a blank between.
fn objects_from_files(alloc: Global, given: &[String]) -> Answer {
    let [dst, root, vars, sources @ ..] = given else {
        return Err(CallError::Given);
    };
    let env = snapshot_in(alloc, vars.as_str())?;
    objects_in(alloc, &env, root.as_str(), dst.as_str(), sources)
}

// A path of so many bytes.
fn path_of(alloc: Global, length: &str) -> Read<Text> {
    let mut path = Text::new(alloc);
    for _ in 0..number(length)? {
        path.push('a')?;
    }
    Ok(path)
}

fn paths_of(alloc: Global, lengths: &[String]) -> Read<Words> {
    let mut paths = Words::new(alloc);
    for length in lengths {
        paths.push_text(path_of(alloc, length.as_str())?)?;
    }
    Ok(paths)
}

// The lengths of paths; how many paths each batch has.
fn batches(alloc: Global, given: &[String]) -> Answer {
    let batches = cc_plan::batches(alloc, &paths_of(alloc, given)?)?;
    let mut texts = Vec::new(alloc);
    for batch in &batches {
        push_number(&mut texts, batch.len() as u64)?;
    }
    Ok(texts)
}

fn definition(alloc: Global, name: &str, value: Option<&str>) -> Mem<Definition> {
    let value = match value {
        Some(value) => Some(Text::of(alloc, value)?),
        None => None,
    };
    Ok(Definition {
        name: Text::of(alloc, name)?,
        value,
    })
}

// The name of a macro, and its value where it has one; the same of a second macro.
fn definition_clone(alloc: Global, given: &[String]) -> Answer {
    let first = match given {
        [name] => definition(alloc, name.as_str(), None)?,
        [name, value] => definition(alloc, name.as_str(), Some(value.as_str()))?,
        _ => return Err(CallError::Given),
    };
    let second = first.try_clone()?;
    match &second.value {
        Some(value) => strs(alloc, &[second.name.as_str(), value.as_str()]),
        None => one(alloc, second.name.as_str()),
    }
}

pub fn call(alloc: Global, name: &str, given: &[String]) -> Option<Answer> {
    match name {
        "lib_and_archive_names" => Some(lib_and_archive_names(alloc, given)),
        "object_path" => Some(object_path(alloc, given)),
        "objects_from_files" => Some(objects_from_files(alloc, given)),
        "batches" => Some(batches(alloc, given)),
        "definition_clone" => Some(definition_clone(alloc, given)),
        _ => None,
    }
}
