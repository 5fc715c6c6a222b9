// Paths.
use crate::answer::{Answer, one, option, push, truth};
use crate::given::{one_text, two_texts};
use cc_text::{Component, Mem};
use std::alloc::Global;

fn push_component(texts: &mut Vec<String>, part: &Component) -> Mem<()> {
    match part {
        Component::RootDir => push(texts, "root"),
        Component::CurDir => push(texts, "here"),
        Component::ParentDir => push(texts, "parent"),
        Component::Normal(name) => {
            let alloc = *texts.allocator();
            let name = name.as_str();
            texts.push(format!(in alloc; "name {name}")?)?;
            Ok(())
        }
    }
}

// A path; its components: `root`, `here`, `parent`, and `name NAME` for any other.
fn components(alloc: Global, given: &[String]) -> Answer {
    let path = one_text(given)?;
    let mut texts = Vec::new(alloc);
    for part in &cc_text::components(alloc, path)? {
        push_component(&mut texts, part)?;
    }
    Ok(texts)
}

// A base and a path.
fn join(alloc: Global, given: &[String]) -> Answer {
    let (base, path) = two_texts(given)?;
    one(alloc, cc_text::join(alloc, base, path)?.as_str())
}

// A path and an extension.
fn with_extension(alloc: Global, given: &[String]) -> Answer {
    let (path, extension) = two_texts(given)?;
    one(
        alloc,
        cc_text::with_extension(alloc, path, extension)?.as_str(),
    )
}

// A path and a base; the rest.
fn strip_prefix(alloc: Global, given: &[String]) -> Answer {
    let (path, base) = two_texts(given)?;
    option(alloc, cc_text::strip_prefix(path, base))
}

// A base and a path.
fn keeps_components(alloc: Global, given: &[String]) -> Answer {
    let (base, path) = two_texts(given)?;
    truth(alloc, cc_text::keeps_components(base, path))
}

// Two paths.
fn same_path(alloc: Global, given: &[String]) -> Answer {
    let (first, second) = two_texts(given)?;
    truth(alloc, cc_text::same_path(first, second))
}

fn parent(alloc: Global, given: &[String]) -> Answer {
    option(alloc, cc_text::parent(one_text(given)?))
}

fn file_name(alloc: Global, given: &[String]) -> Answer {
    option(alloc, cc_text::file_name(one_text(given)?))
}

fn file_stem(alloc: Global, given: &[String]) -> Answer {
    option(alloc, cc_text::file_stem(one_text(given)?))
}

fn extension(alloc: Global, given: &[String]) -> Answer {
    option(alloc, cc_text::extension(one_text(given)?))
}

pub fn call(alloc: Global, name: &str, given: &[String]) -> Option<Answer> {
    match name {
        "components" => Some(components(alloc, given)),
        "join" => Some(join(alloc, given)),
        "with_extension" => Some(with_extension(alloc, given)),
        "strip_prefix" => Some(strip_prefix(alloc, given)),
        "keeps_components" => Some(keeps_components(alloc, given)),
        "same_path" => Some(same_path(alloc, given)),
        "parent" => Some(parent(alloc, given)),
        "file_name" => Some(file_name(alloc, given)),
        "file_stem" => Some(file_stem(alloc, given)),
        "extension" => Some(extension(alloc, given)),
        _ => None,
    }
}
