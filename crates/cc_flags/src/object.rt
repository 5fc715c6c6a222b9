// The object of each source.
ghost use Rattle.std.specs.Prelude.{◌≡◌, IfOk, Some, None, codes};
ghost use Rattle.cc_text.specs.Hash.{fnv1a, fnv1a_from};
ghost use Rattle.std.specs.Option.{option_copied};
ghost use Rattle.cc_env.specs.Snapshot.{last_value};
ghost use Rattle.cc_flags.specs.Object.{after_text, after_root, placed, ended, hashed, object_name as name_of, object_path as path_of};

use cc_env::EnvSnapshot;
use cc_text::{
    Mem, Text, after_prefix, extension, file_name, fnv1a, fnv1a_from, hex16, join, parent,
    strip_prefix, with_extension,
};
use std::alloc::Global;

/// A source and its object.
#[derive(Drop, Debug)]
pub struct Object {
    /// The path of the source, as it was added.
    pub src: Text,
    /// The path of the object.
    pub dst: Text,
}

// One part of what is hashed: a text and the byte FF.
fn hash_part(start: u64, text: &str) -> u64
    ensures { result ≡ fnv1a_from start (ended text.now) }
{
    fnv1a_from(fnv1a_from(start, text.as_bytes()), b"\xff")
}

/// What folders may count from: the texts of two variables, which are looked up once, and a root.
#[derive(Clone, Copy)]
pub struct Roots<'a> {
    pub env: &'a EnvSnapshot,
    pub out_dir: Option<&'a str>,
    pub manifest_dir: Option<&'a str>,
    pub root: Option<&'a str>,
    ghost out_dir_is: { option_copied out_dir ≡ last_value env.now (codes "OUT_DIR") },
    ghost manifest_is: { option_copied manifest_dir ≡ last_value env.now (codes "CARGO_MANIFEST_DIR") },
}

/// The texts from which folders of sources may count, lent: of `OUT_DIR`, `CARGO_MANIFEST_DIR` and the root that is
/// given. It takes no memory.
pub fn roots_of<'a>(env: &'a EnvSnapshot, root: Option<&'a str>) -> Roots<'a>
    ensures env { result.env.now ≡ env.now }
    ensures root { option_copied result.root ≡ option_copied root.entry }
{
    Roots {
        env,
        out_dir: env.get("OUT_DIR"),
        manifest_dir: env.get("CARGO_MANIFEST_DIR"),
        root,
    }
}

// The folder less a text that it begins with.
fn after_text<'a>(start: Option<&str>, folder: &'a str) -> Option<&'a str>
    ensures { option_copied result ≡ after_text (option_copied start.entry) folder.now }
{
    match start {
        Some(text) => after_prefix(folder, text),
        None => None,
    }
}

// The folder from a root on, by components.
fn after_root<'a>(root: Option<&str>, folder: &'a str) -> Option<&'a str>
    ensures { option_copied result ≡ after_root (option_copied root.entry) folder.now }
{
    match root {
        Some(root) => strip_prefix(folder, root),
        None => None,
    }
}

// Where a folder counts from, and the folder from there on.
#[tactic(auto, unfolding(crate::specs::Object::placed))]
fn placed<'a>(roots: &Roots<'_>, folder: &'a str) -> (&'static str, &'a str)
    ensures { (result.0.now, result.1.now) ≡
        placed roots.now.env.now (option_copied roots.now.root) folder.now }
{
    if let Some(rest) = after_text(roots.out_dir, folder) {
        return ("out_dir", rest);
    }
    if let Some(rest) = after_text(roots.manifest_dir, folder) {
        return ("manifest_dir", rest);
    }
    match after_root(roots.root, folder) {
        Some(rest) => ("source_root", rest),
        None => ("absolute", folder),
    }
}

// The hash of where a source lies.
fn source_hash(roots: &Roots<'_>, source: &str) -> u64
    ensures { result ≡
        fnv1a (hashed roots.now.env.now (option_copied roots.now.root) source.now) }
{
    let (origin, folder) = placed(roots, parent(source).unwrap_or(""));
    let hash = hash_part(hash_part(fnv1a(b""), origin), folder);
    match extension(source) {
        Some(extension) => hash_part(hash, extension),
        None => hash,
    }
}

// The name of an object: the digits of the hash, and the file name of the source.
#[tactic(auto, unfolding(crate::specs::Object::object_name))]
fn object_name(alloc: Global, roots: &Roots<'_>, source: &str) -> Mem<Text>
    ensures { IfOk result (λ name.
        name ≡ name_of roots.now.env.now (option_copied roots.now.root) source.now) }
{
    let mut name = hex16(alloc, source_hash(roots, source))?;
    name.push_str("-")?;
    name.push_str(file_name(source).unwrap_or(""))?;
    Ok(name)
}

/// The object of a source in the folder `dst`, by `object_path`, where the roots are known. Only want of memory
/// refuses.
#[tactic(auto, unfolding(crate::specs::Object::object_path))]
pub fn object_in(alloc: Global, roots: &Roots<'_>, dst: &str, source: &str) -> Mem<Text>
    ensures { IfOk result (λ path.
        path ≡ path_of roots.now.env.now (option_copied roots.now.root) dst.now source.now) }
{
    let name = object_name(alloc, roots, source)?;
    let path = join(alloc, dst, name.as_str())?;
    with_extension(alloc, path.as_str(), "o")
}

/// The object of a source in the folder `dst`: sixteen digits, a `-`, and the source's file name with the extension `o`.
///
/// The digits are FNV-1a of 64 bits over where the source's folder counts from, the folder from there on, and the source's extension. A
/// folder counts from `OUT_DIR` or `CARGO_MANIFEST_DIR` where it begins with that text, else from the source root where that has it. So
/// sources of one name in two folders have two objects, and the name is the same wherever the package lies. Only want of memory refuses.
pub fn object_path(
    alloc: Global,
    env: &EnvSnapshot,
    source_root: Option<&str>,
    dst: &str,
    source: &str,
) -> Mem<Text>
    ensures { IfOk result (λ path.
        path ≡ path_of env.now (option_copied source_root.entry) dst.now source.now) }
{
    object_in(alloc, &roots_of(env, source_root), dst, source)
}
