// The link lines of a library.
ghost use Rattle.std.specs.Prelude.{◌≡◌, ◌++◌, IfOk, OnOk};
ghost use Rattle.cc_flags.specs.LinkLines.{modifiers_part, library_line, search_line, always, library_lines, lines_by};
ghost use Rattle.cc_flags.specs.StdlibLines.{links_cpp as wants_cpp, cpp_lines};
ghost use Rattle.cc_text.specs.Words.{when};

use crate::stdlib::push_cpp_lines;
use crate::{BuildConfig, LinkLine, links_cpp};
use cc_env::BuildEnv;
use cc_text::{Mem, Text, Words, join_texts};
use std::alloc::Global;

// The modifiers behind the kind of a library, with commas between.
fn modifiers_part(alloc: Global, modifiers: &Words) -> Mem<Text>
    ensures { IfOk result (λ part. part ≡ modifiers_part modifiers.now) }
{
    let mut part = Text::new(alloc);
    if !modifiers.as_slice().is_empty() {
        part.push_str(":")?;
        part.push_str(join_texts(alloc, modifiers, ',')?.as_str())?;
    }
    Ok(part)
}

#[tactic(auto, unfolding(crate::specs::LinkLines::library_line))]
fn library_line(alloc: Global, modifiers: &Words, name: &str) -> Mem<Text>
    ensures { IfOk result (λ line. line ≡ library_line modifiers.now name.now) }
{
    let mut line = Text::of(alloc, "cargo:rustc-link-lib=static")?;
    line.push_str(modifiers_part(alloc, modifiers)?.as_str())?;
    line.push_str("=")?;
    line.push_str(name)?;
    Ok(line)
}

#[tactic(auto, unfolding(crate::specs::LinkLines::search_line))]
fn search_line(alloc: Global, folder: &str) -> Mem<Text>
    ensures { IfOk result (λ line. line ≡ search_line folder.now) }
{
    let mut line = Text::of(alloc, "cargo:rustc-link-search=native=")?;
    line.push_str(folder)?;
    Ok(line)
}

// A line that is printed at each call.
fn always(text: Text) -> LinkLine
    ensures { result ≡ always text }
{
    LinkLine { text, once: false }
}

// The lines for the library and its folder, where they are wanted.
fn push_library_lines(
    lines: &mut Vec<LinkLine>,
    alloc: Global,
    set: &BuildConfig,
    name: &str,
    dir: &str,
) -> Mem<()>
    ensures { OnOk result (lines.new.items
        ≡ lines.old.items ++ library_lines set.now name.now dir.now) }
{
    if set.cargo_metadata {
        lines.push(always(library_line(alloc, &set.link_lib_modifiers, name)?))?;
        lines.push(always(search_line(alloc, dir)?))?;
    }
    Ok(())
}

// The lines for a C++ library, where they are wanted.
fn push_wanted_cpp_lines(
    lines: &mut Vec<LinkLine>,
    alloc: Global,
    set: &BuildConfig,
    env: &BuildEnv,
    library: &Option<Text>,
) -> Mem<()>
    ensures { OnOk result (lines.new.items
        ≡ lines.old.items ++ when (wants_cpp set.now) (cpp_lines set.now env.now library.now)) }
{
    if links_cpp(set) {
        push_cpp_lines(lines, alloc, set, env, library)?;
    }
    Ok(())
}

/// The link lines of a library of this name in this folder, which is linked with this C++ library, in the order in
/// which they are printed. Only want of memory refuses.
#[tactic(auto, unfolding(crate::specs::LinkLines::lines_by))]
pub fn lines_by(
    alloc: Global,
    set: &BuildConfig,
    env: &BuildEnv,
    name: &str,
    dir: &str,
    library: &Option<Text>,
) -> Mem<Vec<LinkLine>>
    ensures { IfOk result (λ lines.
        lines.items ≡ lines_by set.now env.now name.now dir.now library.now) }
{
    let mut lines = Vec::new(alloc);
    push_library_lines(&mut lines, alloc, set, name, dir)?;
    push_wanted_cpp_lines(&mut lines, alloc, set, env, library)?;
    Ok(lines)
}
