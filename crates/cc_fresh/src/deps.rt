// The names of a dependency file.
ghost use Rattle.std.specs.Prelude.{◌≡◌, ◌⊎◌, Ok, Err, IfOk, IfErr};
ghost use Rattle.std.specs.Str.{chars};
ghost use Rattle.cc_fresh.specs.Deps.{names_of, read_deps};
ghost use Rattle.cc_fresh.specs.declared.deps.DepsError.TheVariants.{NoMemory as WantsMemory};

use crate::reader::Reader;
use cc_text::{Mem, NoMemory, Words};
use std::alloc::Global;
use std::str::from_utf8;

/// Why bytes give no names.
#[derive(Clone, Copy, PartialEq, Eq, Debug)]
pub enum DepsError {
    /// They are UTF-8, and no colon ends a target.
    NoColon,
    /// They aren't UTF-8.
    NotText,
    /// Memory was wanted and refused.
    NoMemory,
}

impl From<NoMemory> for DepsError {
    ghost from_gives = { λ _ e. e ≡ WantsMemory };

    fn from(_: NoMemory) -> Self {
        DepsError::NoMemory
    }
}

// The names of a text, where a colon ends its target.
fn names_of(alloc: Global, text: &str) -> Mem<Option<Words>>
    ensures { IfOk result (λ names. names ≡ names_of (chars text.now)) }
{
    let mut reader = Reader::new(alloc);
    let mut waits = false;
    for c in text.chars() {
        waits = reader.take_next(alloc, waits, c)?;
    }
    let names = reader.finish(alloc, waits)?;
    Ok(names)
}

/// The names of the files that an object was made of, from the text that a compiler writes of them for `make` (GCC's
/// manual, `-MD`). Bytes that aren't UTF-8, and a text without a target, have none; else only want of memory refuses.
///
/// The target ends at the first colon with a space, a tab, a line feed or the end behind it. Then come the names,
/// parted by spaces, tabs and line feeds that stand behind a backslash, up to the first other line feed. Before a
/// space or tab a pair of backslashes is one, and an odd one makes the blank a part of the name. `\#` is `#`, and `$$`
/// is `$`. A carriage return before a line feed doesn't count.
pub fn read_deps(alloc: Global, text: &[u8]) -> Result<Words, DepsError>
    ensures names { IfOk result (λ names. read_deps text.now ≡ Ok names) }
    ensures refused { IfErr result (λ e. (e ≡ WantsMemory) ⊎ (read_deps text.now ≡ Err e)) }
{
    match from_utf8(text) {
        Ok(text) => match names_of(alloc, text)? {
            Some(names) => Ok(names),
            None => Err(DepsError::NoColon),
        },
        Err(_) => Err(DepsError::NotText),
    }
}

#[cfg(test)]
mod tests {
    use super::*;
    use cc_text::Text;
    use std::test::Fail;

    // The names, each behind a bar, or why there are none.
    fn told(alloc: Global, text: &[u8]) -> Result<Text, Fail> {
        let mut told = Text::new(alloc);
        match read_deps(alloc, text) {
            Ok(names) => {
                for name in names.as_slice() {
                    told.push('|')?;
                    told.push_str(name.as_str())?;
                }
            }
            Err(DepsError::NoColon) => told.push_str("no colon")?,
            Err(DepsError::NotText) => told.push_str("no text")?,
            Err(DepsError::NoMemory) => told.push_str("no memory")?,
        }
        Ok(told)
    }

    #[test]
    fn names(rt: HostRuntime) -> Result<(), Fail> {
        let alloc = rt.alloc();
        for (text, names) in [
            (
                "/o/a.o: src/a.c inc/x\\ y.h \\\n z$$.h\n",
                "|src/a.c|inc/x y.h|z$.h",
            ),
            ("a b", "no colon"),
            ("a: b\nc", "|b"),
            ("a:b c: d", "|d"),
            ("a:", ""),
            ("", "no colon"),
            ("C:\\x.o: C:\\a.c \\\r\n d\r\nmore", "|C:\\a.c|d"),
            (
                "a: b\\\\ c\\\\\\ d e\\#f $h $$$i j\\",
                "|b\\|c\\ d|e#f|$h|$$i|j\\",
            ),
            ("a:\tb\tc\\\n\\\n", "|b|c"),
            ("a: b\r c\r", "|b\r|c\r"),
            ("a: b\0c \\\r\n\td", "|b\0c|d"),
            ("a:\\\n b: c", "|c"),
            ("a:\nb", ""),
            ("a: b\\\\\n c\\#\\\\#", "|b\\|c#\\#"),
        ] {
            assert_eq!(rt; told(alloc, text.as_bytes())?.as_str(), names);
        }
        assert_eq!(rt; told(alloc, &[97, 58, 255])?.as_str(), "no text");
        Ok(())
    }

    #[test]
    fn long_names(rt: HostRuntime) -> Result<(), Fail> {
        let alloc = rt.alloc();
        let mut text = Text::of(alloc, "a: b")?;
        for _place in 0..65_536 {
            text.push('\\')?;
        }
        text.push_str(" c")?;
        let names = match read_deps(alloc, text.as_str().as_bytes()) {
            Ok(names) => names,
            Err(_) => Words::new(alloc),
        };
        assert_eq!(rt; names.len(), 2);
        if let Some(name) = names.get(0) {
            assert_eq!(rt; name.as_str().len(), 32_769);
        }
        Ok(())
    }
}
