// Words as a POSIX shell quotes them: the standard's Shell Command Language (XCU), 2.2 "Quoting" and 2.3 "Token
// Recognition".

ghost use Rattle.std.specs.Prelude.{◌≡◌, ◌++◌, ◌∷◌, List, IfOk};
ghost use Rattle.cc_text.specs.Shell.{step, words_of, shell_words, ending, is_open};
ghost use Rattle.cc_text.specs.declared.shell.Mark.{Mark};

use crate::{Mem, Text, Words};
use std::alloc::Global;

/// Where a reader of the text stands, between two characters.
#[derive(Clone, Copy)]
pub enum Mode {
    /// Outside quotes, with no character of a word since the last blank.
    Between,
    /// In a word, outside quotes.
    Inside,
    /// After a backslash outside quotes.
    Escaped,
    /// In single quotes.
    Single,
    /// In double quotes.
    Double,
    /// After a backslash in double quotes.
    DoubleEscaped,
    /// In a comment.
    Comment,
}

/// What a character does to the word in work. A word may be in work and still empty, as after `''`.
#[derive(Clone, Copy)]
pub enum Mark {
    /// Nothing.
    Nothing,
    /// It ends the word, if there is one.
    Ends,
    /// It begins a word, if there is none.
    Begins,
    /// It adds the character.
    Adds(char),
    /// It adds a backslash and the character: in double quotes a backslash stays before most characters.
    AddsEscaped(char),
    /// It drops the word, if there is one.
    Drops,
}

/// The mark of a character, and the mode after it.
fn step(mode: Mode, c: char) -> (Mark, Mode)
    ensures { result ≡ step mode c }
{
    match mode {
        Mode::Between => match c {
            ' ' | '\t' | '\n' => (Mark::Nothing, Mode::Between),
            '#' => (Mark::Nothing, Mode::Comment),
            '\\' => (Mark::Nothing, Mode::Escaped),
            '\'' => (Mark::Begins, Mode::Single),
            '"' => (Mark::Begins, Mode::Double),
            _ => (Mark::Adds(c), Mode::Inside),
        },
        Mode::Inside => match c {
            ' ' | '\t' | '\n' => (Mark::Ends, Mode::Between),
            '\\' => (Mark::Nothing, Mode::Escaped),
            '\'' => (Mark::Begins, Mode::Single),
            '"' => (Mark::Begins, Mode::Double),
            _ => (Mark::Adds(c), Mode::Inside),
        },
        Mode::Escaped => match c {
            '\n' => (Mark::Begins, Mode::Inside),
            _ => (Mark::Adds(c), Mode::Inside),
        },
        Mode::Single => match c {
            '\'' => (Mark::Nothing, Mode::Inside),
            _ => (Mark::Adds(c), Mode::Single),
        },
        Mode::Double => match c {
            '"' => (Mark::Nothing, Mode::Inside),
            '\\' => (Mark::Nothing, Mode::DoubleEscaped),
            _ => (Mark::Adds(c), Mode::Double),
        },
        Mode::DoubleEscaped => match c {
            '\n' => (Mark::Nothing, Mode::Double),
            '$' | '`' | '"' | '\\' => (Mark::Adds(c), Mode::Double),
            _ => (Mark::AddsEscaped(c), Mode::Double),
        },
        Mode::Comment => match c {
            '\n' => (Mark::Nothing, Mode::Between),
            _ => (Mark::Nothing, Mode::Comment),
        },
    }
}

/// Whether a quote is open, or a backslash is last.
fn is_open(mode: Mode) -> bool
    ensures { result ≡ is_open mode }
{
    matches!(
        mode,
        Mode::Escaped | Mode::Single | Mode::Double | Mode::DoubleEscaped
    )
}

/// What the end of the text does.
fn ending(mode: Mode) -> Mark
    ensures { result ≡ ending mode }
{
    if is_open(mode) {
        Mark::Drops
    } else {
        Mark::Ends
    }
}

/// Does what a mark says: the words so far and those of any marks after it are as before.
fn apply(alloc: Global, words: &mut Words, word: Option<Text>, mark: Mark) -> Mem<Option<Text>>
    ensures { IfOk result (λ next. (marks : List Mark)
        → words.new ++ words_of marks next ≡ words.old ++ words_of (mark ∷ marks) word) }
{
    match mark {
        Mark::Nothing => Ok(word),
        Mark::Drops => Ok(None),
        Mark::Ends => {
            if let Some(word) = word {
                words.push_text(word)?;
            }
            Ok(None)
        }
        Mark::Begins => match word {
            None => Ok(Some(Text::new(alloc))),
            Some(word) => Ok(Some(word)),
        },
        Mark::Adds(c) => {
            let mut word = match word {
                None => Text::new(alloc),
                Some(word) => word,
            };
            word.push(c)?;
            Ok(Some(word))
        }
        Mark::AddsEscaped(c) => {
            let mut word = match word {
                None => Text::new(alloc),
                Some(word) => word,
            };
            word.push('\\')?;
            word.push(c)?;
            Ok(Some(word))
        }
    }
}

/// The words of a text as a POSIX shell would quote them, with no expansion; the crate `shlex` reads so. Space, tab
/// and line feed part words; quotes and backslashes keep characters, and `''` is an empty word; `#` at the start of
/// a word comments to the line's end. At an open quote or a last backslash the word in work is dropped, and the
/// words before it stay. Only want of memory refuses; nothing is kept then.
#[tactic(auto, unfolding(crate::specs::Shell::shell_words))]
pub fn shell_words(alloc: Global, s: &str) -> Mem<Words>
    ensures { IfOk result (λ words. words ≡ shell_words s.now) }
{
    let mut words = Words::new(alloc);
    let mut word = None;
    let mut mode = Mode::Between;
    for c in s.chars() {
        let (mark, next) = step(mode, c);
        mode = next;
        word = apply(alloc, &mut words, word, mark)?;
    }
    apply(alloc, &mut words, word, ending(mode))?;
    Ok(words)
}
