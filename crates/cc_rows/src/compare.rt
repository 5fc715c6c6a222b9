// What a run gave, compared with what its row expects.
use crate::names::kind_name;
use cc_build::Error;
use cc_command::{BadWord, Ended, cause_text};
use cc_row::{Expected, ExpectedError, ExpectedLog, ExpectedWord, Parts};
use cc_text::Mem;
use std::alloc::Global;

/// What was expected at a place, and what was found there.
#[derive(Drop)]
pub struct Difference {
    pub expected: String,
    pub found: String,
}

/// The first difference so far.
#[derive(Drop)]
pub struct Compared {
    alloc: Global,
    pub first: Option<Difference>,
}

impl Compared {
    pub fn new(alloc: Global) -> Compared {
        Compared { alloc, first: None }
    }

    /// Notes a difference where none was noted yet.
    pub fn differ(&mut self, expected: &str, found: &str) -> Mem<()> {
        if self.first.is_none() {
            self.first = Some(Difference {
                expected: String::from_str(self.alloc, expected)?,
                found: String::from_str(self.alloc, found)?,
            });
        }
        Ok(())
    }
}

fn compare_whole(to: &mut Compared, expected: &str, found: &[String]) -> Mem<()> {
    let mut found = found.iter();
    for expected in expected.lines() {
        match found.next() {
            None => return to.differ(expected, "the log's end"),
            Some(line) => {
                if line.as_str() != expected {
                    return to.differ(expected, line.as_str());
                }
            }
        }
    }
    match found.next() {
        None => Ok(()),
        Some(line) => to.differ("the log's end", line.as_str()),
    }
}

// The first line that has the text in it.
fn line_with<'a>(lines: &'a [String], text: &str) -> Option<&'a String> {
    lines.iter().find(|line| line.as_str().contains(text))
}

fn compare_has(alloc: Global, to: &mut Compared, texts: &[String], lines: &[String]) -> Mem<()> {
    for text in texts {
        let text = text.as_str();
        if line_with(lines, text).is_none() {
            let wanted = format!(in alloc; "a line with {text}")?;
            to.differ(wanted.as_str(), "no such line")?;
        }
    }
    Ok(())
}

fn compare_lacks(alloc: Global, to: &mut Compared, texts: &[String], lines: &[String]) -> Mem<()> {
    for text in texts {
        let text = text.as_str();
        if let Some(line) = line_with(lines, text) {
            let wanted = format!(in alloc; "no line with {text}")?;
            to.differ(wanted.as_str(), line.as_str())?;
        }
    }
    Ok(())
}

fn compare_once(alloc: Global, to: &mut Compared, texts: &[String], lines: &[String]) -> Mem<()> {
    for text in texts {
        let text = text.as_str();
        let count = lines
            .iter()
            .filter(|line| line.as_str().contains(text))
            .count();
        if count != 1 {
            let wanted = format!(in alloc; "one line with {text}")?;
            let found = format!(in alloc; "{count} lines")?;
            to.differ(wanted.as_str(), found.as_str())?;
        }
    }
    Ok(())
}

fn compare_parts(alloc: Global, to: &mut Compared, parts: &Parts, lines: &[String]) -> Mem<()> {
    compare_has(alloc, to, &parts.has, lines)?;
    compare_lacks(alloc, to, &parts.lacks, lines)?;
    compare_once(alloc, to, &parts.once, lines)
}

/// Compares the lines of a log.
pub fn compare_lines(
    alloc: Global,
    to: &mut Compared,
    expected: &ExpectedLog,
    lines: &[String],
) -> Mem<()> {
    match expected {
        ExpectedLog::Whole(log) => compare_whole(to, log.as_str(), lines),
        ExpectedLog::Parts(parts) => compare_parts(alloc, to, parts, lines),
    }
}

// Compares what is told of an error under a name, where that is expected.
fn compare_text(
    alloc: Global,
    to: &mut Compared,
    name: &str,
    expected: &Option<String>,
    found: &str,
) -> Mem<()> {
    match expected {
        Some(text) if text.as_str() != found => {
            let wanted = format!(in alloc; "{name} {text}")?;
            let given = format!(in alloc; "{name} {found}")?;
            to.differ(wanted.as_str(), given.as_str())
        }
        _ => Ok(()),
    }
}

fn compare_error(
    alloc: Global,
    to: &mut Compared,
    expected: &ExpectedError,
    found: &Option<Error>,
) -> Mem<()> {
    match found {
        None => to.differ("an error", "no error"),
        Some(error) => {
            let kind = kind_name(error.kind());
            compare_text(alloc, to, "error of kind", &expected.kind, kind)?;
            compare_text(alloc, to, "error about", &expected.subject, error.subject())?;
            compare_text(alloc, to, "error", &expected.message, error.message())
        }
    }
}

fn word_text(alloc: Global, place: u64, cause: &str) -> Mem<String> {
    Ok(format!(in alloc; "word {place}: {cause}")?)
}

fn compare_word(
    alloc: Global,
    to: &mut Compared,
    expected: &ExpectedWord,
    found: &Option<BadWord>,
) -> Mem<()> {
    let wanted = word_text(alloc, expected.place, expected.cause.as_str())?;
    match found {
        None => to.differ(wanted.as_str(), "no bad word"),
        Some(bad) => {
            let given = word_text(alloc, bad.place, cause_text(bad.cause))?;
            if given.as_str() == wanted.as_str() {
                return Ok(());
            }
            to.differ(wanted.as_str(), given.as_str())
        }
    }
}

// Compares a run that is to end well: nothing is told of it.
fn compare_silence(to: &mut Compared, ended: &Ended) -> Mem<()> {
    if let Some(error) = &ended.error {
        to.differ("no error", error.message())?;
    }
    match &ended.word {
        Some(bad) => to.differ("no bad word", cause_text(bad.cause)),
        None => Ok(()),
    }
}

fn compare_status(alloc: Global, to: &mut Compared, expected: u8, ended: &Ended) -> Mem<()> {
    let found = ended.status;
    if expected == 0 {
        compare_silence(to, ended)?;
    }
    if found != expected {
        let wanted = format!(in alloc; "status {expected}")?;
        let given = format!(in alloc; "status {found}")?;
        to.differ(wanted.as_str(), given.as_str())?;
    }
    Ok(())
}

/// Compares the error, the bad word and the status of a run. The status comes last, since the others say more.
pub fn compare_end(
    alloc: Global,
    to: &mut Compared,
    expected: &Expected,
    ended: &Ended,
) -> Mem<()> {
    if let Some(error) = &expected.error {
        compare_error(alloc, to, error, &ended.error)?;
    }
    if let Some(word) = &expected.word {
        compare_word(alloc, to, word, &ended.word)?;
    }
    match expected.status {
        Some(status) => compare_status(alloc, to, status, ended),
        None => Ok(()),
    }
}
