// One table of a file, read by key. What is out of form is refused with the place of its row and the key.
use crate::error::{Read, RowError};
use std::alloc::Global;
use toml::{Table, Value};

/// A table, with the place of the row that it belongs to, and the abbreviations of its file.
#[derive(Clone, Copy)]
pub struct Fields<'p, 'a> {
    pub alloc: Global,
    pub place: &'p str,
    pub table: &'a Table,
    pub abbreviations: &'a Table,
}

fn is_among(words: &[&str], word: &str) -> bool {
    words.iter().any(|other| *other == word)
}

fn is_name(text: &str) -> bool {
    !text.is_empty() && text.bytes().all(|b| b.is_ascii_alphanumeric() || b == b'_')
}

impl<'p, 'a> Fields<'p, 'a> {
    /// The same table, at another place.
    pub fn at<'q>(&self, place: &'q str) -> Fields<'q, 'a> {
        Fields { place, ..*self }
    }

    /// A table below a key of this one.
    pub fn below(&self, key: &str, value: &'a Value) -> Read<Fields<'p, 'a>> {
        match value {
            Value::Table(table) => Ok(Fields { table, ..*self }),
            _ => Err(self.refuse(key, "not a table")),
        }
    }

    pub fn refuse(&self, key: &str, why: &str) -> RowError {
        RowError::refused(self.alloc, self.place, key, why)
    }

    /// Refuses a key that is none of these.
    pub fn only(&self, known: &[&str]) -> Read<()> {
        for key in self.table.keys() {
            if !is_among(known, key.as_str()) {
                return Err(self.refuse(key.as_str(), "unknown key"));
            }
        }
        Ok(())
    }

    /// Whether there is one of these keys.
    pub fn has(&self, keys: &[&str]) -> bool {
        keys.iter().any(|key| self.table.contains_key(*key))
    }

    /// Whether there is a list of this key that has a value, or what is no list.
    pub fn has_values(&self, key: &str) -> bool {
        match self.table.get(key) {
            None => false,
            Some(Value::Array(values)) => !values.is_empty(),
            Some(_) => true,
        }
    }

    pub fn switch(&self, key: &str) -> Read<Option<bool>> {
        match self.table.get(key) {
            None => Ok(None),
            Some(Value::Boolean(is_on)) => Ok(Some(*is_on)),
            Some(_) => Err(self.refuse(key, "not true or false")),
        }
    }

    /// Whether a switch is on. One that isn't there is off.
    pub fn is_on(&self, key: &str) -> Read<bool> {
        Ok(self.switch(key)?.unwrap_or(false))
    }

    pub fn number(&self, key: &str) -> Read<Option<i64>> {
        match self.table.get(key) {
            None => Ok(None),
            Some(Value::Integer(number)) => Ok(Some(*number)),
            Some(_) => Err(self.refuse(key, "not a whole number")),
        }
    }

    /// A number from this one on, or where there is none the usual one.
    pub fn count(&self, key: &str, least: u64, usual: u64) -> Read<u64> {
        let Some(number) = self.number(key)? else {
            return Ok(usual);
        };
        match u64::try_from(number) {
            Ok(count) if count >= least => Ok(count),
            _ => Err(self.refuse(key, "too small")),
        }
    }

    pub fn text(&self, key: &str) -> Read<Option<String>> {
        match self.table.get(key) {
            None => Ok(None),
            Some(value) => Ok(Some(self.text_of(key, value)?)),
        }
    }

    pub fn text_or_empty(&self, key: &str) -> Read<String> {
        match self.table.get(key) {
            None => Ok(String::new(self.alloc)),
            Some(value) => self.text_of(key, value),
        }
    }

    /// A text that has to be there.
    pub fn wanted(&self, key: &str) -> Read<String> {
        match self.table.get(key) {
            None => Err(self.refuse(key, "wanted")),
            Some(value) => self.text_of(key, value),
        }
    }

    /// The values of a list, or of no list none.
    pub fn values(&self, key: &str) -> Read<&'a [Value]> {
        match self.table.get(key) {
            None => Ok(&[]),
            Some(Value::Array(values)) => Ok(values.as_slice()),
            Some(_) => Err(self.refuse(key, "not a list")),
        }
    }

    /// The texts of a list, or of no list none.
    pub fn texts(&self, key: &str) -> Read<Vec<String>> {
        let mut texts = Vec::new(self.alloc);
        for value in self.values(key)? {
            texts.push(self.text_of(key, value)?)?;
        }
        Ok(texts)
    }

    /// The words of one text, or a list of them.
    pub fn words(&self, key: &str) -> Read<Vec<String>> {
        match self.table.get(key) {
            None => Err(self.refuse(key, "wanted")),
            Some(Value::String(text)) => self.split(key, text.as_str()),
            Some(_) => self.texts(key),
        }
    }

    fn split(&self, key: &str, text: &str) -> Read<Vec<String>> {
        let line = self.expand(key, text)?;
        split_at_blanks(self.alloc, line.as_str())
    }

    /// The text of a value below the key.
    pub fn text_of(&self, key: &str, value: &Value) -> Read<String> {
        match value {
            Value::String(text) => self.expand(key, text.as_str()),
            _ => Err(self.refuse(key, "not a text")),
        }
    }

    // The text, in which each `{name}` gives way to what it abbreviates.
    fn expand(&self, key: &str, text: &str) -> Read<String> {
        let mut expanded = String::new(self.alloc);
        let mut pieces = text.split('{');
        if let Some(first) = pieces.next() {
            expanded.push_str(first)?;
        }
        for piece in pieces {
            self.push_expanded(key, &mut expanded, piece)?;
        }
        Ok(expanded)
    }

    // Adds what stands behind a brace that opens.
    fn push_expanded(&self, key: &str, expanded: &mut String, piece: &str) -> Read<()> {
        match piece.split_once('}') {
            Some((name, rest)) if is_name(name) => {
                push_both(expanded, self.abbreviated(key, name)?, rest)
            }
            _ => push_both(expanded, "{", piece),
        }
    }

    fn abbreviated(&self, key: &str, name: &str) -> Read<&'a str> {
        match self.abbreviations.get(name) {
            Some(Value::String(text)) => Ok(text.as_str()),
            _ => {
                let why = format!(in self.alloc; "[let] has no {name}")?;
                Err(self.refuse(key, why.as_str()))
            }
        }
    }
}

fn push_both(text: &mut String, front: &str, back: &str) -> Read<()> {
    text.push_str(front)?;
    text.push_str(back)?;
    Ok(())
}

fn split_at_blanks(alloc: Global, line: &str) -> Read<Vec<String>> {
    let mut words = Vec::new(alloc);
    for word in line.split_whitespace() {
        words.push(String::from_str(alloc, word)?)?;
    }
    Ok(words)
}
