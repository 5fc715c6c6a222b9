// A line that is being written: words as one would type them, bytes, and texts.
use cc_text::{Mem, Words, quoted};
use std::alloc::Global;

/// A line, to which texts are added last.
#[derive(Drop)]
pub struct Line {
    alloc: Global,
    text: String,
}

// Whether a shell takes the byte as it stands.
fn is_bare(byte: u8) -> bool {
    match byte {
        b'_' | b'@' | b'%' | b'+' | b'=' | b':' | b',' | b'.' | b'/' | b'-' => true,
        _ => byte.is_ascii_alphanumeric(),
    }
}

fn is_bare_word(word: &str) -> bool {
    !word.is_empty() && word.bytes().all(|byte| is_bare(byte))
}

fn has_control(text: &str) -> bool {
    text.bytes().any(|byte| byte.is_ascii_control())
}

impl Line {
    pub fn new(alloc: Global) -> Line {
        Line {
            alloc,
            text: String::new(alloc),
        }
    }

    pub fn allocator(&self) -> Global {
        self.alloc
    }

    pub fn push_str(&mut self, text: &str) -> Mem<()> {
        self.text.push_str(text)?;
        Ok(())
    }

    pub fn push_number(&mut self, front: &str, number: u64) -> Mem<()> {
        write!(self.text, "{front}{number}")?;
        Ok(())
    }

    pub fn push_code(&mut self, code: i32) -> Mem<()> {
        write!(self.text, "{code}")?;
        Ok(())
    }

    /// Adds a number, and what is said of what has it.
    pub fn push_about(&mut self, number: u64, text: &str) -> Mem<()> {
        write!(self.text, "{number}{text}")?;
        Ok(())
    }

    /// Adds a text in double quotes.
    pub fn push_quoted(&mut self, text: &str) -> Mem<()> {
        let quoted = quoted(self.alloc, text)?;
        self.push_str(quoted.as_str())
    }

    // Adds a character of a word in single quotes.
    fn push_char(&mut self, c: char) -> Mem<()> {
        if c == '\'' {
            return self.push_str("'\\''");
        }
        self.text.push(c)?;
        Ok(())
    }

    // Adds a word in single quotes.
    fn push_single(&mut self, word: &str) -> Mem<()> {
        self.push_str("'")?;
        for c in word.chars() {
            self.push_char(c)?;
        }
        self.push_str("'")
    }

    /// Adds a word as one would type it.
    pub fn push_word(&mut self, word: &str) -> Mem<()> {
        if is_bare_word(word) {
            self.push_str(word)
        } else if has_control(word) {
            self.push_quoted(word)
        } else {
            self.push_single(word)
        }
    }

    /// Adds a text, and a word behind it.
    pub fn push_named(&mut self, front: &str, word: &str) -> Mem<()> {
        self.push_str(front)?;
        self.push_word(word)
    }

    /// Adds each word behind a blank.
    pub fn push_words(&mut self, words: &Words) -> Mem<()> {
        for word in words.as_slice() {
            self.push_named(" ", word.as_str())?;
        }
        Ok(())
    }

    /// Adds a text as it stands, where it has no control character.
    pub fn push_shown(&mut self, text: &str) -> Mem<()> {
        if has_control(text) {
            self.push_quoted(text)
        } else {
            self.push_str(text)
        }
    }

    /// Adds the text of these bytes in double quotes.
    pub fn push_bytes(&mut self, bytes: &[u8]) -> Mem<()> {
        let text = String::from_utf8_lossy(self.alloc, bytes)?;
        self.push_quoted(text.as_str())
    }

    /// Adds the text of a line, without its last line feed.
    pub fn push_line(&mut self, bytes: &[u8]) -> Mem<()> {
        let line = String::from_utf8_lossy(self.alloc, bytes)?;
        match line.as_str().strip_suffix('\n') {
            Some(line) => self.push_shown(line),
            None => self.push_shown(line.as_str()),
        }
    }

    /// What was written.
    pub fn into_string(self) -> String {
        self.text
    }
}

/// Texts in double quotes, with blanks between.
pub fn quoted_list(alloc: Global, texts: &[String]) -> Mem<String> {
    let mut line = Line::new(alloc);
    for text in texts {
        if !line.text.is_empty() {
            line.push_str(" ")?;
        }
        line.push_quoted(text.as_str())?;
    }
    Ok(line.into_string())
}
