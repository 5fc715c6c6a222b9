// What is expected of a row's run.
use crate::error::Read;
use crate::fields::Fields;
use crate::row::{Expected, ExpectedError, ExpectedLog, ExpectedWord, Parts};

fn read_status(fields: Fields<'_, '_>, key: &str) -> Read<Option<u8>> {
    let Some(number) = fields.number(key)? else {
        return Ok(None);
    };
    match u8::try_from(number) {
        Ok(status) => Ok(Some(status)),
        Err(_) => Err(fields.refuse(key, "not from 0 to 255")),
    }
}

// The status of the same run where no call fails. There is one only where a call does.
fn read_healed(fields: Fields<'_, '_>) -> Read<Option<u8>> {
    let healed = read_status(fields, "healed")?;
    if healed.is_some() && !fields.has_values("fail") {
        return Err(fields.refuse("healed", "no call fails"));
    }
    Ok(healed)
}

fn error_of(fields: Fields<'_, '_>) -> Read<ExpectedError> {
    fields.only(&["kind", "subject", "message"])?;
    if !fields.has(&["kind", "subject", "message"]) {
        return Err(fields.refuse("error", "wants a kind, a subject or a message"));
    }
    Ok(ExpectedError {
        kind: fields.text("kind")?,
        subject: fields.text("subject")?,
        message: fields.text("message")?,
    })
}

fn read_error(fields: Fields<'_, '_>) -> Read<Option<ExpectedError>> {
    match fields.table.get("error") {
        None => Ok(None),
        Some(value) => Ok(Some(error_of(fields.below("error", value)?)?)),
    }
}

fn word_of(fields: Fields<'_, '_>) -> Read<ExpectedWord> {
    fields.only(&["place", "cause"])?;
    if !fields.has(&["place"]) {
        return Err(fields.refuse("place", "wanted"));
    }
    Ok(ExpectedWord {
        place: fields.count("place", 0, 0)?,
        cause: fields.wanted("cause")?,
    })
}

fn read_word(fields: Fields<'_, '_>) -> Read<Option<ExpectedWord>> {
    match fields.table.get("word") {
        None => Ok(None),
        Some(value) => Ok(Some(word_of(fields.below("word", value)?)?)),
    }
}

fn read_parts(fields: Fields<'_, '_>) -> Read<Parts> {
    Ok(Parts {
        has: fields.texts("has")?,
        lacks: fields.texts("lacks")?,
        once: fields.texts("once")?,
    })
}

fn read_log(fields: Fields<'_, '_>) -> Read<ExpectedLog> {
    match fields.text("log")? {
        None => Ok(ExpectedLog::Parts(read_parts(fields)?)),
        Some(_) if fields.has(&["has", "lacks", "once"]) => {
            Err(fields.refuse("log", "stands beside has, lacks or once"))
        }
        Some(log) => Ok(ExpectedLog::Whole(log)),
    }
}

// Whether there is anything that is expected. A list of nothing expects nothing.
fn expects(fields: Fields<'_, '_>) -> bool {
    fields.has(&["status", "error", "word", "log"])
        || fields.has_values("has")
        || fields.has_values("lacks")
        || fields.has_values("once")
}

pub fn read_expected(fields: Fields<'_, '_>) -> Read<Expected> {
    if !expects(fields) {
        return Err(fields.refuse("status", "the row expects nothing"));
    }
    Ok(Expected {
        status: read_status(fields, "status")?,
        healed: read_healed(fields)?,
        error: read_error(fields)?,
        word: read_word(fields)?,
        log: read_log(fields)?,
    })
}
