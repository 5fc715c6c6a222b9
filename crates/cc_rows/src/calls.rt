// Calls of single functions.
use crate::compare::{Compared, Difference};
use cc_calls::{CallError, call};
use cc_row::{CallRow, quoted_list};
use cc_text::{Mem, NoMemory};
use std::alloc::{AllocError, Global};

/// Whether there is a function of that name. It is called with nothing.
pub fn is_known(alloc: Global, function: &str) -> bool {
    !matches!(call(alloc, function, &[]), Err(CallError::Unknown))
}

/// What a call is printed as.
pub fn name_of(alloc: Global, row: &CallRow) -> Mem<String> {
    let given = quoted_list(alloc, &row.given)?;
    let function = row.function.as_str();
    Ok(format!(in alloc; "{function} of {given}")?)
}

// Texts in quotes, or that there are none.
fn shown(alloc: Global, texts: &[String]) -> Mem<String> {
    if texts.is_empty() {
        Ok(String::from_str(alloc, "nothing")?)
    } else {
        quoted_list(alloc, texts)
    }
}

fn compare(alloc: Global, to: &mut Compared, row: &CallRow, gives: &[String]) -> Mem<()> {
    let expected = shown(alloc, &row.gives)?;
    let found = shown(alloc, gives)?;
    if expected.as_str() == found.as_str() {
        return Ok(());
    }
    to.differ(expected.as_str(), found.as_str())
}

fn compare_refusal(alloc: Global, to: &mut Compared, row: &CallRow, found: &str) -> Mem<()> {
    let expected = shown(alloc, &row.gives)?;
    to.differ(expected.as_str(), found)
}

fn compare_call(alloc: Global, to: &mut Compared, row: &CallRow) -> Mem<()> {
    match call(alloc, row.function.as_str(), &row.given) {
        Ok(gives) => compare(alloc, to, row, &gives),
        Err(CallError::Unknown) => compare_refusal(alloc, to, row, "no such function"),
        Err(CallError::Given) => compare_refusal(alloc, to, row, "takes other texts"),
        Err(CallError::NoMemory) => Err(NoMemory),
    }
}

/// Makes the call. `None` says that it gives what is expected.
pub fn play_call(alloc: Global, row: &CallRow) -> Mem<Option<Difference>> {
    let mut to = Compared::new(alloc);
    compare_call(alloc, &mut to, row)?;
    Ok(to.first)
}
