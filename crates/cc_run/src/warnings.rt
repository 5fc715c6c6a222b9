// The lines of a standard error that are warnings.
ghost use Rattle.std.specs.Prelude.{◌≡◌, IfOk};
ghost use Rattle.std.specs.Option.{option_copied};
ghost use Rattle.std.specs.Str.Lines.{strip_carriage_return};
ghost use Rattle.cc_run.specs.Lines.{is_other, warnings};

use crate::forwarder::pieces_of;
use cc_text::{Bytes, Mem};
use std::alloc::Global;

pub(crate) fn without_carriage_return(line: &[u8]) -> &[u8]
    ensures { result.now ≡ strip_carriage_return line.now }
{
    match line {
        [front @ .., b'\r'] => front,
        _ => line,
    }
}

fn is_other(ignored: Option<&[u8]>, line: &[u8]) -> bool
    ensures { result ≡ is_other (option_copied ignored.entry) line.now }
{
    if line.is_empty() {
        return false;
    }
    match ignored {
        Some(ignored) => line != ignored,
        None => true,
    }
}

/// The lines of a standard error that are warnings: split at line feeds, each without one carriage return at its end,
/// and without those that are then empty or the ignored line. So the crate `cc` forwards what was read at once.
pub fn stderr_warnings(alloc: Global, stderr: &[u8], ignored: Option<&[u8]>) -> Mem<Vec<Bytes>>
    ensures { IfOk result (λ lines. lines.items
        ≡ warnings (option_copied ignored.entry) stderr.now) }
{
    let mut lines = Vec::new(alloc);
    for part in &pieces_of(alloc, stderr)? {
        let line = without_carriage_return(part);
        if is_other(ignored, line) {
            lines.push(Bytes::of(alloc, line)?)?;
        }
    }
    Ok(lines)
}
