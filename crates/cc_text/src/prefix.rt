// A path without the components of a base.
ghost use Rattle.std.specs.Prelude.{◌≡◌, ℕ, ◌+◌, ◌-◌, ◌<◌, ◌≤◌, length};
ghost use Rattle.std.specs.Option.{option_copied};
ghost use Rattle.std.specs.Path.{is_trailing, is_leading, trim_trailing};
ghost use Rattle.cc_text.specs.Components.{skip_leading, after_first, strip_prefix};

use std::path::Path;

/// Whether the byte at a place is a slash, or a `.` after a slash, where the place isn't the first.
fn is_trailing(path: &[u8], place: usize) -> bool
    requires { place < length path.now }
    ensures { result ≡ is_trailing path.now place }
{
    0 < place && (path[place] == b'/' || (path[place] == b'.' && path[place - 1] == b'/'))
}

/// The path up to the end of its last component.
fn trimmed(path: &str) -> &str
    ensures { result.now ≡ trim_trailing path.now }
{
    let bytes = path.as_bytes();
    let mut end = bytes.len();
    while end > 0 && is_trailing(bytes, end - 1) {
        end -= 1;
    }
    &path[..end]
}

/// Whether the byte at a place is a slash, or a `.` that a slash or the end follows.
fn is_leading(path: &[u8], place: usize) -> bool
    requires { place < length path.now }
    ensures { result ≡ is_leading path.now place }
{
    path[place] == b'/'
        || (path[place] == b'.' && (place + 1 == path.len() || path[place + 1] == b'/'))
}

/// The text without the slashes and parts `.` that it begins with.
fn skip_leading(text: &str) -> &str
    ensures { result.now ≡ skip_leading text.now }
{
    let bytes = text.as_bytes();
    let mut start = 0;
    while start < bytes.len() && is_leading(bytes, start) {
        start += 1;
    }
    &text[start..]
}

/// The path from its second component on.
fn after_first(path: &str) -> &str
    ensures { result.now ≡ after_first path.now }
{
    match path.split_once('/') {
        Some((_, rest)) => skip_leading(rest),
        None => "",
    }
}

/// The path from the first component after the base's to the end of its last, lent; empty where the two have the
/// same components, and none where the base's components aren't the first of the path's. As
/// `std::path::Path::strip_prefix` has it. It takes no memory.
pub fn strip_prefix<'a>(path: &'a str, base: &str) -> Option<&'a str>
    ensures { option_copied result ≡ strip_prefix path.now base.now }
{
    if !Path::new(path).starts_with(base) {
        return None;
    }
    let mut rest = trimmed(path);
    for part in Path::new(base).components() {
        rest = after_first(rest);
    }
    Some(rest)
}
