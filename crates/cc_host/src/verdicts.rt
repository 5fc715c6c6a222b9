// What an outcome means for its question.
ghost use Rattle.std.specs.Prelude.{◌≡◌, ◌==◌, ◌&&◌, ◌||◌, ◌+◌, ◌≤◌, [], bytes_eq, length, codes, drop, find, slice_range, false, IfOk, IfSome, if◌then◌else◌};
ghost use Rattle.std.specs.List.{position_or_len};
ghost use Rattle.std.specs.Str.{IsUtf8, is_utf8};
ghost use Rattle.std.specs.Option.{option_map};
ghost use Rattle.cc_text.specs.Within.{is_within};
ghost use Rattle.cc_host.specs.Question.{is_yes};
ghost use Rattle.cc_host.specs.Status.{is_success};
ghost use Rattle.cc_host.specs.Verdict.{yes_if, marks_of, read_as_option, preprocessed, begins_with_programs, programs_of, parted, search_dirs, ended_verdict, existence, verdict_of};
ghost use Rattle.cc_host.specs.declared.question.Verdict.TheVariants.{No, Marks as Shows, Dirs};

use crate::{Ask, Marks, Outcome, Question, Status, Verdict};
use cc_text::{Bytes, Mem, Text};
use memchr::memmem;
use std::alloc::Global;

/// Whether a verdict is yes. Any other verdict, an unanswered question too, isn't.
pub fn is_yes(verdict: &Verdict) -> bool
    ensures { result ≡ is_yes verdict.now }
{
    match verdict {
        Verdict::Unanswered => false,
        Verdict::Missing => false,
        Verdict::No => false,
        Verdict::Yes => true,
        Verdict::Marks(_) => false,
        Verdict::Dirs(_) => false,
    }
}

// Whether the needle stands in the bytes.
fn contains(bytes: &[u8], needle: &str) -> bool
    ensures { result ≡ is_within needle.now bytes.now }
{
    memmem::find(bytes, needle.as_bytes()).is_some()
}

fn yes_if(holds: bool) -> Verdict
    ensures { result ≡ yes_if holds }
{
    if holds { Verdict::Yes } else { Verdict::No }
}

#[tactic(auto, unfolding(crate::specs::Verdict::marks_of))]
fn marks_of(slash_u: bool, out: &[u8]) -> Marks
    ensures { result ≡ marks_of slash_u out.now }
{
    Marks {
        slash_u,
        clang: contains(out, "\"clang\""),
        gcc: contains(out, "\"gcc\""),
        emscripten: contains(out, "\"emscripten\""),
        vxworks: contains(out, "\"VxWorks\""),
    }
}

// Whether the compiler warned that it read a path as its option `/U`.
fn read_as_option(out: &[u8], err: &[u8]) -> bool
    ensures { result ≡ read_as_option out.now err.now }
{
    contains(out, "-Wslash-u-filename") || contains(err, "-Wslash-u-filename")
}

#[tactic(auto, unfolding(crate::specs::Verdict::preprocessed))]
fn preprocessed(status: Status, out: &[u8], err: &[u8]) -> Verdict
    ensures { result ≡ preprocessed status out.now err.now }
{
    if read_as_option(out, err) {
        Verdict::Marks(marks_of(true, out))
    } else if status.is_success() {
        Verdict::Marks(marks_of(false, out))
    } else {
        Verdict::No
    }
}

// The marks of an output without a warning, where the command succeeded.
fn dashed(status: Status, out: &[u8]) -> Verdict
    ensures { result ≡ (if is_success status then Shows (marks_of false out.now) else No) }
{
    if status.is_success() {
        Verdict::Marks(marks_of(false, out))
    } else {
        Verdict::No
    }
}

// Whether a byte ends a line.
fn ends_line(byte: u8) -> bool
    ensures { result ≡ (byte == 10 || byte == 13) }
{
    byte == b'\n' || byte == b'\r'
}

// Where the line that begins at a place ends.
#[tactic(auto, using(crate::proofs::VerdictLemmas::line_on, crate::proofs::VerdictLemmas::line_off, crate::proofs::VerdictLemmas::line_over))]
fn line_end(out: &[u8], start: usize) -> usize
    requires { start ≤ length out.now }
    ensures ends { result
        ≡ start + position_or_len (λ b. b == 10 || b == 13) (drop start out.now) }
    ensures within { result ≤ length out.now }
{
    let mut end = start;
    while end < out.len() && !ends_line(out[end]) {
        end += 1;
    }
    end
}

// Whether a line begins with the mark.
fn begins_with_programs(line: &[u8]) -> bool
    ensures { result ≡ begins_with_programs line.now }
{
    line.starts_with("programs: =".as_bytes())
}

// From where to where what follows the mark stands, on the first line that begins with it.
#[tactic(auto, using(crate::proofs::VerdictLemmas::found_on, crate::proofs::VerdictLemmas::found_never, crate::proofs::VerdictLemmas::found_fits, crate::proofs::VerdictLemmas::found_cut, crate::proofs::VerdictLemmas::found_text))]
fn programs_in(out: &[u8]) -> Option<(usize, usize)>
    ensures cut { option_map (λ r. slice_range out.now r.0 r.1) result ≡ programs_of out.now }
    ensures within { IfSome result (λ r. (r.0 ≤ r.1) × (r.1 ≤ length out.now)) }
    ensures text { IsUtf8 out.now → IfSome result (λ r. IsUtf8 (slice_range out.now r.0 r.1)) }
{
    let mut start = 0;
    while start <= out.len() {
        let end = line_end(out, start);
        if begins_with_programs(&out[start..end]) {
            return Some((start + "programs: =".len(), end));
        }
        start = end + 1;
    }
    None
}

fn is_text(bytes: &[u8]) -> bool
    ensures { result ≡ is_utf8 bytes.now }
{
    match str::from_utf8(bytes) {
        Ok(_text) => true,
        Err(_) => false,
    }
}

// The folders that stand from one place of an output up to another.
fn dirs_at(out: Bytes, from: usize, to: usize) -> Verdict
    requires within { (from ≤ to) × (to ≤ length out) }
    requires text { IsUtf8 (slice_range out from to) }
    ensures { result ≡ Dirs (slice_range out from to) }
{
    let mut dirs = out;
    dirs.keep(from, to);
    match Text::from_utf8(dirs) {
        Some(dirs) => Verdict::Dirs(dirs),
        None => Verdict::No,
    }
}

// The folders that a compiler searches for programs.
#[tactic(auto, unfolding(crate::specs::Verdict::search_dirs))]
fn search_dirs(status: Status, out: Bytes) -> Verdict
    ensures { result ≡ search_dirs status out }
{
    if !status.is_success() {
        return Verdict::No;
    }
    if !is_text(out.as_slice()) {
        return Verdict::No;
    }
    match programs_in(out.as_slice()) {
        Some((from, to)) => dirs_at(out, from, to),
        None => Verdict::No,
    }
}

// Whether the command succeeded with these words on its standard output.
fn succeeded_with(status: Status, out: &[u8], words: &str) -> bool
    ensures { result ≡ (is_success status && is_within words.now out.now) }
{
    status.is_success() && contains(out, words)
}

// Whether the command succeeded and wrote no error.
fn succeeded_silently(status: Status, err: &[u8]) -> bool
    ensures { result ≡ (is_success status && bytes_eq err.now []) }
{
    status.is_success() && err == b"".as_slice()
}

// What a command's end means for what was asked.
#[tactic(auto, unfolding(crate::specs::Verdict::ended_verdict))]
fn ended_verdict(ask: Ask, status: Status, out: Bytes, err: &[u8]) -> Verdict
    ensures { result ≡ ended_verdict ask status out err.now }
{
    match ask {
        Ask::Preprocess => preprocessed(status, out.as_slice(), err),
        Ask::PreprocessDashes => dashed(status, out.as_slice()),
        Ask::HelpFlag => yes_if(status.is_success()),
        Ask::Version => yes_if(succeeded_with(status, out.as_slice(), "ziglang")),
        Ask::Flag { .. } => yes_if(succeeded_silently(status, err)),
        Ask::Libcxx => yes_if(succeeded_with(status, out.as_slice(), "\"libcxx\"")),
        Ask::SearchDirs => search_dirs(status, out),
        Ask::ToolVersion => yes_if(status.is_success()),
        Ask::Starts => Verdict::Yes,
        Ask::Exists => Verdict::No,
    }
}

fn existence(ask: Ask, there: bool) -> Verdict
    ensures { result ≡ existence ask there }
{
    match ask {
        Ask::Exists => yes_if(there),
        _ => Verdict::No,
    }
}

/// What the outcome of a question means. It takes no memory: the text of a verdict is cut out of the outcome's own
/// bytes.
#[tactic(auto, unfolding(crate::specs::Verdict::verdict_of))]
pub fn into_verdict(q: &Question, outcome: Outcome) -> Verdict
    ensures { result ≡ verdict_of q.now outcome }
{
    match outcome {
        Outcome::Unanswered => Verdict::Unanswered,
        Outcome::Missing => Verdict::Missing,
        Outcome::Exists(there) => existence(q.ask, there),
        Outcome::Done { status, out, err } => ended_verdict(q.ask, status, out, err.as_slice()),
    }
}

/// What the outcome of a question means, where the outcome is used again.
pub fn verdict(alloc: Global, q: &Question, outcome: &Outcome) -> Mem<Verdict>
    ensures { IfOk result (λ v. v ≡ verdict_of q.now outcome.now) }
{
    let _ = alloc;
    Ok(into_verdict(q, outcome.try_clone()?))
}
