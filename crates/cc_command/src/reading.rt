// The setters of the keys that words have.
ghost use Rattle.std.specs.Prelude.{◌≡◌, ◌⊎◌, ◌≤◌, ◌++◌, [], ◌∷◌, Ok, Err, Some, None, true, false, IfOk, OnOk, MatchResult, IsErr, codes};
ghost use Rattle.std.specs.Option.{option_copied};
ghost use Rattle.cc_build.specs.Build.{Sets};
ghost use Rattle.cc_command.specs.Read.{IsNumberOf, IsTruthOf, level_of, is_truth, is_text_key, is_item_key, is_choice_key, is_switch_key, cause_unless, definition_of, unless_empty};
ghost use Rattle.cc_command.specs.SetsKey.{SetsKey, SetsTruth, SetsLevel};
ghost use Rattle.cc_command.specs.Step.{with_key};

use crate::words::WordCause;
use cc_build::{Build, Error};
use cc_host::World;
use cc_text::{Mem, NoMemory, key_and_value, u32_of};
use std::alloc::Global;

/// The number of a text, where the text is its decimal form.
pub(crate) fn number_of(alloc: Global, text: &str) -> Mem<Option<u32>>
    ensures { IfOk result (λ n. IsNumberOf text.now n) }
{
    match text.parse::<u32>() {
        Ok(n) => {
            let digits = format!(in alloc; "{n}")?;
            if digits.as_str() == text {
                Ok(Some(n))
            } else {
                Ok(None)
            }
        }
        Err(_) => Ok(None),
    }
}

fn truth_of(text: &str) -> Option<bool>
    ensures { IsTruthOf text.now result }
{
    match text {
        "true" => Some(true),
        "false" => Some(false),
        _ => None,
    }
}

// A setter's answer, of which want of memory is the one refusal.
fn set(answer: Result<(), Error>) -> Mem<Option<WordCause>>
    ensures { MatchResult answer (λ _. result ≡ Ok None) (λ _. IsErr result) }
{
    match answer {
        Ok(()) => Ok(None),
        Err(_) => Err(NoMemory),
    }
}

fn unless_empty(text: &str) -> Option<&str>
    ensures { option_copied result ≡ unless_empty text.now }
{
    match text {
        "" => None,
        text => Some(text),
    }
}

/// Calls the setter of a key: here of one whose value is one text, else of another kind.
pub(crate) fn set_key<W: World>(
    build: &mut Build<W>,
    key: &str,
    value: &str,
) -> Mem<Option<WordCause>>
    ensures { IfOk result (SetsKey build.old build.new key.now value.now) }
{
    match key {
        "source_root" => set(build.source_root(value)),
        "std" => set(build.std(value)),
        "target" => set(build.target(value)),
        "host" => set(build.host(value)),
        "opt_level_str" => set(build.opt_level_str(value)),
        "debug_str" => set(build.debug_str(value)),
        "out_dir" => set(build.out_dir(value)),
        "compiler" => set(build.compiler(value)),
        "archiver" => set(build.archiver(value)),
        "ranlib" => set(build.ranlib(value)),
        "cpp_set_stdlib" => set(build.cpp_set_stdlib(unless_empty(value))),
        "cpp_link_stdlib" => set(build.cpp_link_stdlib(unless_empty(value))),
        _ => set_item(build, key, value),
    }
}

// Adds the macro of `K` or `K=V`.
fn define<W: World>(build: &mut Build<W>, value: &str) -> Result<(), Error>
    ensures { OnOk result (Sets build.old build.new (λ c. record c {
      definitions = c.definitions ++ definition_of value.now ∷ [];
    })) }
{
    match key_and_value(value) {
        Some((name, value)) => build.define(name, Some(value)),
        None => build.define(value, None),
    }
}

// Calls the setter of a key whose values are kept one after another, or of another key.
fn set_item<W: World>(build: &mut Build<W>, key: &str, value: &str) -> Mem<Option<WordCause>>
    ensures { is_text_key key.now ≡ false →
        IfOk result (SetsKey build.old build.new key.now value.now) }
{
    match key {
        "file" => set(build.file(value)),
        "object" => set(build.object(value)),
        "include" => set(build.include(value)),
        "ar_flag" => set(build.ar_flag(value)),
        "asm_flag" => set(build.asm_flag(value)),
        "link_lib_modifier" => set(build.link_lib_modifier(value)),
        "flag" => set(build.flag(value)),
        "flag_if_supported" => set(build.flag_if_supported(value)),
        "define" => set(define(build, value)),
        "remove_flag" => {
            build.remove_flag(value);
            Ok(None)
        }
        _ => set_other(build, key, value),
    }
}

#[tactic(auto, unfolding(crate::specs::Read::is_choice_key))]
fn is_choice_key(key: &str) -> bool
    ensures { result ≡ is_choice_key key.now }
{
    matches!(
        key,
        "shared_flag"
            | "static_flag"
            | "warnings"
            | "extra_warnings"
            | "pic"
            | "use_plt"
            | "static_crt"
            | "shell_escaped_flags"
            | "force_frame_pointer"
            | "cargo_debug"
    )
}

#[tactic(auto, unfolding(crate::specs::Read::is_switch_key))]
fn is_switch_key(key: &str) -> bool
    ensures { result ≡ is_switch_key key.now }
{
    matches!(
        key,
        "no_default_flags"
            | "reproducible_codeview"
            | "cpp"
            | "warnings_into_errors"
            | "cpp_link_stdlib_static"
            | "cargo_metadata"
            | "cargo_warnings"
            | "cargo_output"
            | "emit_rerun_if_env_changed"
            | "prefer_clang_cl_over_msvc"
            | "stop_on_failure"
            | "inherit_rustflags"
            | "inherit_trim_paths"
    )
}

// Sets what is on or off, or unset, where this is such a key.
fn set_choice<W: World>(build: &mut Build<W>, key: &str, on: bool) -> bool
    ensures known { result ≡ is_choice_key key.now }
    ensures set { result ≡ true → SetsTruth build.old build.new key.now on }
    ensures other { result ≡ false → build.new ≡ build.old }
{
    match key {
        "shared_flag" => {
            build.shared_flag(on);
            true
        }
        "static_flag" => {
            build.static_flag(on);
            true
        }
        "warnings" => {
            build.warnings(on);
            true
        }
        "extra_warnings" => {
            build.extra_warnings(on);
            true
        }
        "pic" => {
            build.pic(on);
            true
        }
        "use_plt" => {
            build.use_plt(on);
            true
        }
        "static_crt" => {
            build.static_crt(on);
            true
        }
        "shell_escaped_flags" => {
            build.shell_escaped_flags(on);
            true
        }
        "force_frame_pointer" => {
            build.force_frame_pointer(on);
            true
        }
        "cargo_debug" => {
            build.cargo_debug(on);
            true
        }
        _ => false,
    }
}

// Sets what is on or off, where this is such a key.
fn set_switch<W: World>(build: &mut Build<W>, key: &str, on: bool) -> bool
    ensures known { result ≡ is_switch_key key.now }
    ensures set { result ≡ true → SetsTruth build.old build.new key.now on }
    ensures other { result ≡ false → build.new ≡ build.old }
{
    match key {
        "no_default_flags" => {
            build.no_default_flags(on);
            true
        }
        "reproducible_codeview" => {
            build.reproducible_codeview(on);
            true
        }
        "cpp" => {
            build.cpp(on);
            true
        }
        "warnings_into_errors" => {
            build.warnings_into_errors(on);
            true
        }
        "cpp_link_stdlib_static" => {
            build.cpp_link_stdlib_static(on);
            true
        }
        "cargo_metadata" => {
            build.cargo_metadata(on);
            true
        }
        "cargo_warnings" => {
            build.cargo_warnings(on);
            true
        }
        "cargo_output" => {
            build.cargo_output(on);
            true
        }
        "emit_rerun_if_env_changed" => {
            build.emit_rerun_if_env_changed(on);
            true
        }
        "prefer_clang_cl_over_msvc" => {
            build.prefer_clang_cl_over_msvc(on);
            true
        }
        "stop_on_failure" => {
            build.stop_on_failure(on);
            true
        }
        "inherit_rustflags" => {
            build.inherit_rustflags(on);
            true
        }
        "inherit_trim_paths" => {
            build.inherit_trim_paths(on);
            true
        }
        _ => false,
    }
}

// The level of a text: digits alone, leading zeros among them, of a number below 2^32.
fn level_of(text: &str) -> Option<u32>
    ensures { result ≡ level_of text.now }
{
    if text.starts_with("+") {
        None
    } else {
        u32_of(text)
    }
}

fn set_level<W: World>(build: &mut Build<W>, value: &str) -> Mem<Option<WordCause>>
    ensures { IfOk result (SetsLevel build.old build.new value.now) }
{
    match level_of(value) {
        Some(n) => set(build.opt_level(n)),
        None => Ok(Some(WordCause::BadValue)),
    }
}

// Sets the variable of `K=V`.
fn set_variable<W: World>(build: &mut Build<W>, value: &str) -> Mem<Option<WordCause>>
    ensures { IfOk result (SetsKey build.old build.new (codes "env") value.now) }
{
    match key_and_value(value) {
        Some((name, value)) => set(build.env(name, value)),
        None => Ok(Some(WordCause::BadValue)),
    }
}

fn set_debug<W: World>(build: &mut Build<W>, value: &str) -> Mem<Option<WordCause>>
    ensures { IfOk result (SetsKey build.old build.new (codes "debug") value.now) }
{
    match truth_of(value) {
        Some(on) => set(build.debug(on)),
        None => Ok(Some(WordCause::BadValue)),
    }
}

// Tells the folder of `FROM=TO` as another.
fn set_remap<W: World>(build: &mut Build<W>, value: &str) -> Mem<Option<WordCause>>
    ensures { IfOk result (SetsKey build.old build.new (codes "remap_source_path") value.now) }
{
    match key_and_value(value) {
        Some((from, to)) => set(build.remap_source_path(from, to)),
        None => Ok(Some(WordCause::BadValue)),
    }
}

// Calls the setter of a key of another kind, if there is one.
fn set_other<W: World>(build: &mut Build<W>, key: &str, value: &str) -> Mem<Option<WordCause>>
    ensures { is_text_key key.now ≡ false → is_item_key key.now ≡ false →
        IfOk result (SetsKey build.old build.new key.now value.now) }
{
    if is_choice_key(key) || is_switch_key(key) {
        return Ok(set_truth(build, key, value));
    }
    match key {
        "opt_level" => set_level(build, value),
        "debug" => set_debug(build, value),
        "env" => set_variable(build, value),
        "remap_source_path" => set_remap(build, value),
        _ => Ok(Some(WordCause::UnknownKey)),
    }
}

// SetsKey what is on or off by a truth value.
fn set_truth<W: World>(build: &mut Build<W>, key: &str, value: &str) -> Option<WordCause>
    requires { (is_choice_key key.now ≡ true) ⊎ (is_switch_key key.now ≡ true) }
    ensures cause { result ≡ cause_unless (is_truth value.now) }
    ensures set { result ≡ None → build.new ≡ with_key build.old key.now value.now }
{
    match truth_of(value) {
        Some(on) => {
            if !set_choice(build, key, on) {
                set_switch(build, key, on);
            }
            None
        }
        None => Some(WordCause::BadValue),
    }
}
