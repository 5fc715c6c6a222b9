// What of a run is shown.
ghost use Rattle.std.specs.Prelude.{◌≡◌, []};
ghost use Rattle.cc_build.specs.Shows.{asks_for_debug, is_debug_wanted, is_debug_on, output_kind, shows_of};

use cc_env::{BuildEnv, EnvSnapshot};
use cc_host::OutputKind;
use cc_plan::BuildConfig;
use cc_run::Shows;

// Whether a value asks for lines for debugging: any does but the empty text, `0` and `false`.
#[tactic(auto, unfolding(crate::specs::Shows::asks_for_debug))]
fn asks_for_debug(value: &str) -> bool
    ensures { result ≡ asks_for_debug value.now }
{
    !(value == "" || value == "0" || value == "false")
}

/// Whether the variable `CC_ENABLE_DEBUG_OUTPUT` among these asks for lines for debugging. It takes no memory.
pub fn is_debug_wanted(vars: &EnvSnapshot) -> bool
    ensures { result ≡ is_debug_wanted (record { inherited = vars.now; explicit = [] }) }
{
    match vars.get("CC_ENABLE_DEBUG_OUTPUT") {
        Some(value) => asks_for_debug(value),
        None => false,
    }
}

fn is_debug_on(set: &BuildConfig, env: &BuildEnv) -> bool
    ensures { result ≡ is_debug_on set.now env.now }
{
    match set.cargo_debug {
        Some(on) => on,
        None => is_debug_wanted(env.inherited()),
    }
}

fn output_kind(on: bool) -> OutputKind
    ensures { result ≡ output_kind on }
{
    if on {
        OutputKind::Forward
    } else {
        OutputKind::Discard
    }
}

// What of a run the settings show, and the environment where they are silent, on a host that listens or not, and
// whether a failure stops it.
pub(crate) fn shows_of(set: &BuildConfig, env: &BuildEnv, listens: bool) -> Shows
    ensures { result ≡ shows_of set.now env.now listens }
{
    Shows {
        warnings: set.cargo_warnings,
        debug: is_debug_on(set, env),
        out: output_kind(set.cargo_output),
        listens,
        stop: set.stop_on_failure,
    }
}
