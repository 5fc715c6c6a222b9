// Values that turn something on, as those of `CC_FORCE_DISABLE` and `CC_SHELL_ESCAPED_FLAGS`.
ghost use Rattle.std.specs.Prelude.{◌≡◌};
ghost use Rattle.cc_env.specs.Names.{is_true_value};

/// Whether a value turns something on: any does but the empty text, `0`, `no` and `false`. Case counts, so that
/// `FALSE` turns it on. It takes no memory.
#[tactic(auto, unfolding(crate::specs::Names::is_true_value))]
pub fn env_value_is_true(value: &str) -> bool
    ensures { result ≡ is_true_value value.now }
{
    !(value == "" || value == "0" || value == "no" || value == "false")
}
