// Why rustflags are refused.
ghost use Rattle.std.specs.Prelude.{◌≡◌};
ghost use Rattle.cc_flags.specs.declared.error.FlagError.TheVariants.{NoMemory as WantsMemory};

use cc_text::{NoMemory, Text};

/// Why rustflags are refused. No field of them is given then.
#[derive(Drop, Debug, PartialEq, Eq)]
pub enum FlagError {
    /// The flag of this key, as `-Cdwarf-version`, lacks the value that it needs, or its value is no number of 32
    /// bits where one is needed.
    InvalidFlag(Text),
    /// Memory was refused; the flags may be right.
    NoMemory,
}

impl From<NoMemory> for FlagError {
    ghost from_gives = { λ _ e. e ≡ WantsMemory };

    fn from(_: NoMemory) -> Self {
        FlagError::NoMemory
    }
}
