// Why a pass over a plan ended without a value: it wants something, or it is refused.
ghost use Rattle.std.specs.Prelude.{◌≡◌, ◌⊎◌, Err, IfErr};
ghost use Rattle.cc_plan.specs.Asking.{IsOwn};
ghost use Rattle.cc_plan.specs.declared.error.PlanError.TheVariants.{NoMemory as OutOfMemory};
ghost use Rattle.cc_plan.specs.Halts.{outcome_of, halt_of};
ghost use Rattle.cc_plan.specs.declared.halt.Halt.TheVariants.{Want as Wants};
ghost use Rattle.cc_tool.specs.declared.want.Want.TheVariants.{NoMemory as WantsMemory};

use crate::PlanError;
use cc_text::NoMemory;
use cc_tool::{Planned, Want};
use std::alloc::{AllocError, AllocFailed};

/// Why there is no value.
#[derive(Drop, Debug)]
pub(crate) enum Halt {
    /// Something is wanted for it.
    Want(Want),
    /// It is refused.
    Refused(PlanError),
}

/// A value that may be refused, or why there is none.
pub(crate) type Halting<X> = Result<X, Halt>;

impl From<Want> for Halt {
    ghost from_gives = { λ want e. e ≡ Wants want };

    fn from(want: Want) -> Self {
        Halt::Want(want)
    }
}

impl From<NoMemory> for Halt {
    ghost from_gives = { λ _ e. e ≡ Wants WantsMemory };

    fn from(_: NoMemory) -> Self {
        Halt::Want(Want::NoMemory)
    }
}

impl From<AllocError> for Halt {
    ghost from_gives = { λ _ e. e ≡ Wants WantsMemory };

    fn from(_: AllocError) -> Self {
        Halt::Want(Want::NoMemory)
    }
}

impl<T: Drop> From<AllocFailed<T>> for Halt {
    ghost from_gives = { λ _ e. e ≡ Wants WantsMemory };

    fn from(_: AllocFailed<T>) -> Self {
        Halt::Want(Want::NoMemory)
    }
}

impl From<PlanError> for Halt {
    ghost from_gives = { λ error e. e ≡ halt_of error };

    fn from(error: PlanError) -> Self {
        match error {
            PlanError::NoMemory => Halt::Want(Want::NoMemory),
            PlanError::Argument(cause) => Halt::Refused(PlanError::Argument(cause)),
            PlanError::NotSet(name) => Halt::Refused(PlanError::NotSet(name)),
            PlanError::UnknownTarget(name) => Halt::Refused(PlanError::UnknownTarget(name)),
            PlanError::QnxArch(arch) => Halt::Refused(PlanError::QnxArch(arch)),
            PlanError::Flag(flag) => Halt::Refused(PlanError::Flag(flag)),
            PlanError::Host(call, why) => Halt::Refused(PlanError::Host(call, why)),
        }
    }
}

/// What a pass came to, where a refusal is a value of its plan.
pub(crate) fn outcome<X: Drop>(ended: Halting<X>) -> Planned<Result<X, PlanError>>
    ensures { result ≡ outcome_of ended }
{
    match ended {
        Ok(value) => Ok(Ok(value)),
        Err(Halt::Refused(error)) => Ok(Err(error)),
        Err(Halt::Want(want)) => Err(want),
    }
}

/// What came of a plan, whose refusal is no fault of a host, as a plan asks none.
pub(crate) fn own_refusal<X: Drop>(value: Result<X, PlanError>) -> Result<X, PlanError>
    ensures own { IfErr result IsOwn }
    ensures same { (result ≡ Err OutOfMemory) ⊎ (result ≡ value) }
{
    match value {
        Err(PlanError::Host(_, _)) => Err(PlanError::NoMemory),
        Ok(value) => Ok(value),
        Err(error) => Err(error),
    }
}
