// The reasons of faults.
ghost use Rattle.std.specs.Prelude.{◌≡◌};
ghost use Rattle.cc_hosts.specs.Reason.{why_of};

use cc_host::Why;
use std::io::ErrorKind;

/// The reason of a failure of the machine, by its kind.
pub fn why_of(kind: ErrorKind) -> Why
    ensures { result ≡ why_of kind }
{
    match kind {
        ErrorKind::NotFound => Why::NotFound,
        ErrorKind::PermissionDenied => Why::Denied,
        ErrorKind::AlreadyExists => Why::Exists,
        _ => Why::Other,
    }
}
