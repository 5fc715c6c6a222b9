// The words that rows have for kinds of errors.
use cc_build::ErrorKind;

pub fn kind_name(kind: ErrorKind) -> &'static str {
    match kind {
        ErrorKind::IOError => "IOError",
        ErrorKind::EnvVarNotFound => "EnvVarNotFound",
        ErrorKind::ToolExecError => "ToolExecError",
        ErrorKind::ToolNotFound => "ToolNotFound",
        ErrorKind::InvalidArgument => "InvalidArgument",
        ErrorKind::InvalidTarget => "InvalidTarget",
        ErrorKind::InvalidFlag => "InvalidFlag",
        ErrorKind::UnknownTarget => "UnknownTarget",
        ErrorKind::Disabled => "Disabled",
        ErrorKind::TurnsSpent => "TurnsSpent",
        ErrorKind::NoMemory => "NoMemory",
    }
}
