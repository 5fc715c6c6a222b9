// The words that rows and lines have for roles, questions, calls and the like.
use cc_host::{Ask, HostCall, Removal, Role, Scope, Why};
use cc_text::ToolFamily;

const ROLES: &[(&str, Role)] = &[
    ("compile", Role::Compile),
    ("archive", Role::Archive),
    ("index", Role::Index),
    ("expand", Role::Expand),
];

const FAMILIES: &[(&str, ToolFamily)] = &[
    ("gnu", ToolFamily::Gnu),
    ("clang", ToolFamily::Clang { zig_cc: false }),
    ("zig", ToolFamily::Clang { zig_cc: true }),
    ("cl", ToolFamily::Msvc { clang_cl: false }),
    ("clang-cl", ToolFamily::Msvc { clang_cl: true }),
];

// Questions of commands. Those about a flag are also of a family.
const ASKS: &[(&str, Ask)] = &[
    ("preprocess", Ask::Preprocess),
    ("preprocess with dashes", Ask::PreprocessDashes),
    ("help", Ask::HelpFlag),
    ("version", Ask::Version),
    (
        "flag",
        Ask::Flag {
            cpp: false,
            family: ToolFamily::Gnu,
        },
    ),
    (
        "flag of C++",
        Ask::Flag {
            cpp: true,
            family: ToolFamily::Gnu,
        },
    ),
    ("C++ library", Ask::Libcxx),
    ("search folders", Ask::SearchDirs),
    ("tool version", Ask::ToolVersion),
    ("starts", Ask::Starts),
];

const CALLS: &[(&str, HostCall)] = &[
    ("start", HostCall::Start),
    ("turn", HostCall::Turn),
    ("output", HostCall::Output),
    ("probe", HostCall::Probe),
    ("make dir", HostCall::MakeDir(Scope::Build)),
    ("make probe dir", HostCall::MakeDir(Scope::Probe)),
    ("create probe", HostCall::CreateProbe),
    ("write", HostCall::Write),
    ("copy", HostCall::Copy),
    ("remove", HostCall::Remove),
    ("current dir", HostCall::CurrentDir),
    ("print", HostCall::Print),
    ("say", HostCall::Say),
    ("vars", HostCall::Vars),
];

// The value that has the name.
fn named<T: Copy>(table: &[(&str, T)], word: &str) -> Option<T> {
    for (name, value) in table {
        if *name == word {
            return Some(*value);
        }
    }
    None
}

pub fn role_of(word: &str) -> Option<Role> {
    named(ROLES, word)
}

pub fn family_of(word: &str) -> Option<ToolFamily> {
    named(FAMILIES, word)
}

/// What a question asks, and of a compiler of which family where it is about a flag.
pub fn ask_of(word: &str, family: ToolFamily) -> Option<Ask> {
    match named(ASKS, word) {
        Some(Ask::Flag { cpp, .. }) => Some(Ask::Flag { cpp, family }),
        ask => ask,
    }
}

pub fn call_of(word: &str) -> Option<HostCall> {
    named(CALLS, word)
}

pub fn role_name(role: Role) -> &'static str {
    match role {
        Role::Compile => "compile",
        Role::Archive => "archive",
        Role::Index => "index",
        Role::Expand => "expand",
    }
}

pub fn ask_name(ask: Ask) -> &'static str {
    match ask {
        Ask::Preprocess => "preprocess",
        Ask::PreprocessDashes => "preprocess with dashes",
        Ask::HelpFlag => "help",
        Ask::Version => "version",
        Ask::Flag { cpp: false, .. } => "flag",
        Ask::Flag { cpp: true, .. } => "flag of C++",
        Ask::Libcxx => "C++ library",
        Ask::SearchDirs => "search folders",
        Ask::ToolVersion => "tool version",
        Ask::Starts => "starts",
        Ask::Exists => "exists",
    }
}

pub fn call_name(call: HostCall) -> &'static str {
    match call {
        HostCall::Start => "start",
        HostCall::Turn => "turn",
        HostCall::Output => "output",
        HostCall::Probe => "probe",
        HostCall::MakeDir(Scope::Build) => "make dir",
        HostCall::MakeDir(Scope::Probe) => "make probe dir",
        HostCall::CreateProbe => "create probe",
        HostCall::Write => "write",
        HostCall::Copy => "copy",
        HostCall::Remove => "remove",
        HostCall::CurrentDir => "current dir",
        HostCall::Print => "print",
        HostCall::Say => "say",
        HostCall::Vars => "vars",
    }
}

pub fn why_name(why: Why) -> &'static str {
    match why {
        Why::NotFound => "not found",
        Why::Denied => "denied",
        Why::Exists => "exists",
        Why::Other => "other",
    }
}

pub fn removal_name(how: Removal) -> &'static str {
    match how {
        Removal::Gone => "gone",
        Removal::Absent => "absent",
    }
}
