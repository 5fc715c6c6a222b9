// Worked rows: what is run, how its host answers, and what is expected.
use cc_host::{Ask, HostCall, Role, Status};
use cc_text::Vars;

/// The rows of a file, in its order, and then its calls, by the names of their functions.
#[derive(Drop)]
pub struct Book {
    pub rows: Vec<Row>,
    pub calls: Vec<CallRow>,
}

/// One run of the command.
#[derive(Drop)]
pub struct Row {
    pub name: String,
    pub words: Vec<String>,
    pub knobs: Knobs,
    pub expected: Expected,
}

/// One call of a function, with what it is given and what it is to give.
#[derive(Drop)]
pub struct CallRow {
    pub function: String,
    pub given: Vec<String>,
    pub gives: Vec<String>,
}

/// How the host of a row differs from one at which all goes well.
#[derive(Drop)]
pub struct Knobs {
    pub pool: Pool,
    pub around: Surroundings,
    pub commands: Commands,
    pub answers: Vec<Answer>,
    pub failures: Vec<Failure>,
    pub reads: Reads,
}

/// What is there before the run: variables, files, the words that are drawn, and whether the host listens.
#[derive(Drop)]
pub struct Surroundings {
    pub vars: Vars,
    pub files: Vec<String>,
    pub random: Vec<u64>,
    pub listens: bool,
}

/// What becomes of commands: those that are scripted, and the programs that are missing.
#[derive(Drop)]
pub struct Commands {
    pub scripts: Vec<ScriptOf>,
    pub missing: Vec<String>,
}

/// A script, with the role and the word of the commands that it is of.
#[derive(Drop)]
pub struct ScriptOf {
    pub role: Role,
    pub status: Status,
    pub turns: u64,
    pub unread: bool,
    pub word: String,
    pub pieces: Vec<String>,
    pub after: Option<String>,
}

/// What a question of a program comes to.
#[derive(Drop)]
pub struct Answer {
    pub ask: Ask,
    pub program: String,
    pub given: Given,
}

/// An outcome of a question that is asked.
#[derive(Drop)]
pub enum Given {
    Missing,
    There(bool),
    Done {
        status: Status,
        out: String,
        err: String,
    },
}

/// A call that fails: its kind, and its number among the calls of that kind, from 1.
#[derive(Clone, Copy)]
pub struct Failure {
    pub call: HostCall,
    pub nth: u64,
}

/// What reads of files come to: the files that there are, and the numbers of the reads that fail, from 1.
#[derive(Drop)]
pub struct Reads {
    pub files: Vec<ReadFile>,
    pub failures: Vec<u64>,
}

/// A file that may be read.
#[derive(Drop)]
pub struct ReadFile {
    pub path: String,
    pub bytes: Vec<u8>,
}

/// How many commands may run at a time, at least 1, how many tokens of them another seat of the pool holds meanwhile,
/// and how many turns a run may make.
#[derive(Clone, Copy)]
pub struct Pool {
    pub tokens: u32,
    pub held: u32,
    pub turns: u64,
}

/// What is expected of a run: at least one of these. The status `healed` is that of the same run where no call fails,
/// beside another one.
#[derive(Drop)]
pub struct Expected {
    pub status: Option<u8>,
    pub healed: Option<u8>,
    pub error: Option<ExpectedError>,
    pub word: Option<ExpectedWord>,
    pub log: ExpectedLog,
}

/// An error, by what is told of it: at least one of these.
#[derive(Drop)]
pub struct ExpectedError {
    pub kind: Option<String>,
    pub subject: Option<String>,
    pub message: Option<String>,
}

/// A bad word, by its place and what is wrong with it.
#[derive(Drop)]
pub struct ExpectedWord {
    pub place: u64,
    pub cause: String,
}

/// What is expected of the log: all of it, a line an event, or parts of lines, or nothing.
#[derive(Drop)]
pub enum ExpectedLog {
    Whole(String),
    Parts(Parts),
}

/// Texts that stand in some line, in none, and in exactly one.
#[derive(Drop)]
pub struct Parts {
    pub has: Vec<String>,
    pub lacks: Vec<String>,
    pub once: Vec<String>,
}
