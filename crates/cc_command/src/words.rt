// What the words of the program ask for, and what is wrong with them.
ghost use Rattle.std.specs.Prelude.{◌≡◌};
ghost use Rattle.cc_command.specs.Read.{name_of};
ghost use Rattle.cc_command.specs.declared.words.ReadError.TheVariants.{NoMemory as WantsMemory};

use cc_build::Build;
use cc_host::World;
use cc_text::{NoMemory, Text};
use std::alloc::Global;

/// What is wrong with a word. For one word the first of these counts.
#[derive(Clone, Copy, Debug, PartialEq, Eq)]
pub enum WordCause {
    /// There is no word at all. Its place is 0.
    NoCommand,
    /// The first word is no command: neither `compile`, `archive`, `generate`, `expand`, `show` nor `fleet`. Its place
    /// is 0.
    UnknownCommand,
    /// The name of the library behind the command is missing, or the number behind `generate`. Its place is 1. Or a
    /// group behind `fleet` or its name is missing, at the place where it should stand.
    NoName,
    /// The word has no `=`, so it is no `key=value`.
    NoValue,
    /// What stands before the first `=` is no key, or `database` behind another command than `compile`; behind the
    /// number of `generate` there is none. Or the word behind `fleet` isn't `--`.
    UnknownKey,
    /// The key doesn't take this value: a truth value that isn't `true` or `false`, a number that isn't its decimal
    /// form, or a value without a second `=` where one is wanted. Or `generate` doesn't take this number: its place is
    /// 1.
    BadValue,
}

/// A bad word, the first of the command line.
#[derive(Clone, Copy, Debug, PartialEq, Eq)]
pub struct BadWord {
    /// Its place, from 0; the program's own name isn't counted.
    pub place: u64,
    /// What is wrong with it.
    pub cause: WordCause,
}

/// What a run is to do, by the first word.
#[derive(Drop, Debug)]
pub enum Job {
    /// Compile the sources, and archive them into the library of this name, which is as the words have it: the run
    /// checks it.
    Compile(Text),
    /// Archive the added objects alone into the library of this name, as the words have it, and print how it is linked.
    Archive(Text),
    /// Compile so many generated sources, from 1 to 10000, into the library `gen`, on a host in memory that the job
    /// makes: the host of the run gives and gets nothing but the lines of the summary.
    Generate(u32),
    /// Expand the one source: print what the compiler's preprocessor makes of it.
    Expand,
    /// Show the tools of the build: the family of its compiler, and the commands of compiler, archiver and the tool
    /// that writes an index.
    Show,
}

impl Job {
    // The name of the library, which is known of a large run, and is none where no library is made.
    pub(crate) fn name(&self) -> &str
        ensures { result.now ≡ name_of self.now }
    {
        match self {
            Job::Compile(name) => name.as_str(),
            Job::Archive(name) => name.as_str(),
            Job::Generate(_) => "gen",
            Job::Expand | Job::Show => "",
        }
    }
}

/// What words ask for: the run, and the settings for it.
#[derive(Drop)]
pub struct Request<W: World> {
    /// What to do.
    pub job: Job,
    /// The settings that the words behind the name set; it has inherited no variable yet.
    pub build: Build<W>,
    /// The path of the compilation database that a compile run writes last, if one is asked for.
    pub database: Option<Text>,
    /// Where the lines that are printed for it take their memory.
    pub alloc: Global,
}

// What the program is called with: its words, how many turns it may make, and an allocator.
#[derive(Clone, Copy)]
pub(crate) struct Invocation<'a> {
    pub alloc: Global,
    pub words: &'a [String],
    pub turns: u64,
}

/// Why words were not read. Nothing of them is kept then.
#[derive(Clone, Copy, Debug, PartialEq, Eq)]
pub enum ReadError {
    /// This is the first bad word; those behind it weren't looked at.
    Bad(BadWord),
    /// Memory was refused; the words may be right.
    NoMemory,
}

impl From<NoMemory> for ReadError {
    ghost from_gives = { λ _ e. e ≡ WantsMemory };

    fn from(_: NoMemory) -> Self {
        ReadError::NoMemory
    }
}
