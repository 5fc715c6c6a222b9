// What a compiler is asked, and what its answers mean.
ghost use Rattle.std.specs.Prelude.{◌≡◌, IfOk, IsTrue, ◌↔◌, ◌&&◌};
ghost use Rattle.cc_host.specs.Question.{exists_question};

use crate::Status;
use cc_text::{Bytes, Mem, Text, ToolFamily, Vars, Words};
use std::alloc::Global;

/// What a question asks of a program.
#[derive(Clone, Copy, Debug, PartialEq, Eq)]
pub enum Ask {
    /// Which macros it defines, by its preprocessor.
    Preprocess,
    /// The same, where `-E` reads `/` as the mark of an option.
    PreprocessDashes,
    /// Whether it takes `-?`.
    HelpFlag,
    /// Whether its version names Zig.
    Version,
    /// Whether it compiles a source with the question's words.
    Flag { cpp: bool, family: ToolFamily },
    /// Whether its C++ library is libc++.
    Libcxx,
    /// Where it searches for programs.
    SearchDirs,
    /// Whether it prints its version.
    ToolVersion,
    /// Whether it can be run at all.
    Starts,
    /// Whether a file of this path is there.
    Exists,
}

fn is_same_ask(a: Ask, b: Ask) -> bool
    ensures { IsTrue result ↔ a ≡ b }
{
    a == b
}

fn all(a: bool, b: bool, c: bool, d: bool) -> bool
    ensures { result ≡ (a && b && c && d) }
{
    a && b && c && d
}

/// A question: what is asked, of which program, with which words, in which environment.
#[derive(Drop, Debug)]
pub struct Question {
    pub ask: Ask,
    pub program: Text,
    pub words: Words,
    pub vars: Vars,
}

impl Question {
    /// A second question, equal to this one.
    pub fn try_clone(&self) -> Mem<Question>
        ensures { IfOk result (λ q. q ≡ self.now) }
    {
        Ok(Question {
            ask: self.ask,
            program: self.program.try_clone()?,
            words: self.words.try_clone()?,
            vars: self.vars.try_clone()?,
        })
    }

    /// Whether two questions ask the same of the same program, with the same words and variables. It takes no memory.
    pub fn same_as(&self, other: &Question) -> bool
        ensures { IsTrue result ↔ self.now ≡ other.now }
    {
        let ask = is_same_ask(self.ask, other.ask);
        let program = self.program == other.program;
        let words = self.words == other.words;
        let vars = self.vars == other.vars;
        all(ask, program, words, vars)
    }
}

/// The question whether a file of this path is there. It has no words and no variables. Refused only for memory.
pub fn exists_of(alloc: Global, path: &str) -> Mem<Question>
    ensures { IfOk result (λ q. q ≡ exists_question path.now) }
{
    Ok(Question {
        ask: Ask::Exists,
        program: Text::of(alloc, path)?,
        words: Words::new(alloc),
        vars: Vars::new(alloc),
    })
}

/// The files of a probe: their folder, and the paths of the source and of the object, each empty where the question needs none.
#[derive(Drop, Debug)]
pub struct ProbeFiles {
    pub dir: Text,
    pub source: Text,
    pub object: Text,
}

impl ProbeFiles {
    /// A second record, equal to this one.
    pub fn try_clone(&self) -> Mem<ProbeFiles>
        ensures { IfOk result (λ f. f ≡ self.now) }
    {
        Ok(ProbeFiles {
            dir: self.dir.try_clone()?,
            source: self.source.try_clone()?,
            object: self.object.try_clone()?,
        })
    }
}

/// What came of a question.
#[derive(Drop, Debug)]
pub enum Outcome {
    /// It couldn't be asked.
    Unanswered,
    /// The program can't be found.
    Missing,
    /// Whether the file is there.
    Exists(bool),
    /// The command ended.
    Done {
        status: Status,
        out: Bytes,
        err: Bytes,
    },
}

impl Outcome {
    /// A second outcome, equal to this one.
    pub fn try_clone(&self) -> Mem<Outcome>
        ensures { IfOk result (λ o. o ≡ self.now) }
    {
        Ok(match self {
            Outcome::Unanswered => Outcome::Unanswered,
            Outcome::Missing => Outcome::Missing,
            Outcome::Exists(there) => Outcome::Exists(*there),
            Outcome::Done { status, out, err } => Outcome::Done {
                status: *status,
                out: out.try_clone()?,
                err: err.try_clone()?,
            },
        })
    }
}

/// What a compiler's preprocessor shows of it.
#[derive(Clone, Copy, Debug, PartialEq, Eq)]
pub struct Marks {
    /// It read a path as the option `/U`.
    pub slash_u: bool,
    /// It is Clang, by the macro `__clang__`.
    pub clang: bool,
    /// It is GCC or like it, by the macro `__GNUC__`.
    pub gcc: bool,
    /// It is Emscripten, by the macro `__EMSCRIPTEN__`.
    pub emscripten: bool,
    /// It is for VxWorks, by the macro `__VXWORKS__`.
    pub vxworks: bool,
}

/// What an outcome means for its question.
#[derive(Drop, Debug)]
pub enum Verdict {
    /// The question couldn't be asked.
    Unanswered,
    /// The program can't be found.
    Missing,
    /// It isn't so, or the program says nothing that can be read.
    No,
    /// It is so.
    Yes,
    /// What the preprocessor shows.
    Marks(Marks),
    /// Where the program searches for programs, as it prints them.
    Dirs(Text),
}

impl Verdict {
    /// A second verdict, equal to this one.
    pub fn try_clone(&self) -> Mem<Verdict>
        ensures { IfOk result (λ v. v ≡ self.now) }
    {
        Ok(match self {
            Verdict::Unanswered => Verdict::Unanswered,
            Verdict::Missing => Verdict::Missing,
            Verdict::No => Verdict::No,
            Verdict::Yes => Verdict::Yes,
            Verdict::Marks(marks) => Verdict::Marks(*marks),
            Verdict::Dirs(dirs) => Verdict::Dirs(dirs.try_clone()?),
        })
    }
}
