// A tool: a compiler or archiver with its words and its environment.
ghost use Rattle.std.specs.Prelude.{◌≡◌, [], Some, None, IfOk, OnOk, OnErr};
ghost use Rattle.std.specs.List.{list_any};
ghost use Rattle.cc_tool.specs.Tool as tools;
ghost use Rattle.cc_text.specs.Families.{is_gnu, is_clang, is_visual_studio, is_clang_cl};
ghost use Rattle.cc_tool.specs.Tool.{ToolSeen, new_tool, with_arg, with_entry, with_removed, with_wrapper, with_wrapper_word, tool_command, wrapped_text, spaced, is_level, is_duplicate_level};

use crate::Envs;
use cc_env::EnvSnapshot;
use cc_host::Command;
use cc_text::{
    Mem, Text, ToolFamily, Vars, Words, begins_with, is_among, is_clang, is_clang_cl, is_gnu,
    is_visual_studio, join_texts,
};
use std::alloc::Global;
use std::marker::Model;

/// A tool, as a compiler or an archiver: its path and family, a wrapper that runs it where one is set (as `ccache`), its words,
/// and the variables that it adds to the environment that it inherits. It is seen as these.
#[derive(Drop)]
pub struct Tool {
    alloc: Global,
    path: Text,
    family: ToolFamily,
    inherited: EnvSnapshot,
    wrapper: Option<Text>,
    wrapper_words: Words,
    args: Words,
    removed: Words,
    entries: Vars,
}

impl Model for Tool {
    ghost Value = { ToolSeen };

    ghost view = { λ t. record {
      path = t.path;
      family = t.family;
      inherited = t.inherited;
      wrapper = t.wrapper;
      wrapper_words = t.wrapper_words;
      args = t.args;
      removed = t.removed;
      entries = t.entries;
    } };
}

fn clone_wrapper(wrapper: &Option<Text>) -> Mem<Option<Text>>
    ensures { IfOk result (λ w. w ≡ wrapper.now) }
{
    match wrapper {
        Some(text) => Ok(Some(text.try_clone()?)),
        None => Ok(None),
    }
}

fn is_letter_o(c: Option<char>) -> bool
    ensures { result ≡ tools.is_letter_o c }
{
    match c {
        Some(c) => c == 'O',
        None => false,
    }
}

// The second character is an `O`.
#[tactic(auto, unfolding(crate::specs::Tool::is_level))]
fn is_level(arg: &Text) -> bool
    ensures { result ≡ is_level arg.now }
{
    let mut chars = arg.as_str().chars();
    let _ = chars.next();
    is_letter_o(chars.next())
}

fn has_level(args: &Words) -> bool
    ensures { result ≡ list_any is_level args.now }
{
    args.as_slice().iter().any(is_level)
}

// What a flag of a level begins with.
fn level_mark(family: ToolFamily) -> &'static str
    ensures { result.now ≡ tools.level_mark family }
{
    match family {
        ToolFamily::Gnu => "-O",
        ToolFamily::Clang { .. } => "-O",
        ToolFamily::Msvc { .. } => "/O",
    }
}

impl Tool {
    /// A tool of a path and a family, without a wrapper, words and variables of its own, in an environment. Refused for memory, there is
    /// none, and the environment is dropped.
    pub fn with_family(
        alloc: Global,
        path: &str,
        family: ToolFamily,
        inherited: EnvSnapshot,
    ) -> Mem<Tool>
        ensures { IfOk result (λ t. t ≡ new_tool path.now family inherited) }
    {
        Ok(Tool {
            alloc,
            path: Text::of(alloc, path)?,
            family,
            inherited,
            wrapper: None,
            wrapper_words: Words::new(alloc),
            args: Words::new(alloc),
            removed: Words::new(alloc),
            entries: Vars::new(alloc),
        })
    }

    /// A second tool, equal to this one. Refused for memory, there is none.
    pub fn try_clone(&self) -> Mem<Tool>
        ensures { IfOk result (λ t. t ≡ self.now) }
    {
        Ok(Tool {
            alloc: self.alloc,
            path: self.path.try_clone()?,
            family: self.family,
            inherited: self.inherited.try_clone()?,
            wrapper: clone_wrapper(&self.wrapper)?,
            wrapper_words: self.wrapper_words.try_clone()?,
            args: self.args.try_clone()?,
            removed: self.removed.try_clone()?,
            entries: self.entries.try_clone()?,
        })
    }

    /// Adds an arg last, as it is: it isn't parted at blanks. Refused for memory, the tool stays as it was.
    pub fn push_arg(&mut self, word: &str) -> Mem<()>
        ensures ok { OnOk result (self.new ≡ with_arg self.old word.now) }
        ensures err { OnErr result (self.new ≡ self.old) }
    {
        self.args.push(word)
    }

    /// Adds a variable last. Of two with the same name the later one counts. Refused for memory, the tool stays as it was.
    pub fn push_env(&mut self, name: &str, value: &str) -> Mem<()>
        ensures ok { OnOk result (self.new ≡ with_entry self.old name.now value.now) }
        ensures err { OnErr result (self.new ≡ self.old) }
    {
        self.entries.push(name, value)
    }

    /// Keeps a word out of the command, each time that it is among the args. Refused for memory, the tool stays as it was.
    pub fn remove_arg(&mut self, word: &str) -> Mem<()>
        ensures ok { OnOk result (self.new ≡ with_removed self.old word.now) }
        ensures err { OnErr result (self.new ≡ self.old) }
    {
        self.removed.push(word)
    }

    /// Sets the wrapper that runs the tool, in place of one that was set before. Refused for memory, the tool stays as it was.
    pub fn set_wrapper(&mut self, wrapper: &str) -> Mem<()>
        ensures ok { OnOk result (self.new ≡ with_wrapper self.old wrapper.now) }
        ensures err { OnErr result (self.new ≡ self.old) }
    {
        self.wrapper = Some(Text::of(self.alloc, wrapper)?);
        Ok(())
    }

    /// Adds a word last to those that stand between the path and the args. Refused for memory, the tool stays as it was.
    pub fn push_wrapper_arg(&mut self, word: &str) -> Mem<()>
        ensures ok { OnOk result (self.new ≡ with_wrapper_word self.old word.now) }
        ensures err { OnErr result (self.new ≡ self.old) }
    {
        self.wrapper_words.push(word)
    }

    /// The path, lent.
    pub fn path(&self) -> &str
        ensures { result.now ≡ self.now.path }
    {
        self.path.as_str()
    }

    /// The args, lent, in order, with those that were removed and that the command leaves out.
    pub fn args(&self) -> &Words
        ensures { result.now ≡ self.now.args }
    {
        &self.args
    }

    /// The variables that it adds, lent, as pairs of name and value, in order.
    pub fn env(&self) -> &Vars
        ensures { result.now ≡ self.now.entries }
    {
        &self.entries
    }

    /// The variables that it adds, one after the other, from both ends.
    pub fn get_envs(&self) -> Envs<'_>
        ensures { result ≡ self.now.entries }
    {
        Envs::new(&self.entries)
    }

    /// The family of compilers that it is of, which tells the form of words that it takes. It takes no memory.
    pub fn family(&self) -> ToolFamily
        ensures { result ≡ self.now.family }
    {
        self.family
    }

    // The args that weren't removed.
    #[tactic(auto, unfolding(crate::specs::Tool::kept_args))]
    pub(crate) fn kept_args(&self) -> Mem<Words>
        ensures { IfOk result (λ words. words ≡ tools.kept_args self.now) }
    {
        let mut words = Words::new(self.alloc);
        for word in self.args.as_slice() {
            if !is_among(self.removed.as_slice(), word.as_str()) {
                words.push(word.as_str())?;
            }
        }
        Ok(words)
    }

    // A command of the program alone, with the path behind a wrapper.
    fn program(&self) -> Mem<Command>
        ensures { IfOk result (λ c. c ≡ tools.bare_command self.now) }
    {
        match &self.wrapper {
            Some(wrapper) => {
                let mut cmd = Command::new(self.alloc, wrapper.as_str())?;
                cmd.arg(self.path.as_str())?;
                Ok(cmd)
            }
            None => Command::new(self.alloc, self.path.as_str()),
        }
    }

    // The command, with these words for its args.
    pub(crate) fn command_with(&self, args: &Words) -> Mem<Command>
        ensures { IfOk result (λ c. c ≡ tools.command_with self.now args.now) }
    {
        let mut cmd = self.program()?;
        cmd.args(&self.wrapper_words)?;
        cmd.args(args)?;
        cmd.envs(&self.inherited.child_vars(self.alloc, &self.entries)?)?;
        Ok(cmd)
    }

    /// The command: the wrapper and the path, or the path; the words before the args; the args that weren't removed; in
    /// the inherited environment, to which the tool's variables are applied in order. Refused for memory, there is none.
    #[tactic(auto, unfolding(crate::specs::Tool::tool_command))]
    pub fn to_command(&self) -> Mem<Command>
        ensures { IfOk result (λ c. c ≡ tool_command self.now) }
    {
        self.command_with(&self.kept_args()?)
    }

    /// The wrapper, the path and the words before the args, with spaces between, as make takes them
    /// in `CC` (GNU make's manual, "Variables Used by Implicit Rules"); empty without a wrapper.
    /// Nothing is quoted. Refused for memory, there is none.
    pub fn cc_env(&self) -> Mem<Text>
        ensures { IfOk result
            (λ text. text ≡ wrapped_text self.now.wrapper self.now.path self.now.wrapper_words) }
    {
        match &self.wrapper {
            Some(wrapper) => {
                let mut words = Words::new(self.alloc);
                words.push(wrapper.as_str())?;
                words.push(self.path.as_str())?;
                words.extend(&self.wrapper_words)?;
                join_texts(self.alloc, &words, ' ')
            }
            None => Ok(Text::new(self.alloc)),
        }
    }

    /// The args, with spaces between, as make takes them in `CFLAGS`. Nothing is quoted. Refused
    /// for memory, there is none.
    pub fn cflags_env(&self) -> Mem<Text>
        ensures { IfOk result (λ text. text ≡ spaced self.now.args) }
    {
        join_texts(self.alloc, &self.args, ' ')
    }

    /// Whether it takes the words of GCC and isn't Clang. It takes no memory.
    pub fn is_like_gnu(&self) -> bool
        ensures { result ≡ is_gnu self.now.family }
    {
        is_gnu(self.family)
    }

    /// Whether it is Clang in its own form, that of GCC's words; `zig cc` is too. It takes no memory.
    pub fn is_like_clang(&self) -> bool
        ensures { result ≡ is_clang self.now.family }
    {
        is_clang(self.family)
    }

    /// Whether it takes the words of the Visual Studio compiler, as `cl.exe` and `clang-cl` do. It takes no memory.
    pub fn is_like_msvc(&self) -> bool
        ensures { result ≡ is_visual_studio self.now.family }
    {
        is_visual_studio(self.family)
    }

    /// Whether it is Clang in the form of the Visual Studio compiler, `clang-cl`. It takes no memory.
    pub fn is_like_clang_cl(&self) -> bool
        ensures { result ≡ is_clang_cl self.now.family }
    {
        is_clang_cl(self.family)
    }

    /// Whether a flag sets the level of optimisation, and an arg does already: the flag begins with
    /// the mark of an option of this family and an `O`, and the second character of an arg is an
    /// `O` (GCC's manual, "Optimize Options"; Microsoft's compiler options, "/O"). It takes no
    /// memory.
    #[tactic(auto, unfolding(crate::specs::Tool::is_duplicate_level))]
    pub fn is_duplicate_opt_arg(&self, flag: &str) -> bool
        ensures { result ≡ is_duplicate_level self.now flag.now }
    {
        begins_with(flag, level_mark(self.family)) && has_level(&self.args)
    }
}
