// The setters of one item more, and of several.
ghost use Rattle.std.specs.Prelude.{◌≡◌, ◌++◌, [], ◌∷◌, true, IfOk, IfErr, OnOk, OnErr};
ghost use Rattle.std.specs.Option.{option_copied};
ghost use Rattle.cc_flags.specs.BuildFlags.{without};
ghost use Rattle.cc_flags.specs.declared.build_flags.BuildFlag.TheVariants.{Always, IfSupported};
ghost use Rattle.cc_build.specs.Build.{Sets, AddsVariable, defined};
ghost use Rattle.cc_build.specs.Error.{no_memory};
ghost use Rattle.cc_build.specs.Flags.{always};
ghost use Rattle.cc_build.specs.Values.{lacks_equals};

use crate::texts::kept;
use crate::{Build, Error};
use cc_host::World;
use cc_plan::{BuildFlag, Definition, Flags};
use cc_text::{Mem, Text, Words};
use std::alloc::Global;

impl<W: World> Build<W> {
    /// Adds a source last: a path, as the compiler is given it, so a relative one counts from the program's current
    /// folder. C, C++ or assembly; the compiler tells them by the extension. A path without a file name, as `..`, is
    /// refused by the compile run. Refused only for memory; the build is as before.
    pub fn file(&mut self, p: &str) -> Result<(), Error>
        ensures ok { OnOk result (Sets self.old self.new
            (λ c. record c { files = c.files ++ p.now ∷ [] })) }
        ensures err { OnErr result (self.new ≡ self.old) }
        ensures refused { IfErr result (λ e. e ≡ no_memory) }
    {
        self.config.files.push(p)?;
        Ok(())
    }

    /// Adds an object last that the library gets behind those of the sources: a path, as the archiver is given it, so a
    /// relative one counts from the program's current folder. It was compiled elsewhere, by another compiler say; the
    /// same path twice stands twice. The path of the library itself is refused by the compile run. Refused only for
    /// memory; the build is as before.
    pub fn object(&mut self, obj: &str) -> Result<(), Error>
        ensures ok { OnOk result (Sets self.old self.new
            (λ c. record c { objects = c.objects ++ obj.now ∷ [] })) }
        ensures err { OnErr result (self.new ≡ self.old) }
        ensures refused { IfErr result (λ e. e ≡ no_memory) }
    {
        self.config.objects.push(obj)?;
        Ok(())
    }

    /// Adds a folder of headers last: `-I` and the path, two words. Folders are searched in the order added (GCC's
    /// manual, "Options for Directory Search"). Refused only for memory; the build is as before.
    pub fn include(&mut self, dir: &str) -> Result<(), Error>
        ensures ok { OnOk result (Sets self.old self.new
            (λ c. record c { includes = c.includes ++ dir.now ∷ [] })) }
        ensures err { OnErr result (self.new ≡ self.old) }
        ensures refused { IfErr result (λ e. e ≡ no_memory) }
    {
        self.config.includes.push(dir)?;
        Ok(())
    }

    /// Adds a word last that the archiver is given in each of its commands, behind those of `ARFLAGS` and before the
    /// word that says what is done, as `cqD` (the manual of GNU `ar`, "Controlling ar on the Command Line"). Refused
    /// only for memory; the build is as before.
    pub fn ar_flag(&mut self, flag: &str) -> Result<(), Error>
        ensures ok { OnOk result (Sets self.old self.new
            (λ c. record c { ar_flags = c.ar_flags ++ flag.now ∷ [] })) }
        ensures err { OnErr result (self.new ≡ self.old) }
        ensures refused { IfErr result (λ e. e ≡ no_memory) }
    {
        self.config.ar_flags.push(flag)?;
        Ok(())
    }

    /// Adds a word last that only sources in assembly get, those whose extension is `asm` or `s` in small or capital
    /// letters: between `-c` and the source, behind all other flags. Refused only for memory; the build is as before.
    pub fn asm_flag(&mut self, flag: &str) -> Result<(), Error>
        ensures ok { OnOk result (Sets self.old self.new
            (λ c. record c { asm_flags = c.asm_flags ++ flag.now ∷ [] })) }
        ensures err { OnErr result (self.new ≡ self.old) }
        ensures refused { IfErr result (λ e. e ≡ no_memory) }
    {
        self.config.asm_flags.push(flag)?;
        Ok(())
    }

    /// Adds a modifier last with which the library is linked, as `+whole-archive`, by which all its members are linked,
    /// or `-bundle`. It stands in the line that has Cargo link the library; which there are is rustc's matter (rustc's
    /// book, "Command-line Arguments", `-l`). Refused only for memory; the build is as before.
    pub fn link_lib_modifier(&mut self, link_lib_modifier: &str) -> Result<(), Error>
        ensures ok { OnOk result (Sets self.old self.new (λ c. record c {
          link_lib_modifiers = c.link_lib_modifiers ++ link_lib_modifier.now ∷ [];
        })) }
        ensures err { OnErr result (self.new ≡ self.old) }
        ensures refused { IfErr result (λ e. e ≡ no_memory) }
    {
        self.config.link_lib_modifiers.push(link_lib_modifier)?;
        Ok(())
    }

    /// Adds sources last, in the order of the list, each as `file` does. Refused only for memory; then none is added.
    pub fn files(&mut self, p: &Words) -> Result<(), Error>
        ensures ok { OnOk result (Sets self.old self.new
            (λ c. record c { files = c.files ++ p.now })) }
        ensures err { OnErr result (self.new ≡ self.old) }
        ensures refused { IfErr result (λ e. e ≡ no_memory) }
    {
        self.config.files.extend(p)?;
        Ok(())
    }

    /// Adds objects last, in the order of the list, each as `object` does. Refused only for memory; then none is added.
    pub fn objects(&mut self, objs: &Words) -> Result<(), Error>
        ensures ok { OnOk result (Sets self.old self.new
            (λ c. record c { objects = c.objects ++ objs.now })) }
        ensures err { OnErr result (self.new ≡ self.old) }
        ensures refused { IfErr result (λ e. e ≡ no_memory) }
    {
        self.config.objects.extend(objs)?;
        Ok(())
    }

    /// Adds folders of headers last, in the order of the list, each as `include` does. Refused only for memory; then
    /// none is added.
    pub fn includes(&mut self, dirs: &Words) -> Result<(), Error>
        ensures ok { OnOk result (Sets self.old self.new
            (λ c. record c { includes = c.includes ++ dirs.now })) }
        ensures err { OnErr result (self.new ≡ self.old) }
        ensures refused { IfErr result (λ e. e ≡ no_memory) }
    {
        self.config.includes.extend(dirs)?;
        Ok(())
    }

    /// Adds a word last that the compiler is given in each compile command, behind the words of target, level and other
    /// settings and before macros and `CFLAGS`, so that it overrides the former. It is one word: blanks in it stay. For
    /// Visual Studio's compilers, words from `/link` on are left off, with a warning, since no linker runs. Refused
    /// only for memory; the build is as before.
    pub fn flag(&mut self, flag: &str) -> Result<(), Error>
        ensures ok { OnOk result (Sets self.old self.new
            (λ c. record c { flags = c.flags ++ Always flag.now ∷ [] })) }
        ensures err { OnErr result (self.new ≡ self.old) }
        ensures refused { IfErr result (λ e. e ≡ no_memory) }
    {
        let flag = Text::of(self.alloc, flag)?;
        self.config.flags.push(BuildFlag::Always(flag))?;
        Ok(())
    }

    /// Adds a word last, as `flag` does, that is left out without a warning where the compiler doesn't take it: the
    /// compile run asks it first, by compiling a source of one line in the out dir, which has to be an absolute path.
    /// For flags that not each release knows (Clang's "Diagnostic flags in Clang"). Refused only for memory; the build
    /// is as before.
    pub fn flag_if_supported(&mut self, flag: &str) -> Result<(), Error>
        ensures ok { OnOk result (Sets self.old self.new
            (λ c. record c { flags = c.flags ++ IfSupported flag.now ∷ [] })) }
        ensures err { OnErr result (self.new ≡ self.old) }
        ensures refused { IfErr result (λ e. e ≡ no_memory) }
    {
        let flag = Text::of(self.alloc, flag)?;
        self.config.flags.push(BuildFlag::IfSupported(flag))?;
        Ok(())
    }

    /// Has paths that begin with the folder `from` told as beginning with `to`, in macros as `__FILE__` and in debug
    /// information, so that objects don't name the machine: `-fmacro-prefix-map` (GCC's manual, "Options Controlling
    /// the Preprocessor") and `-fdebug-prefix-map` ("Options for Debugging Your Program"), as far as the compiler takes
    /// them; a warning tells what it doesn't take. The caller sees to it that no `=` stands in `from`, which would end
    /// it. Refused only for memory; the build is as before.
    pub fn remap_source_path(&mut self, from: &str, to: &str) -> Result<(), Error>
        requires { lacks_equals from.now ≡ true }
        ensures ok { OnOk result (Sets self.old self.new (λ c. record c {
          remap_source_paths = c.remap_source_paths ++ (from.now, to.now) ∷ [];
        })) }
        ensures err { OnErr result (self.new ≡ self.old) }
        ensures refused { IfErr result (λ e. e ≡ no_memory) }
    {
        self.config.remap_source_paths.push(from, to)?;
        Ok(())
    }

    /// Adds words last, in the order of the list, each as `flag` does. Refused only for memory; then none is added.
    pub fn flags(&mut self, flags: &Words) -> Result<(), Error>
        ensures ok { OnOk result (Sets self.old self.new
            (λ c. record c { flags = c.flags ++ always flags.now })) }
        ensures err { OnErr result (self.new ≡ self.old) }
        ensures refused { IfErr result (λ e. e ≡ no_memory) }
    {
        let flags = always(self.alloc, flags)?;
        self.config.flags.append(flags)?;
        Ok(())
    }

    /// Takes out every flag that is exactly this word and was added to be always given (`flag`, `flags`,
    /// `try_flags_from_environment`); those of `flag_if_supported` stay. Where there is none, nothing changes. It takes
    /// no memory.
    pub fn remove_flag(&mut self, flag: &str)
        ensures { Sets self.old self.new (λ c. record c { flags = without flag.now c.flags }) }
    {
        self.config.flags.remove(flag);
    }

    /// Adds a macro last: `-DVAR`, which the preprocessor reads as 1, or `-DVAR=VAL`, in one word, which no shell
    /// splits (GCC's manual, "Options Controlling the Preprocessor"). Of two macros of one name the compiler takes the
    /// last. Refused only for memory; the build is as before.
    pub fn define(&mut self, var: &str, val: Option<&str>) -> Result<(), Error>
        ensures ok { OnOk result (Sets self.old self.new (λ c. record c {
          definitions = c.definitions ++ defined var.now (option_copied val.entry) ∷ [];
        })) }
        ensures err { OnErr result (self.new ≡ self.old) }
        ensures refused { IfErr result (λ e. e ≡ no_memory) }
    {
        let name = Text::of(self.alloc, var)?;
        let value = kept(self.alloc, val)?;
        self.config.definitions.push(Definition { name, value })?;
        Ok(())
    }

    /// Adds a variable for the commands and the questions of the build, in the place of an inherited one of that name;
    /// of two entries of one name the last counts. The variables that this library itself reads stay as captured, but
    /// for `WASI_SDK_PATH`, which is taken from here first. Refused only for memory; the build is as before.
    pub fn env(&mut self, key: &str, val: &str) -> Result<(), Error>
        ensures ok { OnOk result (AddsVariable self.old self.new key.now val.now) }
        ensures err { OnErr result (self.new ≡ self.old) }
        ensures refused { IfErr result (λ e. e ≡ no_memory) }
    {
        self.env.add_explicit(key, val)?;
        Ok(())
    }

    /// Does what `env` does: the crate `cc` has it hidden, as `__set_env`. Refused only for memory; the build is as
    /// before.
    pub fn set_env(&mut self, key: &str, val: &str) -> Result<(), Error>
        ensures ok { OnOk result (AddsVariable self.old self.new key.now val.now) }
        ensures err { OnErr result (self.new ≡ self.old) }
        ensures refused { IfErr result (λ e. e ≡ no_memory) }
    {
        self.env(key, val)
    }
}

// Each of these words, to be given always.
pub(crate) fn always(alloc: Global, words: &Words) -> Mem<Flags>
    ensures { IfOk result (λ flags. flags ≡ always words.now) }
{
    let mut flags = Flags::new(alloc);
    for word in words.as_slice() {
        flags.push(BuildFlag::Always(word.try_clone()?))?;
    }
    Ok(flags)
}
