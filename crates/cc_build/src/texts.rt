// The setters of one text.
ghost use Rattle.std.specs.Prelude.{◌≡◌, Some, None, IfOk, IfErr, OnOk, OnErr, string_bytes};
ghost use Rattle.std.specs.Fmt.{decimal};
ghost use Rattle.std.specs.Option.{option_copied};
ghost use Rattle.cc_build.specs.Build.{Sets};
ghost use Rattle.cc_build.specs.Error.{no_memory};
ghost use Rattle.cc_build.specs.Values.{truth_text};

use crate::{Build, Error};
use cc_host::World;
use cc_text::{Mem, Text};
use std::alloc::Global;

impl<W: World> Build<W> {
    /// Sets the folder that the folders of sources count from in the names of objects, by components, where they begin
    /// neither with `OUT_DIR` nor with `CARGO_MANIFEST_DIR`: so objects have the same names wherever the sources lie.
    /// Refused only for memory; the build is as before.
    pub fn source_root(&mut self, source_root: &str) -> Result<(), Error>
        ensures ok { OnOk result (Sets self.old self.new
            (λ c. record c { source_root = Some source_root.now })) }
        ensures err { OnErr result (self.new ≡ self.old) }
        ensures refused { IfErr result (λ e. e ≡ no_memory) }
    {
        self.config.source_root = Some(Text::of(self.alloc, source_root)?);
        Ok(())
    }

    /// Sets the standard of the language, as `c11` or `c++17`: `-std=` and the text, or `-std:` for Visual Studio's
    /// compilers (GCC's manual, "Options Controlling C Dialect"). The text isn't looked at; the compiler refuses one
    /// that it doesn't know. Unset, the compiler's own counts. Refused only for memory; the build is as before.
    pub fn std(&mut self, std: &str) -> Result<(), Error>
        ensures ok { OnOk result (Sets self.old self.new (λ c. record c { std = Some std.now })) }
        ensures err { OnErr result (self.new ≡ self.old) }
        ensures refused { IfErr result (λ e. e ≡ no_memory) }
    {
        self.config.std = Some(Text::of(self.alloc, std)?);
        Ok(())
    }

    /// Sets the target, as rustc names it: `x86_64-unknown-linux-gnu`. Unset, it is `TARGET`. A name that is neither
    /// among the 36 of the table nor the target that Cargo builds for and describes by its variables is refused by the
    /// compile run, not here. Refused only for memory; the build is as before.
    pub fn target(&mut self, target: &str) -> Result<(), Error>
        ensures ok { OnOk result (Sets self.old self.new
            (λ c. record c { target = Some target.now })) }
        ensures err { OnErr result (self.new ≡ self.old) }
        ensures refused { IfErr result (λ e. e ≡ no_memory) }
    {
        self.config.target = Some(Text::of(self.alloc, target)?);
        Ok(())
    }

    /// Sets the target of the machine that compiles, as rustc names it. Unset, it is `HOST`. Where it differs from the
    /// target, a cross compiler is looked for, and `TARGET_CC` is read in place of `HOST_CC`. Refused only for memory;
    /// the build is as before.
    pub fn host(&mut self, host: &str) -> Result<(), Error>
        ensures ok { OnOk result (Sets self.old self.new (λ c. record c { host = Some host.now })) }
        ensures err { OnErr result (self.new ≡ self.old) }
        ensures refused { IfErr result (λ e. e ≡ no_memory) }
    {
        self.config.host = Some(Text::of(self.alloc, host)?);
        Ok(())
    }

    /// Sets the optimisation level as text, in Cargo's words: `0` to `3`, `s` or `z` (Cargo's book, "Profiles"). GCC
    /// and Clang get `-O` and the text, whatever it is, but GCC `-Os` for `z`; Visual Studio's compilers `-O1` for `1`,
    /// `s` and `z`, `-O2` for `2` and `3`, and no word for others (GCC's manual, "Options That Control Optimization").
    /// Unset, it is `OPT_LEVEL`. Refused only for memory; the build is as before.
    pub fn opt_level_str(&mut self, opt_level: &str) -> Result<(), Error>
        ensures ok { OnOk result (Sets self.old self.new
            (λ c. record c { opt_level = Some opt_level.now })) }
        ensures err { OnErr result (self.new ≡ self.old) }
        ensures refused { IfErr result (λ e. e ≡ no_memory) }
    {
        self.config.opt_level = Some(Text::of(self.alloc, opt_level)?);
        Ok(())
    }

    /// Sets how much debug information is wanted, in Cargo's words (Cargo's book, "Profiles"): the empty text, `0`,
    /// `false` and `none` ask for none, `1`, `limited`, `line-tables-only` and `line-directives-only` for lines alone,
    /// any other text for all. It is `-g1` (`-gline-directives-only` where Clang is asked for those) or `-g`, on some
    /// systems with the version of DWARF, and `-Z7` for Visual Studio's compilers (GCC's manual, "Options for Debugging
    /// Your Program"). Unset, it is `DEBUG`. Refused only for memory; the build is as before.
    pub fn debug_str(&mut self, debug: &str) -> Result<(), Error>
        ensures ok { OnOk result (Sets self.old self.new
            (λ c. record c { debug = Some debug.now })) }
        ensures err { OnErr result (self.new ≡ self.old) }
        ensures refused { IfErr result (λ e. e ≡ no_memory) }
    {
        self.config.debug = Some(Text::of(self.alloc, debug)?);
        Ok(())
    }

    /// Sets whether debug information is wanted: what `debug_str` does with `true` or `false`. Refused only for memory;
    /// the build is as before.
    pub fn debug(&mut self, debug: bool) -> Result<(), Error>
        ensures ok { OnOk result (Sets self.old self.new
            (λ c. record c { debug = Some (truth_text debug) })) }
        ensures err { OnErr result (self.new ≡ self.old) }
        ensures refused { IfErr result (λ e. e ≡ no_memory) }
    {
        self.debug_str(truth_text(debug))
    }

    /// Sets the folder of the objects, of the library, and of the files that compilers are asked with. The compile run
    /// makes it; it refuses an empty path. Flags are tried in that folder, so where the path is relative, as Cargo's
    /// never is, each counts as not taken. Unset, it is `OUT_DIR`. Refused only for memory; the build is as before.
    pub fn out_dir(&mut self, out_dir: &str) -> Result<(), Error>
        ensures ok { OnOk result (Sets self.old self.new
            (λ c. record c { out_dir = Some out_dir.now })) }
        ensures err { OnErr result (self.new ≡ self.old) }
        ensures refused { IfErr result (λ e. e ≡ no_memory) }
    {
        self.config.out_dir = Some(Text::of(self.alloc, out_dir)?);
        Ok(())
    }

    /// Sets the compiler: a path, or a name that is looked up on the `PATH`, without words behind it. `CC`, wrappers
    /// and the target's prefix are then not looked at. Refused only for memory; the build is as before.
    pub fn compiler(&mut self, compiler: &str) -> Result<(), Error>
        ensures ok { OnOk result (Sets self.old self.new
            (λ c. record c { compiler = Some compiler.now })) }
        ensures err { OnErr result (self.new ≡ self.old) }
        ensures refused { IfErr result (λ e. e ≡ no_memory) }
    {
        self.config.compiler = Some(Text::of(self.alloc, compiler)?);
        Ok(())
    }

    /// Sets the archiver: a path, or a name that is looked up on the `PATH`. It is given the words of GNU `ar`, but
    /// those of Apple's libtool where its file name has `libtool`, and for targets of Visual Studio those of its
    /// library manager, unless the name has `llvm-ar`. Unset, it is that of `AR`, else the one that the target wants.
    /// Refused only for memory; the build is as before.
    pub fn archiver(&mut self, archiver: &str) -> Result<(), Error>
        ensures ok { OnOk result (Sets self.old self.new
            (λ c. record c { archiver = Some archiver.now })) }
        ensures err { OnErr result (self.new ≡ self.old) }
        ensures refused { IfErr result (λ e. e ≡ no_memory) }
    {
        self.config.archiver = Some(Text::of(self.alloc, archiver)?);
        Ok(())
    }

    /// Sets the program that writes the index of a library: a path, or a name that is looked up on the `PATH`. Refused
    /// only for memory; the build is as before.
    pub fn ranlib(&mut self, ranlib: &str) -> Result<(), Error>
        ensures ok { OnOk result (Sets self.old self.new
            (λ c. record c { ranlib = Some ranlib.now })) }
        ensures err { OnErr result (self.new ≡ self.old) }
        ensures refused { IfErr result (λ e. e ≡ no_memory) }
    {
        self.config.ranlib = Some(Text::of(self.alloc, ranlib)?);
        Ok(())
    }

    /// Sets the optimisation level to a number, which is kept in decimal: what `opt_level_str` does with that text.
    /// Cargo has 0 to 3; others aren't refused here. Refused only for memory; the build is as before.
    pub fn opt_level(&mut self, opt_level: u32) -> Result<(), Error>
        ensures ok { OnOk result (Sets self.old self.new
            (λ c. record c { opt_level = Some (decimal opt_level) })) }
        ensures err { OnErr result (self.new ≡ self.old) }
        ensures refused { IfErr result (λ e. e ≡ no_memory) }
    {
        let level = decimal(self.alloc, opt_level)?;
        self.config.opt_level = Some(level);
        Ok(())
    }

    /// Sets the C++ library that Cargo links where the sources are C++, as `c++` or `stdc++`, or that it links none.
    /// Unset, it is that of `CXXSTDLIB`, else the one of the target. Refused only for memory; the build is as before.
    pub fn cpp_link_stdlib(&mut self, cpp_link_stdlib: Option<&str>) -> Result<(), Error>
        ensures ok { OnOk result (Sets self.old self.new
            (λ c. record c { cpp_link_stdlib = Some (option_copied cpp_link_stdlib.entry) })) }
        ensures err { OnErr result (self.new ≡ self.old) }
        ensures refused { IfErr result (λ e. e ≡ no_memory) }
    {
        let library = kept(self.alloc, cpp_link_stdlib)?;
        self.config.cpp_link_stdlib = Some(library);
        Ok(())
    }

    /// Sets the C++ library that the compiler is told of, or none: `-stdlib=lib` and the name, as `c++`, for GCC and
    /// Clang where the sources are C++ (Clang's "Clang command line argument reference"). Cargo is told to link the
    /// same, as by `cpp_link_stdlib`. With none, Clang is told `libc++` on FreeBSD and nothing elsewhere. Visual
    /// Studio's compilers have no such word: the compile run warns. Refused only for memory; the build is as before.
    pub fn cpp_set_stdlib(&mut self, cpp_set_stdlib: Option<&str>) -> Result<(), Error>
        ensures ok { OnOk result (Sets self.old self.new (λ c. record c {
          cpp_set_stdlib = option_copied cpp_set_stdlib.entry;
          cpp_link_stdlib = Some (option_copied cpp_set_stdlib.entry);
        })) }
        ensures err { OnErr result (self.new ≡ self.old) }
        ensures refused { IfErr result (λ e. e ≡ no_memory) }
    {
        let library = kept(self.alloc, cpp_set_stdlib)?;
        let linked = kept(self.alloc, cpp_set_stdlib)?;
        self.config.cpp_set_stdlib = library;
        self.config.cpp_link_stdlib = Some(linked);
        Ok(())
    }
}

fn truth_text(on: bool) -> &'static str
    ensures { result.now ≡ truth_text on }
{
    if on { "true" } else { "false" }
}

// A text of its own, or none.
pub(crate) fn kept(alloc: Global, text: Option<&str>) -> Mem<Option<Text>>
    ensures { IfOk result (λ t. t ≡ option_copied text.entry) }
{
    match text {
        Some(text) => Ok(Some(Text::of(alloc, text)?)),
        None => Ok(None),
    }
}

fn decimal(alloc: Global, n: u32) -> Result<Text, Error>
    ensures text { IfOk result (λ t. t ≡ decimal n) }
    ensures refused { IfErr result (λ e. e ≡ no_memory) }
{
    let digits = number(alloc, n)?;
    Ok(Text::of(alloc, digits.as_str())?)
}

fn number(alloc: Global, n: u32) -> Mem<String>
    ensures { IfOk result (λ s. string_bytes s ≡ decimal n) }
{
    Ok(format!(in alloc; "{n}")?)
}
