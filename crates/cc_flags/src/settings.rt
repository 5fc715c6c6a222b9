// The plain settings of a build.
ghost use Rattle.std.specs.Prelude.{◌≡◌, IfOk};
ghost use Rattle.cc_flags.specs.Settings.{unset_settings, archive_settings as alone};

use crate::{Definitions, Flags};
use cc_text::{Mem, Text, Vars, Words};
use std::alloc::Global;

/// The plain settings of a build, in the names of the setters of the crate `cc`. What is none is not set, and is taken from what Cargo
/// gives a build script, where it gives that. Texts and flags are kept as they came: what a plan refuses, it refuses when it is made.
#[derive(Drop, Debug)]
pub struct BuildConfig {
    /// The sources, in the order added.
    pub files: Words,
    /// The objects that are added to the archive behind those of the sources, in the order added.
    pub objects: Words,
    /// The folders in which headers are looked for, in the order added.
    pub includes: Words,
    /// The words that the archiver gets before those of its form, in the order added.
    pub ar_flags: Words,
    /// The flags that sources in assembly get beside the others.
    pub asm_flags: Words,
    /// The modifiers with which the library is linked, as `+whole-archive`, in the order added.
    pub link_lib_modifiers: Words,
    /// The flags, in the order added.
    pub flags: Flags,
    /// The macros, in the order added.
    pub definitions: Definitions,
    /// The folders of sources that debug information names as others, each with its other name, in the order added.
    pub remap_source_paths: Vars,
    /// The folder from which the folders of sources count in the names of objects.
    pub source_root: Option<Text>,
    /// The standard of the language, as `c11`.
    pub std: Option<Text>,
    /// The target by rustc's name, else `TARGET`.
    pub target: Option<Text>,
    /// The target of the machine that compiles, else `HOST`.
    pub host: Option<Text>,
    /// The optimisation level, as `0` or `s`, else `OPT_LEVEL`.
    pub opt_level: Option<Text>,
    /// How much debug information is wanted, in Cargo's words, else `DEBUG`.
    pub debug: Option<Text>,
    /// The folder of the objects and of the library, else `OUT_DIR`.
    pub out_dir: Option<Text>,
    /// The path of the compiler, which comes before all others.
    pub compiler: Option<Text>,
    /// The path of the archiver, else the one that the environment or the target names.
    pub archiver: Option<Text>,
    /// The path of the tool that writes an archive's index alone, else the one that the environment or the target names.
    pub ranlib: Option<Text>,
    /// The C++ library that the compiler is given by name.
    pub cpp_set_stdlib: Option<Text>,
    /// The C++ library that a library of C++ is linked with, or none at all; where it isn't set, as the environment or the target says.
    pub cpp_link_stdlib: Option<Option<Text>>,
    /// Whether the compiler is told `-shared`; not where it isn't set (GCC's manual, "Options for Linking").
    pub shared_flag: Option<bool>,
    /// Whether the compiler is told `-static`; where it isn't set, as Cargo's target links its C library.
    pub static_flag: Option<bool>,
    /// Whether warnings are on; where it isn't set, they are unless the environment has flags of its own (GCC's manual, "Options to
    /// Request or Suppress Warnings").
    pub warnings: Option<bool>,
    /// Whether `-Wextra` is given; where it isn't set, as `warnings`.
    pub extra_warnings: Option<bool>,
    /// Whether frame pointers are kept; where it isn't set, they are with debug information (GCC's manual, "Options That Control
    /// Optimization").
    pub force_frame_pointer: Option<bool>,
    /// Whether the commands are printed before they run, and how they ended; where it isn't set, as `CC_ENABLE_DEBUG_OUTPUT` says.
    pub cargo_debug: Option<bool>,
    /// Whether code can lie anywhere in memory; where it isn't set, as the target wants it (GCC's manual, "Options for Code Generation
    /// Conventions").
    pub pic: Option<bool>,
    /// Whether calls of shared libraries may go by the procedure linkage table; they may where it isn't set.
    pub use_plt: Option<bool>,
    /// Whether Visual Studio's C library is linked statically; where it isn't set, as Cargo's target links it.
    pub static_crt: Option<bool>,
    /// Whether flags of the environment are split and quoted as a shell does; where it isn't set, as `CC_SHELL_ESCAPED_FLAGS` says.
    pub shell_escaped_flags: Option<bool>,
    /// Whether the words that a target, a level and debug information bring are left out; `CRATE_CC_NO_DEFAULTS` leaves them out too.
    pub no_default_flags: bool,
    /// Whether CodeView debug information of `clang-cl` names no folder and no command line of the build.
    pub reproducible_codeview: bool,
    /// Whether the sources are C++, and the compiler and its flags those of `CXX` and `CXXFLAGS`.
    pub cpp: bool,
    /// Whether a warning is an error: `-Werror`.
    pub warnings_into_errors: bool,
    /// Whether the C++ library is linked as a static one; `CXXSTDLIB_STATIC` has it so too.
    pub cpp_link_stdlib_static: bool,
    /// Whether the link lines are printed, by which Cargo links the library.
    pub cargo_metadata: bool,
    /// Whether warnings, and what commands write on standard error, are printed as lines that Cargo shows; else the latter is dropped.
    pub cargo_warnings: bool,
    /// Whether the standard output of the commands goes where that of the program goes.
    pub cargo_output: bool,
    /// Whether Cargo is to run the script again where a variable changes that was read: a line tells of each, where `cargo_metadata` is on too.
    pub emit_rerun_if_env_changed: bool,
    /// Whether the flags of Rust code are taken that Cargo hands down.
    pub inherit_rustflags: bool,
    /// Whether debug information names paths as others where Cargo wants it.
    pub inherit_trim_paths: bool,
    /// Whether Clang in the form of the Visual Studio compiler comes before that. No search for either is made, so it changes nothing.
    pub prefer_clang_cl_over_msvc: bool,
    /// Whether no compile command is started after one ended with another status than 0. Those that run are waited for.
    pub stop_on_failure: bool,
    /// Whether a line that is given once for all builds that share what they know is given at each call.
    pub repeat_lines: bool,
}

impl BuildConfig {
    /// No source, nothing set, link lines, warnings, output of the commands, rerun lines and what Cargo hands down on, all else off. It
    /// takes no memory.
    pub fn new(alloc: Global) -> BuildConfig
        ensures { result ≡ unset_settings }
    {
        BuildConfig {
            files: Words::new(alloc),
            objects: Words::new(alloc),
            includes: Words::new(alloc),
            ar_flags: Words::new(alloc),
            asm_flags: Words::new(alloc),
            link_lib_modifiers: Words::new(alloc),
            flags: Flags::new(alloc),
            definitions: Definitions::new(alloc),
            remap_source_paths: Vars::new(alloc),
            source_root: None,
            std: None,
            target: None,
            host: None,
            opt_level: None,
            debug: None,
            out_dir: None,
            compiler: None,
            archiver: None,
            ranlib: None,
            cpp_set_stdlib: None,
            cpp_link_stdlib: None,
            shared_flag: None,
            static_flag: None,
            warnings: None,
            extra_warnings: None,
            force_frame_pointer: None,
            cargo_debug: None,
            pic: None,
            use_plt: None,
            static_crt: None,
            shell_escaped_flags: None,
            no_default_flags: false,
            reproducible_codeview: false,
            cpp: false,
            warnings_into_errors: false,
            cpp_link_stdlib_static: false,
            cargo_metadata: true,
            cargo_warnings: true,
            cargo_output: true,
            emit_rerun_if_env_changed: true,
            inherit_rustflags: true,
            inherit_trim_paths: true,
            prefer_clang_cl_over_msvc: false,
            stop_on_failure: false,
            repeat_lines: false,
        }
    }

    /// Second settings, equal to these. Only want of memory refuses; these stay as they are.
    pub fn try_clone(&self) -> Mem<BuildConfig>
        ensures { IfOk result (λ set. set ≡ self.now) }
    {
        Ok(BuildConfig {
            files: self.files.try_clone()?,
            objects: self.objects.try_clone()?,
            includes: self.includes.try_clone()?,
            ar_flags: self.ar_flags.try_clone()?,
            asm_flags: self.asm_flags.try_clone()?,
            link_lib_modifiers: self.link_lib_modifiers.try_clone()?,
            flags: self.flags.try_clone()?,
            definitions: self.definitions.try_clone()?,
            remap_source_paths: self.remap_source_paths.try_clone()?,
            source_root: second(&self.source_root)?,
            std: second(&self.std)?,
            target: second(&self.target)?,
            host: second(&self.host)?,
            opt_level: second(&self.opt_level)?,
            debug: second(&self.debug)?,
            out_dir: second(&self.out_dir)?,
            compiler: second(&self.compiler)?,
            archiver: second(&self.archiver)?,
            ranlib: second(&self.ranlib)?,
            cpp_set_stdlib: second(&self.cpp_set_stdlib)?,
            cpp_link_stdlib: second_choice(&self.cpp_link_stdlib)?,
            shared_flag: self.shared_flag,
            static_flag: self.static_flag,
            warnings: self.warnings,
            extra_warnings: self.extra_warnings,
            force_frame_pointer: self.force_frame_pointer,
            cargo_debug: self.cargo_debug,
            pic: self.pic,
            use_plt: self.use_plt,
            static_crt: self.static_crt,
            shell_escaped_flags: self.shell_escaped_flags,
            no_default_flags: self.no_default_flags,
            reproducible_codeview: self.reproducible_codeview,
            cpp: self.cpp,
            warnings_into_errors: self.warnings_into_errors,
            cpp_link_stdlib_static: self.cpp_link_stdlib_static,
            cargo_metadata: self.cargo_metadata,
            cargo_warnings: self.cargo_warnings,
            cargo_output: self.cargo_output,
            emit_rerun_if_env_changed: self.emit_rerun_if_env_changed,
            inherit_rustflags: self.inherit_rustflags,
            inherit_trim_paths: self.inherit_trim_paths,
            prefer_clang_cl_over_msvc: self.prefer_clang_cl_over_msvc,
            stop_on_failure: self.stop_on_failure,
            repeat_lines: self.repeat_lines,
        })
    }
}

/// The settings of an archive alone: without sources, and with these objects before the added ones. Only want of memory refuses; the
/// settings stay as they are.
pub fn archive_settings(alloc: Global, set: &BuildConfig, objects: &Words) -> Mem<BuildConfig>
    ensures { IfOk result (λ archive. archive ≡ alone set.now objects.now) }
{
    let mut archive = set.try_clone()?;
    archive.files = Words::new(alloc);
    archive.objects = objects.try_clone()?;
    archive.objects.extend(&set.objects)?;
    Ok(archive)
}

/// A second text, equal to this one, or none. Only want of memory refuses.
pub fn second(text: &Option<Text>) -> Mem<Option<Text>>
    ensures { IfOk result (λ t. t ≡ text.now) }
{
    match text {
        Some(text) => Ok(Some(text.try_clone()?)),
        None => Ok(None),
    }
}

// The same of a text that may be chosen as none.
fn second_choice(choice: &Option<Option<Text>>) -> Mem<Option<Option<Text>>>
    ensures { IfOk result (λ c. c ≡ choice.now) }
{
    match choice {
        Some(text) => Ok(Some(second(text)?)),
        None => Ok(None),
    }
}
