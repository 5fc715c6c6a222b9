// The setters of one truth value. None of them takes memory.
ghost use Rattle.std.specs.Prelude.{Some};
ghost use Rattle.cc_build.specs.Build.{Sets};

use crate::Build;
use cc_host::World;

impl<W: World> Build<W> {
    /// Sets whether the compiler is told `-shared`, in each compile command (GCC's manual, "Options for Linking").
    /// Unset, it isn't. It takes no memory.
    pub fn shared_flag(&mut self, shared_flag: bool)
        ensures { Sets self.old self.new (λ c. record c { shared_flag = Some shared_flag }) }
    {
        self.config.shared_flag = Some(shared_flag);
    }

    /// Sets whether the compiler is told `-static`, in each compile command (GCC's manual, "Options for Linking").
    /// Unset, GCC is told it where Cargo's target has the feature `crt-static` (the Rust reference, "Linkage"); false
    /// keeps it from that. It takes no memory.
    pub fn static_flag(&mut self, static_flag: bool)
        ensures { Sets self.old self.new (λ c. record c { static_flag = Some static_flag }) }
    {
        self.config.static_flag = Some(static_flag);
    }

    /// Sets whether extra warnings are on: `-Wextra` for GCC and Clang (GCC's manual, "Options to Request or Suppress
    /// Warnings"). Unset, they are on where the environment has no flags of its own (`CFLAGS` or `CXXFLAGS`). It takes
    /// no memory.
    pub fn extra_warnings(&mut self, extra_warnings: bool)
        ensures { Sets self.old self.new (λ c. record c { extra_warnings = Some extra_warnings }) }
    {
        self.config.extra_warnings = Some(extra_warnings);
    }

    /// Sets whether code can lie anywhere in memory, as a shared library's has to: `-fPIC` for GCC and Clang (GCC's
    /// manual, "Options for Code Generation Conventions"). Unset, it does but on Windows, UEFI, Vita, WebAssembly and
    /// targets without a system. It takes no memory.
    pub fn pic(&mut self, pic: bool)
        ensures { Sets self.old self.new (λ c. record c { pic = Some pic }) }
    {
        self.config.pic = Some(pic);
    }

    /// Sets whether calls of shared libraries may go by the procedure linkage table. False adds `-fno-plt` on Linux and
    /// Android where code can lie anywhere, which makes such calls quicker and symbols be bound at start (GCC's manual,
    /// "Options for Code Generation Conventions"). Unset, they may. It takes no memory.
    pub fn use_plt(&mut self, use_plt: bool)
        ensures { Sets self.old self.new (λ c. record c { use_plt = Some use_plt }) }
    {
        self.config.use_plt = Some(use_plt);
    }

    /// Sets whether Visual Studio's C library is linked statically, `-MT`, or not, `-MD` (Microsoft's page "/MD, /MT,
    /// /LD (Use Run-Time Library)"). Unset, it is as Rust code has it, by the feature `crt-static`. Other compilers get
    /// no word for it. It takes no memory.
    pub fn static_crt(&mut self, static_crt: bool)
        ensures { Sets self.old self.new (λ c. record c { static_crt = Some static_crt }) }
    {
        self.config.static_crt = Some(static_crt);
    }

    /// Sets whether flags of the environment, as `CFLAGS`, are split as a shell splits and quotes words (POSIX, "Shell
    /// Command Language", "Quoting"), so that one flag may have blanks; else they are split at blanks. Unset,
    /// `CC_SHELL_ESCAPED_FLAGS` says so. It takes no memory.
    pub fn shell_escaped_flags(&mut self, shell_escaped_flags: bool)
        ensures { Sets self.old self.new
            (λ c. record c { shell_escaped_flags = Some shell_escaped_flags }) }
    {
        self.config.shell_escaped_flags = Some(shell_escaped_flags);
    }

    /// Sets whether warnings are on, the extra ones too: `-Wall` and `-Wextra`, or `-w`, which silences all; `-W4` or
    /// `-W0` for Visual Studio's compilers (GCC's manual, "Options to Request or Suppress Warnings"). To have only the
    /// usual ones, call `extra_warnings(false)` behind it. Unset, they are on where the environment has no flags of its
    /// own. It takes no memory.
    pub fn warnings(&mut self, warnings: bool)
        ensures { Sets self.old self.new
            (λ c. record c { warnings = Some warnings; extra_warnings = Some warnings }) }
    {
        self.config.warnings = Some(warnings);
        self.config.extra_warnings = Some(warnings);
    }

    /// Sets whether all words that a target, a level and debug information bring are left out; those of other setters
    /// and of the environment stay. At first they are given. `CRATE_CC_NO_DEFAULTS` leaves them out as well, also where
    /// this is false. It takes no memory.
    pub fn no_default_flags(&mut self, no_default_flags: bool)
        ensures { Sets self.old self.new (λ c. record c { no_default_flags = no_default_flags }) }
    {
        self.config.no_default_flags = no_default_flags;
    }

    /// Sets whether CodeView debug information of `clang-cl` names no folder and no command line of the build, so that
    /// two builds write the same bytes (Clang's "Clang command line argument reference", `-gno-codeview-command-line`).
    /// Other compilers get no word for it. At first it is off. It takes no memory.
    pub fn reproducible_codeview(&mut self, reproducible_codeview: bool)
        ensures { Sets self.old self.new
            (λ c. record c { reproducible_codeview = reproducible_codeview }) }
    {
        self.config.reproducible_codeview = reproducible_codeview;
    }

    /// Sets whether the sources are C++: the compiler is then that of `CXX`, else `c++` or what the target has, and
    /// flags are those of `CXXFLAGS`. At first they are C: the compiler is that of `CC`, flags those of `CFLAGS`, and
    /// no C++ library is linked. It takes no memory.
    pub fn cpp(&mut self, cpp: bool)
        ensures { Sets self.old self.new (λ c. record c { cpp = cpp }) }
    {
        self.config.cpp = cpp;
    }

    /// Sets whether the C++ library is linked as a static one. At first it isn't, unless `CXXSTDLIB_STATIC` says so. It
    /// takes no memory.
    pub fn cpp_link_stdlib_static(&mut self, cpp_link_stdlib_static: bool)
        ensures { Sets self.old self.new
            (λ c. record c { cpp_link_stdlib_static = cpp_link_stdlib_static }) }
    {
        self.config.cpp_link_stdlib_static = cpp_link_stdlib_static;
    }

    /// Sets whether a warning is an error, which fails the build: `-Werror`, or `-WX` for Visual Studio's compilers
    /// (GCC's manual, "Options to Request or Suppress Warnings"). Whoever has another compiler may then fail to build,
    /// so at first it is off. It takes no memory.
    pub fn warnings_into_errors(&mut self, warnings_into_errors: bool)
        ensures { Sets self.old self.new
            (λ c. record c { warnings_into_errors = warnings_into_errors }) }
    {
        self.config.warnings_into_errors = warnings_into_errors;
    }

    /// Sets whether the link lines are printed, by which Cargo links the library and finds its folder (Cargo's book,
    /// "Build Scripts"). Off, the library is made as before and whoever wants it has to link it. At first it is on. It
    /// takes no memory.
    pub fn cargo_metadata(&mut self, cargo_metadata: bool)
        ensures { Sets self.old self.new (λ c. record c { cargo_metadata = cargo_metadata }) }
    {
        self.config.cargo_metadata = cargo_metadata;
    }

    /// Sets whether the build's warnings and the lines of the commands' standard error are printed as `cargo:warning=`
    /// lines, which Cargo shows (Cargo's book, "Build Scripts"). Off, what commands write on standard error goes
    /// nowhere. At first it is on. It takes no memory.
    pub fn cargo_warnings(&mut self, cargo_warnings: bool)
        ensures { Sets self.old self.new (λ c. record c { cargo_warnings = cargo_warnings }) }
    {
        self.config.cargo_warnings = cargo_warnings;
    }

    /// Sets whether the standard output of the commands goes where that of the program goes; off, it goes nowhere. The
    /// link lines are printed either way, as `cargo_metadata` wants it. At first it is on. It takes no memory.
    pub fn cargo_output(&mut self, cargo_output: bool)
        ensures { Sets self.old self.new (λ c. record c { cargo_output = cargo_output }) }
    {
        self.config.cargo_output = cargo_output;
    }

    /// Sets whether a line tells each command before it runs, and another its status behind it. Unset, they are told
    /// where `CC_ENABLE_DEBUG_OUTPUT` has a value that isn't empty, `0` or `false`. It takes no memory.
    pub fn cargo_debug(&mut self, cargo_debug: bool)
        ensures { Sets self.old self.new (λ c. record c { cargo_debug = Some cargo_debug }) }
    {
        self.config.cargo_debug = Some(cargo_debug);
    }

    /// Sets whether Cargo is told of the variables that a call read, and of those that its compiler reads by itself, so
    /// that it runs the script again where one changes (Cargo's book, "Build Scripts", `rerun-if-env-changed`). Each
    /// call that compiles, archives, prints link lines, expands, finds a tool or tries a flag tells of them last, where
    /// `cargo_metadata` is on too. At first it is on. It takes no memory.
    pub fn emit_rerun_if_env_changed(&mut self, emit_rerun_if_env_changed: bool)
        ensures { Sets self.old self.new
            (λ c. record c { emit_rerun_if_env_changed = emit_rerun_if_env_changed }) }
    {
        self.config.emit_rerun_if_env_changed = emit_rerun_if_env_changed;
    }

    /// Sets whether `clang-cl` is to be chosen where the Visual Studio compiler would be. No search for either is made,
    /// also for targets of Visual Studio, so it changes nothing. At first it is off. It takes no memory.
    pub fn prefer_clang_cl_over_msvc(&mut self, prefer_clang_cl_over_msvc: bool)
        ensures { Sets self.old self.new
            (λ c. record c { prefer_clang_cl_over_msvc = prefer_clang_cl_over_msvc }) }
    {
        self.config.prefer_clang_cl_over_msvc = prefer_clang_cl_over_msvc;
    }

    /// Sets whether a failure stops the run: no compile command is started after one ended with another status than 0,
    /// or with none, and those that run are waited for. The error is that of the failure that came last, as ever. At
    /// first it is off: every source is compiled, whichever failed. It takes no memory.
    pub fn stop_on_failure(&mut self, stop_on_failure: bool)
        ensures { Sets self.old self.new (λ c. record c { stop_on_failure = stop_on_failure }) }
    {
        self.config.stop_on_failure = stop_on_failure;
    }

    /// Sets whether GCC and Clang keep frame pointers, by which profilers walk the stack: `-fno-omit-frame-pointer`
    /// (GCC's manual, "Options That Control Optimization"), and `-mno-omit-leaf-frame-pointer` where it is taken.
    /// Unset, they are kept where there is debug information. It takes no memory.
    pub fn force_frame_pointer(&mut self, force_frame_pointer: bool)
        ensures { Sets self.old self.new
            (λ c. record c { force_frame_pointer = Some force_frame_pointer }) }
    {
        self.config.force_frame_pointer = Some(force_frame_pointer);
    }

    /// Sets whether the flags of Rust code that Cargo hands down in `CARGO_ENCODED_RUSTFLAGS` are taken over, as far as
    /// the compiler takes the words that say the same, so that C code fits the Rust code it is linked with (rustc's
    /// book, "Codegen Options"). On, a flag of these that lacks its value refuses the compile run. At first it is on.
    /// It takes no memory.
    pub fn inherit_rustflags(&mut self, inherit_rustflags: bool)
        ensures { Sets self.old self.new (λ c. record c { inherit_rustflags = inherit_rustflags }) }
    {
        self.config.inherit_rustflags = inherit_rustflags;
    }

    /// Sets whether paths are told as others where Cargo wants it by `CARGO_TRIM_PATHS_SCOPE` and
    /// `CARGO_TRIM_PATHS_REMAP` (Cargo's book, "Unstable Features", "Profile trim-paths option"), as far as the
    /// compiler takes the flags. At first it is on. It takes no memory.
    pub fn inherit_trim_paths(&mut self, inherit_trim_paths: bool)
        ensures { Sets self.old self.new
            (λ c. record c { inherit_trim_paths = inherit_trim_paths }) }
    {
        self.config.inherit_trim_paths = inherit_trim_paths;
    }

    /// Sets whether the warning of flags for the linker that are left off is printed in each call; else one call prints
    /// it for this build and its clones together. At first it is off; the program turns it on. It takes no memory.
    pub fn repeat_lines(&mut self, repeat_lines: bool)
        ensures { Sets self.old self.new (λ c. record c { repeat_lines = repeat_lines }) }
    {
        self.config.repeat_lines = repeat_lines;
    }
}
