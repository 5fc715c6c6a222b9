// What the two languages call their variables and compilers.
ghost use Rattle.std.specs.Prelude.{◌≡◌};
ghost use Rattle.cc_flags.specs.Languages as spec;

/// The variable that names the compiler, as make has it: `CC`, or `CXX` for C++. It takes no memory.
pub fn compiler_variable(cpp: bool) -> &'static str
    ensures { result.now ≡ spec.compiler_variable cpp }
{
    if cpp { "CXX" } else { "CC" }
}

/// What GCC is called: `gcc`, or `g++` for C++. It takes no memory.
pub fn gnu_name(cpp: bool) -> &'static str
    ensures { result.now ≡ spec.gnu_name cpp }
{
    if cpp { "g++" } else { "gcc" }
}

/// What the compiler of the system is called: `cc`, or `c++` for C++. It takes no memory.
pub fn traditional_name(cpp: bool) -> &'static str
    ensures { result.now ≡ spec.traditional_name cpp }
{
    if cpp { "c++" } else { "cc" }
}

/// What Clang is called: `clang`, or `clang++` for C++. It takes no memory.
pub fn clang_name(cpp: bool) -> &'static str
    ensures { result.now ≡ spec.clang_name cpp }
{
    if cpp { "clang++" } else { "clang" }
}

/// What the compiler of Emscripten is called: `emcc`, or `em++` for C++. It takes no memory.
pub fn emscripten_name(cpp: bool) -> &'static str
    ensures { result.now ≡ spec.emscripten_name cpp }
{
    if cpp { "em++" } else { "emcc" }
}

pub(crate) fn vxworks_name(cpp: bool) -> &'static str
    ensures { result.now ≡ spec.vxworks_name cpp }
{
    if cpp { "wr-c++" } else { "wr-cc" }
}

pub(crate) fn qnx_name(cpp: bool) -> &'static str
    ensures { result.now ≡ spec.qnx_name cpp }
{
    if cpp { "q++" } else { "qcc" }
}
