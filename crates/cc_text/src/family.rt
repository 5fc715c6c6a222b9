// The families of compilers. These calls take no memory.
ghost use Rattle.std.specs.Prelude.{◌≡◌};
ghost use Rattle.cc_text.specs.Families as families;

/// A family of compilers, by the form of command line that they take. Which words a compiler is given depends on it
/// first.
#[derive(Clone, Copy, Debug, PartialEq, Eq)]
pub enum ToolFamily {
    /// GCC, and what takes its words.
    Gnu,
    /// Clang, and what takes its words. `zig_cc`: whether it is the Clang of Zig, `zig cc`.
    Clang { zig_cc: bool },
    /// `cl.exe` of Visual Studio, and what takes its words. `clang_cl`: whether it is Clang's driver `clang-cl`,
    /// which takes some of Clang's words besides.
    Msvc { clang_cl: bool },
}

/// How the family of a compiler was detected, which decides what is warned of.
#[derive(Clone, Copy, Debug, PartialEq, Eq)]
pub enum Detected {
    /// The preprocessor showed a known macro. No warning follows.
    Marks,
    /// The preprocessor showed nothing, so the name of the file tells. A warning names the path.
    NoMarks,
    /// The preprocessor showed no known macro, so the name of the file tells. A warning tells so, and one names the path.
    Failed,
}

/// Whether it is GCC, or what takes GCC's words and isn't Clang.
pub fn is_gnu(family: ToolFamily) -> bool
    ensures { result ≡ families.is_gnu family }
{
    matches!(family, ToolFamily::Gnu)
}

/// Whether it is Clang with its own words, `zig cc` too; not `clang-cl`.
pub fn is_clang(family: ToolFamily) -> bool
    ensures { result ≡ families.is_clang family }
{
    matches!(family, ToolFamily::Clang { .. })
}

/// Whether it takes the words of `cl.exe`: that itself, or `clang-cl`.
pub fn is_visual_studio(family: ToolFamily) -> bool
    ensures { result ≡ families.is_visual_studio family }
{
    matches!(family, ToolFamily::Msvc { .. })
}

/// Whether it takes the words that GCC and Clang share.
pub fn is_gnu_like(family: ToolFamily) -> bool
    ensures { result ≡ families.is_gnu_like family }
{
    !is_visual_studio(family)
}

/// Whether it is `clang-cl`: Clang's driver that takes the words of `cl.exe` and some of Clang's own (Clang's user manual, "clang-cl").
pub fn is_clang_cl(family: ToolFamily) -> bool
    ensures { result ≡ families.is_clang_cl family }
{
    match family {
        ToolFamily::Gnu => false,
        ToolFamily::Clang { .. } => false,
        ToolFamily::Msvc { clang_cl } => clang_cl,
    }
}

/// Whether it is `cl.exe` itself, not `clang-cl`.
pub fn is_cl(family: ToolFamily) -> bool
    ensures { result ≡ families.is_cl family }
{
    match family {
        ToolFamily::Gnu => false,
        ToolFamily::Clang { .. } => false,
        ToolFamily::Msvc { clang_cl } => !clang_cl,
    }
}

/// Whether it is Clang with its own words, and not `zig cc`.
pub fn is_plain_clang(family: ToolFamily) -> bool
    ensures { result ≡ families.is_plain_clang family }
{
    match family {
        ToolFamily::Gnu => false,
        ToolFamily::Clang { zig_cc } => !zig_cc,
        ToolFamily::Msvc { .. } => false,
    }
}
