// The kinds of probe file: their names, their contents, and which of them a question needs.
ghost use Rattle.std.specs.Prelude.{◌≡◌};
ghost use Rattle.cc_tool.specs.Files as files;

use cc_host::Ask;

/// A kind of probe file: a file that is made for one question, and dropped behind it.
#[derive(Clone, Copy, Debug, PartialEq, Eq)]
pub enum FileKind {
    /// The source that shows the macros of a family: each that is defined leaves its name behind
    /// the preprocessor.
    Family,
    /// The C source of a question on a flag.
    FlagCheck,
    /// The C++ source of a question on a flag.
    CppFlagCheck,
    /// The source that shows the C++ library: libc++ is it where its headers define
    /// `_LIBCPP_VERSION`.
    Libcxx,
    /// The object of a question on a flag.
    Object,
}

impl FileKind {
    /// What the name of a file of this kind ends with, behind the word that was drawn for it. From its ending a compiler takes the
    /// language of a source (GCC's manual, "Overall Options").
    pub fn suffix(self) -> &'static str
        ensures { result.now ≡ files.suffix_of self }
    {
        match self {
            FileKind::Family => "detect_compiler_family.c",
            FileKind::FlagCheck => "flag_check.c",
            FileKind::CppFlagCheck => "flag_check.cpp",
            FileKind::Libcxx => "detect_cpp_stdlib.cpp",
            FileKind::Object => "flag_check",
        }
    }

    /// What a file of this kind holds, as text. An object is made empty, and the compiler writes it.
    #[tactic(auto, unfolding(crate::specs::Files::family_source, crate::specs::Files::libcxx_source, crate::specs::Files::flag_source))]
    pub fn contents(self) -> &'static str
        ensures { result.now ≡ files.contents_of self }
    {
        match self {
            FileKind::Family => {
                "#ifdef __clang__\n\"clang\"\n#endif\n#ifdef __GNUC__\n\"gcc\"\n#endif\n#ifdef __EMSCRIPTEN__\n\"emscripten\"\n#endif\n#ifdef __VXWORKS__\n\"VxWorks\"\n#endif\n"
            }
            FileKind::FlagCheck => "int main(void) { return 0; }",
            FileKind::CppFlagCheck => "int main(void) { return 0; }",
            FileKind::Libcxx => "#include <cstddef>\n#ifdef _LIBCPP_VERSION\n\"libcxx\"\n#endif\n",
            FileKind::Object => "",
        }
    }
}

/// The source that a question needs.
pub(crate) fn source_of(ask: Ask) -> Option<FileKind>
    ensures { result ≡ files.source_of ask }
{
    match ask {
        Ask::Preprocess => Some(FileKind::Family),
        Ask::PreprocessDashes => Some(FileKind::Family),
        Ask::HelpFlag => None,
        Ask::Version => None,
        Ask::Flag { cpp, .. } => {
            if cpp {
                Some(FileKind::CppFlagCheck)
            } else {
                Some(FileKind::FlagCheck)
            }
        }
        Ask::Libcxx => Some(FileKind::Libcxx),
        Ask::SearchDirs => None,
        Ask::ToolVersion => None,
        Ask::Starts => None,
        Ask::Exists => None,
    }
}

/// The object that a question needs.
pub(crate) fn object_of(ask: Ask) -> Option<FileKind>
    ensures { result ≡ files.object_of ask }
{
    match ask {
        Ask::Flag { .. } => Some(FileKind::Object),
        Ask::Preprocess => None,
        Ask::PreprocessDashes => None,
        Ask::HelpFlag => None,
        Ask::Version => None,
        Ask::Libcxx => None,
        Ask::SearchDirs => None,
        Ask::ToolVersion => None,
        Ask::Starts => None,
        Ask::Exists => None,
    }
}
