// The table of targets, whose entries are this project's. Names and parts follow rustc's book, "Platform Support",
// and `rustc --print cfg`; the third name follows the `llvm-target` of `rustc --print target-spec-json`; the
// prefixes are the names under which distributions and vendors ship the GNU tools, as Debian's
// `arm-linux-gnueabihf-gcc`.
ghost use Rattle.std.specs.Prelude.{◌≡◌, IsTrue, find, bytes_eq, map, option_map};
ghost use Rattle.std.specs.List.{list_all};
ghost use Rattle.std.specs.Option.{option_copied};
ghost use Rattle.cc_target.specs.Targets.{lines, line_of, line_seen, are_apart, is_sound};

use crate::TargetInfo;

/// A row of the table: what is known of one target.
#[derive(Clone, Copy)]
pub struct Row {
    /// The name that rustc has for the target.
    pub name: &'static str,
    /// Its parts.
    pub info: TargetInfo<'static>,
    /// The name that LLVM has for it.
    pub llvm: &'static str,
    /// What the names of its GNU tools begin with, where there is one way only.
    pub prefix: Option<&'static str>,
    /// What they may begin with, where there are several ways, the likeliest first; else nothing.
    pub candidates: &'static [&'static str],
}

/// A row: the name, the parts from the full architecture to the interface, LLVM's name, the fixed prefix of the GNU
/// tools and their candidates.
macro_rules! row {
    (
        $name:literal,
        ($full_arch:literal, $arch:literal, $vendor:literal, $os:literal, $env:literal, $abi:literal),
        $llvm:literal,
        $prefix:expr,
        [$($candidate:literal),*]
    ) => {
        Row {
            name: $name,
            info: TargetInfo {
                full_arch: $full_arch,
                arch: $arch,
                vendor: $vendor,
                os: $os,
                env: $env,
                abi: $abi,
            },
            llvm: $llvm,
            prefix: $prefix,
            candidates: &[$($candidate),*],
        }
    };
}

static ROWS: [Row; 36] = [
    row!(
        "x86_64-unknown-linux-gnu",
        ("x86_64", "x86_64", "unknown", "linux", "gnu", ""),
        "x86_64-unknown-linux-gnu",
        None,
        ["x86_64-linux-gnu"]
    ),
    row!(
        "x86_64-unknown-linux-musl",
        ("x86_64", "x86_64", "unknown", "linux", "musl", ""),
        "x86_64-unknown-linux-musl",
        None,
        ["x86_64-linux-musl", "musl"]
    ),
    row!(
        "x86_64-unknown-linux-gnux32",
        ("x86_64", "x86_64", "unknown", "linux", "gnu", "x32"),
        "x86_64-unknown-linux-gnux32",
        None,
        []
    ),
    row!(
        "i686-unknown-linux-gnu",
        ("i686", "x86", "unknown", "linux", "gnu", ""),
        "i686-unknown-linux-gnu",
        None,
        ["i686-linux-gnu", "x86_64-linux-gnu"]
    ),
    row!(
        "i686-unknown-linux-musl",
        ("i686", "x86", "unknown", "linux", "musl", ""),
        "i686-unknown-linux-musl",
        Some("musl"),
        []
    ),
    row!(
        "i586-unknown-linux-gnu",
        ("i586", "x86", "unknown", "linux", "gnu", ""),
        "i586-unknown-linux-gnu",
        None,
        []
    ),
    row!(
        "aarch64-unknown-linux-gnu",
        ("aarch64", "aarch64", "unknown", "linux", "gnu", ""),
        "aarch64-unknown-linux-gnu",
        Some("aarch64-linux-gnu"),
        []
    ),
    row!(
        "aarch64-unknown-linux-musl",
        ("aarch64", "aarch64", "unknown", "linux", "musl", ""),
        "aarch64-unknown-linux-musl",
        Some("aarch64-linux-musl"),
        []
    ),
    row!(
        "arm-unknown-linux-gnueabi",
        ("arm", "arm", "unknown", "linux", "gnu", "eabi"),
        "arm-unknown-linux-gnueabi",
        Some("arm-linux-gnueabi"),
        []
    ),
    row!(
        "arm-unknown-linux-gnueabihf",
        ("arm", "arm", "unknown", "linux", "gnu", "eabihf"),
        "arm-unknown-linux-gnueabihf",
        Some("arm-linux-gnueabihf"),
        []
    ),
    row!(
        "armv5te-unknown-linux-gnueabi",
        ("armv5te", "arm", "unknown", "linux", "gnu", "eabi"),
        "armv5te-unknown-linux-gnueabi",
        Some("arm-linux-gnueabi"),
        []
    ),
    row!(
        "armv7-unknown-linux-gnueabihf",
        ("armv7", "arm", "unknown", "linux", "gnu", "eabihf"),
        "armv7-unknown-linux-gnueabihf",
        Some("arm-linux-gnueabihf"),
        []
    ),
    row!(
        "powerpc64le-unknown-linux-gnu",
        ("powerpc64le", "powerpc64", "unknown", "linux", "gnu", ""),
        "powerpc64le-unknown-linux-gnu",
        Some("powerpc64le-linux-gnu"),
        []
    ),
    row!(
        "riscv64gc-unknown-linux-gnu",
        ("riscv64gc", "riscv64", "unknown", "linux", "gnu", ""),
        "riscv64-unknown-linux-gnu",
        Some("riscv64-linux-gnu"),
        []
    ),
    row!(
        "riscv64gc-unknown-none-elf",
        ("riscv64gc", "riscv64", "unknown", "none", "", ""),
        "riscv64",
        None,
        [
            "riscv64-unknown-elf",
            "riscv32-unknown-elf",
            "riscv-none-embed"
        ]
    ),
    row!(
        "riscv32imac-unknown-none-elf",
        ("riscv32imac", "riscv32", "unknown", "none", "", ""),
        "riscv32",
        None,
        [
            "riscv32-unknown-elf",
            "riscv64-unknown-elf",
            "riscv-none-embed"
        ]
    ),
    row!(
        "thumbv7em-none-eabihf",
        ("thumbv7em", "arm", "unknown", "none", "", "eabihf"),
        "thumbv7em-none-eabihf",
        Some("arm-none-eabi"),
        []
    ),
    row!(
        "armebv7r-none-eabihf",
        ("armebv7r", "arm", "unknown", "none", "", "eabihf"),
        "armebv7r-none-eabihf",
        Some("arm-none-eabi"),
        []
    ),
    row!(
        "aarch64-linux-android",
        ("aarch64", "aarch64", "unknown", "android", "", ""),
        "aarch64-linux-android",
        None,
        []
    ),
    row!(
        "armv7-linux-androideabi",
        ("armv7", "arm", "unknown", "android", "", "eabi"),
        "armv7-none-linux-android",
        None,
        []
    ),
    row!(
        "thumbv7neon-linux-androideabi",
        ("thumbv7neon", "arm", "unknown", "android", "", "eabi"),
        "armv7-none-linux-android",
        None,
        []
    ),
    row!(
        "x86_64-unknown-freebsd",
        ("x86_64", "x86_64", "unknown", "freebsd", "", ""),
        "x86_64-unknown-freebsd",
        None,
        []
    ),
    row!(
        "x86_64-unknown-openbsd",
        ("x86_64", "x86_64", "unknown", "openbsd", "", ""),
        "x86_64-unknown-openbsd",
        None,
        []
    ),
    row!(
        "aarch64-unknown-netbsd",
        ("aarch64", "aarch64", "unknown", "netbsd", "", ""),
        "aarch64-unknown-netbsd",
        Some("aarch64--netbsd"),
        []
    ),
    row!(
        "x86_64-unknown-illumos",
        ("x86_64", "x86_64", "unknown", "illumos", "", ""),
        "x86_64-pc-solaris",
        None,
        []
    ),
    row!(
        "wasm32-unknown-unknown",
        ("wasm32", "wasm32", "unknown", "unknown", "", ""),
        "wasm32-unknown-unknown",
        None,
        []
    ),
    row!(
        "wasm32-unknown-emscripten",
        ("wasm32", "wasm32", "unknown", "emscripten", "", ""),
        "wasm32-unknown-emscripten",
        None,
        []
    ),
    row!(
        "wasm32-wasip1",
        ("wasm32", "wasm32", "unknown", "wasi", "p1", ""),
        "wasm32-wasip1",
        None,
        []
    ),
    row!(
        "wasm32-wali-linux-musl",
        ("wasm32", "wasm32", "wali", "linux", "musl", ""),
        "wasm32-wasi",
        None,
        []
    ),
    row!(
        "x86_64-pc-windows-gnu",
        ("x86_64", "x86_64", "pc", "windows", "gnu", ""),
        "x86_64-pc-windows-gnu",
        Some("x86_64-w64-mingw32"),
        []
    ),
    row!(
        "aarch64-pc-windows-gnullvm",
        ("aarch64", "aarch64", "pc", "windows", "gnu", "llvm"),
        "aarch64-pc-windows-gnu",
        Some("aarch64-w64-mingw32"),
        []
    ),
    row!(
        "x86_64-pc-windows-msvc",
        ("x86_64", "x86_64", "pc", "windows", "msvc", ""),
        "x86_64-pc-windows-msvc",
        None,
        []
    ),
    row!(
        "i686-pc-windows-msvc",
        ("i686", "x86", "pc", "windows", "msvc", ""),
        "i686-pc-windows-msvc",
        None,
        []
    ),
    row!(
        "aarch64-pc-windows-msvc",
        ("aarch64", "aarch64", "pc", "windows", "msvc", ""),
        "aarch64-pc-windows-msvc",
        None,
        []
    ),
    row!(
        "i686-pc-nto-qnx700",
        ("i686", "x86", "pc", "nto", "nto70", ""),
        "i586-pc-unknown",
        None,
        []
    ),
    row!(
        "aarch64-unknown-nto-qnx710",
        ("aarch64", "aarch64", "unknown", "nto", "nto71", ""),
        "aarch64-unknown-unknown",
        None,
        []
    ),
];

/// The table.
fn rows() -> &'static [Row]
    ensures { map line_seen result.now ≡ lines }
{
    &ROWS
}

/// The first of some rows with the name.
fn row_among<'a>(rows: &'a [Row], name: &str) -> Option<&'a Row>
    ensures { option_copied result ≡ find (λ r. bytes_eq r.name.now name.now) rows.now }
{
    rows.iter().find(|row| row.name == name)
}

/// The row of the name, or none. It takes no memory.
pub fn row_named(name: &str) -> Option<&'static Row>
    ensures { option_map line_seen (option_copied result) ≡ line_of name.now }
{
    row_among(rows(), name)
}

/// Does nothing: its contract states what holds of the whole table. No name stands twice; a row with a fixed prefix
/// has no candidates; a target of the Visual Studio tools has neither.
pub fn table_is_sound()
    ensures apart { IsTrue (are_apart lines) }
    ensures sound { IsTrue (list_all is_sound lines) }
{}
