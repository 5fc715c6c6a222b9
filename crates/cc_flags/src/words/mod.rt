// The words of a tool and of a compile command, put together of the groups of this crate and of those that settings bring; and those of an assembler.
mod assembler;
mod compile;
mod defaults;
mod predefine;
mod settings;
mod tool;

pub use assembler::{assembler_words, is_llvm, is_x86, studio_assembler, want_assembler};
pub use compile::{compile_words, expand_words, is_masm};
pub use defaults::{musl_sysroot, names_target};
pub use settings::is_link;
pub(crate) use settings::is_link_flag;
pub use tool::{asked_words, tool_warnings, tool_words};
pub(crate) use tool::{remapped, rust_words, trimmed};
