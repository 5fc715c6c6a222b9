//! Texts, lists of them, paths, quoting and hashes, and the families of compilers: what all crates above name.
//!
//! Stands on std alone. Contracts see a `Text` as its bytes, `Words` as a list of texts and `Vars` as a list of
//! pairs of texts. The crates above use one thing: each call equals its definition in `specs/`, and only want of
//! memory refuses.
//!
//! A call that may allocate answers `Mem`, and one that takes no memory can't be refused. A refused call that
//! changes its receiver leaves it as it was; what it was given to keep is dropped. Names of std's are cited where
//! the rule is std's.
#![tactic(auto)]

mod among;
mod batch;
mod case;
mod cuts;
mod family;
mod hash;
mod map;
mod memory;
mod numbers;
mod pairs;
mod parts;
mod paths;
mod pieces;
mod places;
mod prefix;
mod quoting;
mod shell;
mod table;
mod text;
mod vars;
mod within;
mod words;

pub use among::{is_among, is_one_of};
pub use batch::batches;
pub use case::{
    contains_ignore_ascii_case, ends_with_ignore_ascii_case, starts_with_ignore_ascii_case,
};
pub use cuts::{after_prefix, before_suffix, key_and_value};
pub use family::{
    Detected, ToolFamily, is_cl, is_clang, is_clang_cl, is_gnu, is_gnu_like, is_plain_clang,
    is_visual_studio,
};
pub use hash::{fnv1a, fnv1a_from, hex16};
pub use map::VecMap;
pub use memory::{Mem, NoMemory};
pub use numbers::u32_of;
pub use parts::{Component, components, keeps_components};
pub use paths::{extension, file_name, file_stem, join, parent, same_path, with_extension};
pub use pieces::{ascii_words, join_texts};
pub use places::PathPlaces;
pub use prefix::strip_prefix;
pub use quoting::quoted;
pub use shell::shell_words;
pub use table::{lookup, lookup_sorted};
pub use text::{Bytes, Text};
pub use vars::Vars;
pub use within::{begins_with, contains, ends_with};
pub use words::Words;
