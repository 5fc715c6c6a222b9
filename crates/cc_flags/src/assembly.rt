// What an assembler is chosen by.
use crate::BuildConfig;
use cc_env::BuildEnv;
use cc_target::TargetInfo;
use cc_text::ToolFamily;
use std::alloc::Global;

/// The settings in their environment, what is known of the target, and the family and the path of the compiler that the assembler goes
/// with.
#[derive(Clone, Copy)]
pub struct Assembly<'a> {
    pub alloc: Global,
    pub set: &'a BuildConfig,
    pub env: &'a BuildEnv,
    pub target: &'a TargetInfo<'a>,
    pub family: ToolFamily,
    pub path: &'a str,
}
