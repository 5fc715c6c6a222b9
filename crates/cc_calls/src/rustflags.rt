// Rustflags. They are given as one text, with blanks between the flags.
use crate::CallError;
use crate::answer::{Answer, option, option_of, push_pair, strs, truth, truth_word, words};
use crate::given::{Read, family, one_text, three_texts, two_texts};
use cc_flags::{FlagError, RustcCodegenFlags};
use cc_target::TargetInfo;
use cc_text::{Mem, NoMemory, Text, ToolFamily, Words};
use std::alloc::Global;

// Flags as Cargo encodes them.
fn encoded(alloc: Global, flags: &str) -> Mem<Text> {
    let mut text = Text::new(alloc);
    for c in flags.chars() {
        text.push(if c == ' ' { '\u{1f}' } else { c })?;
    }
    Ok(text)
}

fn parsed(alloc: Global, flags: &str) -> Result<RustcCodegenFlags, FlagError> {
    let text = encoded(alloc, flags)?;
    RustcCodegenFlags::parse(alloc, text.as_str())
}

// The fields of flags that aren't refused.
fn allowed(alloc: Global, flags: &str) -> Read<RustcCodegenFlags> {
    match parsed(alloc, flags) {
        Ok(flags) => Ok(flags),
        Err(FlagError::InvalidFlag(_)) => Err(CallError::Given),
        Err(FlagError::NoMemory) => Err(CallError::NoMemory),
    }
}

fn push_text(texts: &mut Vec<String>, name: &str, value: &Option<Text>) -> Mem<()> {
    match value {
        Some(value) => push_pair(texts, name, value.as_str()),
        None => Ok(()),
    }
}

fn push_switch(texts: &mut Vec<String>, name: &str, value: Option<bool>) -> Mem<()> {
    match value {
        Some(value) => push_pair(texts, name, truth_word(value)),
        None => Ok(()),
    }
}

fn push_given(texts: &mut Vec<String>, name: &str, is_given: bool) -> Mem<()> {
    push_switch(texts, name, if is_given { Some(true) } else { None })
}

fn push_version(texts: &mut Vec<String>, value: Option<u32>) -> Mem<()> {
    match value {
        Some(version) => {
            let alloc = *texts.allocator();
            texts.push(format!(in alloc; "dwarf_version={version}")?)?;
            Ok(())
        }
        None => Ok(()),
    }
}

fn push_features(texts: &mut Vec<String>, features: &Words) -> Mem<()> {
    for feature in features.as_slice() {
        push_pair(texts, "target_features", feature.as_str())?;
    }
    Ok(())
}

fn push_texts(texts: &mut Vec<String>, flags: &RustcCodegenFlags) -> Mem<()> {
    push_text(texts, "branch_protection", &flags.branch_protection)?;
    push_text(texts, "code_model", &flags.code_model)?;
    push_text(texts, "control_flow_guard", &flags.control_flow_guard)?;
    push_text(texts, "lto", &flags.lto)?;
    push_text(texts, "relocation_model", &flags.relocation_model)?;
    push_text(texts, "stack_protector", &flags.stack_protector)?;
    push_text(texts, "target_cpu", &flags.target_cpu)
}

fn push_switches(texts: &mut Vec<String>, flags: &RustcCodegenFlags) -> Mem<()> {
    push_given(texts, "no_vectorize_loops", flags.no_vectorize_loops)?;
    push_given(texts, "no_vectorize_slp", flags.no_vectorize_slp)?;
    push_switch(texts, "embed_bitcode", flags.embed_bitcode)?;
    push_switch(texts, "force_frame_pointers", flags.force_frame_pointers)?;
    push_switch(texts, "no_redzone", flags.no_redzone)?;
    push_switch(texts, "soft_float", flags.soft_float)?;
    push_switch(texts, "linker_plugin_lto", flags.linker_plugin_lto)
}

// The fields that are set, as `NAME=value`: those of a text, then those of a truth, the version and each feature.
fn fields(alloc: Global, flags: &RustcCodegenFlags) -> Answer {
    let mut texts = Vec::new(alloc);
    push_texts(&mut texts, flags)?;
    push_switches(&mut texts, flags)?;
    push_version(&mut texts, flags.dwarf_version)?;
    push_features(&mut texts, &flags.target_features)?;
    Ok(texts)
}

fn refused_flag(alloc: Global, key: &str) -> Answer {
    strs(alloc, &["refused", "InvalidFlag", key])
}

// Flags; the fields that they set.
fn parse(alloc: Global, given: &[String]) -> Answer {
    match parsed(alloc, one_text(given)?) {
        Ok(flags) => fields(alloc, &flags),
        Err(FlagError::InvalidFlag(key)) => refused_flag(alloc, key.as_str()),
        Err(FlagError::NoMemory) => Err(CallError::NoMemory),
    }
}

fn is_same(alloc: Global, first: RustcCodegenFlags, second: &str) -> Read<bool> {
    Ok(first == allowed(alloc, second)?)
}

// Flags, twice; whether they set the same fields.
fn same_rustflags(alloc: Global, given: &[String]) -> Answer {
    let (first, second) = two_texts(given)?;
    let first = allowed(alloc, first)?;
    truth(alloc, is_same(alloc, first, second)?)
}

fn linker_plugin_lto(alloc: Global, given: &[String]) -> Answer {
    let flags = allowed(alloc, one_text(given)?)?;
    truth(alloc, flags.linker_plugin_lto())
}

fn target_cpu(alloc: Global, given: &[String]) -> Answer {
    let flags = allowed(alloc, one_text(given)?)?;
    option(alloc, flags.target_cpu())
}

const X86: TargetInfo<'static> = TargetInfo {
    full_arch: "i686",
    arch: "x86",
    vendor: "unknown",
    os: "linux",
    env: "gnu",
    abi: "",
};

fn target_on(arch: &str) -> Read<TargetInfo<'static>> {
    match arch {
        "x86" => Ok(X86),
        "x86_64" => Ok(TargetInfo {
            arch: "x86_64",
            ..X86
        }),
        _ => Err(CallError::Given),
    }
}

fn words_for(alloc: Global, flags: &str, family: ToolFamily, target: &TargetInfo) -> Read<Words> {
    let flags = allowed(alloc, flags)?;
    Ok(flags.wanted(alloc, family, target)?)
}

// A family, an architecture, `x86` or `x86_64`, and flags.
fn wanted(alloc: Global, given: &[String]) -> Answer {
    let (word, arch, flags) = three_texts(given)?;
    let target = target_on(arch)?;
    words(alloc, &words_for(alloc, flags, family(word)?, &target)?)
}

// An architecture, and a feature with its sign.
fn target_feature_cc_flag(alloc: Global, given: &[String]) -> Answer {
    let (arch, feature) = two_texts(given)?;
    let word = RustcCodegenFlags::target_feature_cc_flag(alloc, arch, feature)?;
    option_of(alloc, word.as_ref())
}

// `NoMemory`; whether the refusal that is made of it is the one for want of memory.
fn flag_error(alloc: Global, given: &[String]) -> Answer {
    match one_text(given)? {
        "NoMemory" => truth(alloc, FlagError::from(NoMemory) == FlagError::NoMemory),
        _ => Err(CallError::Given),
    }
}

pub fn call(alloc: Global, name: &str, given: &[String]) -> Option<Answer> {
    match name {
        "parse" => Some(parse(alloc, given)),
        "same_rustflags" => Some(same_rustflags(alloc, given)),
        "linker_plugin_lto" => Some(linker_plugin_lto(alloc, given)),
        "target_cpu" => Some(target_cpu(alloc, given)),
        "wanted" => Some(wanted(alloc, given)),
        "target_feature_cc_flag" => Some(target_feature_cc_flag(alloc, given)),
        "flag_error" => Some(flag_error(alloc, given)),
        _ => None,
    }
}
