// What is known of targets.
use crate::CallError;
use crate::answer::{Answer, none, option, refused, strs, truth};
use crate::given::{number, one_text, two_texts};
use cc_target::{TargetInfo, UnknownTarget};
use std::alloc::Global;

// A name; the full architecture, the architecture, the vendor, the system, the environment and the interface.
fn from_rustc_target(alloc: Global, given: &[String]) -> Answer {
    match TargetInfo::from_rustc_target(one_text(given)?) {
        Ok(info) => strs(
            alloc,
            &[
                info.full_arch,
                info.arch,
                info.vendor,
                info.os,
                info.env,
                info.abi,
            ],
        ),
        Err(UnknownTarget) => refused(alloc, "UnknownTarget"),
    }
}

fn is_arm(alloc: Global, given: &[String]) -> Answer {
    match TargetInfo::from_rustc_target(one_text(given)?) {
        Ok(info) => truth(alloc, info.is_arm()),
        Err(UnknownTarget) => refused(alloc, "UnknownTarget"),
    }
}

// A name; whether it is one of Arm where its architecture is `arm64ec`.
fn is_arm_emulated(alloc: Global, given: &[String]) -> Answer {
    match TargetInfo::from_rustc_target(one_text(given)?) {
        Ok(info) => {
            let emulated = TargetInfo {
                arch: "arm64ec",
                ..info
            };
            truth(alloc, emulated.is_arm())
        }
        Err(UnknownTarget) => refused(alloc, "UnknownTarget"),
    }
}

fn llvm_target(alloc: Global, given: &[String]) -> Answer {
    option(alloc, cc_target::llvm_target(one_text(given)?))
}

fn gnu_prefix(alloc: Global, given: &[String]) -> Answer {
    option(alloc, cc_target::gnu_prefix(one_text(given)?))
}

// A name and a place from 0.
fn gnu_candidate(alloc: Global, given: &[String]) -> Answer {
    let (name, place) = two_texts(given)?;
    let place = number(place)? as usize;
    option(alloc, cc_target::gnu_candidate(name, place))
}

fn gnu_candidates(alloc: Global, given: &[String]) -> Answer {
    strs(alloc, cc_target::gnu_candidates(one_text(given)?))
}

// Nothing; its promises speak of the table.
fn table_is_sound(alloc: Global, given: &[String]) -> Answer {
    if !given.is_empty() {
        return Err(CallError::Given);
    }
    cc_target::table_is_sound();
    none(alloc)
}

pub fn call(alloc: Global, name: &str, given: &[String]) -> Option<Answer> {
    match name {
        "from_rustc_target" => Some(from_rustc_target(alloc, given)),
        "is_arm" => Some(is_arm(alloc, given)),
        "is_arm_emulated" => Some(is_arm_emulated(alloc, given)),
        "llvm_target" => Some(llvm_target(alloc, given)),
        "gnu_prefix" => Some(gnu_prefix(alloc, given)),
        "gnu_candidate" => Some(gnu_candidate(alloc, given)),
        "gnu_candidates" => Some(gnu_candidates(alloc, given)),
        "table_is_sound" => Some(table_is_sound(alloc, given)),
        _ => None,
    }
}
