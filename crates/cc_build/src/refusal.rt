// The errors of refused settings.
ghost use Rattle.std.specs.Prelude.{◌≡◌, IfOk};
ghost use Rattle.cc_plan.specs.Plan.{dir_of};
ghost use Rattle.cc_plan.specs.Refusal.{object_in};
ghost use Rattle.cc_build.specs.Refusal.{source_at, added_at, archived_at, invalid as invalid_error, same_object_error, library_error, unlisted_error, no_library_error, unset_error, unknown_error, qnx_error, flag_error, disabled_error, argument_error, plan_error};

use crate::message::host_error;
use crate::{Error, ErrorKind};
use cc_env::BuildEnv;
use cc_host::HostError;
use cc_plan::{ArgumentCause, BuildConfig, PlanError, object_path, out_dir_of};
use cc_text::{Mem, Text, quoted};
use std::alloc::Global;

pub(crate) fn source_at(set: &BuildConfig, place: u64) -> &str
    ensures { result.now ≡ source_at set.now place }
{
    match set.files.get(place as usize) {
        Some(source) => source.as_str(),
        None => "",
    }
}

fn added_at(set: &BuildConfig, place: u64) -> &str
    ensures { result.now ≡ added_at set.now place }
{
    match set.objects.get(place as usize) {
        Some(object) => object.as_str(),
        None => "",
    }
}

pub(crate) fn dir_of<'a>(set: &'a BuildConfig, env: &'a BuildEnv) -> &'a str
    ensures { result.now ≡ dir_of set.now env.now }
{
    out_dir_of(set, env).unwrap_or("")
}

// An error of kind InvalidArgument with a text alone as its message.
pub(crate) fn invalid(alloc: Global, subject: &str, message: &str) -> Mem<Error>
    ensures { IfOk result (λ e. e ≡ invalid_error subject.now message.now) }
{
    let subject = Text::of(alloc, subject)?;
    let message = Text::of(alloc, message)?;
    Ok(Error::new(ErrorKind::InvalidArgument, subject, message))
}

// The object of a source in the out dir.
fn object_in(alloc: Global, set: &BuildConfig, env: &BuildEnv, source: &str) -> Mem<Text>
    ensures { IfOk result (λ path. path ≡ object_in set.now env.now source.now) }
{
    let root = match &set.source_root {
        Some(root) => Some(root.as_str()),
        None => None,
    };
    object_path(alloc, env.inherited(), root, dir_of(set, env), source)
}

fn same_object(alloc: Global, set: &BuildConfig, env: &BuildEnv, source: &str) -> Mem<Error>
    ensures { IfOk result (λ e. e ≡ same_object_error (object_in set.now env.now source.now)) }
{
    let subject = object_in(alloc, set, env, source)?;
    let mut message = Text::of(alloc, "two sources have the object ")?;
    message.push_str(subject.as_str())?;
    Ok(Error::new(ErrorKind::InvalidArgument, subject, message))
}

fn library_is_object(alloc: Global, object: &str) -> Mem<Error>
    ensures { IfOk result (λ e. e ≡ library_error object.now) }
{
    let mut message = Text::of(alloc, "the added object ")?;
    message.push_str(object)?;
    message.push_str(" is the library")?;
    invalid(alloc, object, message.as_str())
}

// The path of the archived object at this place: those of sources come first.
fn archived_at(alloc: Global, set: &BuildConfig, env: &BuildEnv, place: u64) -> Mem<Text>
    ensures { IfOk result (λ path. path ≡ archived_at set.now env.now place) }
{
    let count = set.files.len() as u64;
    if place < count {
        object_in(alloc, set, env, source_at(set, place))
    } else {
        Text::of(alloc, added_at(set, place - count))
    }
}

fn unlisted(alloc: Global, set: &BuildConfig, env: &BuildEnv, place: u64) -> Mem<Error>
    ensures { IfOk result (λ e. e ≡ unlisted_error (archived_at set.now env.now place)) }
{
    let path = archived_at(alloc, set, env, place)?;
    let mut message = Text::of(alloc, "libtool can't read the object path ")?;
    message.push_str(quoted(alloc, path.as_str())?.as_str())?;
    Ok(Error::new(ErrorKind::InvalidArgument, path, message))
}

fn no_library(alloc: Global, path: &str) -> Mem<Error>
    ensures { IfOk result (λ e. e ≡ no_library_error path.now) }
{
    let mut message = Text::of(
        alloc,
        "expected the path of a library lib<name>.a with its folder, got ",
    )?;
    message.push_str(path)?;
    invalid(alloc, path, message.as_str())
}

pub(crate) fn argument_error(
    alloc: Global,
    set: &BuildConfig,
    env: &BuildEnv,
    output: &str,
    cause: ArgumentCause,
) -> Mem<Error>
    ensures { IfOk result (λ e. e ≡ argument_error set.now env.now output.now cause) }
{
    match cause {
        ArgumentCause::Output => invalid(
            alloc,
            output,
            "argument must be a single normal path component",
        ),
        ArgumentCause::OutDir => invalid(alloc, "", "out dir must not be empty"),
        ArgumentCause::NoFileName(place) => invalid(
            alloc,
            source_at(set, place),
            "No file_name for object file path!",
        ),
        ArgumentCause::SameObject(_, second) => {
            same_object(alloc, set, env, source_at(set, second))
        },
        ArgumentCause::LibraryIsObject(place) => library_is_object(alloc, added_at(set, place)),
        ArgumentCause::LineFeed(place) => unlisted(alloc, set, env, place),
        ArgumentCause::FileCount => {
            invalid(alloc, "", "Expand may only be called for a single file")
        }
        ArgumentCause::Library => no_library(alloc, output),
    }
}

pub(crate) fn not_set(alloc: Global, name: Text) -> Mem<Error>
    ensures { IfOk result (λ e. e ≡ unset_error name) }
{
    let mut message = Text::of(alloc, "environment variable ")?;
    message.push_str(name.as_str())?;
    message.push_str(" not defined")?;
    Ok(Error::new(ErrorKind::EnvVarNotFound, name, message))
}

fn unknown_target(alloc: Global, target: Text) -> Mem<Error>
    ensures { IfOk result (λ e. e ≡ unknown_error target) }
{
    let mut message = Text::of(alloc, "unknown target ")?;
    message.push_str(target.as_str())?;
    Ok(Error::new(ErrorKind::UnknownTarget, target, message))
}

fn qnx_arch(alloc: Global, arch: Text) -> Mem<Error>
    ensures { IfOk result (λ e. e ≡ qnx_error arch) }
{
    let mut message = Text::of(alloc, "Unknown architecture for Neutrino QNX: ")?;
    message.push_str(arch.as_str())?;
    Ok(Error::new(ErrorKind::InvalidTarget, arch, message))
}

fn invalid_flag(alloc: Global, flag: Text) -> Mem<Error>
    ensures { IfOk result (λ e. e ≡ flag_error flag) }
{
    let mut message = Text::of(alloc, flag.as_str())?;
    message.push_str(" must have a value")?;
    Ok(Error::new(ErrorKind::InvalidFlag, flag, message))
}

// No command may run.
pub(crate) fn disabled(alloc: Global) -> Mem<Error>
    ensures { IfOk result (λ e. e ≡ disabled_error) }
{
    let subject = Text::of(alloc, "CC_FORCE_DISABLE")?;
    let message = Text::of(alloc, "cc has been disabled by CC_FORCE_DISABLE")?;
    Ok(Error::new(ErrorKind::Disabled, subject, message))
}

// The error of a refusal, for a compile run of these settings with this output.
#[tactic(auto, unfolding(crate::specs::Refusal::plan_error))]
pub(crate) fn plan_error(
    alloc: Global,
    set: &BuildConfig,
    env: &BuildEnv,
    output: &str,
    error: PlanError,
) -> Mem<Error>
    ensures { IfOk result (λ e. e ≡ plan_error set.now env.now output.now error) }
{
    match error {
        PlanError::Argument(cause) => argument_error(alloc, set, env, output, cause),
        PlanError::NotSet(name) => not_set(alloc, name),
        PlanError::UnknownTarget(target) => unknown_target(alloc, target),
        PlanError::QnxArch(arch) => qnx_arch(alloc, arch),
        PlanError::Flag(flag) => invalid_flag(alloc, flag),
        PlanError::Host(call, why) => host_error(alloc, HostError::Fault(call, why), ""),
        PlanError::NoMemory => Ok(Error::no_memory()),
    }
}
