// Warnings, which a host is given: as lines for Cargo, and as messages where it listens.
ghost use Rattle.std.specs.Prelude.{◌≡◌, ◌++◌, [], false, IfOk};
ghost use Rattle.std.specs.List.{list_any};
ghost use Rattle.cc_host.specs.Call.{part};
ghost use Rattle.cc_host.specs.declared.event.Event.TheVariants.{Printed, Said};
ghost use Rattle.cc_host.specs.declared.event.HostCall.TheVariants.{Print, Say};
ghost use Rattle.cc_host.specs.declared.event.LineKind.TheVariants.{Warning};
ghost use Rattle.cc_host.specs.declared.event.Message.TheVariants.{GeneralWarning};
ghost use Rattle.cc_tool.specs.Asked.{question_events};
ghost use Rattle.cc_plan.specs.Asking.{Gives, Warned, RefusedByPrint, is_of_children};
ghost use Rattle.cc_plan.specs.Link.{printed_line as line_of};
ghost use Rattle.cc_plan.specs.Plan.{warning_line as line_of_warning, warning_steps, warned_steps};

use crate::PlanError;
use cc_flags::BuildConfig;
use cc_host::{Host, HostError, LineKind, Message, World};
use cc_text::{Mem, Text, Words};
use std::alloc::Global;

/// A warning as Cargo reads it, without a line feed. Refused for memory, there is none.
pub fn warning_line(alloc: Global, text: &str) -> Mem<Text>
    ensures { IfOk result (λ line. line ≡ line_of_warning text.now) }
{
    let mut line = Text::of(alloc, "cargo:warning=")?;
    line.push_str(text)?;
    Ok(line)
}

/// A line with its line feed, as a host prints it. Refused for memory, there is none.
pub fn printed_line(alloc: Global, line: &str) -> Mem<Text>
    ensures { IfOk result (λ text. text ≡ line_of line.now) }
{
    let mut text = Text::of(alloc, line)?;
    text.push_str("\n")?;
    Ok(text)
}

// Prints a warning.
#[tactic(auto, using(cc_host::proofs::Parts::since_append))]
fn print_warning<W: World, H: Host<W>>(
    alloc: Global,
    host: &mut H,
    text: &str,
) -> Result<(), PlanError>
    ensures extends { H.log host.new ≡ H.log host.old ++ part H.log host.old host.new }
    ensures gives { Gives Print (Printed Warning (line_of (line_of_warning text.now)))
        (part H.log host.old host.new) result }
    ensures patient { H.patience host.new ≡ H.patience host.old }
{
    let line = warning_line(alloc, text)?;
    let line = printed_line(alloc, line.as_str())?;
    match host.print(LineKind::Warning, line.as_str().as_bytes()) {
        Ok(()) => Ok(()),
        Err(HostError::Fault(call, why)) => Err(PlanError::Host(call, why)),
        Err(HostError::NoMemory) => Err(PlanError::NoMemory),
    }
}

// Says a warning.
#[tactic(auto, using(cc_host::proofs::Parts::since_append))]
fn say_warning<W: World, H: Host<W>>(
    alloc: Global,
    host: &mut H,
    text: &str,
) -> Result<(), PlanError>
    ensures extends { H.log host.new ≡ H.log host.old ++ part H.log host.old host.new }
    ensures gives { Gives Say (Said (GeneralWarning text.now))
        (part H.log host.old host.new) result }
    ensures patient { H.patience host.new ≡ H.patience host.old }
{
    let message = Message::GeneralWarning(Text::of(alloc, text)?);
    match host.say(&message) {
        Ok(()) => Ok(()),
        Err(HostError::Fault(call, why)) => Err(PlanError::Host(call, why)),
        Err(HostError::NoMemory) => Err(PlanError::NoMemory),
    }
}

// Prints a warning where that is wanted, and says it where the host listens.
fn warn<W: World, H: Host<W>>(
    alloc: Global,
    host: &mut H,
    prints: bool,
    listens: bool,
    text: &str,
) -> Result<(), PlanError>
    ensures extends { H.log host.new ≡ H.log host.old ++ part H.log host.old host.new }
    ensures warned { Warned (warning_steps prints listens text.now)
        (part H.log host.old host.new) result }
    ensures silent { question_events (part H.log host.old host.new) ≡ [] }
    ensures childless { list_any is_of_children (part H.log host.old host.new) ≡ false }
    ensures refused { RefusedByPrint result }
    ensures patient { H.patience host.new ≡ H.patience host.old }
{
    if prints {
        print_warning(alloc, host, text)?;
    }
    if listens {
        say_warning(alloc, host, text)?;
    }
    Ok(())
}

/// Gives a host that listens or not these warnings, one after another: as lines where they are wanted, and as messages
/// where it listens.
pub(crate) fn warn_of<W: World, H: Host<W>>(
    alloc: Global,
    host: &mut H,
    set: &BuildConfig,
    listens: bool,
    texts: &Words,
) -> Result<(), PlanError>
    ensures extends { H.log host.new ≡ H.log host.old ++ part H.log host.old host.new }
    ensures warned { Warned (warned_steps set.now listens texts.now)
        (part H.log host.old host.new) result }
    ensures silent { question_events (part H.log host.old host.new) ≡ [] }
    ensures childless { list_any is_of_children (part H.log host.old host.new) ≡ false }
    ensures refused { RefusedByPrint result }
    ensures patient { H.patience host.new ≡ H.patience host.old }
{
    for text in texts.as_slice() {
        warn(alloc, host, set.cargo_warnings, listens, text.as_str())?;
    }
    Ok(())
}
