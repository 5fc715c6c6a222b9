// Lines that the program prints as an answer.
ghost use Rattle.std.specs.Prelude.{[], ◌∷◌};
ghost use Rattle.cc_host.specs.Call.{part};
ghost use Rattle.cc_host.specs.Part.Step.{Prints};
ghost use Rattle.cc_host.specs.declared.event.LineKind.TheVariants.{Shown};
ghost use Rattle.cc_build.specs.Course.{CallsEnd};
ghost use Rattle.cc_build.specs.Kept.{Aside};
ghost use Rattle.cc_command.specs.Lines.{shows};

use cc_build::Error;
use cc_host::{Host, LineKind, World};
use cc_text::Text;
use std::alloc::Global;

/// Prints these bytes as an answer of the program, as they are.
#[tactic(auto, using(cc_host::proofs::Parts::since_append))]
pub(crate) fn print_bytes<W: World, H: Host<W>>(
    alloc: Global,
    host: &mut H,
    kind: LineKind,
    bytes: &[u8],
) -> Result<(), Error>
    ensures aside { Aside H.log H.patience host.old host.new }
    ensures outcome { CallsEnd (Prints kind bytes.now ∷ [])
        (part H.log host.old host.new) result }
{
    match host.print(kind, bytes) {
        Ok(()) => Ok(()),
        Err(error) => Err(Error::of_host(alloc, error, "")),
    }
}

// Prints a line.
fn print_line<W: World, H: Host<W>>(alloc: Global, host: &mut H, line: &Text) -> Result<(), Error>
    ensures aside { Aside H.log H.patience host.old host.new }
    ensures outcome { CallsEnd (Prints Shown line.now ∷ [])
        (part H.log host.old host.new) result }
{
    print_bytes(alloc, host, LineKind::Shown, line.as_str().as_bytes())
}

/// Prints these lines as an answer of the program, one after another.
#[tactic(auto, using(cc_build::proofs::Keeping::aside_none, cc_build::proofs::Keeping::aside_then))]
pub(crate) fn print_lines<W: World, H: Host<W>>(
    alloc: Global,
    host: &mut H,
    lines: &[Text],
) -> Result<(), Error>
    ensures aside { Aside H.log H.patience host.old host.new }
    ensures outcome { CallsEnd (shows lines.now) (part H.log host.old host.new) result }
{
    for line in lines {
        print_line(alloc, host, line)?;
    }
    Ok(())
}
