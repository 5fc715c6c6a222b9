// Lines and messages, printed and said one after another.
ghost use Rattle.std.specs.Prelude.{◌≡◌, ◌++◌, IfErr};
ghost use Rattle.cc_host.specs.Call.{part};
ghost use Rattle.cc_run.specs.Prints.{ArePrinted, IsGiven, IsPrintError};

use crate::RunError;
use crate::error::print_error;
use cc_host::{Host, LineKind, Message, World};
use cc_text::Bytes;

/// What a run gives its host: a line that is to be printed, with its line feed, or a message that is to be said.
#[derive(Drop, Debug)]
pub enum Notice {
    Shown { kind: LineKind, bytes: Bytes },
    Told(Message),
}

// Prints this line, or says this message.
#[tactic(auto, using(cc_host::proofs::Parts::since_append))]
fn give<W: World, H: Host<W>>(host: &mut H, notice: &Notice) -> Result<(), RunError>
    ensures extends { H.log host.new ≡ H.log host.old ++ part H.log host.old host.new }
    ensures patient { H.patience host.new ≡ H.patience host.old }
    ensures given { IsGiven notice.now result (part H.log host.old host.new) }
    ensures kind { IfErr result IsPrintError }
{
    match notice {
        Notice::Shown { kind, bytes } => match host.print(*kind, bytes.as_slice()) {
            Ok(()) => Ok(()),
            Err(e) => Err(print_error(e)),
        },
        Notice::Told(message) => match host.say(message) {
            Ok(()) => Ok(()),
            Err(e) => Err(print_error(e)),
        },
    }
}

/// Prints each of these lines and says each of these messages, in order, until one is refused.
#[tactic(auto, using(cc_host::proofs::Parts::since_append))]
pub(crate) fn print_all<W: World, H: Host<W>>(
    host: &mut H,
    lines: &[Notice],
) -> Result<(), RunError>
    ensures extends { H.log host.new ≡ H.log host.old ++ part H.log host.old host.new }
    ensures patient { H.patience host.new ≡ H.patience host.old }
    ensures printed { ArePrinted lines.now result (part H.log host.old host.new) }
    ensures kind { IfErr result IsPrintError }
{
    for line in lines {
        match give(host, line) {
            Ok(()) => {}
            Err(e) => return Err(e),
        }
    }
    Ok(())
}
