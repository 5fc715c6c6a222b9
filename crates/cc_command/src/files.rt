// The top call of the program, for words that may want a file read.
ghost use Rattle.std.specs.Prelude.{◌≡◌, ◌++◌, map, string_bytes};
ghost use Rattle.cc_host.specs.Call.{part};
ghost use Rattle.cc_command.specs.Call.{call_of};
ghost use Rattle.cc_command.specs.Driven.{Drives};
ghost use Rattle.cc_command.specs.Graphed.{shelf, file_of, ByGraph, GraphPromises, IfGraph, UnlessGraph};

use crate::ended::Ended;
use crate::graph::graph_job;
use crate::top::drive;
use crate::words::Invocation;
use cc_host::{Files, Host, World};
use cc_jobs::Jobs;
use std::alloc::Global;
use std::sync::Wait;

/// Does what `drive` does, and one thing more, for which a file is read: `graph FILE` runs commands with prerequisites.
/// Words that begin otherwise are `drive`'s, with all that it promises, and no file is read for them.
///
/// `graph FILE` reads the file once, behind the listing of the host's variables: a JSON array of objects, each with its
/// program and words under `command` and the places of the commands that it needs under `needs`. Each command is
/// started once those ended with 0, under a token, as many beside each other as there are tokens, the least place
/// first; one of which a need was skipped or ended with another status is skipped. Then a line of kind Shown is printed
/// for each: its place and its status, `ended without a status` or `skipped`.
///
/// Status 0 means that each ended with 0, and status 1 with the ends in `graph` that one failed: the error is that of
/// the one whose failing end stands last. Status 1 without them has another cause, with its error: an absent file, or
/// one that says no commands, needs that are no places, or a cycle (InvalidArgument); a read that failed, or a call of
/// the host (IOError); or what ends a run at once, as a program that is missing, or want of turns. Status 2: no FILE,
/// or a word behind it. The line of the error or of the word is printed last.
///
/// After each answer the seat holds nothing, and no command that was started runs.
pub fn drive_files<W: World, H: Host<W>, J: Jobs, F: Files>(
    rt: &impl Wait,
    alloc: Global,
    words: &[String],
    turns: u64,
    host: &mut H,
    files: &mut F,
    jobs: &J,
    seat: &mut J::Seat,
) -> Ended
    requires fits { J.fits jobs.now seat.old }
    requires empty { J.held seat.old ≡ 0 }

    // The seat holds nothing afterwards, and the log only grew.
    ensures fits { J.fits jobs.now seat.new }
    ensures empty { J.held seat.new ≡ 0 }
    ensures extends { H.log host.new ≡ H.log host.old ++ part H.log host.old host.new }

    // Words that begin otherwise are answered as by `drive`, and no file is read for them.
    ensures drives { UnlessGraph (map string_bytes words.now)
        (Drives (call_of H.log H.patience H.listens W.steady W.answer
        J.total J.faults J.taken J.load turns host.old host.new seat.old seat.new)
        words.now result) }
    ensures unread { UnlessGraph (map string_bytes words.now)
        (shelf F.reads F.faults files.new ≡ shelf F.reads F.faults files.old) }

    // Commands with prerequisites.
    ensures graphs { IfGraph (map string_bytes words.now) (λ behind.
        ByGraph H.log H.patience J.total J.faults J.taken J.load turns
        host.old host.new seat.old seat.new (GraphPromises (H.listens host.old)
        (file_of behind) (shelf F.reads F.faults files.old) (shelf F.reads F.faults files.new)
        result)) }
{
    match words {
        [command, behind @ ..] if command.as_str() == "graph" => {
            let invocation = Invocation {
                alloc,
                words: behind,
                turns,
            };
            graph_job(invocation, host, files, jobs, seat)
        }
        _ => drive(rt, alloc, words, turns, host, jobs, seat),
    }
}
