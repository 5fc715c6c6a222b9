// The top call of the program.
ghost use Rattle.std.specs.Prelude.{◌≡◌, ◌++◌, Ok, true, map, string_bytes};
ghost use Rattle.cc_host.specs.Call.{part};
ghost use Rattle.cc_build.specs.Course.{ByRun};
ghost use Rattle.cc_build.specs.Promises.{NothingRuns};
ghost use Rattle.cc_command.specs.Answer.{asked_for};
ghost use Rattle.cc_command.specs.Answered.{Answered};
ghost use Rattle.cc_command.specs.Asks.{AsksWords};
ghost use Rattle.cc_command.specs.Call.{call_of};
ghost use Rattle.cc_command.specs.Promised.{Promised};
ghost use Rattle.cc_command.specs.Promises.{Headline, PrintsLast, FaultsLast, UnlessFleet};
ghost use Rattle.cc_command.specs.Read.{read, wish_of};

use crate::commands::read_words;
use crate::done::conclude;
use crate::ended::{Ended, ended_wanting, refuse, refuse_word};
use crate::fleet::fleet_job;
use crate::fleet_words::behind_fleet;
use crate::job::do_job;
use crate::words::{Invocation, ReadError, Request};
use cc_host::{Host, World};
use cc_jobs::Jobs;
use std::alloc::Global;
use std::sync::Wait;

// Takes the host's variables, does the job of a request, and says how it ended.
#[tactic(auto, using(cc_host::proofs::Parts::since_append))]
fn serve<W: World, H: Host<W>, J: Jobs>(
    rt: &impl Wait,
    request: &mut Request<W>,
    turns: u64,
    host: &mut H,
    jobs: &J,
    seat: &mut J::Seat,
) -> Ended
    requires fits { J.fits jobs.now seat.old }
    requires empty { J.held seat.old ≡ 0 }
    requires repeats { request.old.build.config.repeat_lines ≡ true }
    ensures fits { J.fits jobs.now seat.new }
    ensures empty { J.held seat.new ≡ 0 }
    ensures extends { H.log host.new ≡ H.log host.old ++ part H.log host.old host.new }
    ensures answered { Answered (call_of H.log H.patience H.listens W.steady W.answer
        J.total J.faults J.taken J.load turns host.old host.new seat.old seat.new)
        (Ok (wish_of request.old.job request.old.database request.old.build)) result }
{
    let alloc = request.alloc;
    match request.build.capture(host) {
        Ok(()) => {
            let done = do_job(rt, request, turns, host, jobs, seat);
            conclude(alloc, host, done)
        }
        Err(error) => refuse(alloc, host, error),
    }
}

// Reads the words of one build, and does what they ask for.
#[tactic(auto, using(cc_host::proofs::Parts::since_append))]
fn run_alone<W: World, H: Host<W>, J: Jobs>(
    rt: &impl Wait,
    invocation: Invocation<'_>,
    host: &mut H,
    jobs: &J,
    seat: &mut J::Seat,
) -> Ended
    requires fits { J.fits jobs.now seat.old }
    requires empty { J.held seat.old ≡ 0 }
    ensures fits { J.fits jobs.now seat.new }
    ensures empty { J.held seat.new ≡ 0 }
    ensures extends { H.log host.new ≡ H.log host.old ++ part H.log host.old host.new }
    ensures answered { Answered (call_of H.log H.patience H.listens W.steady W.answer J.total
        J.faults J.taken J.load invocation.entry.turns host.old host.new seat.old seat.new)
        (read (map string_bytes invocation.entry.words.now)) result }
{
    let Invocation {
        alloc,
        words,
        turns,
    } = invocation;
    match read_words::<W>(alloc, words) {
        Ok(mut request) => serve(rt, &mut request, turns, host, jobs, seat),
        Err(ReadError::Bad(bad)) => refuse_word(alloc, host, bad),
        Err(ReadError::NoMemory) => ended_wanting(),
    }
}

// Does what the words ask for: a fleet, or what one build is for.
#[tactic(auto, using(cc_host::proofs::Parts::since_append))]
fn run<W: World, H: Host<W>, J: Jobs>(
    rt: &impl Wait,
    invocation: Invocation<'_>,
    host: &mut H,
    jobs: &J,
    seat: &mut J::Seat,
) -> Ended
    requires fits { J.fits jobs.now seat.old }
    requires empty { J.held seat.old ≡ 0 }
    ensures fits { J.fits jobs.now seat.new }
    ensures empty { J.held seat.new ≡ 0 }
    ensures extends { H.log host.new ≡ H.log host.old ++ part H.log host.old host.new }
    ensures answered { Answered (call_of H.log H.patience H.listens W.steady W.answer J.total
        J.faults J.taken J.load invocation.entry.turns host.old host.new seat.old seat.new)
        (asked_for invocation.entry.words.now) result }
{
    match behind_fleet(invocation.words) {
        Some(words) => {
            let behind = Invocation {
                words,
                ..invocation
            };
            fleet_job(rt, behind, host, jobs, seat)
        }
        None => run_alone(rt, invocation, host, jobs, seat),
    }
}

/// Reads the words, runs what they ask for on the host, and prints. The words are those behind the program's own name.
/// The seat is one of the pool and holds no token, before and after; at most `turns` turns are made, each of which asks
/// the host once for the news of the running children.
///
/// Status 0 of `compile NAME ..` means: in the part of the log that this call added the host listed its variables; then
/// it starts one planned compile command per source, in the order added, each ended with 0; then the old library is
/// removed; then the planned archive and index commands ended with 0, but for the first, which those of the plain form
/// follow where the archiver refuses its form; then exactly the link lines were printed, and then the lines of the
/// variables that the run read. That of `archive NAME ..` means: the old library is removed, those commands archived
/// the added objects alone, and then its link lines were printed; it takes no token.
///
/// `compile NAME database=PATH ..` does so too, and tells of it: status 0 means that between the listing and the run
/// the host told the folder that relative paths count from, and that the last event wrote the file of that path: the
/// compilation database with one entry for each source, in order, of that folder, the source, its object, and the words
/// of the command that compiled it.
///
/// `generate N` has its host list its variables, and leaves the pool and the seat alone: its run has a host in memory
/// and four tokens of its own, and as many turns, of which two for each source and two more are enough. Status 0 of it
/// means: over the whole log of that host, which is handed back as `bench` and was empty before, the library `gen` of N
/// sources is built; and exactly five lines were printed on the host that was handed in, of kind Shown: `sources`,
/// `compiles`, `archives`, `indexes` and `links`, each with its number.
///
/// `expand key=value ..` takes no token and makes no turn. Status 0 of it means: the host listed its variables, the
/// warnings of how the compiler was found were printed; then exactly one command ran, the planned one that expands the
/// one source, and ended with 0; then exactly the lines of the variables that were read for it were printed; and then
/// its standard output as it is, of kind Expanded.
///
/// `show key=value ..` starts no command but those of questions. Status 0 of it means: the host listed its variables,
/// the warnings of how the compiler was found were printed, then exactly the lines of the variables that were read for
/// the compiler, for the archiver and for the tool that writes an index, and then exactly four lines of kind Shown,
/// `family`, `compiler`, `archiver` and `ranlib`, as the plan has them by the answers to its questions.
///
/// `fleet -- NAME key=value .. -- NAME key=value ..` builds several libraries under the one pool. The host lists its
/// variables, which all members take. Each member is planned, in order; then the commands of all are run as one list,
/// as many side by side as there are tokens; then, in order, the library of each is written of which no command failed,
/// and its link lines are printed. `fleet` of the answer tells what became of each: status 0 means that all are built,
/// and status 1 with it that some were refused, each with a line of kind Fault, in order, of which the first is of the
/// `error`. Status 1 without it has another cause: a plan that was refused, two members that would write one file, or a
/// run that was refused but by a failed command.
///
/// A host that listens is told each warning, also where none is printed, and each compile command right before its
/// start; before the first of these it is asked for the current folder.
///
/// Another status leaves what the first stages did. Its line, `error occurred in cc-rs: <message>` or `word <place>:
/// <cause>`, is the last event, of kind Fault, or else the fault of its print; want of memory prints none. A fleet has
/// such a line for each member that was refused. Each command that was started has ended or was left alone, and no
/// probe file stays.
#[tactic(auto, using(cc_host::proofs::Parts::since_append))]
pub fn drive<W: World, H: Host<W>, J: Jobs>(
    rt: &impl Wait,
    alloc: Global,
    words: &[String],
    turns: u64,
    host: &mut H,
    jobs: &J,
    seat: &mut J::Seat,
) -> Ended
    requires fits { J.fits jobs.now seat.old }
    requires empty { J.held seat.old ≡ 0 }
    ensures fits { J.fits jobs.now seat.new }
    ensures empty { J.held seat.new ≡ 0 }
    ensures extends { H.log host.new ≡ H.log host.old ++ part H.log host.old host.new }

    // The headline.
    ensures built { ByRun H.log H.patience J.total J.faults J.taken J.load turns
        host.old host.new seat.old seat.new (Headline (H.listens host.old) words.now result) }

    // The whole answer, each status with its cause, and what follows from it, sentence by sentence, by what the words
    // ask for.
    ensures promised { Promised (call_of H.log H.patience H.listens W.steady W.answer
        J.total J.faults J.taken J.load turns host.old host.new seat.old seat.new)
        (asked_for words.now) result }
    ensures printed { UnlessFleet (asked_for words.now)
        (PrintsLast (part H.log host.old host.new) result) }
    ensures faults_last { UnlessFleet (asked_for words.now)
        (FaultsLast (part H.log host.old host.new)) }
    ensures settled { NothingRuns (part H.log host.old host.new) }

    // What questions leave in the log: each is answered once, and no probe file stays.
    ensures asked { AsksWords W.steady W.answer (asked_for words.now)
        (part H.log host.old host.new) }
{
    let invocation = Invocation {
        alloc,
        words,
        turns,
    };
    run(rt, invocation, host, jobs, seat)
}
