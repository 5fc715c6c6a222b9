// The job that runs a graph of commands from a file.
ghost use Rattle.std.specs.Prelude.{◌≡◌, ◌++◌, map, string_bytes, Ok, Err, IfOk, IfErr};
ghost use Rattle.std.specs.Option.{option_map};
ghost use Rattle.cc_host.specs.Call.{part};
ghost use Rattle.cc_graph.specs.Run.{GraphRun};
ghost use Rattle.cc_command.specs.Failing.{failed_last};
ghost use Rattle.cc_command.specs.Graphed.{file_of, shelf, failure_error, graph_shows, graph_rules, RanTo, ByGraph, Running, EndsListed, Graphing, Graphed, Fails, Concludes, AnswersGraph};

use crate::ended::{Ended, ended_wanting, ended_with, refuse, refuse_word};
use crate::failing::last_failure;
use crate::graph_errors::{failure_error, graph_error};
use crate::graph_file::{list_vars, nodes_of, read_file};
use crate::graph_lines::print_ends;
use crate::words::{BadWord, Invocation, WordCause};
use cc_build::{Error, is_debug_wanted};
use cc_env::EnvSnapshot;
use cc_graph::{GraphError, Node, NodeEnds, run_graph};
use cc_host::{Files, Host, OutputKind, World};
use cc_jobs::Jobs;
use cc_run::{Shows, Turns};
use cc_text::Mem;
use std::alloc::Global;

// What a graph is run by: an allocator, the path of its file, and how many turns it may make.
#[derive(Clone, Copy)]
pub(crate) struct Asking<'a> {
    pub alloc: Global,
    pub path: &'a str,
    pub turns: u64,
}

// What commands came to: their ends, and the error of the one that failed last.
#[derive(Drop)]
pub(crate) struct Outcome {
    pub ends: NodeEnds,
    pub failure: Option<Error>,
}

// The file that words behind `graph` name, or the first bad one.
fn file_of(words: &[String]) -> Result<&str, BadWord>
    ensures ok { IfOk result (λ path. file_of (map string_bytes words.now) ≡ Ok path.now) }
    ensures err { IfErr result (λ bad. file_of (map string_bytes words.now) ≡ Err bad) }
{
    match words {
        [] => Err(BadWord {
            place: 1,
            cause: WordCause::NoName,
        }),
        [file] => Ok(file.as_str()),
        _ => Err(BadWord {
            place: 2,
            cause: WordCause::UnknownKey,
        }),
    }
}

// What the run of a graph shows, on a host that listens or not.
fn shows_in(env: &EnvSnapshot, listens: bool) -> Shows
    ensures { result ≡ graph_shows listens env.now }
{
    Shows {
        warnings: true,
        debug: is_debug_wanted(env),
        out: OutputKind::Forward,
        listens,
        stop: false,
    }
}

// Runs the commands.
fn run_nodes<W: World, H: Host<W>, J: Jobs>(
    asking: Asking<'_>,
    env: &EnvSnapshot,
    nodes: &[Node],
    host: &mut H,
    jobs: &J,
    seat: &mut J::Seat,
) -> Result<NodeEnds, GraphError>
    requires fits { J.fits jobs.now seat.old }
    requires empty { J.held seat.old ≡ 0 }
    ensures fits { J.fits jobs.now seat.new }
    ensures empty { J.held seat.new ≡ 0 }
    ensures extends { H.log host.new ≡ H.log host.old ++ part H.log host.old host.new }
    ensures patient { H.patience host.new ≡ H.patience host.old }
    ensures ran { ByGraph H.log H.patience J.total J.faults J.taken J.load asking.entry.turns
        host.old host.new seat.old seat.new
        (RanTo (H.listens host.old) env.now nodes.now result) }
    ensures graph { IfOk result (λ ends. GraphRun nodes.now
        (graph_rules (H.listens host.old) env.now nodes.now) (J.total seat.old)
        (part H.log host.old host.new) ends) }
{
    let shows = shows_in(env, host.listens());
    let mut turns = Turns {
        left: asking.turns,
        used: 0,
    };
    run_graph(asking.alloc, host, jobs, seat, &mut turns, nodes, &shows)
}

// The error of the command that failed last, if one did.
fn find_failure<W: World, H: Host<W>>(alloc: Global, host: &H) -> Mem<Option<Error>>
    ensures { IfOk result (λ e. e ≡ option_map failure_error (failed_last (H.log host.now))) }
{
    match last_failure(alloc, host.log())? {
        Some(failure) => Ok(Some(failure_error(alloc, &failure)?)),
        None => Ok(None),
    }
}

// Runs the commands, and prints a line for each.
fn run_and_print<W: World, H: Host<W>, J: Jobs>(
    asking: Asking<'_>,
    env: &EnvSnapshot,
    nodes: &[Node],
    host: &mut H,
    jobs: &J,
    seat: &mut J::Seat,
) -> Result<Outcome, Error>
    requires fits { J.fits jobs.now seat.old }
    requires empty { J.held seat.old ≡ 0 }
    requires listed { EndsListed (H.log host.old) }
    ensures fits { J.fits jobs.now seat.new }
    ensures empty { J.held seat.new ≡ 0 }
    ensures extends { H.log host.new ≡ H.log host.old ++ part H.log host.old host.new }
    ensures answer { ByGraph H.log H.patience J.total J.faults J.taken J.load asking.entry.turns
        host.old host.new seat.old seat.new
        (Running (H.listens host.old) asking.entry.path.now env.now nodes.now result) }
{
    match run_nodes(asking, env, nodes, host, jobs, seat) {
        Ok(ends) => {
            let failure = find_failure(asking.alloc, host)?;
            print_ends(asking.alloc, host, &ends)?;
            Ok(Outcome { ends, failure })
        }
        Err(e) => Err(graph_error(asking.alloc, asking.path, nodes, e)),
    }
}

// Reads the file, and runs its commands.
fn run_file<W: World, H: Host<W>, J: Jobs, F: Files>(
    asking: Asking<'_>,
    host: &mut H,
    files: &mut F,
    jobs: &J,
    seat: &mut J::Seat,
) -> Result<Outcome, Error>
    requires fits { J.fits jobs.now seat.old }
    requires empty { J.held seat.old ≡ 0 }
    ensures fits { J.fits jobs.now seat.new }
    ensures empty { J.held seat.new ≡ 0 }
    ensures extends { H.log host.new ≡ H.log host.old ++ part H.log host.old host.new }
    ensures answer { ByGraph H.log H.patience J.total J.faults J.taken J.load asking.entry.turns
        host.old host.new seat.old seat.new
        (Graphing (H.listens host.old) asking.entry.path.now (shelf F.reads F.faults files.old)
        (shelf F.reads F.faults files.new) result) }
{
    let env = list_vars(asking.alloc, host)?;
    let held = read_file(asking.alloc, files, asking.path)?;
    let nodes = nodes_of(asking.alloc, asking.path, &held, &env)?;
    run_and_print(asking, &env, &nodes, host, jobs, seat)
}

// The end of commands of which one failed.
#[tactic(auto, using(cc_host::proofs::Parts::since_append))]
fn end_failed<W: World, H: Host<W>>(
    alloc: Global,
    host: &mut H,
    ends: NodeEnds,
    error: Error,
) -> Ended
    ensures extends { H.log host.new ≡ H.log host.old ++ part H.log host.old host.new }
    ensures says { Fails ends error (part H.log host.old host.new) result }
{
    let Ended { error, .. } = refuse(alloc, host, error);
    match error {
        Some(error) => Ended {
            error: Some(error),
            graph: Some(ends),
            ..ended_with(1)
        },
        None => ended_wanting(),
    }
}

// The end of commands of which none failed, or one did.
#[tactic(auto, using(cc_host::proofs::Parts::since_append))]
fn conclude<W: World, H: Host<W>>(alloc: Global, host: &mut H, outcome: Outcome) -> Ended
    ensures extends { H.log host.new ≡ H.log host.old ++ part H.log host.old host.new }
    ensures says { Concludes outcome.ends outcome.failure (part H.log host.old host.new) result }
{
    let Outcome { ends, failure } = outcome;
    match failure {
        None => Ended {
            graph: Some(ends),
            ..ended_with(0)
        },
        Some(error) => end_failed(alloc, host, ends, error),
    }
}

// Runs the graph of a file.
#[tactic(auto, using(cc_host::proofs::Parts::since_append))]
fn graph_of<W: World, H: Host<W>, J: Jobs, F: Files>(
    asking: Asking<'_>,
    host: &mut H,
    files: &mut F,
    jobs: &J,
    seat: &mut J::Seat,
) -> Ended
    requires fits { J.fits jobs.now seat.old }
    requires empty { J.held seat.old ≡ 0 }
    ensures fits { J.fits jobs.now seat.new }
    ensures empty { J.held seat.new ≡ 0 }
    ensures extends { H.log host.new ≡ H.log host.old ++ part H.log host.old host.new }
    ensures answer { ByGraph H.log H.patience J.total J.faults J.taken J.load asking.entry.turns
        host.old host.new seat.old seat.new
        (Graphed (H.listens host.old) asking.entry.path.now (shelf F.reads F.faults files.old)
        (shelf F.reads F.faults files.new) result) }
{
    match run_file(asking, host, files, jobs, seat) {
        Ok(outcome) => conclude(asking.alloc, host, outcome),
        Err(error) => refuse(asking.alloc, host, error),
    }
}

/// Runs the graph of the file that words behind `graph` name.
#[tactic(auto, using(cc_host::proofs::Parts::since_append))]
pub(crate) fn graph_job<W: World, H: Host<W>, J: Jobs, F: Files>(
    invocation: Invocation<'_>,
    host: &mut H,
    files: &mut F,
    jobs: &J,
    seat: &mut J::Seat,
) -> Ended
    requires fits { J.fits jobs.now seat.old }
    requires empty { J.held seat.old ≡ 0 }
    ensures fits { J.fits jobs.now seat.new }
    ensures empty { J.held seat.new ≡ 0 }
    ensures extends { H.log host.new ≡ H.log host.old ++ part H.log host.old host.new }
    ensures answer { ByGraph H.log H.patience J.total J.faults J.taken J.load
        invocation.entry.turns host.old host.new seat.old seat.new
        (AnswersGraph (H.listens host.old) (file_of (map string_bytes invocation.entry.words.now))
        (shelf F.reads F.faults files.old) (shelf F.reads F.faults files.new) result) }
{
    let Invocation {
        alloc,
        words,
        turns,
    } = invocation;
    match file_of(words) {
        Ok(path) => graph_of(Asking { alloc, path, turns }, host, files, jobs, seat),
        Err(bad) => refuse_word(alloc, host, bad),
    }
}
