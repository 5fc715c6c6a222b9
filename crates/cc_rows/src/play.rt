// A row played on a host of its own.
ghost use Rattle.std.specs.Prelude.{◌≡◌};

use crate::compare::{Compared, Difference, compare_end, compare_lines};
use cc_command::{Ended, drive_files};
use cc_host::{BenchHost, Event, Host, MemoryFiles};
use cc_jobs::{Jobs, OneCaller, SharedPool};
use cc_row::{Pool, Row, files_of, healed_files_of, healed_host_of, host_of, left_over, log_lines};
use cc_text::Mem;
use std::alloc::Global;
use std::sync::Wait;

/// How a run ended, and how many tokens its seat holds after it.
#[derive(Drop)]
struct Found {
    ended: Ended,
    held: u64,
}

// What the call of a row works on.
#[derive(Drop)]
struct Scene<'a> {
    row: &'a Row,
    host: &'a mut BenchHost,
    files: &'a mut MemoryFiles,
}

// The one call of `drive_files`.
fn call<J: Jobs>(
    rt: &impl Wait,
    alloc: Global,
    scene: Scene<'_>,
    jobs: &J,
    seat: &mut J::Seat,
) -> Found
    requires fits { J.fits jobs.now seat.old }
    requires empty { J.held seat.old ≡ 0 }
{
    let Scene { row, host, files } = scene;
    let turns = row.knobs.pool.turns;
    let ended = drive_files(rt, alloc, &row.words, turns, host, files, jobs, seat);
    let held = jobs.held(seat);
    Found { ended, held }
}

// Has a seat take so many tokens, or as many as it gets.
fn hold<J: Jobs>(jobs: &J, seat: &mut J::Seat, count: u32)
    requires { J.fits jobs.now seat.old }
    ensures { J.fits jobs.now seat.new }
{
    for _ in 0..count {
        if jobs.held(seat) < u64::MAX {
            let _ = jobs.take(seat);
        }
    }
}

// A call on a pool that it shares with a seat which holds tokens.
fn run_shared(rt: &impl Wait, alloc: Global, scene: Scene<'_>, pool: Pool) -> Mem<Found> {
    let (jobs, mut seat) = SharedPool::new(alloc, pool.tokens.max(1))?;
    let mut other = jobs.split(&mut seat);
    hold(&jobs, &mut other, pool.held);
    Ok(call(rt, alloc, scene, &jobs, &mut seat))
}

// A call on the pool that its row asks for, which has at least one token, and `max` says so.
fn run(rt: &impl Wait, alloc: Global, scene: Scene<'_>) -> Mem<Found> {
    let pool = scene.row.knobs.pool;
    if pool.held > 0 {
        return run_shared(rt, alloc, scene, pool);
    }
    let (jobs, mut seat) = OneCaller::new(pool.tokens.max(1));
    Ok(call(rt, alloc, scene, &jobs, &mut seat))
}

// Compares what no row has to ask for: that nothing is held, runs, stands or is unused.
fn compare_rest(alloc: Global, to: &mut Compared, row: &Row, held: u64, log: &[Event]) -> Mem<()> {
    if held != 0 {
        let found = format!(in alloc; "{held} tokens held")?;
        to.differ("no token held", found.as_str())?;
    }
    match left_over(alloc, &row.knobs, log)?.first() {
        Some(left) => to.differ("nothing left over", left.as_str()),
        None => Ok(()),
    }
}

fn compare(alloc: Global, to: &mut Compared, row: &Row, found: &Found, log: &[Event]) -> Mem<()> {
    let lines = log_lines(alloc, &row.knobs.around.vars, log)?;
    compare_lines(alloc, to, &row.expected.log, &lines)?;
    compare_end(alloc, to, &row.expected, &found.ended)?;
    compare_rest(alloc, to, row, found.held, log)
}

// Compares the status of the same run on a host at which no call fails.
fn compare_healed(
    rt: &impl Wait,
    alloc: Global,
    to: &mut Compared,
    row: &Row,
    status: u8,
) -> Mem<()> {
    let mut host = healed_host_of(alloc, &row.knobs)?;
    let mut files = healed_files_of(alloc, &row.knobs)?;
    let scene = Scene {
        row,
        host: &mut host,
        files: &mut files,
    };
    let found = run(rt, alloc, scene)?;
    let healed = found.ended.status;
    if healed != status {
        let wanted = format!(in alloc; "status {status} where no call fails")?;
        let given = format!(in alloc; "status {healed}")?;
        to.differ(wanted.as_str(), given.as_str())?;
    }
    Ok(())
}

/// Plays the row. `None` says that all is as expected.
pub fn play(rt: &impl Wait, alloc: Global, row: &Row) -> Mem<Option<Difference>> {
    let mut host = host_of(alloc, &row.knobs)?;
    let mut files = files_of(alloc, &row.knobs)?;
    let scene = Scene {
        row,
        host: &mut host,
        files: &mut files,
    };
    let found = run(rt, alloc, scene)?;
    let mut to = Compared::new(alloc);
    compare(alloc, &mut to, row, &found, host.log())?;
    if let Some(status) = row.expected.healed {
        compare_healed(rt, alloc, &mut to, row, status)?;
    }
    Ok(to.first)
}
