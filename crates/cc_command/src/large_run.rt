// A large run from a number.
ghost use Rattle.std.specs.Prelude.{◌≡◌, ◌++◌, [], ◌∷◌, Some, IfOk, OnOk, MatchResult, IsErr, Ok, codes};
ghost use Rattle.cc_build.specs.Build.{Sets, fresh_build};
ghost use Rattle.cc_command.specs.Generated.{gen_source as source_of, gen_sources, gen_build, gen_target, PlainRun, GeneratedRun};

use cc_build::{Build, Error};
use cc_host::{Bench, BenchHost};
use cc_hosts::PlainHost;
use cc_jobs::OneCaller;
use cc_text::{Mem, NoMemory, Text};
use std::alloc::Global;
use std::sync::Wait;

/// What a large run from a number came to: the host that it ran on, with its log, and how it ended.
#[derive(Drop)]
pub struct Generated {
    /// The host in memory, on which nothing was set.
    pub bench: BenchHost,
    /// How the compile run ended.
    pub result: Result<(), Error>,
}

// The path of a source.
fn source(alloc: Global, place: u32) -> Mem<Text>
    ensures { IfOk result (λ path. path ≡ source_of place) }
{
    let digits = format!(in alloc; "{place}")?;
    let mut path = Text::of(alloc, "src/f")?;
    path.push_str(digits.as_str())?;
    path.push_str(".c")?;
    Ok(path)
}

// A setter's answer, of which want of memory is the one refusal.
fn set(answer: Result<(), Error>) -> Mem<()>
    ensures { MatchResult answer (λ _. result ≡ Ok tt) (λ _. IsErr result) }
{
    match answer {
        Ok(()) => Ok(()),
        Err(_) => Err(NoMemory),
    }
}

fn add_source(alloc: Global, build: &mut Build<Bench>, place: u32) -> Mem<()>
    ensures { OnOk result (Sets build.old build.new
        (λ c. record c { files = c.files ++ source_of place ∷ [] })) }
{
    let path = source(alloc, place)?;
    set(build.file(path.as_str()))
}

fn add_sources(alloc: Global, build: &mut Build<Bench>, count: u32) -> Mem<()>
    ensures { OnOk result (Sets build.old build.new
        (λ c. record c { files = c.files ++ gen_sources count })) }
{
    for place in 0..count {
        add_source(alloc, build, place)?;
    }
    Ok(())
}

fn set_places(build: &mut Build<Bench>) -> Mem<()>
    ensures { OnOk result (Sets build.old build.new (λ c. record c {
      out_dir = Some (codes "/gen");
      target = Some gen_target;
      host = Some gen_target;
    })) }
{
    set(build.out_dir("/gen"))?;
    set(build.target("x86_64-unknown-linux-gnu"))?;
    set(build.host("x86_64-unknown-linux-gnu"))?;
    Ok(())
}

fn set_tools(build: &mut Build<Bench>) -> Mem<()>
    ensures { OnOk result (Sets build.old build.new (λ c. record c {
      opt_level = Some (codes "0");
      compiler = Some (codes "cc");
      archiver = Some (codes "ar");
    })) }
{
    set(build.opt_level_str("0"))?;
    set(build.compiler("cc"))?;
    set(build.archiver("ar"))?;
    Ok(())
}

// Makes a fresh build that of so many sources.
fn fill(alloc: Global, build: &mut Build<Bench>, count: u32) -> Mem<()>
    requires { build.old ≡ fresh_build }
    ensures { OnOk result (build.new ≡ gen_build count) }
{
    build.repeat_lines(true);
    set_places(build)?;
    set_tools(build)?;
    add_sources(alloc, build, count)
}

// Runs a build over a host on which nothing is set, with four tokens.
fn run_plain(rt: &impl Wait, alloc: Global, build: &Build<Bench>, turns: u64) -> Mem<Generated>
    ensures ran { IfOk result (λ g. PlainRun build.now turns g.bench.log g.result) }
{
    let mut host = PlainHost::new(alloc)?;
    let (jobs, mut seat) = OneCaller::new(4);
    let result = build.try_compile(rt, &mut host, &jobs, &mut seat, turns, "gen");
    Ok(Generated {
        bench: host.into_bench(),
        result,
    })
}

// Makes a fresh build that of so many sources, and runs it.
fn fill_and_run(
    rt: &impl Wait,
    alloc: Global,
    build: &mut Build<Bench>,
    count: u32,
    turns: u64,
) -> Mem<Generated>
    requires { build.old ≡ fresh_build }
    ensures ran { IfOk result (λ g. GeneratedRun count turns g.bench.log g.result) }
{
    fill(alloc, build, count)?;
    let generated = run_plain(rt, alloc, build, turns)?;
    Ok(generated)
}

/// Compiles so many generated sources (`src/f0.c` and so on) into the library `gen`, on a host in memory of its own and
/// with four tokens: no file is read or written, and no process started. At most `turns` turns are made; two for each
/// source and two more are enough.
///
/// Answers the host with its log, and how the run ended. With turns enough it is done, unless memory was wanted. The
/// call itself is refused where memory is wanted before the run.
pub fn generate(rt: &impl Wait, alloc: Global, count: u32, turns: u64) -> Mem<Generated>
    ensures ran { IfOk result (λ g. GeneratedRun count turns g.bench.log g.result) }
{
    match Build::<Bench>::new(alloc) {
        Ok(mut build) => fill_and_run(rt, alloc, &mut build, count, turns),
        Err(_) => Err(NoMemory),
    }
}
