//! The command: its words ask for a compile run, an archive alone, a large run from a number, an expanded source, the
//! tools of a build, a graph of commands, or a fleet of libraries, which it drives on the machine. Standard output
//! bears the lines that Cargo reads from a build script (The Cargo Book, "Build Scripts"), those that sum a large run
//! up, show the tools or tell what became of a graph, or the expanded source; `HELP` lists the words and the statuses.
//!
//! Stands on `cc_command`, whose `drive_files` reads the words and runs what they ask for: that call carries the
//! theorem of the repository. Here is what knows the process: its words, the host that runs processes, the files of the
//! machine, and a pool of the size that its variables ask for.
#![tactic(auto)]

ghost use Rattle.std.specs.Prelude.{◌≡◌, ◌≤◌, IfOk};
ghost use Rattle.cc_host.specs.Call.{part};
ghost use Rattle.cc_env.specs.Snapshot.{snapshot_of};
ghost use Rattle.cc_jobs.specs.Size.{pool_size as size_for};
ghost use Rattle.cc_command.specs.Answer.{heard};

use cc_command::drive_files;
use cc_env::EnvSnapshot;
use cc_host::{Files, Host, HostError, World};
use cc_hosts::{ProcessHost, RealFiles, StandIns};
use cc_jobs::{SharedPool, pool_size};
use cc_text::{Mem, NoMemory, Vars};
use std::alloc::Global;
use std::process::ExitCode;
use std::sync::Wait;
use std::{env, io, mem};

static HELP: &str = "\
Compiles C, C++ and assembly into a static library, and prints how Cargo links it.

usage: cc_main compile NAME key=value ...
       cc_main archive NAME key=value ...
       cc_main generate N
       cc_main expand key=value ...
       cc_main show key=value ...
       cc_main graph FILE
       cc_main fleet -- NAME key=value ... -- NAME key=value ...

commands:
  compile NAME   compile the sources, and archive them into lib<NAME>.a
  archive NAME   archive the added objects alone into lib<NAME>.a
  generate N     compile N generated sources, from 1 to 10000, on a host in memory, and sum up what that took
  expand         print what the compiler's preprocessor makes of the one source
  show           print the compiler's family, and the commands of compiler, archiver and ranlib with the words that come first
  graph FILE     run the commands of a JSON file, each once the commands that it needs ended with 0, beside each other as
                 tokens are free, and print for each its place and its status, or that it was skipped: an array of objects
                 with the program and its words under `command`, and the places that it needs under `needs`
  fleet -- ..    build several libraries under one pool: behind each `--` stands what follows `compile`, without a database;
                 one whose source or archive fails has a line of its own, and the others are built all the same

keys that may stand again, each adding one:
  file=PATH              a source
  object=PATH            an object that the library gets behind those of the sources
  include=DIR            a folder of headers
  define=K, define=K=V   a macro
  flag=WORD              a flag of the compiler
  flag_if_supported=WORD a flag that is left out where the compiler doesn't take it
  remove_flag=WORD       takes out every earlier flag that is this word
  asm_flag=WORD          a flag of sources in assembly
  ar_flag=WORD           a flag of the archiver
  link_lib_modifier=WORD a modifier of the link line, as +whole-archive
  env=K=V                a variable of the commands
  remap_source_path=FROM=TO   paths that begin with FROM are told as beginning with TO

keys of which the last counts:
  target=NAME, host=NAME   as rustc names them, else TARGET and HOST; a target is one of the
                           table of 36, else the one that Cargo builds for and describes
  out_dir=PATH             the folder of the objects and of the library, else OUT_DIR
  opt_level=NUMBER, opt_level_str=LEVEL   the optimisation level, else OPT_LEVEL
  debug=true, debug=false, debug_str=LEVEL   debug information, else DEBUG
  compiler=PROGRAM         the compiler, else cc or c++
  archiver=PROGRAM         the archiver, else AR, else by the target
  ranlib=PROGRAM           the tool that writes the index of an archive alone, else RANLIB
  source_root=DIR          the folder that folders of sources count from in the names of objects
  std=NAME                 the standard of the language
  cpp_set_stdlib=NAME      the C++ library that the compiler is told of, and that Cargo links
  cpp_link_stdlib=NAME     the C++ library that Cargo links alone; none where NAME is empty
  database=PATH            the compilation database that compile writes last, one entry for each source

keys of true or false:
  cpp  cpp_link_stdlib_static  pic  use_plt  static_crt  static_flag  shared_flag
  warnings  extra_warnings  warnings_into_errors
  no_default_flags  reproducible_codeview  shell_escaped_flags  cargo_metadata  cargo_warnings  cargo_output
  cargo_debug  prefer_clang_cl_over_msvc  force_frame_pointer  inherit_rustflags  inherit_trim_paths
  emit_rerun_if_env_changed   whether Cargo is told of the variables that were read: where one changes, it runs the script again
  stop_on_failure             whether no further source is compiled once one failed; those that are being compiled are waited for

options:
  --help      print this text
  --version   print the version

statuses: 0 done, 1 refused by the build, 2 words refused, 3 out of memory
";

static VERSION: &str = "cc_main 0.1.0, a port of cc 1.11.1\n";

// The words behind the program's own name.
fn words_of(rt: &HostRuntime) -> io::Result<Vec<String>> {
    let mut words = Vec::new(rt.alloc());
    let mut first = true;
    for word in env::args(rt)? {
        if !first {
            words.push(word)?;
        }
        first = false;
    }
    Ok(words)
}

// How many commands may run beside each other: what the host's variables ask for. Where the host can't list them, there
// are none.
#[tactic(auto, using(cc_host::proofs::Parts::since_append))]
fn tokens<W: World, H: Host<W>>(alloc: Global, host: &mut H) -> Mem<u32>
    ensures some { IfOk result (λ total. 1 ≤ total) }
    ensures size { IfOk result (λ total. total
        ≡ size_for (snapshot_of (heard (part H.log host.old host.new)))) }
{
    let vars = match host.vars() {
        Ok(vars) => vars,
        Err(HostError::Fault(_, _)) => Vars::new(alloc),
        Err(HostError::NoMemory) => return Err(NoMemory),
    };
    Ok(pool_size(&EnvSnapshot::from_vars(alloc, &vars)?))
}

// Runs what the words ask for on a host, and answers the status.
fn run<W: World, H: Host<W>, F: Files>(
    rt: &impl Wait,
    alloc: Global,
    host: &mut H,
    files: &mut F,
    words: &[String],
) -> Mem<u8> {
    let total = tokens(alloc, host)?;
    let (jobs, mut seat) = SharedPool::new(alloc, total)?;
    let ended = drive_files(rt, alloc, words, u64::MAX, host, files, &jobs, &mut seat);
    let status = ended.status;
    // The process ends right behind this, and with it goes what the host of a large run has noted.
    mem::forget(ended);
    Ok(status)
}

// What the program answers on standard output where its first word asks for that.
fn answer_to(words: &[String]) -> Option<&'static str> {
    match words.first()?.as_str() {
        "--help" => Some(HELP),
        "--version" => Some(VERSION),
        _ => None,
    }
}

// Prints a text, and tells it on standard error where that can't be.
fn print_text(rt: &HostRuntime, text: &str) -> ExitCode {
    match print!(rt; "{text}") {
        Ok(()) => ExitCode::from(0),
        Err(error) => {
            let _ = eprintln!(rt; "print failed: {error}");
            ExitCode::from(1)
        }
    }
}

fn main(rt: HostRuntime) -> ExitCode {
    let stand_ins = StandIns::open(&rt);
    let words = match words_of(&rt) {
        Ok(words) => words,
        Err(error) if error.kind() == io::ErrorKind::InvalidData => {
            let _ = eprintln!(rt; "a word is not UTF-8");
            return ExitCode::from(2);
        }
        Err(_) => return ExitCode::from(3),
    };
    if let Some(text) = answer_to(&words) {
        return print_text(&rt, text);
    }
    let Ok(mut host) = ProcessHost::new(rt) else {
        return ExitCode::from(3);
    };
    host.lacks(stand_ins.closed());
    let Ok(mut files) = RealFiles::new(rt) else {
        return ExitCode::from(3);
    };
    match run(&rt, rt.alloc(), &mut host, &mut files, &words) {
        Ok(status) => ExitCode::from(status),
        Err(NoMemory) => ExitCode::from(3),
    }
}
