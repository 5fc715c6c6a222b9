// What loggers hear of a run, beside what its host notes.
use crate::same::{check_log, same};
use crate::setup::{set_all, with_both, with_build};
use crate::verdicts::done;
use cc_build::{Build, ErrorKind};
use cc_db::{
    BuildMessage, BuildMessageKind, BuildMessageLogger, CompileCommandCollector, CompileCommands,
    Extra, Logged, json_compilation_database,
};
use cc_host::{Ask, Bench, BenchHost, Host, Role, Script, Status};
use cc_jobs::OneCaller;
use cc_text::{Bytes, Mem, NoMemory, Text};
use std::alloc::{AllocGlobal, Global};
use std::cell::RefCell;
use std::process::Abort;
use std::sync::Wait;

// A logger that notes what it hears, a line a message.
#[derive(Drop)]
struct Notes<'a> {
    lines: &'a RefCell<Text>,
}

fn kind_word(kind: BuildMessageKind) -> &'static str {
    match kind {
        BuildMessageKind::GeneralWarning => "warning of ",
        BuildMessageKind::StderrForwarding => "line of ",
        BuildMessageKind::CommandFailed { exit_status } => {
            if exit_status == Status::Code(2) {
                "end with 2 of "
            } else {
                "end of "
            }
        }
        BuildMessageKind::CompileCommand => "compile of ",
    }
}

fn subject_of(extra: &Extra) -> &str {
    match extra {
        Extra::Nothing => "nothing",
        Extra::Ran(cmd) => cmd.get_program(),
        Extra::Compiles(cmd) => cmd.file(),
    }
}

fn note(lines: &mut Text, kind: BuildMessageKind, msg: BuildMessage<'_>, extra: &Extra) -> Mem<()> {
    let BuildMessage::Str(text) = msg;
    lines.push_str(kind_word(kind))?;
    lines.push_str(subject_of(extra))?;
    lines.push_str(": ")?;
    lines.push_str(text)?;
    lines.push_str(".\n")
}

impl BuildMessageLogger for Notes<'_> {
    fn log(&self, kind: BuildMessageKind, msg: BuildMessage<'_>, extra: &Extra) -> Mem<()> {
        match self.lines.try_borrow_mut() {
            Ok(mut lines) => note(&mut lines, kind, msg, extra),
            Err(_) => Err(NoMemory),
        }
    }
}

// A logger that is refused memory.
#[derive(Drop)]
struct Refused;

impl BuildMessageLogger for Refused {
    fn log(&self, _kind: BuildMessageKind, _msg: BuildMessage<'_>, _extra: &Extra) -> Mem<()> {
        Err(NoMemory)
    }
}

// How a run of two sources ends, in a word.
fn end_of<H: Host<Bench>>(rt: &impl Wait, build: &Build<Bench>, host: &mut H) -> &'static str {
    let (jobs, mut seat) = OneCaller::new(2);
    match build.try_compile(rt, host, &jobs, &mut seat, 50, "foo") {
        Ok(()) => "built",
        Err(error) => match error.kind() {
            ErrorKind::ToolExecError => "failed",
            ErrorKind::NoMemory => "no memory",
            _ => "refused",
        },
    }
}

fn check_run<H: Host<Bench>>(
    rt: &(impl Wait + AllocGlobal + Abort),
    build: &Build<Bench>,
    host: &mut H,
    end: &str,
    log: &str,
) {
    same(rt, end_of(rt, build, host), end);
    check_log(rt, host, log);
}

// Two sources, which a compiler without default words compiles.
fn set_two(rt: &impl Abort, build: &mut Build<Bench>) {
    set_all(rt, build, "/o", "cc");
    build.no_default_flags(true);
    build.file("src/a.c").expect(rt, "memory");
    build.file("src/b.c").expect(rt, "memory");
}

// The database of the first three commands that are kept, or of as many as there are.
fn database_of(rt: &impl Wait, alloc: Global, commands: &mut CompileCommands) -> Mem<String> {
    let mut list = Vec::new(alloc);
    for _ in 0..3 {
        if let Some(command) = commands.next(rt) {
            list.push(command)?;
        }
    }
    let mut text = String::new(alloc);
    json_compilation_database(list, &mut text)?;
    Ok(text)
}

const BUILT: &str = "makes /o
makes /o
draws
opens /o/0detect_compiler_family.c
asks macros
drops
asks help
is in /w
says \"cc\" \"-Wall\" \"-Wextra\" \"-o\" \"/o/f268e9834a4b7b98-a.o\" \"-c\" \"src/a.c\"
starts cc
says \"cc\" \"-Wall\" \"-Wextra\" \"-o\" \"/o/f268e9834a4b7b98-b.o\" \"-c\" \"src/b.c\"
starts cc
turns
ends
ends
removes nothing at /o/libfoo.a
runs ar
starts ar
turns
ends
prints cargo:rustc-link-lib=static=foo
prints cargo:rustc-link-search=native=/o
";

const HEARD_OF_BUILT: &str = "\
compile of /w/src/a.c: \"cc\" \"-Wall\" \"-Wextra\" \"-o\" \"/o/f268e9834a4b7b98-a.o\" \"-c\" \"src/a.c\".
compile of /w/src/b.c: \"cc\" \"-Wall\" \"-Wextra\" \"-o\" \"/o/f268e9834a4b7b98-b.o\" \"-c\" \"src/b.c\".
";

const DATABASE: &str = "[
  {
    \"directory\": \"/w\",
    \"file\": \"/w/src/a.c\",
    \"arguments\": [\"cc\", \"-Wall\", \"-Wextra\", \"-o\", \"/o/f268e9834a4b7b98-a.o\", \"-c\", \"src/a.c\"],
    \"output\": \"/o/f268e9834a4b7b98-a.o\"
  },
  {
    \"directory\": \"/w\",
    \"file\": \"/w/src/b.c\",
    \"arguments\": [\"cc\", \"-Wall\", \"-Wextra\", \"-o\", \"/o/f268e9834a4b7b98-b.o\", \"-c\", \"src/b.c\"],
    \"output\": \"/o/f268e9834a4b7b98-b.o\"
  }
]
";

fn check_built<L: BuildMessageLogger>(
    rt: &(impl Wait + AllocGlobal + Abort),
    build: &Build<Bench>,
    logger: L,
) {
    let host = BenchHost::new(rt.alloc()).expect(rt, "a host");
    check_run(rt, build, &mut Logged::new(host, logger), "built", BUILT);
}

fn check_database(rt: &(impl Wait + AllocGlobal + Abort), commands: &mut CompileCommands) {
    let text = database_of(rt, rt.alloc(), commands).expect(rt, "memory");
    same(rt, text.as_str(), DATABASE);
}

fn check_collected<R: Wait + AllocGlobal + Abort + Copy + Drop>(
    rt: R,
    build: &mut Build<Bench>,
    lines: &RefCell<Text>,
) {
    set_two(&rt, build);
    let (collector, mut commands) = CompileCommandCollector::new(rt.alloc(), rt).expect(
        &rt, "memory",
    );
    check_built(&rt, build, collector.forward_to(Notes { lines }));
    check_database(&rt, &mut commands);
}

#[test]
fn a_collector_keeps_each_compile_command_of_a_run_and_another_logger_hears_it(rt: HostRuntime) {
    let lines = RefCell::new(Text::new(rt.alloc()));
    with_build(&rt, |build| check_collected(rt, build, &lines));
    same(&rt, lines.into_inner().as_str(), HEARD_OF_BUILT);
}

// A script of two pieces at most.
fn script(alloc: Global, code: i32, first: &str, second: Option<&str>) -> Mem<Script> {
    let mut pieces = Vec::new(alloc);
    pieces.push(Bytes::of(alloc, first.as_bytes())?)?;
    if let Some(second) = second {
        pieces.push(Bytes::of(alloc, second.as_bytes())?)?;
    }
    Ok(Script {
        status: Status::Code(code),
        pieces,
        unread: second.is_none(),
        turns: 1,
        after: None,
    })
}

// On this host nothing shows the family of the compiler, the first source has lines that are cut, and the second fails, with a standard
// error that fails to be read.
fn set_failure(host: &mut BenchHost, alloc: Global) -> Mem<()> {
    host.answer(Ask::Preprocess, "cc", done(alloc, "", "")?)?;
    let cut = script(alloc, 0, "a\r", Some("\n\nb"))?;
    host.script(Role::Compile, "src/a.c", cut)?;
    let failing = script(alloc, 2, "x", None)?;
    host.script(Role::Compile, "src/b.c", failing)
}

const UNHEARD: &str = "makes /o
makes /o
draws
opens /o/0detect_compiler_family.c
asks macros
drops
asks help
starts cc
starts cc
turns
hears
hears
turns
hears
ends
fails to hear
ends
";

const HEARD: &str = "makes /o
knows macros
knows help
says Compiler family detection failed, no known macro is defined
says Compiler family detection failed for \"cc\"
is in /w
says \"cc\" \"-Wall\" \"-Wextra\" \"-o\" \"/o/f268e9834a4b7b98-a.o\" \"-c\" \"src/a.c\"
starts cc
says \"cc\" \"-Wall\" \"-Wextra\" \"-o\" \"/o/f268e9834a4b7b98-b.o\" \"-c\" \"src/b.c\"
starts cc
turns
hears
hears
turns
hears
ends
fails to hear
ends
says a
says \n\
says b
says x
says Failed to read from child stderr
says command did not execute successfully (status code exit status: 2): \
\"cc\" \"-Wall\" \"-Wextra\" \"-o\" \"/o/f268e9834a4b7b98-b.o\" \"-c\" \"src/b.c\"
";

const HEARD_OF_FAILURE: &str = "\
warning of nothing: Compiler family detection failed, no known macro is defined.
warning of nothing: Compiler family detection failed for \"cc\".
compile of /w/src/a.c: \"cc\" \"-Wall\" \"-Wextra\" \"-o\" \"/o/f268e9834a4b7b98-a.o\" \"-c\" \"src/a.c\".
compile of /w/src/b.c: \"cc\" \"-Wall\" \"-Wextra\" \"-o\" \"/o/f268e9834a4b7b98-b.o\" \"-c\" \"src/b.c\".
line of cc: a.
line of cc: .
line of cc: b.
line of cc: x.
warning of nothing: Failed to read from child stderr.
end with 2 of cc: command did not execute successfully (status code exit status: 2): \
\"cc\" \"-Wall\" \"-Wextra\" \"-o\" \"/o/f268e9834a4b7b98-b.o\" \"-c\" \"src/b.c\".
";

fn check_heard(
    rt: &(impl Wait + AllocGlobal + Abort),
    build: &Build<Bench>,
    lines: &RefCell<Text>,
) {
    let mut host = BenchHost::new(rt.alloc()).expect(rt, "a host");
    set_failure(&mut host, rt.alloc()).expect(rt, "memory");
    check_run(
        rt,
        build,
        &mut Logged::new(host, Notes { lines }),
        "failed",
        HEARD,
    );
}

// The run fails on a host that nobody listens to, and then on one with a logger.
fn check_failure(
    rt: &(impl Wait + AllocGlobal + Abort),
    build: &mut Build<Bench>,
    host: &mut BenchHost,
    lines: &RefCell<Text>,
) {
    set_two(rt, build);
    build.cargo_warnings(false);
    set_failure(host, rt.alloc()).expect(rt, "memory");
    check_run(rt, build, host, "failed", UNHEARD);
    check_heard(rt, build, lines);
}

#[test]
fn a_logger_hears_warnings_lines_and_the_failure_also_where_cargo_is_told_none(rt: HostRuntime) {
    let lines = RefCell::new(Text::new(rt.alloc()));
    with_both(&rt, |build, host| check_failure(&rt, build, host, &lines));
    same(&rt, lines.into_inner().as_str(), HEARD_OF_FAILURE);
}

const REFUSED: &str = "makes /o
makes /o
draws
opens /o/0detect_compiler_family.c
asks macros
drops
asks help
is in /w
";

fn check_refused(rt: &(impl Wait + AllocGlobal + Abort), build: &mut Build<Bench>) {
    set_two(rt, build);
    let host = BenchHost::new(rt.alloc()).expect(rt, "a host");
    check_run(
        rt,
        build,
        &mut Logged::new(host, Refused),
        "no memory",
        REFUSED,
    );
}

#[test]
fn a_run_ends_where_a_logger_has_no_memory_for_its_message(rt: HostRuntime) {
    with_build(&rt, |build| check_refused(&rt, build));
}
