//! The browser's program: its words name the command, standard input gives the input and standard output takes the
//! output. A status other than Ran has a line on standard error. Nobody is told what the workers of `run` do.
#![tactic(auto)]

ghost use Rattle.std.specs.Prelude.{◌≡◌, ◌↔◌};
ghost use Rattle.std.specs.IoError.{error_kind};

use browser_cli::{NoGate, Status, browse, status_line};
use browser_io::{InputSource, OutputSink};
use std::alloc::Global;
use std::io::ErrorKind;
use std::process::ExitCode;
use std::rt::Env;
use std::sync::Wait;
use std::thread::Threads;
use std::{env, io};

/// The status where the words can't be had: memory ran out, or one of them isn't UTF-8.
fn status_without_words(error: io::Error) -> Status
    ensures memory { (result ≡ Status.NoMemory) ↔ (error_kind error ≡ ErrorKind.OutOfMemory) }
    ensures usage { (result ≡ Status.Usage) ↔ ¬ (error_kind error ≡ ErrorKind.OutOfMemory) }
{
    match error.kind() {
        ErrorKind::OutOfMemory => Status::NoMemory,
        _ => Status::Usage,
    }
}

fn run<R: Alloc<A = Global> + Env + Input + Print + Threads + Wait + Sync>(
    rt: &R,
) -> io::Result<Status> {
    let alloc = rt.alloc();
    let arguments: Vec<String> = env::args(rt)?.collect(alloc)?;
    let mut words = Vec::new(alloc);
    for argument in arguments.iter().skip(1) {
        words.push(argument.as_str())?;
    }
    let mut source = InputSource::new(rt.reader());
    let mut sink = OutputSink::new(io::writer(rt));
    Ok(browse(rt, alloc, words.as_slice(), &mut source, &mut sink, &NoGate))
}

fn print_line(rt: &impl Eprint, line: &str) {
    if !line.is_empty() {
        let _ = eprintln!(rt; "{line}");
    }
}

/// Prints the line of a status. That of NoMemory needs no memory.
fn tell(rt: &(impl Alloc<A = Global> + Eprint), status: &Status) {
    match status_line(rt.alloc(), status) {
        Ok(line) => print_line(rt, line.as_str()),
        Err(error) if matches!(status, Status::NoMemory) => {
            let _ = eprintln!(rt; "{error}");
        }
        Err(_) => {}
    }
}

fn main(rt: HostRuntime) -> ExitCode {
    let status = run(&rt).unwrap_or_else(status_without_words);
    tell(&rt, &status);
    ExitCode::from(status.exit_code())
}
