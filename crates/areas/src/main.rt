// Reads form lines from standard input and prints what each area is: its count and its keys, or the refusal.
#![tactic(auto)]

ghost use Rattle.std.specs.Prelude.{◌≡◌, suc, ◌<◌, ◌≤◌, IfOk, length, take};
ghost use Rattle.areas.specs.LineSoFar.{KeepsLine};
ghost use Rattle.constants.specs.Limits.{max_line};
ghost use Rattle.form_line.specs.Longest.{longest};

use form_stream::{Feeding, KEPT};
use std::env::FillError;
use std::io::{self, Error, ErrorKind, Read};
use std::rt::{Clock, Env};
use std::thread;
use std::time::Duration;

// How long `pause` waits, in nanoseconds: a millisecond.
const PAUSE: u64 = 1_000_000;
// How many bytes are read at once, and how many are written.
const BUFFER: usize = 65536;

// Which stream failed, and why.
#[derive(Drop)]
enum Failure {
    Input(Error),
    Output(Error),
}

fn main(rt: HostRuntime) {
    if has_arguments(&rt) {
        let _ = rt.eprintln("usage: areas < FORMS");
        return;
    }
    match run(&rt, &mut rt.stdin()) {
        Ok(()) => {}
        Err(Failure::Input(error)) => say(&rt, "areas: standard input", error),
        Err(Failure::Output(error)) => say(&rt, "areas: standard output", error),
    }
}

// Whether anything stands behind the program's name. An argument that does not fit where it is asked for is there all the same.
fn has_arguments(rt: &impl Env) -> bool {
    match rt.arg(1, &mut []) {
        Err(FillError::NotPresent) => false,
        Err(FillError::TooLong) => true,
        Ok(_) => true,
    }
}

fn run<R: Print + Clock>(rt: &R, input: &mut impl Read) -> Result<(), Failure> {
    let mut chunk = [0; BUFFER];
    let mut out = [0; BUFFER];
    let mut line = [0; KEPT];
    let mut feeding = Feeding { at: 0, len: 0 };
    // The input ends long before the turns do.
    for _ in 0..u64::MAX {
        let n = read(rt, input, &mut chunk).map_err(Failure::Input)?;
        if n == 0 {
            break;
        }
        feeding = take_in(rt, &chunk[..n], feeding, &mut line, &mut out).map_err(Failure::Output)?;
    }
    end(rt, &line, feeding, &mut out).map_err(Failure::Output)
}

fn take_in<R: Print + Clock>(
    rt: &R,
    chunk: &[u8],
    feeding: Feeding,
    line: &mut [u8; KEPT],
    out: &mut [u8],
) -> io::Result<Feeding>
    requires { (longest < length out.old) × (length line.old ≡ suc max_line) }
    ensures { (length out.new ≡ length out.old) × (length line.new ≡ suc max_line)
        × KeepsLine chunk.now (take feeding.len line.old) line.new result }
{
    let mut so_far = form_stream::next_chunk(feeding);
    while so_far.at < chunk.len() {
        let fed = form_stream::feed(chunk, so_far, line, out);
        let filled = fed.filled;
        write(rt, &out[..filled])?;
        let next = fed.feeding;
        so_far = next;
    }
    Ok(so_far)
}

fn end<R: Print + Clock>(
    rt: &R,
    line: &[u8; KEPT],
    feeding: Feeding,
    out: &mut [u8],
) -> io::Result<()> {
    match form_stream::finish(line, feeding.len, out) {
        Ok(n) => write(rt, &out[..n]),
        Err(_) => Ok(()),
    }
}

// Reads once, and again where that is to be tried.
fn read(clock: &impl Clock, input: &mut impl Read, chunk: &mut [u8]) -> io::Result<usize>
    ensures { IfOk result (λ n. n ≤ length chunk.new) }
{
    for _ in 0..u64::MAX {
        match input.read(chunk) {
            Ok(n) => return Ok(n),
            Err(error) => again(clock, error)?,
        }
    }
    Ok(0)
}

// Writes all of the bytes.
fn write<R: Print + Clock>(rt: &R, bytes: &[u8]) -> io::Result<()> {
    let mut rest = bytes;
    for _ in 0..u64::MAX {
        if rest.is_empty() {
            return Ok(());
        }
        match rt.write_some(rest) {
            Ok(n) => rest = &rest[n..],
            Err(error) => again(rt, error)?,
        }
    }
    Err(Error::from(ErrorKind::WriteZero))
}

// Hands back the error of a call that failed, unless it is to be tried again: a signal interrupted it, or it would have had to wait, and
// then after a while.
fn again(clock: &impl Clock, error: Error) -> io::Result<()> {
    match error.kind() {
        ErrorKind::WouldBlock => {
            pause(clock);
            Ok(())
        }
        ErrorKind::Interrupted => Ok(()),
        _ => Err(error),
    }
}

// Waits for the time of PAUSE: a call that is tried again at once would keep a processor busy for as long as there is nothing to read, or
// no room to write.
fn pause(clock: &impl Clock) {
    thread::sleep(clock, Duration::from_nanos(PAUSE));
}

// Writes a line to standard error: what failed, a colon and why. Where even that cannot be written, nobody can be told.
fn say<R: Eprint + Alloc>(rt: &R, what: &str, error: Error) {
    let _ = match error.to_string(rt.alloc()) {
        Ok(text) => eprintln!(rt; "{what}: {}", reason(text.as_str())),
        Err(_) => eprintln!(rt; "{what}: {error}"),
    };
}

// The system's text of an error: std puts the error's number behind it.
fn reason(text: &str) -> &str {
    match text.split_once(" (os error ") {
        Some((words, _)) => words,
        None => text,
    }
}
