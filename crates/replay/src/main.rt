// Replays files of requests, one container after the other, and prints what each request was answered. docs/REPLAY.md
// has the layout of a file, and what is printed where.
#![tactic(auto)]

mod changing;
mod listing;
mod printing;
mod reporting;
mod running;
mod showing;

ghost use Rattle.std.specs.Prelude.{◌≤◌};
ghost use Rattle.std.specs.Counts.{IsPrefixLen};

use reporting::{FileFault, Stop};
use std::env::{Env, FillError};
use std::fs::{File, Files};
use std::io;
use std::io::{Read, Write};

// The longest file, and a byte more by which a longer one is told.
const FILE_ROOM: usize = 65536;

const NAME_ROOM: usize = 4096;

// Reads until the buffer is full, the input ends or a read fails, and answers how many bytes that were.
fn read_full<R: Read>(file: &mut R, buf: &mut [u8]) -> usize
    ensures { IsPrefixLen result buf.new }
{
    let mut done = 0;
    // A turn for each read, and a read may give any number of bytes.
    while done < buf.len() {
        match file.read(&mut buf[done..]) {
            Ok(n) if n > 0 => done += n,
            _ => break,
        }
    }
    done
}

// `read_full` stops at a read that fails as it does at the end; one read more tells which it was.
fn at_end<R: Read>(file: &mut R) -> bool {
    matches!(file.read(&mut [0; 1]), Ok(0))
}

// How many requests the file had; none where the run has stopped, with its message. A file that fills the buffer may be
// longer, so it is refused.
fn run_open<R: Read, W: Write, E: Write>(
    out: &mut W,
    err: &mut E,
    name: &[u8],
    file: &mut R,
) -> io::Result<Option<u64>> {
    let mut text = [0; FILE_ROOM];
    let n = read_full(file, &mut text);
    if n == text.len() {
        Stop::File(name, FileFault::TooLong).report(out, err)?;
        return Ok(None);
    }
    if !at_end(file) {
        Stop::File(name, FileFault::NotRead).report(out, err)?;
        return Ok(None);
    }
    running::run_text(out, err, name, &text[..n])
}

// A file is opened by a name in UTF-8 alone.
fn open<S: Files>(rt: &S, name: &[u8]) -> Option<S::File> {
    let path = str::from_utf8(name).ok()?;
    File::open(rt, path).ok()
}

fn run_named<S: Files, W: Write, E: Write>(
    rt: &S,
    out: &mut W,
    err: &mut E,
    name: &[u8],
) -> io::Result<Option<u64>> {
    let Some(mut file) = open(rt, name) else {
        Stop::File(name, FileFault::NotOpened).report(out, err)?;
        return Ok(None);
    };
    showing::file(out, name)?;
    run_open(out, err, name, &mut file)
}

fn run_argument<S: Env + Files, W: Write, E: Write>(
    rt: &S,
    out: &mut W,
    err: &mut E,
    i: usize,
) -> io::Result<Option<u64>> {
    let mut name = [0; NAME_ROOM];
    match rt.arg(i, &mut name) {
        Ok(n) if n > 0 => run_named(rt, out, err, &name[..n]),
        _ => {
            Stop::Argument(i).report(out, err)?;
            Ok(None)
        }
    }
}

// All arguments but the first of n, which is the program's name. The count of requests wraps at 2^64, which no run
// reaches.
fn run_arguments<S: Env + Files, W: Write, E: Write>(
    rt: &S,
    out: &mut W,
    err: &mut E,
    n: usize,
) -> io::Result<()>
    requires { 1 ≤ n }
{
    let mut requests = 0u64;
    for i in 1..n {
        let Some(more) = run_argument(rt, out, err, i)? else {
            return Ok(());
        };
        requests = requests.wrapping_add(more);
    }
    reporting::as_expected(out, (n - 1) as u64, requests)
}

// How many arguments there are, with the program's name; a buffer of no byte tells whether there is one.
fn arg_count<S: Env>(rt: &S) -> usize {
    for n in 0..usize::MAX {
        if matches!(rt.arg(n, &mut []), Err(FillError::NotPresent)) {
            return n;
        }
    }
    usize::MAX
}

fn main(rt: HostRuntime) -> io::Result<()> {
    let mut out = rt.stdout();
    let mut err = rt.stderr();
    let n = arg_count(&rt);
    if n < 2 {
        return reporting::stop_at_once(&mut out, &mut err);
    }
    run_arguments(&rt, &mut out, &mut err, n)
}
