// How a run ended. What stops it is said on standard error, and again as the transcript's last line, by which a script
// can tell the ends apart: that line begins with a number or with `stopped`, and nothing from a file stands before it.
use crate::printing::Ascii;
use replaying::items::Fault;
use std::io::Write;
use std::{fmt, io};

// Why a run stops at a line.
#[derive(Clone, Copy, Debug, PartialEq, Eq)]
pub(crate) enum Why {
    // The line breaks the layout.
    Layout(Fault),
    NoBuffer,
    // A request was begun and not applied before the next buffer, or before the file's end.
    Begun,
    LeftOver,
    NoAnswer,
    // The number that was expected, and the last answer's.
    Answer(u32, u32),
}

impl fmt::Display for Why {
    fn fmt<W: fmt::Write>(&self, f: &mut fmt::Formatter<W>) -> fmt::Result {
        match self {
            Why::Layout(fault) => write!(f, "{fault}"),
            Why::NoBuffer => write!(f, "there is no buffer yet"),
            Why::Begun => write!(f, "a request was begun and not applied"),
            Why::LeftOver => { write!(f, "the file ends, and a request was begun and not applied") }
            Why::NoAnswer => write!(f, "there is no answer yet"),
            Why::Answer(expected, came) => {
                write!(f, "expected {expected}, but the last answer was {came}")
            }
        }
    }
}

// Why a run stops at a file.
#[derive(Clone, Copy, Debug, PartialEq, Eq)]
pub(crate) enum FileFault {
    TooLong,
    NotRead,
    NotOpened,
}

impl fmt::Display for FileFault {
    fn fmt<W: fmt::Write>(&self, f: &mut fmt::Formatter<W>) -> fmt::Result {
        f.write_str(match self {
            FileFault::TooLong => "the file is longer than 65,535 bytes",
            FileFault::NotRead => "the file cannot be read",
            FileFault::NotOpened => "the file cannot be opened",
        })
    }
}

// Where and why a run stops: at a line of a file, at a whole file, or at an argument that is no name to be shown.
#[derive(Clone, Copy)]
pub(crate) enum Stop<'a> {
    Line(&'a [u8], u64, Why),
    File(&'a [u8], FileFault),
    Argument(usize),
}

impl fmt::Display for Stop<'_> {
    fn fmt<W: fmt::Write>(&self, f: &mut fmt::Formatter<W>) -> fmt::Result {
        match *self {
            Stop::Line(name, line, why) => write!(f, "{}, line {line}: {why}", Ascii(name)),
            Stop::File(name, fault) => write!(f, "{}: {fault}", Ascii(name)),
            Stop::Argument(i) => write!(
                f,
                "argument {i}: the file's name is empty or longer than 4,096 bytes"
            ),
        }
    }
}

impl Stop<'_> {
    // Where standard error takes no message, the verdict is written all the same, and then the run ends with that error.
    pub(crate) fn report<W: Write, E: Write>(self, out: &mut W, err: &mut E) -> io::Result<()> {
        let said = writeln!(err, "{self}");
        writeln!(out, "stopped at {self}")?;
        said
    }
}

pub(crate) fn stop_at_once<W: Write, E: Write>(out: &mut W, err: &mut E) -> io::Result<()> {
    let said = writeln!(err, "usage: replay FILE..");
    writeln!(out, "stopped: no file was named")?;
    said
}

fn plural(n: u64) -> &'static str {
    if n == 1 { "" } else { "s" }
}

pub(crate) fn as_expected<W: Write>(out: &mut W, files: u64, requests: u64) -> io::Result<()> {
    writeln!(
        out,
        "{files} file{}, {requests} request{}: as expected",
        plural(files),
        plural(requests)
    )
}
