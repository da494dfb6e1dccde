// The transcript, on an output.
ghost use Rattle.std.specs.Prelude.{◌+◌, ◌*◌, ◌<◌, ◌≤◌, length};
ghost use Rattle.format.specs.Layout.{record_size, lease_limit, data_at, limit};
ghost use Rattle.format.specs.Judging.{Known};
ghost use Rattle.requests.specs.Forms.{TableIn};

use crate::listing;
use crate::printing::{Ascii, Hex, Pair};
use format::judging::Flaw;
use format::layout::{EXPIRY_AT, FIXED_PLACES, Frame, LEASES_AT, RECORD_SIZE};
use lists::list::LIST_LENGTH;
use replies::pieces::LENGTH_SIZE;
use requests::cursors::Cursor;
use requests::forms::{Form, Table};
use requests::kinds::{Kind, NoKind};
use rules::Answer;
use rules::outcomes::Refusal;
use share_format::parts::Part;
use shares::share::{MDMF, container_part};
use std::io::Write;
use std::{fmt, io};

// Longer data and more extra leases are shortened.
const MOST_BYTES: usize = 128;

const MOST_EXTRAS: usize = 4;

// How many bytes stand in a row.
const ROW: usize = 16;

// A list that names nothing.
const NO_ROWS: [u8; LIST_LENGTH] = [0; LIST_LENGTH];

// The head of a file's transcript.
pub(crate) fn file<W: Write>(out: &mut W, name: &[u8]) -> io::Result<()> {
    writeln!(out, "== {}", Ascii(name))
}

// What a file says stands behind a space, and so is never taken for the verdict.
pub(crate) fn said<W: Write>(out: &mut W, s: &[u8]) -> io::Result<()> {
    writeln!(out, " {}", Ascii(s))
}

// At most 16 bytes that stand in the data from a position on, behind the place of the first among those that are shown;
// `--` where the list names one, and blanks where there is none, so that what follows stands in one column.
fn row<W: Write>(
    out: &mut W,
    at: usize,
    bytes: &[u8],
    list: &[u8; LIST_LENGTH],
    from: usize,
) -> io::Result<()> {
    write!(out, "      {at:>5}  ")?;
    for (i, byte) in bytes.iter().enumerate() {
        if listing::named(list, from.saturating_add(i)) {
            write!(out, "-- ")?;
        } else {
            write!(out, "{} ", Pair::of(*byte))?;
        }
    }
    for _ in bytes.len()..ROW {
        write!(out, "   ")?;
    }
    writeln!(out, " |{}|", Ascii(bytes))
}

// Bytes that stand in the data from a position on, beside the list.
fn bytes<W: Write>(
    out: &mut W,
    bytes: &[u8],
    list: &[u8; LIST_LENGTH],
    from: usize,
) -> io::Result<()> {
    let shown = bytes.len().min(MOST_BYTES);
    let mut at: usize = 0;
    for part in bytes[..shown].chunks(ROW) {
        row(out, at, part, list, from.saturating_add(at))?;
        at = at.saturating_add(ROW);
    }
    if shown < bytes.len() {
        let more = bytes.len() - shown;
        writeln!(out, "             ... and {more} bytes more")?;
    }
    Ok(())
}

// An outcome by its number, which is what the answer has for C, and in words if it has any. Both in one piece, here and in
// what stands before them, since each piece of a format is a write of its own.
#[derive(Clone, Copy)]
struct Outcome(u32);

impl fmt::Display for Outcome {
    fn fmt<W: fmt::Write>(&self, f: &mut fmt::Formatter<W>) -> fmt::Result {
        let number = self.0;
        f.write_str(match number {
            0 => " 0 done",
            1 => " 1 bad buffer length",
            2 => " 2 not well formed",
            3 => " 3 malformed request or argument",
            4 => " 4 offset before the start",
            5 => " 5 wrong write enabler",
            7 => " 7 reply space too short",
            8 => " 8 test is false",
            9 => " 9 no such lease",
            10 => "10 sixty-four leases already",
            11 => "11 no room",
            12 => "12 already a container",
            13 => "13 too many never-written stretches",
            16 => "16 the list is not good",
            _ => return write!(f, "{number}"),
        })
    }
}

// What was done, in sixteen columns, and what it was answered.
fn answer<W: Write>(out: &mut W, what: &str, answer: Answer) -> io::Result<()> {
    let outcome = Outcome(answer.number);
    let count = answer.count;
    write!(out, "{what}{outcome}, count {count}")?;
    if answer.number == Refusal::WrongEnabler.number() {
        let node = answer.node;
        write!(out, ", node {}", Hex(&node))?;
    }
    writeln!(out)
}

pub(crate) fn created<W: Write>(out: &mut W, x: Answer) -> io::Result<()> {
    answer(out, "create          ", x)
}

// What kind of request it is, by its first byte, in sixteen columns.
fn kind(request: &[u8]) -> &'static str {
    if request.is_empty() {
        return "empty request   ";
    }
    match Kind::try_from(Cursor::start().byte(request).value) {
        Ok(Kind::TestWrite) => "test-and-write  ",
        Ok(Kind::Add) => "add a lease     ",
        Ok(Kind::Renew) => "renew a lease   ",
        Ok(Kind::Cancel) => "cancel a lease  ",
        Ok(Kind::Read) => "read            ",
        Err(NoKind) => "unknown kind    ",
    }
}

// The pieces of a reply: a table of their lengths, then the pieces. Each stands in the data where the entry of the
// request's table says, on data of a size.
fn pieces<W: Write>(
    out: &mut W,
    request: &[u8],
    table: Table,
    size: usize,
    reply: &[u8],
    list: &[u8; LIST_LENGTH],
) -> io::Result<()>
    requires { TableIn request.now table }
{
    let count = table.count;
    if reply.len() / LENGTH_SIZE < count {
        return Ok(());
    }
    let mut at = LENGTH_SIZE * count;
    let mut cursor = table.first;
    for i in 0..count {
        let len = octets::numbers::u32_at(reply, LENGTH_SIZE * i) as usize;
        if reply.len() - at < len {
            return Ok(());
        }
        let end = at + len;
        let entry = cursor.entry(request, table.stride);
        let from = requests::offsets::position(entry.offset, size);
        writeln!(out, "    piece {}, length {len}", i + 1)?;
        bytes(out, &reply[at..end], list, from)?;
        cursor = entry.next;
        at = end;
    }
    Ok(())
}

// Test-and-write and read have a reply.
fn reply<W: Write>(
    out: &mut W,
    request: &[u8],
    size: usize,
    reply: &[u8],
    list: &[u8; LIST_LENGTH],
) -> io::Result<()> {
    match requests::forms::form_of(request) {
        Some(Form::TestWrite(parted)) => pieces(out, request, parted.tests, size, reply, list),
        Some(Form::Read(table)) => pieces(out, request, table, size, reply, list),
        _ => Ok(()),
    }
}

// The answer and the reply to a request, beside the size of the data and the list as they were before it.
pub(crate) fn applied<W: Write>(
    out: &mut W,
    request: &[u8],
    x: Answer,
    space: &[u8],
    size: usize,
    list: &[u8; LIST_LENGTH],
) -> io::Result<()> {
    answer(out, kind(request), x)?;
    let count = (x.count as usize).min(space.len());
    match x.number {
        0 | 8 => reply(out, request, size, &space[..count], list),
        _ => Ok(()),
    }
}

// The lease at p, if the place is not empty.
fn lease<W: Write>(out: &mut W, c: &[u8], p: usize, place: &str, i: usize) -> io::Result<()>
    requires { p + record_size ≤ length c.now }
{
    let owner = octets::numbers::u32_at(c, p);
    if owner == 0 {
        return Ok(());
    }
    let expiry = octets::numbers::u32_at(c, p + EXPIRY_AT);
    writeln!(
        out,
        "    lease in {place} {i}: owner {owner}, expiry {expiry}"
    )
}

fn leases<W: Write>(out: &mut W, c: &[u8], from: usize, n: usize, place: &str) -> io::Result<()>
    requires { from + record_size * n ≤ length c.now }
{
    for i in 0..n {
        lease(out, c, from + RECORD_SIZE * i, place, i + 1)?;
    }
    Ok(())
}

// The sizes of a container's parts, in a buffer of n bytes.
fn sizes<W: Write>(out: &mut W, frame: Frame, n: usize) -> io::Result<()>
    requires { (frame.offset ≤ limit) × (data_at + frame.size ≤ frame.offset) × (frame.extras ≤ lease_limit) }
{
    let size = frame.size;
    let slack = frame.offset - frame.data_end();
    let used = frame.used();
    writeln!(
        out,
        "the container   data size {size}, slack {slack}, used {used} of {n} bytes"
    )
}

// The data beside its list. A list that is not good marks no byte.
fn data<W: Write>(out: &mut W, d: &[u8], list: &[u8; LIST_LENGTH]) -> io::Result<()> {
    if lists::list::list_ok(list, d) {
        bytes(out, d, list, 0)?;
        return listing::show(out, list);
    }
    bytes(out, d, &NO_ROWS, 0)?;
    writeln!(out, "    the list is not good")
}

fn parts<W: Write>(out: &mut W, c: &[u8], frame: Frame, list: &[u8; LIST_LENGTH]) -> io::Result<()>
    requires { Known c.now frame }
{
    let extras = frame.extras;
    sizes(out, frame, c.len())?;
    data(out, container::data::data_of(c), list)?;
    leases(out, c, LEASES_AT, FIXED_PLACES, "place")?;
    let shown = extras.min(MOST_EXTRAS);
    leases(out, c, frame.extras_at(), shown, "extra")?;
    if shown < extras {
        let more = extras - shown;
        writeln!(out, "    ... and {more} extra places more")?;
    }
    Ok(())
}

// What a container holds at its end.
pub(crate) fn container<W: Write>(
    out: &mut W,
    c: &[u8],
    list: &[u8; LIST_LENGTH],
) -> io::Result<()> {
    match format::judging::judge(c) {
        Ok(frame) => parts(out, c, frame, list),
        Err(Flaw::BadLength) => writeln!(
            out,
            "the container   none: the buffer's length is not allowed"
        ),
        Err(Flaw::Malformed) => {
            writeln!(out, "the container   none: the buffer is not well formed")
        }
    }
}

fn edition_name(edition: u32) -> &'static str {
    if edition == MDMF { "MDMF" } else { "SDMF" }
}

// The parts of a share by their lengths, in one order for both editions; only MDMF has spare bytes.
fn share_parts<W: Write>(out: &mut W, c: &[u8], edition: u32) -> io::Result<()> {
    write!(out, "    an {} share", edition_name(edition))?;
    let parts = [
        (": key", Part::Key),
        (", signature", Part::Signature),
        (", chain", Part::Chain),
        (", tree", Part::Tree),
        (", share data", Part::ShareData),
        (", private key", Part::PrivateKey),
    ];
    for (name, part) in parts {
        let len = container_part(c, part).len();
        write!(out, "{name} {len}")?;
    }
    if edition == MDMF {
        let spare = container_part(c, Part::Spare).len();
        write!(out, ", spare {spare}")?;
    }
    writeln!(out, " bytes")
}

// The share in a container's data; data too short for a share's header is passed over. Outcome 22 is of neither
// edition.
pub(crate) fn share<W: Write>(out: &mut W, c: &[u8]) -> io::Result<()> {
    let checked = shares::share::check_container(c);
    let edition = edition_name(checked.edition);
    match checked.number {
        0 => share_parts(out, c, checked.edition),
        1..=21 => Ok(()),
        22 => writeln!(out, "    no share: outcome 22"),
        number => writeln!(out, "    no {edition} share: outcome {number}"),
    }
}
