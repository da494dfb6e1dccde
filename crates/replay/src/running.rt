// Runs a file line by line, and stops at the first line that breaks the layout.
ghost use Rattle.std.specs.Prelude.{◌≤◌, length};

use crate::reporting::{Stop, Why};
use crate::{changing, showing};
use lists::list::LIST_LENGTH;
use replaying::commands::Word;
use replaying::items::Fault;
use replaying::{commands, items};
use requests::forms::REQUEST_LIMIT;
use std::io;
use std::io::Write;

// A little more than a request may have, so that one that is a byte too long can be replayed. The containers of a replay
// have as much, which is far below their own limit.
const BUFFER_SIZE: usize = REQUEST_LIMIT + 4;

// The longest reply space that a line can name.
const REPLY_SIZE: usize = 8192;

// The most bytes of a node id and of a write enabler: more than both have, so that a wrong length can be replayed.
const KEY_SIZE: usize = 64;

// The highest outcome.
const LAST_OUTCOME: u32 = 16;

// Why a run ends at a line: what the line is about, or that the transcript cannot be written.
#[derive(Drop)]
enum Halt {
    Line(Why),
    Output(io::Error),
}

impl From<Why> for Halt {
    fn from(why: Why) -> Halt {
        Halt::Line(why)
    }
}

impl From<Fault> for Halt {
    fn from(fault: Fault) -> Halt {
        Halt::Line(Why::Layout(fault))
    }
}

impl From<io::Error> for Halt {
    fn from(error: io::Error) -> Halt {
        Halt::Output(error)
    }
}

// Room for N bytes, of which those at the front are in use.
#[derive(Drop)]
struct Buffer<const N: usize> {
    bytes: [u8; N],
    len: usize,
    ghost inside: { len ≤ N },
}

impl<const N: usize> Buffer<N> {
    // So many zeros.
    fn zeros(len: usize) -> Self
        requires { len ≤ N }
    {
        Buffer { bytes: [0; N], len }
    }

    fn is_empty(&self) -> bool {
        self.len == 0
    }

    fn as_slice(&self) -> &[u8] {
        &self.bytes[..self.len]
    }

    fn as_mut_slice(&mut self) -> &mut [u8] {
        let len = self.len;
        let bytes = &mut self.bytes;
        &mut bytes[..len]
    }

    // Keeps the bytes at the front, and puts those that a line names behind them.
    fn put(&mut self, line: &[u8], at: usize, kept: usize) -> Result<(), Fault>
        requires at_in_line { at ≤ length line.now }
        requires kept_in_room { kept ≤ N }
    {
        self.len = items::put_items(line, at, &mut self.bytes, kept)?;
        Ok(())
    }
}

// A container in its buffer, the list beside it, and the outcome of the last answer.
#[derive(Drop)]
struct Slot {
    container: Buffer<BUFFER_SIZE>,
    list: [u8; LIST_LENGTH],
    last: Option<u32>,
}

impl Slot {
    // A container of zeros, and beside it the list of no rows.
    fn zeros(len: usize) -> Slot
        requires { len ≤ BUFFER_SIZE }
    {
        Slot {
            container: Buffer::zeros(len),
            list: [0; LIST_LENGTH],
            last: None,
        }
    }

    // Shows the container, and leaves a line empty.
    fn show<W: Write>(&self, out: &mut W) -> io::Result<()> {
        let container = self.container.as_slice();
        showing::container(out, container, &self.list)?;
        showing::share(out, container)?;
        writeln!(out)
    }

    // The pieces of a reply are those before any write, so they are shown beside the list as it was before.
    fn apply<W: Write>(&mut self, out: &mut W, request: &[u8], reply: &mut [u8]) -> io::Result<()> {
        let before = self.list;
        let size = container::data::data_of(self.container.as_slice()).len();
        let container = self.container.as_mut_slice();
        let answer = listed_slot::requesting::apply(container, &mut self.list, request, reply);
        self.last = Some(answer.number);
        showing::applied(out, request, answer, reply, size, &before)
    }

    // Shows what the request changed too.
    fn watch<W: Write>(&mut self, out: &mut W, request: &[u8], reply: &mut [u8]) -> io::Result<()> {
        let len = self.container.len;
        let mut before = [0; BUFFER_SIZE];
        before[..len].copy_from_slice(&self.container.bytes[..len]);
        self.apply(out, request, reply)?;
        changing::show(out, &before[..len], &self.container.bytes[..len])
    }
}

// What the lines so far have set, and the requests of the file so far.
#[derive(Drop)]
struct Replay {
    slot: Option<Slot>,
    request: Buffer<BUFFER_SIZE>,
    node: Buffer<KEY_SIZE>,
    enabler: Buffer<KEY_SIZE>,
    requests: u64,
}

impl Replay {
    fn new() -> Replay {
        Replay {
            slot: None,
            request: Buffer::zeros(0),
            node: Buffer::zeros(0),
            enabler: Buffer::zeros(0),
            requests: 0,
        }
    }

    // A file has far fewer requests than 2^64, where the count wraps.
    fn count(&mut self) {
        self.requests = self.requests.wrapping_add(1);
    }

    // Shows the container before, if there is one.
    fn close<W: Write>(&self, out: &mut W) -> io::Result<()> {
        match &self.slot {
            Some(slot) => slot.show(out),
            None => Ok(()),
        }
    }

    fn begin<W: Write>(&mut self, out: &mut W, line: &[u8], at: usize) -> Result<(), Halt>
        requires { at ≤ length line.now }
    {
        if !self.request.is_empty() {
            return Err(Halt::Line(Why::Begun));
        }
        let len = commands::only_number(line, at, BUFFER_SIZE as u32)? as usize;
        self.close(out)?;
        self.slot = Some(Slot::zeros(len));
        Ok(())
    }

    // Bytes at the front of the buffer, as another hand might have left them. `list` does the same in the list, which is
    // borrowed from the slot in another way.
    fn load(&mut self, line: &[u8], at: usize) -> Result<(), Halt>
        requires { at ≤ length line.now }
    {
        let Some(slot) = &mut self.slot else {
            return Err(Halt::Line(Why::NoBuffer));
        };
        items::put_items(line, at, slot.container.as_mut_slice(), 0)?;
        Ok(())
    }

    // Bytes at the front of the list, as another hand might have left them.
    fn list(&mut self, line: &[u8], at: usize) -> Result<(), Halt>
        requires { at ≤ length line.now }
    {
        let Some(slot) = &mut self.slot else {
            return Err(Halt::Line(Why::NoBuffer));
        };
        items::put_items(line, at, &mut slot.list, 0)?;
        Ok(())
    }

    fn create<W: Write>(&mut self, out: &mut W, line: &[u8], at: usize) -> Result<(), Halt>
        requires { at ≤ length line.now }
    {
        let Some(slot) = &mut self.slot else {
            return Err(Halt::Line(Why::NoBuffer));
        };
        if !commands::ends(line, at) {
            return Err(Halt::Line(Why::Layout(Fault::More)));
        }
        let container = slot.container.as_mut_slice();
        let answer = creation::create(container, self.node.as_slice(), self.enabler.as_slice());
        slot.last = Some(answer.number);
        self.count();
        showing::created(out, answer)?;
        Ok(())
    }

    // The reply space holds AA at first, so that bytes that nobody wrote can be told.
    fn apply<W: Write>(
        &mut self,
        out: &mut W,
        line: &[u8],
        at: usize,
        watched: bool,
    ) -> Result<(), Halt>
        requires { at ≤ length line.now }
    {
        let Some(slot) = &mut self.slot else {
            return Err(Halt::Line(Why::NoBuffer));
        };
        let room = commands::only_number(line, at, REPLY_SIZE as u32)? as usize;
        let mut space = [0xaa; REPLY_SIZE];
        let reply = &mut space[..room];
        let request = self.request.as_slice();
        if watched {
            slot.watch(out, request, reply)?;
        } else {
            slot.apply(out, request, reply)?;
        }
        self.request.len = 0;
        self.count();
        Ok(())
    }

    fn expect(&self, line: &[u8], at: usize) -> Result<(), Halt>
        requires { at ≤ length line.now }
    {
        let expected = commands::only_number(line, at, LAST_OUTCOME)?;
        let last = self.slot.as_ref().and_then(|slot| slot.last);
        let came = last.ok_or(Why::NoAnswer)?;
        if came != expected {
            return Err(Halt::Line(Why::Answer(expected, came)));
        }
        Ok(())
    }

    fn run_word<W: Write>(
        &mut self,
        out: &mut W,
        word: Word,
        line: &[u8],
        at: usize,
    ) -> Result<(), Halt>
        requires { at ≤ length line.now }
    {
        match word {
            Word::Buffer => self.begin(out, line, at),
            Word::Load => self.load(line, at),
            Word::List => self.list(line, at),
            Word::Node => Ok(self.node.put(line, at, 0)?),
            Word::Enabler => Ok(self.enabler.put(line, at, 0)?),
            Word::Create => self.create(out, line, at),
            Word::Bytes => {
                let kept = self.request.len;
                Ok(self.request.put(line, at, kept)?)
            }
            Word::Apply => self.apply(out, line, at, false),
            Word::Watch => self.apply(out, line, at, true),
            Word::Expect => self.expect(line, at),
            Word::Say => Ok(showing::said(out, &line[at..])?),
        }
    }

    fn run_line<W: Write>(&mut self, out: &mut W, line: &[u8]) -> Result<(), Halt> {
        let Some(command) = commands::command_of(line)? else {
            return Ok(());
        };
        let word = command.word.ok_or(Fault::Word)?;
        self.run_word(out, word, line, command.next)
    }
}

// Runs all lines to the end of the file, or stops with a message; how many requests there were, if it did not stop. The
// last line needs no line feed, and behind it a request must not be left over. Lines are far fewer than 2^64, where
// their count wraps.
pub(crate) fn run_text<W: Write, E: Write>(
    out: &mut W,
    err: &mut E,
    name: &[u8],
    text: &[u8],
) -> io::Result<Option<u64>> {
    let mut replay = Replay::new();
    let mut number: u64 = 0;
    for line in text.split_inclusive(|&byte| byte == b'\n') {
        number = number.wrapping_add(1);
        let line = line.strip_suffix(b"\n").unwrap_or(line);
        match replay.run_line(out, line) {
            Ok(()) => {}
            Err(Halt::Line(why)) => {
                Stop::Line(name, number, why).report(out, err)?;
                return Ok(None);
            }
            Err(Halt::Output(error)) => return Err(error),
        }
    }
    if !replay.request.is_empty() {
        Stop::Line(name, number, Why::LeftOver).report(out, err)?;
        return Ok(None);
    }
    replay.close(out)?;
    Ok(Some(replay.requests))
}
