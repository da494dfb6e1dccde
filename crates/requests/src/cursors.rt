// A cursor over a request, handed on by value: each method takes it and returns the next one beside what it read.
// Nothing else reads a request's bytes.
ghost use Rattle.std.specs.Prelude.{◌≡◌, ◌+◌, ◌≤◌, length};
ghost use Rattle.format.specs.Layout.{record_size};
ghost use Rattle.rules.specs.Requests.{entry_size, test_size};
ghost use Rattle.requests.specs.Cursors.{byte_at, number_in, body_at, body_of, record_at, entry_at, test_at, header_at};
ghost use Rattle.requests.specs.Cursors.{read_header_at, header_size, read_header_size};

use format::layout::RECORD_SIZE;

// An entry of a table: offset 4, length 4.
pub const ENTRY_SIZE: usize = 8;

// A test's entry goes on: opcode 1, a zero byte, specimen length 2.
const PADDING_AT: usize = ENTRY_SIZE + 1;

const SPECIMEN_AT: usize = PADDING_AT + 1;

pub(crate) const TEST_SIZE: usize = SPECIMEN_AT + 2;

// What follows the kind: of a test-and-write up to its enabler, of a read up to its table.
pub(crate) const HEADER_SIZE: usize = 7;

pub(crate) const READ_HEADER_SIZE: usize = 3;

#[derive(Clone, Copy)]
pub struct Cursor {
    pub at: usize,
}

// A value that was read, and the cursor behind it.
#[derive(Clone, Copy)]
pub struct Next<T> {
    pub value: T,
    pub next: Cursor,
}

// A run of bytes: where it begins and ends.
#[derive(Clone, Copy)]
pub struct Body {
    pub from: usize,
    pub to: usize,
    pub next: Cursor,
}

// An entry's offset and length.
#[derive(Clone, Copy)]
pub struct Entry {
    pub offset: i32,
    pub count: usize,
    pub next: Cursor,
}

// A test's entry.
#[derive(Clone, Copy)]
pub struct TestEntry {
    pub entry: Entry,
    pub opcode: u8,
    pub padding: u8,
    pub specimen: usize,
    pub next: Cursor,
}

// What follows the kind of a test-and-write, up to its enabler.
#[derive(Clone, Copy)]
pub(crate) struct Header {
    pub(crate) tests: usize,
    pub(crate) writes: usize,
    pub(crate) flag: usize,
    pub(crate) new: usize,
    pub(crate) next: Cursor,
}

// What follows the kind of a read, up to its table.
#[derive(Clone, Copy)]
pub(crate) struct ReadHeader {
    pub(crate) reads: usize,
    pub(crate) first: u8,
    pub(crate) second: u8,
    pub(crate) next: Cursor,
}

// Where a lease record stands, and of its fields those that an add asks for.
#[derive(Clone, Copy)]
pub struct Record {
    pub owner: u32,
    pub expiry: u32,
    pub renewal: Cursor,
    pub whole: Cursor,
    pub next: Cursor,
}

impl Body {
    pub fn bytes(self, q: &[u8]) -> &[u8]
        requires { (self.from ≤ self.to) × (self.to ≤ length q.now) }
        ensures { result.now ≡ body_of self q.now }
    {
        &q[self.from..self.to]
    }
}

impl Cursor {
    pub fn start() -> Cursor
        ensures { result.at ≡ 0 }
    {
        Cursor { at: 0 }
    }

    pub fn byte(self, q: &[u8]) -> Next<u8>
        requires { self.at + 1 ≤ length q.now }
        ensures { result ≡ byte_at self.at q.now }
    {
        Next {
            value: q[self.at],
            next: Cursor { at: self.at + 1 },
        }
    }

    // An unsigned number of 4 bytes.
    pub(crate) fn number(self, q: &[u8]) -> Next<u32>
        requires { self.at + 4 ≤ length q.now }
        ensures { result ≡ number_in self.at q.now }
    {
        Next {
            value: octets::numbers::u32_at(q, self.at),
            next: Cursor { at: self.at + 4 },
        }
    }

    // The next n bytes.
    pub fn body(self, q: &[u8], n: usize) -> Body
        requires { self.at + n ≤ length q.now }
        ensures { result ≡ body_at self.at n }
    {
        let to = self.at + n;
        Body {
            from: self.at,
            to,
            next: Cursor { at: to },
        }
    }

    // A lease record: owner 4, expiry 4, renewal token, and the fields behind it.
    pub(crate) fn lease(self, q: &[u8]) -> Record
        requires { self.at + record_size ≤ length q.now }
        ensures { result ≡ record_at self.at q.now }
    {
        let owner = self.number(q);
        let expiry = owner.next.number(q);
        let renewal = expiry.next;
        Record {
            owner: owner.value,
            expiry: expiry.value,
            renewal,
            whole: self,
            next: self.body(q, RECORD_SIZE).next,
        }
    }

    // Offset 4, length 4; the next entry stands `stride` bytes after this one.
    pub fn entry(self, q: &[u8], stride: usize) -> Entry
        requires { (entry_size ≤ stride) × (self.at + stride ≤ length q.now) }
        ensures { result ≡ entry_at self.at stride q.now }
    {
        Entry {
            offset: octets::numbers::i32_at(q, self.at),
            count: octets::numbers::u32_at(q, self.at + 4) as usize,
            next: Cursor {
                at: self.at + stride,
            },
        }
    }

    // A test's entry: then opcode 1, a zero byte, specimen length 2.
    pub fn test(self, q: &[u8]) -> TestEntry
        requires { self.at + test_size ≤ length q.now }
        ensures { result ≡ test_at self.at q.now }
    {
        let entry = self.entry(q, TEST_SIZE);
        TestEntry {
            entry,
            opcode: q[self.at + ENTRY_SIZE],
            padding: q[self.at + PADDING_AT],
            specimen: octets::numbers::u16_at(q, self.at + SPECIMEN_AT) as usize,
            next: entry.next,
        }
    }

    // T, V, cut flag, new length 4.
    pub(crate) fn header(self, q: &[u8]) -> Header
        requires { self.at + header_size ≤ length q.now }
        ensures { result ≡ header_at self.at q.now }
    {
        Header {
            tests: q[self.at] as usize,
            writes: q[self.at + 1] as usize,
            flag: q[self.at + 2] as usize,
            new: octets::numbers::u32_at(q, self.at + 3) as usize,
            next: Cursor {
                at: self.at + HEADER_SIZE,
            },
        }
    }

    // R, two bytes.
    pub(crate) fn read_header(self, q: &[u8]) -> ReadHeader
        requires { self.at + read_header_size ≤ length q.now }
        ensures { result ≡ read_header_at self.at q.now }
    {
        ReadHeader {
            reads: q[self.at] as usize,
            first: q[self.at + 1],
            second: q[self.at + 2],
            next: Cursor {
                at: self.at + READ_HEADER_SIZE,
            },
        }
    }
}
