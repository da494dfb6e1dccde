// The form of a whole request: its kind and where its parts stand, or none where its format is broken (outcome 3).
ghost use Rattle.std.specs.Prelude.{◌≡◌, ◌+◌, ◌*◌, ◌≤◌, length};
ghost use Rattle.rules.specs.Requests.{request_limit, entry_limit, entry_size, test_size, entry_ok, cut_ok, by_kind};
ghost use Rattle.rules.specs.Requests.{request_of};
ghost use Rattle.requests.specs.Forms.{tests_passed, writes_passed, parted_as, form_of_read, Takes};

use crate::cursors::{
    Cursor, ENTRY_SIZE, HEADER_SIZE, Header, Next, READ_HEADER_SIZE, Record, TEST_SIZE,
};
use crate::kinds::Kind;
use format::layout::{RECORD_SIZE, SECRET_SIZE};

// The longest request, and the longest table.
pub const REQUEST_LIMIT: usize = 65536;

const ENTRY_LIMIT: usize = 16;

// The opcodes are 1 to 6.
const LAST_OPCODE: u8 = 6;

// Where the tables begin: of a test-and-write, of a read.
const TESTS_AT: usize = 1 + HEADER_SIZE + SECRET_SIZE;

const READS_AT: usize = 1 + READ_HEADER_SIZE;

// A table: its first entry, how many there are, and how far apart they stand.
#[derive(Clone, Copy)]
pub struct Table {
    pub first: Cursor,
    pub count: usize,
    pub stride: usize,
}

// A test-and-write taken apart: specimens and new data stand one after the other from their cursors on, and the cut, if
// there is one, is to a new length. What has a fixed size travels as a cursor alone, here and in `Form`: its reader names
// the size, and so the compiler knows it.
#[derive(Clone, Copy)]
pub struct Parted {
    pub enabler: Cursor,
    pub tests: Table,
    pub writes: Table,
    pub specimens: Cursor,
    pub bodies: Cursor,
    pub cut: Option<usize>,
}

#[derive(Clone, Copy)]
pub enum Form {
    TestWrite(Parted),
    Add(Record),
    Renew(Cursor, u32),
    Cancel(Cursor),
    Read(Table),
}

// An opcode 1 to 6 and a zero byte.
fn entry_ok(opcode: u8, padding: u8) -> bool
    ensures { result ≡ entry_ok opcode padding }
{
    1 <= opcode && opcode <= LAST_OPCODE && padding == 0
}

// The specimens' lengths added up, if every entry of a table of tests is good, and the cursor behind the table.
fn pass_tests(q: &[u8], first: Cursor, n: usize) -> Next<Option<usize>>
    requires { (first.at + test_size * n ≤ length q.now) × (n ≤ entry_limit) }
    ensures { result ≡ tests_passed first.at n q.now }
{
    let mut cursor = first;
    let mut good = true;
    let mut length = 0;
    for _ in 0..n {
        let test = cursor.test(q);
        good &= entry_ok(test.opcode, test.padding);
        length += test.specimen;
        cursor = test.next;
    }
    Next {
        value: good.then_some(length),
        next: cursor,
    }
}

// The new data's lengths added up, and the cursor behind the table of writes.
fn pass_writes(q: &[u8], first: Cursor, n: usize) -> Next<usize>
    requires { (first.at + entry_size * n ≤ length q.now) × (n ≤ entry_limit) }
    ensures { result ≡ writes_passed first.at n q.now }
{
    let mut cursor = first;
    let mut length = 0;
    for _ in 0..n {
        let entry = cursor.entry(q, ENTRY_SIZE);
        length += entry.count;
        cursor = entry.next;
    }
    Next {
        value: length,
        next: cursor,
    }
}

// The cut flag is 0 or 1, and the new length is 0 when it is 0.
fn cut_ok(flag: usize, new: usize) -> bool
    ensures { result ≡ cut_ok flag new }
{
    match flag {
        0 => new == 0,
        1 => true,
        _ => false,
    }
}

// A test-and-write whose parts have been found.
fn found(header: Header, tests: Cursor, writes: Cursor, specimens: Cursor, bodies: Cursor) -> Form
    ensures { result ≡ parted_as header tests writes specimens bodies }
{
    Form::TestWrite(Parted {
        enabler: header.next,
        tests: Table {
            first: tests,
            count: header.tests,
            stride: TEST_SIZE,
        },
        writes: Table {
            first: writes,
            count: header.writes,
            stride: ENTRY_SIZE,
        },
        specimens,
        bodies,
        cut: (header.flag != 0).then_some(header.new),
    })
}

// Kind 1, after its kind.
fn test_write_form(q: &[u8], at: Cursor) -> Option<Form>
    requires { (at.at ≡ 1) × (length q.now ≤ request_limit) }
    ensures { Takes q.now (by_kind 1 q.now) result }
{
    let n = q.len();
    if n < TESTS_AT {
        return None;
    }
    let header = at.header(q);
    let tests = header.tests;
    let writes = header.writes;
    if ENTRY_LIMIT < tests {
        return None;
    }
    if ENTRY_LIMIT < writes {
        return None;
    }
    if !cut_ok(header.flag, header.new) {
        return None;
    }
    if n < TESTS_AT + TEST_SIZE * tests + ENTRY_SIZE * writes {
        return None;
    }
    let first = header.next.body(q, SECRET_SIZE).next;
    let tested = pass_tests(q, first, tests);
    // Before the entries are judged: behind one more test the compiler takes this walk for a rare one.
    let written = pass_writes(q, tested.next, writes);
    let length = tested.value?;
    let specimens = written.next;
    if specimens.at + length + written.value != n {
        return None;
    }
    let bodies = specimens.body(q, length).next;
    Some(found(header, first, tested.next, specimens, bodies))
}

// Kind 5, after its kind.
pub fn read_form(q: &[u8], at: Cursor) -> Option<Table>
    requires { at.at ≡ 1 }
    ensures { Takes q.now (by_kind 5 q.now) (form_of_read result) }
{
    let n = q.len();
    if n < READS_AT {
        return None;
    }
    let header = at.read_header(q);
    let reads = header.reads;
    if ENTRY_LIMIT < reads {
        return None;
    }
    if header.first != 0 {
        return None;
    }
    if header.second != 0 {
        return None;
    }
    if READS_AT + ENTRY_SIZE * reads != n {
        return None;
    }
    Some(Table {
        first: header.next,
        count: reads,
        stride: ENTRY_SIZE,
    })
}

// Kind 2, after its kind: a record with an owner.
fn add_form(q: &[u8], at: Cursor) -> Option<Form>
    requires { at.at ≡ 1 }
    ensures { Takes q.now (by_kind 2 q.now) result }
{
    if q.len() != 1 + RECORD_SIZE {
        return None;
    }
    let lease = at.lease(q);
    if lease.owner == 0 {
        return None;
    }
    Some(Form::Add(lease))
}

// Kind 3, after its kind: a token, then an expiry.
fn renew_form(q: &[u8], at: Cursor) -> Option<Form>
    requires { at.at ≡ 1 }
    ensures { Takes q.now (by_kind 3 q.now) result }
{
    if q.len() != 1 + SECRET_SIZE + 4 {
        return None;
    }
    let token = at.body(q, SECRET_SIZE);
    Some(Form::Renew(at, token.next.number(q).value))
}

// Kind 4, after its kind: a token.
fn cancel_form(q: &[u8], at: Cursor) -> Option<Form>
    requires { at.at ≡ 1 }
    ensures { Takes q.now (by_kind 4 q.now) result }
{
    if q.len() != 1 + SECRET_SIZE {
        return None;
    }
    Some(Form::Cancel(at))
}

// By the first byte. The empty request and an unknown kind are broken.
pub fn form_of(q: &[u8]) -> Option<Form>
    ensures { Takes q.now (request_of q.now) result }
{
    if q.is_empty() {
        return None;
    }
    if REQUEST_LIMIT < q.len() {
        return None;
    }
    let first = Cursor::start().byte(q);
    let at = first.next;
    match Kind::try_from(first.value).ok()? {
        Kind::TestWrite => test_write_form(q, at),
        Kind::Add => add_form(q, at),
        Kind::Renew => renew_form(q, at),
        Kind::Cancel => cancel_form(q, at),
        Kind::Read => Some(Form::Read(read_form(q, at)?)),
    }
}
