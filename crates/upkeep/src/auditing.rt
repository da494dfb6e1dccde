// The audit over the container's bytes: what it answers to a table of so many rows, and the rows one by one.
ghost use Rattle.std.specs.Prelude.{◌≡◌, true, ◌∷◌, ◌+◌, ◌≤◌, ◌<◌, length, take, drop};
ghost use Rattle.format.specs.Container.{well_formed};
ghost use Rattle.format.specs.Judging.{Known};
ghost use Rattle.format.specs.Layout.{leases_of, record_size};
ghost use Rattle.rules.specs.Leasing.{present};
ghost use Rattle.rules.specs.Refusals.{answer_from};
ghost use Rattle.upkeep_rules.specs.Auditing.{row_of, rows_of, audit_answer};

use format::layout::{CANCEL_AT, EXPIRY_AT, Frame, LEASE_NODE_AT, OFFSET_AT, RENEWAL_AT, SIZE_AT};
use leases::places::{Places, is_held};
use octets::moves::array_at;
use octets::numbers::{u32_at, u64_at};
use rules::Answer;
use rules::outcomes::Refusal;
use upkeep_rules::LeaseRow;

// A lease's row, and the place behind it, from which the next lease is looked for.
#[derive(Clone, Copy)]
pub struct Leased {
    pub row: LeaseRow,
    pub next: usize,
}

// The row of the record that begins at p.
fn row_at(c: &[u8], p: usize) -> LeaseRow
    requires { p + record_size ≤ length c.now }
    ensures { result ≡ row_of (take record_size (drop p c.now)) }
{
    LeaseRow {
        owner: u32_at(c, p),
        expiry: u32_at(c, p + EXPIRY_AT),
        renewal: array_at(c, p + RENEWAL_AT),
        cancel: array_at(c, p + CANCEL_AT),
        node: array_at(c, p + LEASE_NODE_AT),
    }
}

// The frame of a well-formed container, from its fields alone.
fn frame_of(c: &[u8]) -> Frame
    requires { well_formed c.now ≡ true }
    ensures { Known c.now result }
{
    let offset = u64_at(c, OFFSET_AT) as usize;
    Frame {
        size: u64_at(c, SIZE_AT) as usize,
        offset,
        extras: u32_at(c, offset) as usize,
    }
}

// The first lease at place i or behind it.
pub fn next_lease(c: &[u8], i: usize) -> Leased
    requires { (well_formed c.now ≡ true) × (0 < present (drop i (leases_of c.now))) }
    ensures { rows_of (drop i (leases_of c.now)) ≡ result.row ∷ rows_of (drop result.next (leases_of c.now)) }
{
    let frame = frame_of(c);
    let mut at = i;
    // No number bounds the walk: it ends because a lease is left.
    while !is_held(c, frame.place_at(at)) {
        at += 1;
    }
    Leased {
        row: row_at(c, frame.place_at(at)),
        next: at + 1,
    }
}

// How many rows of a table of so many the audit fills, or why none.
fn rows_due(c: &[u8], room: usize) -> Result<usize, Refusal>
    ensures { answer_from result ≡ audit_answer c.now room }
{
    let frame = format::judging::judge(c)?;
    let count = Places { c, frame }.count();
    if room < count {
        return Err(Refusal::ShortReply);
    }
    Ok(count)
}

// What the audit answers to a table of so many rows. The count is how many of them it fills.
pub fn audit_answer(c: &[u8], room: usize) -> Answer
    ensures { result ≡ audit_answer c.now room }
{
    rows_due(c, room).into()
}
