// Well-formedness, judged in one pass over the buffer.
ghost use Rattle.std.specs.Prelude.{◌≡◌, true, ◌+◌, ◌-◌, ◌*◌, ◌≤◌, length, take, drop};
ghost use Rattle.octets.specs.Strings.{all_zero, same};
ghost use Rattle.octets.specs.Lists.{every};
ghost use Rattle.format.specs.Layout.{magic, node_at, record_size, limit, records};
ghost use Rattle.format.specs.Container.{length_allowed, record_ok, last_held, contents_ok};
ghost use Rattle.format.specs.Judging.{fields_found, Framed, Judges};

use crate::layout::{
    COUNT_SIZE, DATA_AT, EXTRA_LIMIT, FIXED_PLACES, Frame, LEASES_AT, LEAST, LIMIT, MAGIC,
    MAGIC_SIZE, OFFSET_AT, RECORD_SIZE, SIZE_AT,
};

// Why a buffer is no container: outcome 1, and outcome 2.
#[derive(Clone, Copy, Debug, PartialEq, Eq)]
pub enum Flaw {
    BadLength,
    Malformed,
}

pub fn has_magic(c: &[u8]) -> bool
    requires { node_at ≤ length c.now }
    ensures { result ≡ same (take node_at c.now) magic }
{
    octets::strings::same(&c[..MAGIC_SIZE], &MAGIC)
}

// The record at p has an owner or is zero bytes.
fn record_ok(c: &[u8], p: usize) -> bool
    requires { p + record_size ≤ length c.now }
    ensures { result ≡ record_ok (take record_size (drop p c.now)) }
{
    if octets::numbers::u32_at(c, p) != 0 {
        return true;
    }
    let e = p + RECORD_SIZE;
    octets::strings::all_zero(&c[p..e])
}

fn records_ok(c: &[u8], from: usize, n: usize) -> bool
    requires { from + record_size * n ≤ length c.now }
    ensures { result ≡ every record_ok (records n from c.now) }
{
    (0..n).all(|i| record_ok(c, from + RECORD_SIZE * i))
}

fn last_held(c: &[u8], from: usize, n: usize) -> bool
    requires { from + record_size * n ≤ length c.now }
    ensures { result ≡ last_held (records n from c.now) }
{
    if n == 0 {
        return true;
    }
    octets::numbers::u32_at(c, from + RECORD_SIZE * (n - 1)) != 0
}

fn zero_between(c: &[u8], from: usize, to: usize) -> bool
    requires { (from ≤ to) × (to ≤ length c.now) }
    ensures { result ≡ all_zero (take (to - from) (drop from c.now)) }
{
    octets::strings::all_zero(&c[from..to])
}

// Magic, offset field, count, and that all lies inside; sums are made only after their parts are known to be small.
fn find_fields(c: &[u8]) -> Option<Frame>
    requires { length_allowed c.now ≡ true }
    ensures { result ≡ fields_found c.now }
{
    let n = c.len();
    if !has_magic(c) {
        return None;
    }
    let size = octets::numbers::u64_at(c, SIZE_AT) as usize;
    if n - LEAST < size {
        return None;
    }
    let offset = octets::numbers::u64_at(c, OFFSET_AT) as usize;
    if offset < DATA_AT + size {
        return None;
    }
    if n - COUNT_SIZE < offset {
        return None;
    }
    let extras = octets::numbers::u32_at(c, offset) as usize;
    if EXTRA_LIMIT < extras {
        return None;
    }
    let frame = Frame {
        size,
        offset,
        extras,
    };
    if n < frame.used() {
        return None;
    }
    Some(frame)
}

fn contents_ok(c: &[u8], frame: Frame) -> bool
    requires { Framed c.now frame × (length c.now ≤ limit) }
    ensures { result ≡ contents_ok c.now }
{
    if !records_ok(c, LEASES_AT, FIXED_PLACES) {
        return false;
    }
    let from = frame.extras_at();
    let extras = frame.extras;
    if !records_ok(c, from, extras) {
        return false;
    }
    if !last_held(c, from, extras) {
        return false;
    }
    if !zero_between(c, frame.used(), c.len()) {
        return false;
    }
    zero_between(c, frame.data_end(), frame.offset)
}

pub fn judge(c: &[u8]) -> Result<Frame, Flaw>
    ensures { Judges c.now result }
{
    if c.len() < LEAST {
        return Err(Flaw::BadLength);
    }
    if LIMIT < c.len() {
        return Err(Flaw::BadLength);
    }
    let frame = find_fields(c).ok_or(Flaw::Malformed)?;
    if !contents_ok(c, frame) {
        return Err(Flaw::Malformed);
    }
    Ok(frame)
}
