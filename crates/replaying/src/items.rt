// Bytes written as text: pairs of hexadecimal digits, repeats, numbers of four bytes, quoted text.
ghost use Rattle.std.specs.Prelude.{◌≡◌, ◌+◌, ◌≤◌, ◌<◌, length, IfOk, IfSome, IsTrue};
ghost use Rattle.replaying.specs.Items.{Inside, Lies, size_of, bytes_of, negated, below_of, text_at, stands_at};
ghost use Rattle.replaying.specs.Items.{numeral_at, repeat_at, item_here, item_at, line_right, line_bytes, Stepped};
ghost use Rattle.replaying.specs.Items.{Written, line_answer};

use crate::numerals::NumberFault;
use crate::scanning::Sort;
use crate::{numerals, scanning};
use std::error::Error;
use std::fmt;

// The largest N of XX*N: enough for a request that is a little too long.
const MOST_REPEATS: u32 = 65540;

// How far below 0 a number may be.
const MOST_BELOW: u32 = 0x8000_0000;

// Why a line is refused.
#[derive(Clone, Copy, Debug, PartialEq, Eq)]
pub enum Fault {
    CarriageReturn,
    Word,
    NoNumber,
    // The number is above this bound.
    Above(u32),
    // The number is below minus this bound.
    Below(u32),
    Item,
    Quote,
    // The bytes are more than this room holds.
    Room(usize),
    More,
}

impl From<NumberFault> for Fault {
    ghost use Rattle.replaying.specs.Items.{above_of};

    ghost from_gives = { λ fault f. f ≡ above_of fault };

    fn from(fault: NumberFault) -> Fault {
        match fault {
            NumberFault::Missing => Fault::NoNumber,
            NumberFault::TooLarge(bound) => Fault::Above(bound),
        }
    }
}

impl fmt::Display for Fault {
    ghost use Rattle.std.specs.Prelude.{Some};
    ghost use Rattle.replaying.specs.Faults.{fault_text};

    ghost output = { λ fault. Some (fault_text fault) };

    fn fmt<W: fmt::Write>(&self, f: &mut fmt::Formatter<W>) -> fmt::Result {
        match self {
            Fault::CarriageReturn => {
                write!(f, "a carriage return: lines end with a line feed alone")
            }
            Fault::Word => write!(f, "the line begins with no word that is known"),
            Fault::NoNumber => write!(f, "a decimal number is missing"),
            Fault::Above(most) => write!(f, "the number is above {most}"),
            Fault::Below(most) => write!(f, "the number is below -{most}"),
            Fault::Item => write!(f, "bytes are pairs of hex digits, =NUMBER or 'text'"),
            Fault::Quote => write!(f, "the text has no closing quote"),
            Fault::Room(room) => { write!(f, "these are too many bytes: there is room for {room}") }
            Fault::More => write!(f, "there is more on the line than belongs there"),
        }
    }
}

impl Error for Fault {}

// What stands on a line, up to its end.
#[derive(Clone, Copy, Debug, PartialEq, Eq)]
pub(crate) enum Item {
    // A byte and how often.
    Repeat(u8, usize),
    // Four bytes.
    Number(u32),
    // The text from one position up to another.
    Text(usize, usize),
}

impl Item {
    fn size(self, line: &[u8]) -> usize
        requires { Lies (length line.now) self }
        ensures { result ≡ size_of self }
    {
        match self {
            Item::Repeat(_, times) => times,
            Item::Number(_) => 4,
            Item::Text(from, to) => to - from,
        }
    }

    // Makes d, which is as long, the bytes of the item.
    fn put(self, line: &[u8], d: &mut [u8])
        requires lies { Lies (length line.now) self }
        requires room { length d.old ≡ size_of self }
        ensures { d.new ≡ bytes_of line.now self }
    {
        match self {
            Item::Repeat(byte, _) => d.fill(byte),
            Item::Number(value) => octets::numbers::put_u32(d, 0, value),
            // A line may have thousands of short texts, and a call for each takes longer than copying it here.
            Item::Text(from, to) => octets::moves::copy(d, &line[from..to]),
        }
    }
}

// Quoted text, whose first byte is at `at`.
#[tactic(auto, unfolding(crate::specs::Items::text_at, crate::specs::Items::text_to))]
fn text(s: &[u8], at: usize) -> Result<(Item, usize), Fault>
    requires { at ≤ length s.now }
    ensures answer { result ≡ text_at s.now at }
    ensures inside { IfOk result (Inside (length s.now) at) }
{
    let end = scanning::run_end(s, at, Sort::But(b'\''));
    if end < s.len() {
        Ok((Item::Text(at, end), end + 1))
    } else {
        Err(Fault::Quote)
    }
}

// 2^32 - v, in 32 bits.
fn negative(v: u32) -> u32
    ensures { result ≡ negated v }
{
    v.wrapping_neg()
}

// A negative number has a bound of its own.
fn below(fault: NumberFault) -> Fault
    ensures { result ≡ below_of fault }
{
    match fault {
        NumberFault::Missing => Fault::NoNumber,
        NumberFault::TooLarge(bound) => Fault::Below(bound),
    }
}

// Whether b stands at `at`.
#[tactic(auto, unfolding(crate::specs::Items::stands_at))]
fn stands(s: &[u8], at: usize, b: u8) -> bool
    ensures value { result ≡ stands_at s.now at b }
    ensures within { IsTrue result → at < length s.now }
{
    at < s.len() && s[at] == b
}

// A number whose sign or first digit is at `at`; a negative one is at least -2^31.
#[tactic(auto, unfolding(crate::specs::Items::numeral_at))]
fn number(s: &[u8], at: usize) -> Result<(Item, usize), Fault>
    requires { at ≤ length s.now }
    ensures answer { result ≡ numeral_at s.now at }
    ensures inside { IfOk result (Inside (length s.now) at) }
{
    if stands(s, at, b'-') {
        let (value, next) = numerals::decimal_at(s, at + 1, MOST_BELOW).map_err(below)?;
        return Ok((Item::Number(negative(value)), next));
    }
    let (value, next) = numerals::decimal_at(s, at, u32::MAX)?;
    Ok((Item::Number(value), next))
}

// A pair of hexadecimal digits, and how often.
#[tactic(auto, unfolding(crate::specs::Items::repeat_at, crate::specs::Items::repeat_by))]
fn repeat(s: &[u8], at: usize) -> Result<(Item, usize), Fault>
    requires { at ≤ length s.now }
    ensures answer { result ≡ repeat_at s.now at }
    ensures inside { IfOk result (Inside (length s.now) at) }
{
    let byte = numerals::pair_at(s, at).ok_or(Fault::Item)?;
    if stands(s, at + 2, b'*') {
        let (times, next) = numerals::decimal_at(s, at + 3, MOST_REPEATS)?;
        return Ok((Item::Repeat(byte, times as usize), next));
    }
    Ok((Item::Repeat(byte, 1), at + 2))
}

// The item that begins at `at`, where a byte stands that is no space.
#[tactic(auto, unfolding(crate::specs::Items::item_here))]
fn item_here(s: &[u8], at: usize) -> Result<Option<(Item, usize)>, Fault>
    requires { at < length s.now }
    ensures answer { result ≡ item_here s.now at }
    ensures inside { IfOk result (λ o. IfSome o (Inside (length s.now) at)) }
{
    match s[at] {
        b'#' => Ok(None),
        b'\'' => Ok(Some(text(s, at + 1)?)),
        b'=' => Ok(Some(number(s, at + 1)?)),
        _ => Ok(Some(repeat(s, at)?)),
    }
}

// The next item of a line and the position behind it: a comment begins with #, text with a quote, a number with =.
#[tactic(auto, unfolding(crate::specs::Items::item_at, crate::specs::Items::item_from))]
pub(crate) fn next_item(s: &[u8], at: usize) -> Result<Option<(Item, usize)>, Fault>
    requires { at ≤ length s.now }
    ensures answer { result ≡ item_at s.now at }
    ensures inside { IfOk result (λ o. IfSome o (Inside (length s.now) at)) }
{
    let start = scanning::run_end(s, at, Sort::Only(b' '));
    if start < s.len() {
        item_here(s, start)
    } else {
        Ok(None)
    }
}

// Puts the bytes of the next item into d from k on; the positions behind them in the line and in d.
fn put_item(s: &[u8], at: usize, d: &mut [u8], k: usize) -> Result<Option<(usize, usize)>, Fault>
    requires { (at ≤ length s.now) × (k ≤ length d.old) }
    ensures { Stepped s.now at d.old k d.new result }
{
    let Some((item, next)) = next_item(s, at)? else {
        return Ok(None);
    };
    let size = item.size(s);
    if size > d.len() - k {
        return Err(Fault::Room(d.len()));
    }
    let end = k + size;
    item.put(s, &mut d[k..end]);
    Ok(Some((next, end)))
}

// Puts the bytes of all items from `at` on into d from k on; the position behind them.
pub fn put_items(s: &[u8], at: usize, d: &mut [u8], k: usize) -> Result<usize, Fault>
    requires { (at ≤ length s.now) × (k ≤ length d.old) }
    ensures written { Written (line_right (length s.now + 1) s.now at)
        (line_bytes (length s.now + 1) s.now at) d.old k d.new result }
    ensures answer { result ≡ line_answer (length s.now + 1) s.now at (length d.old) k }
{
    let mut place = at;
    let mut end = k;
    // A turn for each item; how many there are shows at the line's end.
    while let Some((next, taken)) = put_item(s, place, d, end)? {
        place = next;
        end = taken;
    }
    Ok(end)
}
