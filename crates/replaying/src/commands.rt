// The words that lines begin with.
ghost use Rattle.std.specs.Prelude.{◌≡◌, ◌≤◌, ◌<◌, length, IfOk, IfSome};
ghost use Rattle.replaying.specs.Commands.{word_of, command_here, command_of, ends_at, argument_at, Followed};

use crate::items::Fault;
use crate::scanning::Sort;
use crate::{items, numerals, scanning};

#[derive(Clone, Copy, Debug, PartialEq, Eq)]
pub enum Word {
    Buffer,
    Load,
    List,
    Node,
    Enabler,
    Create,
    Bytes,
    Apply,
    Watch,
    Expect,
    Say,
}

// The word of a line, if it is known, and the position behind it.
#[derive(Clone, Copy, Debug, PartialEq, Eq)]
pub struct Command {
    pub word: Option<Word>,
    pub next: usize,
}

#[tactic(auto, unfolding(crate::specs::Commands::word_of))]
fn word_of(w: &[u8]) -> Option<Word>
    ensures { result ≡ word_of w.now }
{
    match str::from_utf8(w).ok()? {
        "buffer" => Some(Word::Buffer),
        "load" => Some(Word::Load),
        "list" => Some(Word::List),
        "node" => Some(Word::Node),
        "enabler" => Some(Word::Enabler),
        "create" => Some(Word::Create),
        "bytes" => Some(Word::Bytes),
        "apply" => Some(Word::Apply),
        "watch" => Some(Word::Watch),
        "expect" => Some(Word::Expect),
        "say" => Some(Word::Say),
        _ => None,
    }
}

// The command that begins at `at`, where a byte stands that is no space.
#[tactic(auto, unfolding(crate::specs::Commands::command_here, crate::specs::Commands::word_to))]
fn command_here(s: &[u8], at: usize) -> Option<Command>
    requires { at < length s.now }
    ensures answer { result ≡ command_here s.now at }
    ensures followed { IfSome result (Followed (length s.now)) }
{
    if s[at] == b'#' {
        return None;
    }
    let next = scanning::run_end(s, at, Sort::But(b' '));
    let word = word_of(&s[at..next]);
    Some(Command { word, next })
}

// The command of a line, which may be empty or a comment. A carriage return stands nowhere in it: most often it is the
// end of a line of another system.
#[tactic(auto, unfolding(crate::specs::Commands::command_of, crate::specs::Commands::command_from))]
pub fn command_of(s: &[u8]) -> Result<Option<Command>, Fault>
    ensures answer { result ≡ command_of s.now }
    ensures followed { IfOk result (λ o. IfSome o (Followed (length s.now))) }
{
    if scanning::run_end(s, 0, Sort::But(b'\r')) < s.len() {
        return Err(Fault::CarriageReturn);
    }
    let start = scanning::run_end(s, 0, Sort::Only(b' '));
    if start == s.len() {
        return Ok(None);
    }
    Ok(command_here(s, start))
}

// Whether nothing but spaces and a comment is left.
#[tactic(auto, unfolding(crate::specs::Commands::ends_at))]
pub fn ends(s: &[u8], at: usize) -> bool
    requires { at ≤ length s.now }
    ensures { result ≡ ends_at s.now at }
{
    matches!(items::next_item(s, at), Ok(None))
}

// The number that is all that is left.
#[tactic(auto, unfolding(crate::specs::Commands::argument_at))]
pub fn only_number(s: &[u8], at: usize, most: u32) -> Result<u32, Fault>
    requires { at ≤ length s.now }
    ensures answer { result ≡ argument_at s.now at most }
    ensures bound { IfOk result (λ n. n ≤ most) }
{
    let start = scanning::run_end(s, at, Sort::Only(b' '));
    let (value, next) = numerals::decimal_at(s, start, most)?;
    if !ends(s, next) {
        return Err(Fault::More);
    }
    Ok(value)
}
