// The rules (docs/RULES.md): what each request does. Their definitions are in specs/, what holds of them in proofs/.
#![tactic(auto)]

ghost use Rattle.std.specs.Prelude.{◌≡◌, ◌≤◌, length};
ghost use Rattle.format.specs.Layout.{least, node_of};
ghost use Rattle.rules.specs.Outcomes.{answer_of, no_node};
ghost use Rattle.rules.specs.Refusals.{number_of, answer_from};

use format::layout::{NODE_AT, NODE_SIZE};
use outcomes::Refusal;

pub mod outcomes;

// The answer record: the outcome's number, a node id (the container's on 5, else zeros) and a count. C reads it by its
// layout, so it has a number in place of an enum.
#[repr(C)]
#[derive(Clone, Copy)]
pub struct Answer {
    pub number: u32,
    pub node: [u8; NODE_SIZE],
    pub count: u64,
}

impl Answer {
    // A number with a count, and no node id.
    pub fn numbered(number: u32, count: usize) -> Answer
        ensures { result ≡ answer_of number no_node count }
    {
        Answer {
            number,
            node: [0; NODE_SIZE],
            count: count as u64,
        }
    }

    // Outcome 0.
    pub fn done(count: usize) -> Answer
        ensures { result ≡ answer_of 0 no_node count }
    {
        Answer::numbered(0, count)
    }

    // Outcome 8: some test is false, and the reply tells.
    pub fn test_false(reply: usize) -> Answer
        ensures { result ≡ answer_of 8 no_node reply }
    {
        Answer::numbered(8, reply)
    }

    // For outcome 5 there is `wrong_enabler`.
    pub fn refused(refusal: Refusal) -> Answer
        ensures { result ≡ answer_of (number_of refusal) no_node 0 }
    {
        Answer::numbered(refusal.number(), 0)
    }

    // Outcome 5 names the node that accepted the write enabler.
    #[tactic(auto, unfolding(format::specs::Layout::node_of))]
    pub fn wrong_enabler(c: &[u8]) -> Answer
        requires { least ≤ length c.now }
        ensures { result ≡ answer_of 5 (node_of c.now) 0 }
    {
        Answer {
            number: Refusal::WrongEnabler.number(),
            node: octets::moves::array_at(c, NODE_AT),
            count: 0,
        }
    }
}

impl From<Result<usize, Refusal>> for Answer {
    ghost from_gives = { λ outcome answer. answer ≡ answer_from outcome };

    fn from(outcome: Result<usize, Refusal>) -> Answer {
        match outcome {
            Ok(count) => Answer::done(count),
            Err(refusal) => Answer::refused(refusal),
        }
    }
}
