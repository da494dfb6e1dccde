// Kind 1: a test-and-write on a well-formed container, judged, answered and committed. A crate above that puts rows of
// its own behind the verdict settles it itself.
#![tactic(auto)]

ghost use Rattle.std.specs.Prelude.{◌≡◌, ◌≤◌, cond, eqb, length};
ghost use Rattle.format.specs.Layout.{least, node_of};
ghost use Rattle.format.specs.Judging.{Known};
ghost use Rattle.rules.specs.Outcomes.{answer_of, no_node, answered, container_after, reply_after};
ghost use Rattle.rules.specs.Refusals.{number_of};
ghost use Rattle.requests.specs.Forms.{WriteRequest, write_in};
ghost use Rattle.format.specs.Parts.{parts_of};
ghost use Rattle.verdicts.specs.Writing.{verdict_of, Tells};

use format::layout::{DATA_AT, Frame};
use requests::forms::Parted;
use rules::Answer;
use rules::outcomes::Refusal;
use verdicts::writing::{Verdict, commit, verdict_of};

// Answers a verdict: the reply is written where nothing refuses the request, and the container is committed where it is
// accepted.
pub fn settle(
    c: &mut [u8],
    frame: Frame,
    q: &[u8],
    t: Parted,
    verdict: Result<Verdict, Refusal>,
    r: &mut [u8],
) -> Answer
    requires { Known c.old frame × (WriteRequest q.now t
        × Tells verdict (verdict_of (parts_of c.old) (write_in t q.now) (length r.old))) }
    ensures value { result ≡ answered c.old q.now r.old }
    ensures c_after { c.new ≡ container_after c.old q.now r.old }
    ensures r_after { r.new ≡ reply_after c.old q.now r.old }
{
    let verdict = match verdict {
        Ok(verdict) => verdict,
        Err(refusal) => {
            return match refusal {
                Refusal::WrongEnabler => Answer::wrong_enabler(c),
                // Not `Answer::refused`: count_on_refusal.edit tells another count here.
                _ => Answer::numbered(refusal.number(), 0),
            };
        }
    };
    let to = frame.data_end();
    replies::reply::write_reply(&c[DATA_AT..to], q, t.tests, r);
    match verdict {
        Verdict::TestFalse(reply) => Answer::test_false(reply),
        Verdict::Accepted(due) => {
            commit(c, frame, q, t, due);
            Answer::done(due.reply)
        }
    }
}

pub fn test_and_write(c: &mut [u8], frame: Frame, q: &[u8], t: Parted, r: &mut [u8]) -> Answer
    requires { Known c.old frame × WriteRequest q.now t }
    ensures value { result ≡ answered c.old q.now r.old }
    ensures c_after { c.new ≡ container_after c.old q.now r.old }
    ensures r_after { r.new ≡ reply_after c.old q.now r.old }
{
    let verdict = verdict_of(c, frame, q, t, r.len());
    settle(c, frame, q, t, verdict, r)
}
