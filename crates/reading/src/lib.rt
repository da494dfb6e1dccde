// Kind 5: a read on a well-formed container.
#![tactic(auto)]

ghost use Rattle.std.specs.Prelude.{◌≡◌};
ghost use Rattle.format.specs.Judging.{Known};
ghost use Rattle.rules.specs.Outcomes.{answered, reply_after};
ghost use Rattle.requests.specs.Forms.{ReadRequest};

use format::layout::{DATA_AT, Frame};
use replies::pieces::measure;
use replies::reply::write_reply;
use requests::forms::Table;
use rules::Answer;
use rules::outcomes::Refusal;

pub fn read(c: &[u8], frame: Frame, q: &[u8], t: Table, r: &mut [u8]) -> Answer
    requires { Known c.now frame × ReadRequest q.now t }
    ensures value { result ≡ answered c.now q.now r.old }
    ensures r_after { r.new ≡ reply_after c.now q.now r.old }
{
    let e = frame.data_end();
    let d = &c[DATA_AT..e];
    let Some(length) = measure(d, q, t) else {
        return Answer::refused(Refusal::BeforeStart);
    };
    if r.len() < length {
        return Answer::refused(Refusal::ShortReply);
    }
    write_reply(d, q, t, r);
    Answer::done(length)
}
