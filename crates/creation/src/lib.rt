// Create: a fresh container in any buffer that does not begin with the magic.
#![tactic(auto)]

ghost use Rattle.std.specs.Prelude.{◌≡◌, ◌≤◌, length};
ghost use Rattle.format.specs.Layout.{least, node_size, secret_size};
ghost use Rattle.format.specs.Parts.{encode, fresh};
ghost use Rattle.rules.specs.Outcomes.{create_answer, created_container};

use format::layout::{
    DATA_AT, ENABLER_AT, LEAST, LIMIT, NODE_AT, NODE_SIZE, OFFSET_AT, SECRET_SIZE,
};
use rules::Answer;
use rules::outcomes::Refusal;

// Everything is overwritten: the buffer may hold anything.
fn write_fresh(c: &mut [u8], node: &[u8], enabler: &[u8])
    requires { (least ≤ length c.old) × (length node.now ≡ node_size) × (length enabler.now ≡ secret_size) }
    ensures { c.new
        ≡ encode (fresh (length c.old) node.now enabler.now) }
{
    c.fill(0);
    octets::moves::copy_part(c, 0, &format::layout::MAGIC);
    octets::moves::copy_part(c, NODE_AT, node);
    octets::moves::copy_part(c, ENABLER_AT, enabler);
    octets::numbers::put_u64(c, OFFSET_AT, DATA_AT as u64);
}

pub fn create(c: &mut [u8], node: &[u8], enabler: &[u8]) -> Answer
    ensures value { result ≡ create_answer c.old node.now enabler.now }
    ensures c_after { c.new ≡ created_container c.old node.now enabler.now }
{
    if c.len() < LEAST {
        return Answer::refused(Refusal::BadLength);
    }
    if LIMIT < c.len() {
        return Answer::refused(Refusal::BadLength);
    }
    if node.len() != NODE_SIZE {
        return Answer::refused(Refusal::BadRequest);
    }
    if enabler.len() != SECRET_SIZE {
        return Answer::refused(Refusal::BadRequest);
    }
    if format::judging::has_magic(c) {
        return Answer::refused(Refusal::AlreadyContainer);
    }
    write_fresh(c, node, enabler);
    Answer::done(0)
}
