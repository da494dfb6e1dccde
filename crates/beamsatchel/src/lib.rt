// What C and Rust call: numbers and byte slices in, structs of numbers out. Nothing is asked of the caller.
#![tactic(auto)]

ghost use Rattle.std.specs.Prelude.{◌≡◌, length};
ghost use Rattle.rules.specs.Outcomes.{create_answer, created_container, answered, container_after, reply_after};
ghost use Rattle.container.specs.Looking.{read_of};
ghost use Rattle.listed_rules.specs.Outcomes.{answered_beside, container_beside, list_after, reply_beside};
ghost use Rattle.shares.specs.Share.{checked_of, checked_container};
ghost use Rattle.share_rules.specs.Writing.{sdmf_with, mdmf_with, written_answer, space_after};
ghost use Rattle.upkeep_rules.specs.Auditing.{audit_answer, audit_table};
ghost use Rattle.upkeep_rules.specs.Sweeping.{sweep_answer, swept_container};

use rules::Answer;
use share_rules::Written;
use shares::share::Checked;
use upkeep_rules::LeaseRow;

#[unsafe(no_mangle)]
pub extern "C" fn beamsatchel_create(c: &mut [u8], node: &[u8], enabler: &[u8]) -> Answer
    ensures value { result ≡ create_answer c.old node.now enabler.now }
    ensures c_after { c.new ≡ created_container c.old node.now enabler.now }
{
    creation::create(c, node, enabler)
}

#[unsafe(no_mangle)]
pub extern "C" fn beamsatchel_apply(c: &mut [u8], q: &[u8], r: &mut [u8]) -> Answer
    ensures value { result ≡ answered c.old q.now r.old }
    ensures c_after { c.new ≡ container_after c.old q.now r.old }
    ensures r_after { r.new ≡ reply_after c.old q.now r.old }
{
    container::requesting::apply(c, q, r)
}

#[unsafe(no_mangle)]
pub extern "C" fn beamsatchel_read(c: &[u8], q: &[u8], r: &mut [u8]) -> Answer
    ensures value { result ≡ answered c.now (read_of q.now) r.old }
    ensures r_after { r.new ≡ reply_after c.now (read_of q.now) r.old }
{
    container::looking::read_only(c, q, r)
}

#[unsafe(no_mangle)]
pub extern "C" fn beamsatchel_apply_listed(
    c: &mut [u8],
    l: &mut [u8],
    q: &[u8],
    r: &mut [u8],
) -> Answer
    ensures value { result ≡ answered_beside c.old l.old q.now r.old }
    ensures c_after { c.new ≡ container_beside c.old l.old q.now r.old }
    ensures l_after { l.new ≡ list_after c.old l.old q.now r.old }
    ensures r_after { r.new ≡ reply_beside c.old l.old q.now r.old }
{
    listed_slot::requesting::apply(c, l, q, r)
}

#[unsafe(no_mangle)]
pub extern "C" fn beamsatchel_read_listed(c: &[u8], l: &[u8], q: &[u8], r: &mut [u8]) -> Answer
    ensures value { result ≡ answered_beside c.now l.now (read_of q.now) r.old }
    ensures r_after { r.new ≡ reply_beside c.now l.now (read_of q.now) r.old }
{
    listed_slot::looking::read_only(c, l, q, r)
}

// The rows one by one, each looked for behind the one before it.
#[unsafe(no_mangle)]
pub extern "C" fn beamsatchel_audit(c: &[u8], rows: &mut [LeaseRow]) -> Answer
    ensures value { result ≡ audit_answer c.now (length rows.old) }
    ensures rows_after { rows.new ≡ audit_table c.now rows.old }
{
    let given = upkeep::auditing::audit_answer(c, rows.len());
    let n = given.count as usize;
    let mut at = 0;
    for i in 0..n {
        let lease = upkeep::auditing::next_lease(c, at);
        rows[i] = lease.row;
        at = lease.next;
    }
    given
}

#[unsafe(no_mangle)]
pub extern "C" fn beamsatchel_sweep(c: &mut [u8], time: u32) -> Answer
    ensures value { result ≡ sweep_answer c.old time }
    ensures c_after { c.new ≡ swept_container c.old time }
{
    upkeep::sweeping::sweep(c, time)
}

#[unsafe(no_mangle)]
pub extern "C" fn beamsatchel_check_bare_share(s: &[u8]) -> Checked
    ensures { result ≡ checked_of s.now }
{
    shares::share::check(s)
}

#[unsafe(no_mangle)]
pub extern "C" fn beamsatchel_check_share_in(c: &[u8]) -> Checked
    ensures { result ≡ checked_container c.now }
{
    shares::share::check_container(c)
}

#[unsafe(no_mangle)]
pub extern "C" fn beamsatchel_write_sdmf(
    sequence: u64,
    root: &[u8],
    iv: &[u8],
    required: u8,
    total: u8,
    data_length: u64,
    key: &[u8],
    signature: &[u8],
    chain: &[u8],
    tree: &[u8],
    share_data: &[u8],
    private_key: &[u8],
    d: &mut [u8],
) -> Written
    ensures answer { result
        ≡ written_answer
        (sdmf_with sequence root.now iv.now required total data_length key.now
        signature.now chain.now tree.now share_data.now
        private_key.now)
        (length d.old) }
    ensures space { d.new
        ≡ space_after
        (sdmf_with sequence root.now iv.now required total data_length key.now
        signature.now chain.now tree.now share_data.now
        private_key.now)
        d.old }
{
    share_writing::write_sdmf(
        sequence,
        root,
        iv,
        required,
        total,
        data_length,
        key,
        signature,
        chain,
        tree,
        share_data,
        private_key,
        d,
    )
}

#[unsafe(no_mangle)]
pub extern "C" fn beamsatchel_write_mdmf(
    sequence: u64,
    root: &[u8],
    required: u8,
    total: u8,
    segment_size: u64,
    data_length: u64,
    private_key: &[u8],
    chain: &[u8],
    signature: &[u8],
    key: &[u8],
    spare: &[u8],
    share_data: &[u8],
    tree: &[u8],
    d: &mut [u8],
) -> Written
    ensures answer { result
        ≡ written_answer
        (mdmf_with sequence root.now required total segment_size data_length private_key.now
        chain.now signature.now key.now spare.now
        share_data.now tree.now)
        (length d.old) }
    ensures space { d.new
        ≡ space_after
        (mdmf_with sequence root.now required total segment_size data_length private_key.now
        chain.now signature.now key.now spare.now
        share_data.now tree.now)
        d.old }
{
    share_writing::write_mdmf(
        sequence,
        root,
        required,
        total,
        segment_size,
        data_length,
        private_key,
        chain,
        signature,
        key,
        spare,
        share_data,
        tree,
        d,
    )
}
