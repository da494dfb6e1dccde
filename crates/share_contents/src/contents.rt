// The chain, the tree, the blocks and the sequence number: rows 26 to 29, for both editions.
ghost use Rattle.std.specs.Prelude.{◌≡◌, true, false, ◌<◌, eqb, length};
ghost use Rattle.octets.specs.Rows.{first_row};
ghost use Rattle.share_numbers.specs.Coding.{segment_ok};
ghost use Rattle.share_format.specs.Editions.{is_mdmf};
ghost use Rattle.share_contents.specs.Faults.{outcome_of};
ghost use Rattle.share_contents.specs.Contents.{chain_ok, segments, tree_size, tree_ok, blocks_size};
ghost use Rattle.share_contents.specs.Contents.{blocks_ok, content_rows};

use crate::faults::Fault;
use crate::nodes;
use share_format::header::{Edition, HASH_SIZE, Numbers, SALT_SIZE};

// A sequence number that no later one can follow.
const LAST_SEQUENCE: u64 = u64::MAX;

// Row 26.
fn chain_ok(total: u8, chain: &[u8]) -> bool
    ensures { result ≡ chain_ok total chain.now }
{
    let over = nodes::tree_over(total as u64);
    if chain.len() != nodes::CHAIN_ENTRY_SIZE * over.depth {
        return false;
    }
    nodes::nodes_ok(chain, 2 * over.leaves - 1, over.depth, 0)
}

fn segments(data_length: u64, segment: u64) -> u64
    requires { segment ≡ 0 → data_length ≡ 0 }
    ensures { result ≡ segments data_length segment }
{
    if data_length == 0 {
        0
    } else {
        data_length.div_ceil(segment)
    }
}

// Row 27 for SDMF.
#[tactic(auto, unfolding(crate::specs::Contents::tree_ok))]
fn one_hash_ok(data_length: u64, tree: &[u8]) -> bool
    ensures { result ≡ tree_ok false 0 data_length tree.now }
{
    tree.len() == HASH_SIZE || data_length == 0 && tree.len() == 0
}

// Row 27 for MDMF. The size of a tree over so many segments may exceed 64 bits: it is formed only where the tree has a
// hash for each of them.
fn full_tree_ok(n: u64, tree: &[u8]) -> bool
    ensures { result ≡ eqb (length tree.now) (tree_size n) }
{
    if n == 0 {
        return tree.len() == 0;
    }
    if tree.len() % HASH_SIZE != 0 {
        return false;
    }
    let hashes = (tree.len() / HASH_SIZE) as u64;
    if hashes < n {
        return false;
    }
    let over = nodes::tree_over(n);
    hashes == 2 * over.leaves - 1
}

// Row 27.
fn tree_ok(edition: Edition, segment: u64, data_length: u64, tree: &[u8]) -> bool
    requires { is_mdmf edition ≡ true → segment ≡ 0 → data_length ≡ 0 }
    ensures { result ≡ tree_ok (is_mdmf edition) segment data_length tree.now }
{
    match edition {
        Edition::Sdmf => one_hash_ok(data_length, tree),
        Edition::Mdmf => full_tree_ok(segments(data_length, segment), tree),
    }
}

// Row 28 for MDMF. The salts are taken off the share data, so that no size is formed that may exceed 64 bits.
fn salted_ok(n: u64, k: u64, data_length: u64, share_data: &[u8]) -> bool
    requires { 0 < k }
    ensures { result ≡ eqb (length share_data.now) (blocks_size n k data_length) }
{
    let size = share_data.len() as u64;
    let salt = SALT_SIZE as u64;
    if size / salt < n {
        return false;
    }
    size - salt * n == data_length.div_ceil(k)
}

// Row 28.
fn blocks_ok(edition: Edition, segment: u64, k: u64, data_length: u64, share_data: &[u8]) -> bool
    requires { (0 < k) × (is_mdmf edition ≡ true → segment ≡ 0 → data_length ≡ 0) }
    ensures { result ≡ blocks_ok (is_mdmf edition) segment k data_length share_data.now }
{
    match edition {
        Edition::Sdmf => share_data.len() as u64 == segment / k,
        Edition::Mdmf => salted_ok(segments(data_length, segment), k, data_length, share_data),
    }
}

// Rows 26 to 29, of numbers and parts that stand in a share or shall go into one.
pub fn content_outcome(
    edition: Edition,
    numbers: Numbers,
    chain: &[u8],
    tree: &[u8],
    share_data: &[u8],
) -> Result<(), Fault>
    requires { (0 < numbers.required)
        × (segment_ok (is_mdmf edition) numbers.segment_size numbers.required numbers.data_length ≡ true) }
    ensures { outcome_of result
        ≡ first_row
        (content_rows (is_mdmf edition) numbers.sequence numbers.required numbers.total
        numbers.segment_size numbers.data_length chain.now tree.now share_data.now) }
{
    let segment = numbers.segment_size;
    let data_length = numbers.data_length;
    if !chain_ok(numbers.total, chain) {
        return Err(Fault::HashChain);
    }
    if !tree_ok(edition, segment, data_length, tree) {
        return Err(Fault::BlockTree);
    }
    if !blocks_ok(
        edition,
        segment,
        numbers.required as u64,
        data_length,
        share_data,
    ) {
        return Err(Fault::ShareData);
    }
    if numbers.sequence == LAST_SEQUENCE {
        return Err(Fault::Sequence);
    }
    Ok(())
}
