// The hash chain's node numbers, against the tree over the shares; the depth of a tree.
ghost use Rattle.std.specs.Prelude.{◌≡◌, ◌+◌, ◌*◌, ◌≤◌, eqb, length};
ghost use Rattle.share_contents.specs.Nodes.{depth, power, chain_entry_size, nodes_from, nodes_ok};
ghost use Rattle.octets.specs.Lists.{any_of};

use octets::numbers;
use share_format::header::HASH_SIZE;

// An entry of the chain: a node number of 2 bytes, and its hash.
pub(crate) const CHAIN_ENTRY_SIZE: usize = 2 + HASH_SIZE;

// The tree over n shares or segments: its depth c, the least with 2^c at or above n, and its 2^c leaves.
#[derive(Clone, Copy)]
pub(crate) struct Over {
    pub(crate) depth: usize,
    pub(crate) leaves: u64,
}

// At most 2^62, so that no sum of nodes exceeds 64 bits.
pub(crate) fn tree_over(n: u64) -> Over
    requires { n ≤ power 62 }
    ensures { (result.depth ≡ depth n) × (result.leaves ≡ power (depth n)) }
{
    let mut depth = 0;
    let mut leaves = 1;
    // No count: it ends where the leaves are enough.
    while leaves < n {
        leaves = 2 * leaves;
        depth += 1;
    }
    Over { depth, leaves }
}

// Whether x is among the n node numbers from p on.
fn occurs(s: &[u8], x: u16, n: usize, p: usize) -> bool
    requires { p + chain_entry_size * n ≤ length s.now }
    ensures { result ≡ any_of (eqb x) (nodes_from n p s.now) }
{
    for i in 0..n {
        if x == numbers::u16_at(s, p + CHAIN_ENTRY_SIZE * i) {
            return true;
        }
    }
    false
}

// Whether of the n node numbers from p on each is below `top` and none comes again.
pub(crate) fn nodes_ok(s: &[u8], top: u64, n: usize, p: usize) -> bool
    requires { p + chain_entry_size * n ≤ length s.now }
    ensures { result ≡ nodes_ok top (nodes_from n p s.now) }
{
    for i in 0..n {
        let at = p + CHAIN_ENTRY_SIZE * i;
        let x = numbers::u16_at(s, at);
        if top <= x as u64 {
            return false;
        }
        let again = occurs(s, x, n - i - 1, at + CHAIN_ENTRY_SIZE);
        if again {
            return false;
        }
    }
    true
}
