// Comparing stored blocks with those sent, where both lie: the first block that differs is named.
#![tactic(auto)]

ghost use Rattle.std.specs.Prelude.{◌≡◌, ◌+◌, ◌*◌, ◌^◌, ◌≤◌, length};
ghost use Rattle.comparison.specs.Comparison.{same, compare_blocks};
ghost use Rattle.comparison.specs.Inner.{parts_of, Pair};

use answer::{Answer, Refusal};

// What of a stored block is compared: so many pieces of `size` bytes, each `stride` bytes behind the one before.
#[derive(Clone, Copy)]
pub struct Cut {
    pub pieces: usize,
    pub size: usize,
    pub stride: usize,
}

// Whether two slices are the same. std compares 32 bytes and more at a time: a loop that could stop at each byte would take a
// quarter of the guard's time.
#[tactic(auto, using(crate::proofs::SameLaws::pointwise_same))]
fn same(a: &[u8], b: &[u8]) -> bool
    ensures { result ≡ same a.now b.now }
{
    a == b
}

// Whether the pieces of a stored block are what was sent for it: none is looked at behind the first that differs.
fn same_block(k: Cut, stored: &[u8], sent: &[u8]) -> bool
    requires { Pair k k.pieces (length stored.now) (length sent.now) }
    ensures { result ≡ same (parts_of k k.pieces stored.now) sent.now }
{
    for i in 0..k.pieces {
        let here = i * k.stride;
        let there = i * k.size;
        if !same(&stored[here..here + k.size], &sent[there..there + k.size]) {
            return false;
        }
    }
    true
}

// The first of `count` blocks from `address` on that is not the one sent.
pub fn compare_blocks(k: Cut, address: u64, count: usize, stored: &[u8], sent: &[u8]) -> Answer
    requires pair { Pair k (count * k.pieces) (length stored.now) (length sent.now) }
    requires stride_bound { (k.pieces * k.stride ≤ 4160) × (address + count ≤ 2 ^ 63) }
    ensures { result ≡ compare_blocks (k.pieces * k.size) count address (parts_of k (count * k.pieces) stored.now) sent.now }
{
    let block = k.pieces * k.stride;
    let each = k.pieces * k.size;
    for i in 0..count {
        let here = i * block;
        let there = i * each;
        if !same_block(k, &stored[here..here + block], &sent[there..there + each]) {
            return Err(Refusal::BlockDiffers(address + i as u64));
        }
    }
    Ok(())
}
