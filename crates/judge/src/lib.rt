// Judging the intervals of a block, a block, a run of blocks. The first wrong interval is named.
#![tactic(auto)]

ghost use Rattle.std.specs.Prelude.{◌≡◌, ◌+◌, ◌^◌, ◌<◌, ◌≤◌};
ghost use Rattle.judge.specs.Judge.{judge_intervals, judge_block, judge_blocks, place_on, next_interval, next_block, Run, Stretch};

use answer::Answer;
use guard::Table;
use interval::{Place, Rules};

// The place so many blocks and intervals on, with the tag that is expected there.
fn place_on(p: Place, blocks: usize, intervals: usize, tag: u32) -> Place
    requires { (p.address + blocks < 2 ^ 64) × (p.interval + intervals < 2 ^ 64) }
    ensures { result ≡ place_on p blocks intervals tag }
{
    Place {
        address: p.address + blocks as u64,
        interval: p.interval + intervals as u64,
        tag,
    }
}

// The place of the next interval of the block, and of the next block.
pub fn next_interval(p: Place) -> Place
    requires { p.interval < 2 ^ 32 }
    ensures { result ≡ next_interval p }
{
    place_on(p, 0, 1, p.tag.wrapping_add(1))
}

pub fn next_block(n: usize, p: Place) -> Place
    requires { (n ≤ 8) × (p.interval + n ≤ 2 ^ 32) × (p.address < 2 ^ 63) }
    ensures { result ≡ next_block n p }
{
    place_on(p, 1, n, p.tag.wrapping_add(n as u32))
}

// Kept: that the bytes are so many intervals or blocks is asked here, and in `paragraph` and `body`: a struct around a lent slice has two
// values in a clause, one as the call begins and one as it ends.
// The first wrong one of `count` intervals of a block. Its place is worked out from those that went before it; the tag alone goes
// on from turn to turn.
pub fn judge_intervals(t: &Table, r: Rules, p: Place, count: usize, s: &[u8]) -> Answer
    requires { Stretch r count p s.now }
    ensures { result ≡ judge_intervals r count p s.now }
{
    let mut tag = p.tag;
    for k in 0..count {
        let i = k * (r.size + 8);
        let m = i + r.size;
        let here = place_on(p, 0, k, tag);
        interval::judge_pieces(t, r, here, &s[i..m], field::field_of(s, m))?;
        tag = next_interval(here).tag;
    }
    Ok(())
}

// A block: not judged where any of its intervals has the escape.
pub fn judge_block(t: &Table, r: Rules, p: Place, s: &[u8]) -> Answer
    requires { Run r 1 p s.now }
    ensures { result ≡ judge_block r p s.now }
{
    if interval::any_escapes(r.escape, r.size, r.intervals, s) {
        return Ok(());
    }
    judge_intervals(t, r, p, r.intervals, s)
}

// A run of `count` blocks: the first wrong interval, guard before application before reference.
pub fn judge_blocks(t: &Table, r: Rules, p: Place, count: usize, s: &[u8]) -> Answer
    requires { Run r count p s.now }
    ensures { result ≡ judge_blocks r count p s.now }
{
    let n = r.intervals;
    let block = n * (r.size + 8);
    let mut tag = p.tag;
    for k in 0..count {
        let i = k * block;
        let here = place_on(p, k, k * n, tag);
        judge_block(t, r, here, &s[i..i + block])?;
        tag = next_block(n, here).tag;
    }
    Ok(())
}
