// Moving a transfer's bytes block by block.
#![tactic(auto)]

ghost use Rattle.std.specs.Prelude.{◌≡◌, ◌+◌, ◌*◌, ◌≤◌, length};
ghost use Rattle.words.specs.Parts.{put};
ghost use Rattle.blocks.specs.Blocks.{user_data};

// Fills `d` with the user data of `count` stored intervals of `size` data bytes.
pub fn take_user_data(d: &mut [u8], s: &[u8], size: usize, count: usize)
    requires size_value { count * (size + 8) ≡ length s.now }
    requires size_value_2 { count * size ≡ length d.old }
    ensures { d.new ≡ user_data size count s.now }
{
    for i in 0..count {
        let from = i * (size + 8);
        let to = i * size;
        words::copy(&mut d[to..to + size], &s[from..from + size]);
    }
}

// Overwrites `count` blocks of `stored` bytes of the segment, from `at` on, with those in `s`, block by block.
pub fn store_blocks(segment: &mut [u8], at: usize, s: &[u8], stored: usize, count: usize)
    requires stored_value { count * stored ≡ length s.now }
    requires stored_in_bounds { at + count * stored ≤ length segment.old }
    ensures { segment.new ≡ put at s.now segment.old }
{
    for i in 0..count {
        let from = i * stored;
        let to = at + from;
        words::copy(&mut segment[to..to + stored], &s[from..from + stored]);
    }
}
