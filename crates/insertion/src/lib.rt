// Making stored blocks of user data.
#![tactic(auto)]

ghost use Rattle.std.specs.Prelude.{◌≡◌, ◌+◌, ◌*◌, ◌≤◌, length};
ghost use Rattle.words.specs.Parts.{put};
ghost use Rattle.insertion.specs.Insertion.{with_field, stored_block, stored_blocks};

use guard::Table;

// What goes into the fields beside the guard: the application tag, the reference tag of the next interval, and by how much
// it goes on.
#[derive(Clone, Copy)]
pub struct Marks {
    pub application: u16,
    pub reference: u32,
    pub step: u32,
}

// Fills `d`, a stored interval, from its data `s`.
fn insert_interval(t: &Table, d: &mut [u8], s: &[u8], m: Marks)
    requires { length s.now + 8 ≡ length d.old }
    ensures { d.new ≡ with_field (length s.now) m s.now }
{
    let n = s.len();
    let g = t.copy(&mut d[..n], s);
    field::write(&mut d[n..], g, m.application, m.reference);
}

// Fills `d`, a stored block, from its user data `s`.
pub fn insert_block(t: &Table, d: &mut [u8], s: &[u8], size: usize, intervals: usize, m: Marks)
    requires size_value { intervals * size ≡ length s.now }
    requires size_value_2 { intervals * (size + 8) ≡ length d.old }
    ensures { d.new ≡ stored_block size intervals m s.now }
{
    let mut here = m;
    for i in 0..intervals {
        let from = i * size;
        let to = i * (size + 8);
        insert_interval(t, &mut d[to..to + (size + 8)], &s[from..from + size], here);
        here.reference = here.reference.wrapping_add(here.step);
    }
}

// Overwrites `count` blocks of the segment, from `at` on, with stored blocks made of the user data in `s`.
pub fn insert_blocks(
    t: &Table,
    segment: &mut [u8],
    at: usize,
    s: &[u8],
    size: usize,
    intervals: usize,
    count: usize,
    m: Marks,
)
    requires size_value { count * (intervals * size) ≡ length s.now }
    requires size_in_bounds { at + count * (intervals * (size + 8)) ≤ length segment.old }
    requires size_bound { (size ≤ 4096) × (intervals ≤ 8) × (m.step ≤ 1) }
    ensures { segment.new ≡ put at (stored_blocks size intervals count m s.now) segment.old }
{
    let part = intervals * size;
    let stored = intervals * (size + 8);
    let by = intervals as u32 * m.step;
    let mut here = m;
    for i in 0..count {
        let from = i * part;
        let to = at + i * stored;
        let block = &mut segment[to..to + stored];
        insert_block(t, block, &s[from..from + part], size, intervals, here);
        here.reference = here.reference.wrapping_add(by);
    }
}
