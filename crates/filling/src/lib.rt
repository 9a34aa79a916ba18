// Filling a fresh segment.
#![tactic(auto)]

ghost use Rattle.std.specs.Prelude.{◌≡◌, ◌*◌, ◌+◌, length};
ghost use Rattle.answer.specs.Outcome.{outcome};
ghost use Rattle.filling.specs.Fresh.{filled, fresh_interval, fresh_intervals};

use answer::Answer;
use segment::{Description, Segment};

// Makes `d` a fresh interval of `size` data bytes: data zero, every field byte FFh.
fn fill_interval(d: &mut [u8], size: usize)
    requires { size + 8 ≡ length d.old }
    ensures { d.new ≡ fresh_interval size }
{
    words::fill_with(d, 0);
    words::fill_with(&mut d[size..], 0xFF);
}

// Makes `d` `count` fresh intervals.
fn fill_intervals(d: &mut [u8], size: usize, count: usize)
    requires { count * (size + 8) ≡ length d.old }
    ensures { d.new ≡ fresh_intervals size count }
{
    for i in 0..count {
        let at = i * (size + 8);
        let end = at + (size + 8);
        fill_interval(&mut d[at..end], size);
    }
}

// Fills the segment: data zero, every field byte FFh.
pub fn fill(d: Description, segment: &mut [u8]) -> Answer
    ensures { outcome result segment.new ≡ filled d segment.old }
{
    let s = Segment::of_bytes(d, segment.len())?;
    if d.kind == 0 {
        words::fill_with(segment, 0);
        return Ok(());
    }
    let count = d.count as usize * s.intervals();
    fill_intervals(segment, s.size(), count);
    Ok(())
}
