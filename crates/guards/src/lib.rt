// The guards of a run of intervals, laid end to end: the table is lent to all of them.
#![tactic(auto)]

ghost use Rattle.std.specs.Prelude.{◌≡◌, ◌*◌, length};
ghost use Rattle.answer.specs.Outcome.{outcome};
ghost use Rattle.guards.specs.Guards.{guards, guards_of};

use answer::{Answer, Reason, Refusal};
use guard::Table;

// Fills `out` with the guards of `count` intervals of `size` bytes, two bytes each.
fn fill_guards(t: &Table, data: &[u8], size: usize, count: usize, out: &mut [u8])
    requires size_value { count * size ≡ length «data».now }
    requires count_value { count * 2 ≡ length out.old }
    ensures { out.new ≡ guards_of size count «data».now }
{
    for i in 0..count {
        let at = i * size;
        let end = at + size;
        let g = t.guard(&data[at..end]);
        words::write2(out, i * 2, g);
    }
}

// The guards of the intervals of `size` bytes that `data` is made of, two bytes each, big-endian, into `out`.
// Refused with 4 if `size` is 0, `data` is not a whole number of intervals, or `out` does not have two bytes for each.
pub fn guards(data: &[u8], size: usize, out: &mut [u8]) -> Answer
    ensures { outcome result out.new ≡ guards «data».now size out.old }
{
    if size == 0 {
        return Err(Refusal::Refused(Reason::BufferLengthWrong));
    }
    let count = data.len() / size;
    if data.len() % size != 0 || out.len() != count * 2 {
        return Err(Refusal::Refused(Reason::BufferLengthWrong));
    }
    let t = Table::new();
    fill_guards(&t, data, size, count, out);
    Ok(())
}
