// What a WRITE with code 000 inserts: from the description and the command to the marks of new fields.
#![tactic(auto)]

ghost use Rattle.std.specs.Prelude.{◌≡◌};
ghost use Rattle.marks.specs.Inserted.{inserted_application, inserted_reference, marks_of};

use command::Command;
use insertion::Marks;
use segment::{Description, Segment};

fn inserted_application(d: Description, c: Command) -> u16
    ensures { result ≡ inserted_application d c }
{
    if d.ato == 0 {
        return 0;
    }
    if c.long { c.tags.application } else { 0xFFFF }
}

fn inserted_reference(d: Segment, c: Command) -> u32
    ensures { result ≡ inserted_reference d.numbers c }
{
    let kind = d.numbers.kind;
    if kind == 1 {
        return (c.address % 0x1_0000_0000) as u32;
    }
    if kind == 2 {
        if c.long {
            return c.tags.reference;
        }
        return (c.address % 0x1_0000_0000 * d.intervals() as u64 % 0x1_0000_0000) as u32;
    }
    0
}

// What a WRITE with code 000, which brings no fields, puts into them.
pub fn marks(d: Segment, c: Command) -> Marks
    ensures { result ≡ marks_of d.numbers c }
{
    Marks {
        application: inserted_application(d.numbers, c),
        reference: inserted_reference(d, c),
        step: if d.numbers.kind == 3 { 0 } else { 1 },
    }
}
