// From a command's bytes to its answer: admission, then judging and comparing, and only then moving.
#![tactic(auto)]

ghost use Rattle.std.specs.Prelude.{◌≡◌, ◌+◌};
ghost use Rattle.segment.specs.Places.{offset_of, span_of};
ghost use Rattle.answer.specs.Outcome.{outcome};
ghost use Rattle.admission.specs.Ready.{Ready};
ghost use Rattle.execute.specs.Lent.{lent, lengths_of};
ghost use Rattle.execute.specs.Execute.{moved, performed, executed};

use admission::Admitted;
use answer::Answer;
use command::Operation;
use guard::Table;
use refusal::Lengths;
use segment::Description;
use transfer::Transfer;

// Moves the blocks of a transfer that is good: those of the segment lie from `at` to `end`.
fn move_blocks(t: &Table, x: Transfer, segment: &mut [u8], at: usize, end: usize, buffer: &mut [u8])
    requires ready { Ready x.segment.numbers x.command (lengths_of (lent segment.old buffer.old)) }
    requires at_value { (at ≡ offset_of x.segment.numbers x.command.address) × (end ≡ at + span_of x.segment.numbers x.command.length) }
    ensures { lent segment.new buffer.new ≡ moved x.segment.numbers x.command (lent segment.old buffer.old) }
{
    match x.command.operation {
        Operation::Read => x.hand_out(&segment[at..end], buffer),
        Operation::Write => x.store(t, segment, at, buffer),
        Operation::Verify => {}
    }
}

// What an admitted command does: both sides are judged, its blocks compared where it compares, and only then a byte moves. A side that
// is not checked is good, whatever stands there, as the buffer of a READ. The table is made once and lent to all below.
fn perform(a: Admitted, segment: &mut [u8], buffer: &mut [u8]) -> Answer
    requires { a.lengths ≡ lengths_of (lent segment.old buffer.old) }
    ensures { outcome result (lent segment.new buffer.new) ≡ performed a.segment.numbers a.command (lent segment.old buffer.old) }
{
    let t = Table::new();
    let x = Transfer {
        segment: a.segment,
        command: a.command,
    };
    let at = a.segment.offset(a.command.address);
    let end = at + a.segment.span(a.command.length);
    x.verdict(&t, buffer, &segment[at..end])?;
    move_blocks(&t, x, segment, at, end, buffer);
    Ok(())
}

// Executes a command on a segment. Every description, segment, command and buffer gets one answer of the table; any answer
// but good leaves every byte of the segment and of the buffer as it was.
pub fn execute(d: Description, segment: &mut [u8], command: &[u8], buffer: &mut [u8]) -> Answer
    ensures { outcome result (lent segment.new buffer.new) ≡ executed d command.now (lent segment.old buffer.old) }
{
    let lengths = Lengths {
        segment: segment.len(),
        buffer: buffer.len(),
    };
    let a = admission::admit(d, lengths, command)?;
    perform(a, segment, buffer)
}
