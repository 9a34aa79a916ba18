// The lines of a segment, printed.
#![tactic(auto)]

ghost use Rattle.std.specs.Prelude.{◌≡◌, length};
ghost use Rattle.segment.specs.Segment.{length_of};
ghost use Rattle.sheet.specs.Sheet.{PrintedLines, Room};
ghost use Rattle.contents.specs.Contents.{lines_of};

use command::Operation;
use guard::Table;
use segment::Segment;
use sheet::Counts;
use sides::Side;
use writing::Pen;

// The lines of a segment, printed; type 0 has none. The states are those of what code 001 of a 16-byte READ of the whole segment
// checks. The type rules are not applied: in type 2 such a command itself would be answered 5.
pub fn print_segment(segment: Segment, s: &[u8], pen: &mut Pen, counts: &mut Counts)
    requires d_value { length_of segment.numbers ≡ length s.now }
    requires room { Room pen.old counts.old (length s.now) }
    ensures { PrintedLines (lines_of segment.numbers s.now) pen.old counts.old pen.new counts.new }
{
    let d = segment.numbers;
    if d.kind == 0 {
        return;
    }
    let t = Table::new();
    let c = command::sixteen(Operation::Read, d.first, d.count);
    let r = rules::rules(Side::Stored, segment, c);
    let p = rules::start(d, c);
    body::print_blocks(&t, r, p, d.count as usize, s, pen, counts);
}
