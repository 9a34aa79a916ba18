// The lines of one block, printed and counted.
#![tactic(auto)]

ghost use Rattle.judge.specs.Judge.{Run};
ghost use Rattle.sheet.specs.Sheet.{PrintedLines, Room};
ghost use Rattle.paragraph.specs.Paragraph.{lines_in};

use guard::Table;
use interval::{Place, Rules};
use sheet::Counts;
use writing::Pen;

// Prints the lines of a block.
pub fn print_block(t: &Table, r: Rules, p: Place, s: &[u8], pen: &mut Pen, counts: &mut Counts)
    requires run { Run r 1 p s.now }
    requires room { Room pen.old counts.old r.intervals }
    ensures { PrintedLines (lines_in r p s.now) pen.old counts.old pen.new counts.new }
{
    let skipped = interval::any_escapes(r.escape, r.size, r.intervals, s);
    let stored = r.size + 8;
    let mut here = p;
    for k in 0..r.intervals {
        let i = k * stored;
        let interval = &s[i..i + stored];
        sheet::print_interval(t, r, skipped, k as u64, here, interval, pen, counts);
        here = judge::next_interval(here);
    }
}
