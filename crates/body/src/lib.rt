// The lines of a run of blocks, printed and counted.
#![tactic(auto)]

ghost use Rattle.std.specs.Prelude.{◌*◌};
ghost use Rattle.judge.specs.Judge.{Run};
ghost use Rattle.sheet.specs.Sheet.{PrintedLines, Room};
ghost use Rattle.body.specs.Body.{block_lines};

use guard::Table;
use interval::{Place, Rules};
use sheet::Counts;
use writing::Pen;

// Prints the lines of `count` blocks.
pub fn print_blocks(
    t: &Table,
    r: Rules,
    p: Place,
    count: usize,
    s: &[u8],
    pen: &mut Pen,
    counts: &mut Counts,
)
    requires run { Run r count p s.now }
    requires room { Room pen.old counts.old (count * r.intervals) }
    ensures { PrintedLines (block_lines r count p s.now) pen.old counts.old pen.new counts.new }
{
    let n = r.intervals;
    let stored = n * (r.size + 8);
    let mut here = p;
    for k in 0..count {
        let i = k * stored;
        paragraph::print_block(t, r, here, &s[i..i + stored], pen, counts);
        here = judge::next_block(n, here);
    }
}
