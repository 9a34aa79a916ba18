// The listing of a segment: header, lines, last line.
#![tactic(auto)]

ghost use Rattle.std.specs.Prelude.{◌≡◌, ◌≤◌, length};
ghost use Rattle.segment.specs.Segment.{length_of};
ghost use Rattle.writing.specs.Laid.{Written};
ghost use Rattle.page.specs.Page.{listed_text};

use segment::Segment;
use sheet::Counts;
use writing::Pen;

// Prints the listing of a segment from the start of `out` on.
pub fn print_listed(segment: Segment, s: &[u8], out: &mut [u8]) -> usize
    requires d_value { length_of segment.numbers ≡ length s.now }
    requires s_len_bound { length s.now ≤ 65536 }
    ensures { Written (listed_text segment.numbers s.now) 0 out.old result out.new }
{
    let mut pen = Pen::new(out);
    pen.word(b"lba interval guard app ref state\n");
    let mut counts = Counts::default();
    contents::print_segment(segment, s, &mut pen, &mut counts);
    closing::print_total(&mut pen, counts);
    pen.at
}
