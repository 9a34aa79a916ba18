// The last line of a listing, and the one line of a refusal.
#![tactic(auto)]

ghost use Rattle.std.specs.Prelude.{◌+◌, ◌≤◌, ◌^◌};
ghost use Rattle.writing.specs.Laid.{Written};
ghost use Rattle.writing.specs.Printed.{Printed};
ghost use Rattle.closing.specs.Closing.{numbers_text, refused_text};

use answer::Answer;
use sheet::Counts;
use writing::Pen;

// The one line of a refusal.
pub fn print_refused(out: &mut [u8], a: Answer) -> usize
    ensures { Written (refused_text a) 0 out.old result out.new }
{
    let mut pen = Pen::new(out);
    text::labelled(&mut pen, b"refused ", answer::number(a), 0x0A);
    pen.at
}

// The last line: how many lines there are, how many with a fault, how many skipped.
pub fn print_total(pen: &mut Pen, counts: Counts)
    requires { pen.old.at + 88 ≤ 2 ^ 32 }
    ensures { Printed (numbers_text counts.lines counts.faults counts.skipped) pen.old pen.new }
{
    text::labelled(pen, b"intervals ", counts.lines, 0x20);
    text::labelled(pen, b"faults ", counts.faults, 0x20);
    text::labelled(pen, b"skipped ", counts.skipped, 0x0A);
}
