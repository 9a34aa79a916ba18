// The line of one interval, printed and counted.
#![tactic(auto)]

ghost use Rattle.std.specs.Prelude.{◌≡◌, ◌∷◌, [], ◌+◌, ◌<◌, ◌^◌, length};
ghost use Rattle.lines.specs.Lines.{line_of};
ghost use Rattle.sheet.specs.Sheet.{faulty, skips, PrintedLines, Room};

use guard::Table;
use interval::{Place, Rules};
use lines::State;
use writing::Pen;

// How many lines were printed: all, those with a fault, those skipped.
#[derive(Clone, Copy, Default)]
pub struct Counts {
    pub lines: u64,
    pub faults: u64,
    pub skipped: u64,
}

impl Counts {
    // One line more, of this state.
    fn count(&mut self, s: State)
        requires { (self.old.lines < 2 ^ 32) × (self.old.faults < 2 ^ 32) × (self.old.skipped < 2 ^ 32) }
        ensures lines { self.new.lines ≡ self.old.lines + 1 }
        ensures faults { self.new.faults ≡ self.old.faults + faulty s }
        ensures skipped { self.new.skipped ≡ self.old.skipped + skips s }
    {
        self.lines += 1;
        match s {
            State::Skipped => self.skipped += 1,
            State::Guard | State::Ref => self.faults += 1,
            State::Ok => {}
        }
    }
}

// Prints the line of one interval, and counts it.
pub fn print_interval(
    t: &Table,
    r: Rules,
    skipped: bool,
    i: u64,
    p: Place,
    s: &[u8],
    pen: &mut Pen,
    counts: &mut Counts,
)
    requires size_value { r.size + 8 ≡ length s.now }
    requires room { Room pen.old counts.old 1 }
    ensures { PrintedLines (line_of r skipped i p s.now ∷ []) pen.old counts.old pen.new counts.new }
{
    let l = lines::line_of(t, r, skipped, i, p, s);
    l.print(pen);
    counts.count(l.state);
}
