// A line of the listing, before and as it is printed.
#![tactic(auto)]

ghost use Rattle.std.specs.Prelude.{◌≡◌, ◌+◌, ◌≤◌, ◌^◌, length};
ghost use Rattle.writing.specs.Printed.{Printed};
ghost use Rattle.lines.specs.Lines.{field_word, worded, state_of, line_of, state_text, line_text};

use answer::{Answer, Field, Refusal};
use guard::Table;
use interval::{Place, Rules};
use writing::Pen;

// The state of an interval's line.
#[derive(Clone, Copy)]
pub enum State {
    Skipped,
    Guard,
    Ref,
    Ok,
}

impl State {
    // The word for a wrong field. The listing expects no application tag.
    fn of_field(f: Field) -> State
        ensures { result ≡ field_word f }
    {
        match f {
            Field::Guard => State::Guard,
            Field::Application => State::Ok,
            Field::Reference => State::Ref,
        }
    }

    // What judging says of an interval, as a word of the listing.
    fn of(a: Answer) -> State
        ensures { result ≡ worded a }
    {
        match a {
            Err(Refusal::Wrong(f, _, _)) => State::of_field(f),
            _ => State::Ok,
        }
    }

    // The word as it is printed.
    fn text(self) -> &'static [u8]
        ensures { result.now ≡ state_text self }
    {
        match self {
            State::Skipped => b"skipped",
            State::Guard => b"guard",
            State::Ref => b"ref",
            State::Ok => b"ok",
        }
    }
}

// A line of the listing, before it is printed.
#[derive(Clone, Copy)]
pub struct Line {
    pub address: u64,
    pub interval: u64,
    pub guard: u16,
    pub application: u16,
    pub reference: u32,
    pub state: State,
}

// Kept: that `s` is an interval is asked of a slice, here, below and in `sheet`, for the reason that stands in `judge`.
// The state of the interval that `s` is: its data and its field.
fn state_of(t: &Table, r: Rules, skipped: bool, p: Place, s: &[u8]) -> State
    requires { r.size + 8 ≡ length s.now }
    ensures { result ≡ state_of r skipped p s.now }
{
    if skipped {
        return State::Skipped;
    }
    let size = r.size;
    State::of(interval::judge_pieces(t, r, p, &s[..size], field::field_of(s, size)))
}

// The line of the interval that `s` is, the one numbered `i` of its block.
pub fn line_of(t: &Table, r: Rules, skipped: bool, i: u64, p: Place, s: &[u8]) -> Line
    requires { r.size + 8 ≡ length s.now }
    ensures { result ≡ line_of r skipped i p s.now }
{
    let field = field::field_of(s, r.size);
    Line {
        address: p.address,
        interval: i,
        guard: field::stored_guard(field),
        application: field::stored_application(field),
        reference: field::stored_reference(field),
        state: state_of(t, r, skipped, p, s),
    }
}

impl Line {
    // Prints it, with a line feed behind.
    pub fn print(self, pen: &mut Pen)
        requires { pen.old.at + 69 ≤ 2 ^ 32 }
        ensures { Printed (line_text self) pen.old pen.new }
    {
        text::decimal_then(pen, self.address, 0x20);
        text::decimal_then(pen, self.interval, 0x20);
        text::hexadecimal_then(pen, 4, self.guard as u64, 0x20);
        text::hexadecimal_then(pen, 4, self.application as u64, 0x20);
        text::hexadecimal_then(pen, 8, self.reference as u64, 0x20);
        pen.word(self.state.text());
        pen.put(0x0A);
    }
}
