// How a transfer's intervals are judged: from the description and the command to the rules of judging and the first tags.
#![tactic(auto)]

ghost use Rattle.std.specs.Prelude.{◌≡◌};
ghost use Rattle.rules.specs.Rules.{columns_in, columns_of, application_known, reference_known, first_tag, escape_of, rules_of, start_of};

use command::Command;
use interval::{Escape, Place, Rules};
use segment::{Description, Segment};
use sides::Side;

// Which fields a protect code chooses.
#[derive(Clone, Copy)]
pub struct Columns {
    pub guard: bool,
    pub application: bool,
    pub reference: bool,
}

// Kept: with it the rows below stand as in the document's table.
fn columns_in(guard: bool, application: bool, reference: bool) -> Columns
    ensures { result ≡ columns_in guard application reference }
{
    Columns {
        guard,
        application,
        reference,
    }
}

fn columns_of(code: u8) -> Columns
    ensures { result ≡ columns_of code }
{
    match code {
        0b000 => columns_in(true, true, true),
        0b001 => columns_in(true, true, true),
        0b010 => columns_in(false, true, true),
        0b011 => columns_in(false, false, false),
        0b100 => columns_in(true, false, false),
        0b101 => columns_in(true, true, true),
        _ => columns_in(false, false, false),
    }
}

#[tactic(auto, using(std::proofs::lemmas::Bool::Decides::nat_tests), unfolding(crate::specs::Rules::application_known))]
fn application_known(d: Description, c: Command) -> bool
    ensures { result ≡ application_known d c }
{
    c.long && d.ato == 1
}

#[tactic(auto, using(std::proofs::lemmas::Bool::Decides::nat_tests), unfolding(crate::specs::Rules::reference_known))]
fn reference_known(d: Description, c: Command) -> bool
    ensures { result ≡ reference_known d c }
{
    d.kind == 1 || (d.kind == 2 && c.long)
}

fn first_tag(d: Description, c: Command) -> u32
    ensures { result ≡ first_tag d c }
{
    if d.kind == 1 {
        (c.address % 0x1_0000_0000) as u32
    } else {
        c.tag()
    }
}

fn escape_of(side: Side, kind: u64) -> Escape
    ensures { result ≡ escape_of side kind }
{
    match side {
        Side::Sent => Escape::Never,
        Side::Stored => if kind == 3 { Escape::Both } else { Escape::Tag },
    }
}

// How the intervals of a side are judged.
pub fn rules(side: Side, d: Segment, c: Command) -> Rules
    ensures { result ≡ rules_of side d.numbers c }
{
    let columns = columns_of(c.code);
    Rules {
        intervals: d.intervals(),
        size: d.size(),
        guard: columns.guard,
        application: columns.application && application_known(d.numbers, c),
        reference: columns.reference && reference_known(d.numbers, c),
        expected: c.application(),
        mask: c.mask(),
        escape: escape_of(side, d.numbers.kind),
    }
}

// Where judging starts.
pub fn start(d: Description, c: Command) -> Place
    ensures { result ≡ start_of d c }
{
    Place {
        address: c.address,
        interval: 0,
        tag: first_tag(d, c),
    }
}
