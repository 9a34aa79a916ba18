// Scrubbing: a few blocks of a segment from a place on, how many of them have a fault, and where the first is.
#![tactic(auto)]

ghost use Rattle.std.specs.Prelude.{◌≡◌, ◌+◌, ◌≤◌, ◌<◌, not, length, IfOk};
ghost use Rattle.std.specs.Option.{unwrap_or};
ghost use Rattle.answer.specs.Answer.{is_good, answer_of};
ghost use Rattle.segment.specs.Segment.{stored_of, length_of};
ghost use Rattle.interval.specs.Interval.{judge_pieces};
ghost use Rattle.judge.specs.Judge.{judge_block, Stretch};
ghost use Rattle.rules.specs.Intervals.{place_at};
ghost use Rattle.rules.specs.ReadAll.{read_all};
ghost use Rattle.scrub.specs.Scrub.{covered_of, Stepped, scrub_rules, refused, scrubbed};
ghost use Rattle.scrub.specs.Onward.{AsListed, Named, with_block};

use answer::{Answer, Refusal};
use command::Operation;
use guard::Rows;
use interval::{Place, Rules};
use segment::{Description, Segment};
use sides::Side;

// A segment that has fields, and what the listing, and so a scrub, judges its blocks by.
#[derive(Clone, Copy)]
struct Asked {
    segment: Segment,
    rules: Rules,
    ghost as_listed: { AsListed rules segment.numbers },
}

impl Asked {
    // Kept: beside `interval::judge_pieces`, which names the field: one call of what commands judge by cost READ an eighth of its time.
    // Whether an interval, as two pieces, is wrong: its guard is, or its reference tag where that is checked.
    fn wrong_pieces(self, w: &Rows, p: Place, data: &[u8], field: &[u8; 8]) -> bool
        ensures { result ≡ not (is_good (judge_pieces self.rules p «data».now field.now)) }
    {
        field::stored_guard(field) != w.guard(data)
            || interval::reference_wrong(self.rules, p, field)
    }

    // Whether a block has a fault: an interval of it is wrong, and none has the escape. An interval behind a wrong one may have
    // the escape, so the loop goes through all of them.
    fn faulty_intervals(self, w: &Rows, p: Place, s: &[u8]) -> bool
        requires { Stretch self.rules self.rules.intervals p s.now }
        ensures { result ≡ not (is_good (judge_block self.rules p s.now)) }
    {
        let r = self.rules;
        let mut here = p;
        let mut wrong = false;
        for k in 0..r.intervals {
            let i = k * (r.size + 8);
            let m = i + r.size;
            let field = field::field_of(s, m);
            if interval::escapes(r.escape, field) {
                return false;
            }
            wrong = wrong || self.wrong_pieces(w, here, &s[i..m], field);
            here = judge::next_interval(here);
        }
        wrong
    }

    // Whether `s`, the block at a place, has a fault. It is judged as by a 16-byte READ with code 001, to which the type rules are
    // not applied: in type 2 such a command itself would be answered 5.
    fn faulty_block(self, w: &Rows, at: u64, s: &[u8]) -> bool
        requires { (at < self.segment.numbers.count) × (length s.now ≡ stored_of self.segment.numbers) }
        ensures { result ≡ not (is_good (judge_block self.rules (place_at self.segment.numbers (read_all self.segment.numbers) at 0) s.now)) }
    {
        let d = self.segment.numbers;
        let p = rules::start(d, command::sixteen(Operation::Read, d.first + at, 1));
        self.faulty_intervals(w, p, s)
    }
}

// The blocks with a fault so far, and the address of the first of them.
#[derive(Clone, Copy)]
pub struct Found {
    pub faults: u64,
    pub first: Option<u64>,
}

impl Found {
    // What has been found with one block more, of this address.
    fn with_block(self, faulty: bool, address: u64) -> Found
        requires { self.faults < 65536 }
        ensures { result ≡ with_block faulty address self }
    {
        if !faulty {
            return self;
        }
        Found {
            faults: self.faults + 1,
            first: self.first.or(Some(address)),
        }
    }
}

// Kept: a refused call hands back numbers too, the place and zeros (`series: Demands.refused_hands_back`), so it is no Result.
// What a call hands back: the answer, the new place, the blocks judged in this call, how many had a fault, and the address of
// the first of these; 0 where none had.
#[derive(Clone, Copy)]
pub struct Scrubbed {
    pub answer: Answer,
    pub next: u64,
    pub judged: u64,
    pub faults: u64,
    pub first: u64,
}

// The smaller of a number of blocks and those left from a place on.
fn covered(d: Description, place: u64, blocks: u64) -> u64
    requires { place ≤ d.count }
    ensures { result ≡ covered_of d place blocks }
{
    blocks.min(d.count - place)
}

// A step from a place over a number of blocks: returns the count of those that it judged. Type 0 has no fault.
pub fn step(w: &Rows, d: Segment, s: &[u8], place: u64, blocks: u64, found: &mut Found) -> u64
    requires { (length_of d.numbers ≡ length s.now) × (place ≤ d.numbers.count) }
    ensures stepped { Stepped d.numbers s.now place blocks result found.new.faults (unwrap_or found.new.first 0) }
    ensures named { Named found.new }
{
    let count = covered(d.numbers, place, blocks);
    let mut so_far = Found {
        faults: 0,
        first: None,
    };
    if d.numbers.kind == 0 {
        *found = so_far;
        return count;
    }
    let size = d.stored();
    let read = command::sixteen(Operation::Read, d.numbers.first, d.numbers.count);
    let asked = Asked {
        segment: d,
        rules: rules::rules(Side::Stored, d, read),
    };
    for judged in 0..count {
        let at = place + judged;
        let i = at as usize * size;
        let faulty = asked.faulty_block(w, at, &s[i..i + size]);
        so_far = so_far.with_block(faulty, d.numbers.first + at);
    }
    *found = so_far;
    count
}

// Refusals 1, 2 and 7.
fn scrub_rules(d: Description, bytes: usize, place: u64) -> Result<Segment, Refusal>
    ensures answer { answer_of result ≡ scrub_rules d bytes place }
    ensures numbers { IfOk result (λ s. s.numbers ≡ d) }
{
    let s = Segment::of_bytes(d, bytes)?;
    segment::place_rule(d, place)?;
    Ok(s)
}

// A refused call hands back the place it was given and zeros.
fn refused(a: Answer, place: u64) -> Scrubbed
    ensures { result ≡ refused a place }
{
    Scrubbed {
        answer: a,
        next: place,
        judged: 0,
        faults: 0,
        first: 0,
    }
}

// Goes through a segment from a place on, over a number of blocks or as many as are left.
pub fn scrub(d: Description, s: &[u8], place: u64, blocks: u64) -> Scrubbed
    ensures { result ≡ scrubbed d s.now place blocks }
{
    let segment = match scrub_rules(d, s.len(), place) {
        Ok(segment) => segment,
        Err(e) => return refused(Err(e), place),
    };
    let mut found = Found {
        faults: 0,
        first: None,
    };
    let judged = step(&Rows::new(), segment, s, place, blocks, &mut found);
    let next = place + judged;
    Scrubbed {
        answer: Ok(()),
        next,
        judged,
        faults: found.faults,
        first: found.first.unwrap_or(0),
    }
}
