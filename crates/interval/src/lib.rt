// One interval: whether it has the escape, and its fields against what is expected of them. The first wrong field is named.
#![tactic(auto)]

ghost use Rattle.std.specs.Prelude.{◌≡◌, ◌+◌, ◌*◌, length};
ghost use Rattle.interval.specs.Interval.{escapes, any_escapes, guard_wrong, application_wrong, reference_wrong, judge_pieces};

use answer::{Answer, Field, Refusal};
use guard::Table;

// What lifts all checks from a block: nothing, an application tag FFFFh, or that with a reference tag FFFFFFFFh.
#[derive(Clone, Copy)]
pub enum Escape {
    Never,
    Tag,
    Both,
}

// Kept: the table travels with it, and not in it: in a clause a struct that holds what is lent has one value as a call begins and one
// as it ends (`r.entry`), and each contract would be longer.
// How intervals are judged: those of a block and their data bytes; which fields are checked; the expected application tag
// and its mask; the escape.
#[derive(Clone, Copy)]
pub struct Rules {
    pub intervals: usize,
    pub size: usize,
    pub guard: bool,
    pub application: bool,
    pub reference: bool,
    pub expected: u16,
    pub mask: u16,
    pub escape: Escape,
}

// Where judging stands: the block's address, the interval's place in the transfer, the reference tag expected there.
#[derive(Clone, Copy)]
pub struct Place {
    pub address: u64,
    pub interval: u64,
    pub tag: u32,
}

// Whether the field of an interval has the escape.
pub fn escapes(e: Escape, field: &[u8; 8]) -> bool
    ensures { result ≡ escapes e field.now }
{
    match e {
        Escape::Never => false,
        Escape::Tag => field::stored_application(field) == 0xFFFF,
        Escape::Both => field::stored_application(field) == 0xFFFF
            && field::stored_reference(field) == 0xFFFF_FFFF,
    }
}

// Whether any of the first `count` intervals has the escape.
pub fn any_escapes(e: Escape, size: usize, count: usize, s: &[u8]) -> bool
    requires { count * (size + 8) ≡ length s.now }
    ensures { result ≡ any_escapes e size count s.now }
{
    for k in 0..count {
        let i = k * (size + 8);
        if escapes(e, field::field_of(s, i + size)) {
            return true;
        }
    }
    false
}

// Whether the guard is checked and is not that of the data.
fn guard_wrong(t: &Table, r: Rules, data: &[u8], field: &[u8; 8]) -> bool
    ensures { result ≡ guard_wrong r «data».now field.now }
{
    r.guard && field::stored_guard(field) != t.guard(data)
}

// Whether the application tag is checked and differs from the expected one where the mask has ones.
fn application_wrong(r: Rules, field: &[u8; 8]) -> bool
    ensures { result ≡ application_wrong r field.now }
{
    r.application && field::stored_application(field) & r.mask != r.expected & r.mask
}

// Whether the reference tag is checked and differs from the one expected at this place.
pub fn reference_wrong(r: Rules, p: Place, field: &[u8; 8]) -> bool
    ensures { result ≡ reference_wrong r p field.now }
{
    r.reference && field::stored_reference(field) != p.tag
}

// One interval, as two pieces: its data and its eight field bytes.
pub fn judge_pieces(t: &Table, r: Rules, p: Place, data: &[u8], field: &[u8; 8]) -> Answer
    ensures { result ≡ judge_pieces r p «data».now field.now }
{
    if guard_wrong(t, r, data, field) {
        return Err(Refusal::Wrong(Field::Guard, p.address, p.interval));
    }
    if application_wrong(r, field) {
        return Err(Refusal::Wrong(Field::Application, p.address, p.interval));
    }
    if reference_wrong(r, p, field) {
        return Err(Refusal::Wrong(Field::Reference, p.address, p.interval));
    }
    Ok(())
}
