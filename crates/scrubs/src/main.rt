// Runs cases of document 02's 'Scrubbing a few blocks at a time' on document 01's segment M, and prints what each hands back.
// Kept: printed through `io`, for the reason that stands in `shown`.
#![tactic(auto)]

fn main() {
    steps();
    ends();
    refusals();
}

// All of M in one call, and block by block.
fn steps() {
    of_m(0, 0, 3);
    of_m(0, 0, 1);
    of_m(0, 1, 1);
    of_m(0, 2, 1);
}

// More blocks than are left, none, and from N on.
fn ends() {
    of_m(0, 1, 0xFFFF_FFFF_FFFF_FFFF);
    of_m(0, 1, 0);
    of_m(0, 3, 1);
}

// A place above N, and with it a description whose ATO is 2.
fn refusals() {
    of_m(0, 4, 1);
    of_m(2, 4, 1);
}

// A scrub of M, described with this ATO.
fn of_m(ato: u64, place: u64, blocks: u64) {
    let d = segment::described(1, 8, 0, 7, 3, ato);
    let x = scrub::scrub(
        d,
        b"\x00\x00\x00\x00\x00\x00\x00\x01\x8b\xb7\x00\x00\x00\x00\x00\x07\x00\x00\x00\x00\x00\x00\x00\x02\x9c\xd9\x00\x00\x00\x00\x00\x07\x00\x00\x00\x00\x00\x00\x00\x03\x00\x00\xff\xff\x00\x00\x00\x00",
        place,
        blocks,
    );
    let a = x.answer;
    number(b"scrub of M with ATO ", ato);
    number(b", place ", place);
    number(b", blocks ", blocks);
    number(b": answer ", answer::number(a));
    number(b", next ", x.next);
    number(b", judged ", x.judged);
    number(b", faults ", x.faults);
    number(b", first ", x.first);
    io::write_all(1, b"\n");
}

fn number(name: &[u8], n: u64) {
    io::write_all(1, name);
    io::print_decimal(1, n);
}
