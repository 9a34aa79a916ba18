// Runs the guards and the parity of document 01, 'Both sides of the line', and prints what comes of each.
// Kept: printed through `io`, for the reason that stands in `shown`.
#![tactic(auto)]

fn main() {
    guards();
    parity();
}

fn guards() {
    guard_line(b"32 x 00             ", &[0; 32]);
    guard_line(b"32 x ff             ", &[255; 32]);
    guard_line(
        b"00 to 1f            ",
        b"\x00\x01\x02\x03\x04\x05\x06\x07\x08\x09\x0a\x0b\x0c\x0d\x0e\x0f\x10\x11\x12\x13\x14\x15\x16\x17\x18\x19\x1a\x1b\x1c\x1d\x1e\x1f",
    );
    guard_line(
        b"ff ff then 30 x 00  ",
        b"\xff\xff\x00\x00\x00\x00\x00\x00\x00\x00\x00\x00\x00\x00\x00\x00\x00\x00\x00\x00\x00\x00\x00\x00\x00\x00\x00\x00\x00\x00\x00\x00",
    );
    guard_line(
        b"ff down to e0       ",
        b"\xff\xfe\xfd\xfc\xfb\xfa\xf9\xf8\xf7\xf6\xf5\xf4\xf3\xf2\xf1\xf0\xef\xee\xed\xec\xeb\xea\xe9\xe8\xe7\xe6\xe5\xe4\xe3\xe2\xe1\xe0",
    );
}

// What the data is, its guard through the table, its guard by long division.
fn guard_line(name: &[u8], data: &[u8]) {
    io::write_all(1, name);
    io::print_hex(1, guard::guard_by_table(data) as u64, 4);
    io::write_all(1, b" ");
    io::print_hex(1, guard::guard_by_division(data) as u64, 4);
    io::write_all(1, b"\n");
}

// Members: M's first block, and one whose reference tag is 7 too.
fn parity() {
    let d = segment::described(1, 8, 0, 7, 1, 0);
    let mut out = [0; 16];
    let a = stripe::make(
        d,
        2,
        b"\x00\x00\x00\x00\x00\x00\x00\x01\x8b\xb7\x00\x00\x00\x00\x00\x07\x00\x00\x00\x00\x00\x00\x00\x02\x9c\xd9\x00\x00\x00\x00\x00\x07",
        &mut out,
    );
    io::write_all(1, b"parity of two members");
    shown::answer_line(a);
    shown::bytes_line(b"  parity  ", &out);
}
