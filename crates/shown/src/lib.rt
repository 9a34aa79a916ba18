// An answer and bytes, as the programs that run document 01's cases print them.
// Kept: printed through `io`. std's printing would have these programs rest on two axioms more (README.md), and end where a write fails.
#![tactic(auto)]

use answer::Answer;

// The answer's number, address and interval, to the end of the line.
pub fn answer_line(a: Answer) {
    io::write_all(1, b": ");
    io::print_decimal(1, answer::number(a));
    io::write_all(1, b", address ");
    io::print_decimal(1, answer::address(a));
    io::write_all(1, b", interval ");
    io::print_decimal(1, answer::place(a));
    io::write_all(1, b"\n");
}

// What is asked, the answer's number, address and interval, and the lent bytes afterwards.
pub fn result_lines(name: &[u8], a: Answer, segment: &[u8], buffer: &[u8]) {
    io::write_all(1, name);
    answer_line(a);
    bytes_line(b"  segment ", segment);
    bytes_line(b"  buffer  ", buffer);
}

// A name, and bytes in hexadecimal.
pub fn bytes_line(name: &[u8], bytes: &[u8]) {
    io::write_all(1, name);
    hexadecimal(bytes);
    io::write_all(1, b"\n");
}

fn hexadecimal(bytes: &[u8]) {
    for b in bytes {
        io::print_hex(1, *b as u64, 2);
    }
}
