// Runs the cases of document 01, 'Both sides of the line', that are commands, and some of document 02's 'Compare while verifying', and
// prints what comes of each.
#![tactic(auto)]

fn main() {
    reads();
    reads_at_the_ends();
    refusals();
    write();
    write_of_type_2();
    comparisons();
}

// READ (10) on M. Code 001 stands in the protect byte as 20h.
fn reads() {
    ten_bytes(b"READ (10) at 7, T 2, code 001", 0x28, 0x20, 7, 2, 32);
    ten_bytes(b"READ (10) at 7, T 2, code 011", 0x28, 0x60, 7, 2, 32);
    ten_bytes(b"READ (10) at 7, T 2, code 100", 0x28, 0x80, 7, 2, 32);
}

// Cases of READ on M, at its last block and past its ends.
fn reads_at_the_ends() {
    ten_bytes(b"READ (10) at 9, T 1, code 001", 0x28, 0x20, 9, 1, 16);
    ten_bytes(b"READ (10) at 10, T 0", 0x28, 0x00, 10, 0, 0);
    ten_bytes(b"READ (10) at 10, T 1", 0x28, 0x00, 10, 1, 8);
    ten_bytes(b"READ (10) at 6, T 0", 0x28, 0x00, 6, 0, 0);
}

// Commands on M that are refused before a block is looked at.
fn refusals() {
    ten_bytes(b"READ (10) with code 110", 0x28, 0xC0, 7, 1, 16);
    on_m(
        b"READ (32) of 32 bytes",
        b"\x7f\x00\x00\x00\x00\x00\x00\x18\x00\x09\x00\x00\x00\x00\x00\x00\x00\x00\x00\x07\x00\x00\x00\x07\x00\x00\x00\x00\x00\x00\x00\x01",
        &mut [0; 8],
    );
    ten_bytes(b"operation 00h", 0x00, 0x00, 0, 0, 0);
    on_m(
        b"READ (10) of 11 bytes",
        b"\x28\x00\x00\x00\x00\x07\x00\x00\x01\x00\x00",
        &mut [0; 8],
    );
}

// A command of ten bytes on M, with a buffer of `room` zeros, at most 32.
fn ten_bytes(name: &[u8], operation: u8, protect: u8, address: u8, blocks: u8, room: usize) {
    let mut buffer = [0; 32];
    if room <= buffer.len() {
        on_m(
            name,
            &[operation, protect, 0, 0, 0, address, 0, 0, blocks, 0],
            &mut buffer[..room],
        );
    }
}

fn write() {
    // M's third block: its application tag FFFFh is not an escape in incoming data
    on_m(
        b"WRITE (10) of M's third block to 9, code 001",
        b"\x2a\x20\x00\x00\x00\x09\x00\x00\x01\x00",
        &mut [0, 0, 0, 0, 0, 0, 0, 0x03, 0, 0, 0xFF, 0xFF, 0, 0, 0, 0],
    );
}

fn write_of_type_2() {
    let d = segment::described(2, 8, 1, 0, 1, 0);
    let mut segment = [0xFF; 24];
    let mut buffer = [0; 8];
    let a = execute::execute(
        d,
        &mut segment,
        b"\x7f\x00\x00\x00\x00\x00\x00\x18\x00\x0b\x00\x00\x00\x00\x00\x00\x00\x00\x00\x00\xff\xff\xff\xff\x00\x00\x00\x00\x00\x00\x00\x01",
        &mut buffer,
    );
    shown::result_lines(
        b"WRITE (32) of zero data, first tag FFFFFFFFh",
        a,
        &segment,
        &buffer,
    );
}

// VERIFY (10) on M with byte-check bits 01: 02h in the protect byte.
fn comparisons() {
    on_m(
        b"VERIFY (10) at 9, T 1, bits 01, with its data",
        b"\x2f\x02\x00\x00\x00\x09\x00\x00\x01\x00",
        &mut [0, 0, 0, 0, 0, 0, 0, 0x03],
    );
    on_m(
        b"VERIFY (10) at 9, T 1, bits 01, with other data",
        b"\x2f\x02\x00\x00\x00\x09\x00\x00\x01\x00",
        &mut [0, 0, 0, 0, 0, 0, 0, 0x83],
    );
    on_m(
        b"VERIFY (10) at 8, T 1, code 001, bits 01, with another reference tag",
        b"\x2f\x22\x00\x00\x00\x08\x00\x00\x01\x00",
        &mut [0, 0, 0, 0, 0, 0, 0, 0x02, 0x9C, 0xD9, 0, 0, 0, 0, 0, 0x08],
    );
    ten_bytes(b"VERIFY (10) at 7, T 1, bits 10", 0x2F, 0x04, 7, 1, 0);
}

// A command on M, whose ATO is 0.
fn on_m(name: &[u8], command: &[u8], buffer: &mut [u8]) {
    let d = segment::described(1, 8, 0, 7, 3, 0);
    let mut m =
        *b"\x00\x00\x00\x00\x00\x00\x00\x01\x8b\xb7\x00\x00\x00\x00\x00\x07\x00\x00\x00\x00\x00\x00\x00\x02\x9c\xd9\x00\x00\x00\x00\x00\x07\x00\x00\x00\x00\x00\x00\x00\x03\x00\x00\xff\xff\x00\x00\x00\x00";
    let a = execute::execute(d, &mut m, command, buffer);
    shown::result_lines(name, a, &m, buffer);
}
