// Numbers in bytes, exclusive or, copying and filling: what knows nothing of disks.
#![tactic(auto)]

ghost use Rattle.std.specs.Prelude.{◌≡◌, ◌+◌, ◌≤◌, length, replicate};
ghost use Rattle.words.specs.BigEndian.{number, number_at, bytes};
ghost use Rattle.words.specs.Parts.{put};
ghost use Rattle.words.specs.Xor.{xors};

// The number that the bytes of `s` stand for, at most eight of them.
fn read(s: &[u8]) -> u64
    requires { length s.now ≤ 8 }
    ensures { result ≡ number s.now }
{
    let mut n: u64 = 0;
    for b in s {
        n = n * 256 + *b as u64;
    }
    n
}

// The number in the `width` bytes of `s` from `at` on.
pub fn read_at(s: &[u8], at: usize, width: usize) -> u64
    requires { (width ≤ 8) × (at + width ≤ length s.now) }
    ensures { result ≡ number_at at width s.now }
{
    read(&s[at..at + width])
}

// The number in the two or four bytes of `s` from `at` on.
// Kept: one function for each type. A trait over the two, with its width and value, would be longer than both.
pub fn read2(s: &[u8], at: usize) -> u16
    requires { at + 2 ≤ length s.now }
    ensures { result ≡ number_at at 2 s.now }
{
    u16::from_be_bytes([s[at], s[at + 1]])
}

pub fn read4(s: &[u8], at: usize) -> u32
    requires { at + 4 ≤ length s.now }
    ensures { result ≡ number_at at 4 s.now }
{
    u32::from_be_bytes([s[at], s[at + 1], s[at + 2], s[at + 3]])
}

// Fills `d` with the low bytes of `n`, as many as it has.
pub fn write(d: &mut [u8], n: u64)
    ensures { d.new ≡ bytes (length d.old) n }
{
    let mut rest = n;
    for i in (0..d.len()).rev() {
        d[i] = (rest % 256) as u8;
        rest = rest / 256;
    }
}

// Writes `n` to the two bytes of `d` from `at` on.
pub fn write2(d: &mut [u8], at: usize, n: u16)
    requires { at + 2 ≤ length d.old }
    ensures { d.new ≡ put at (bytes 2 n) d.old }
{
    write(&mut d[at..at + 2], n as u64);
}

// Makes `d` a copy of `s`, which is as long.
pub fn copy(d: &mut [u8], s: &[u8])
    requires { length s.now ≡ length d.old }
    ensures { d.new ≡ s.now }
{
    for (i, &b) in s.iter().enumerate() {
        d[i] = b;
    }
}

// Makes `d` the exclusive or of itself and `s`, which is as long.
pub fn xor_into(d: &mut [u8], s: &[u8])
    requires { length s.now ≡ length d.old }
    ensures { d.new ≡ xors d.old s.now }
{
    for (i, &b) in s.iter().enumerate() {
        d[i] ^= b;
    }
}

// Makes every byte of `d` the byte `b`.
pub fn fill_with(d: &mut [u8], b: u8)
    ensures { d.new ≡ replicate (length d.old) b }
{
    d.fill(b);
}
