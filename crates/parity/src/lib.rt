// The exclusive or of parts: made, a lost one rebuilt, corrected.
#![tactic(auto)]

ghost use Rattle.std.specs.Prelude.{◌≡◌, ◌+◌, ◌*◌, ◌≤◌, length, take, drop};
ghost use Rattle.words.specs.Xor.{xors};
ghost use Rattle.parity.specs.Parity.{rebuilt_of};
ghost use Rattle.parity.specs.Stretch.{xor_stretch, joined};

// Makes `d` the exclusive or of itself, `a` and `b`, which are as long.
// Kept: beside `words::xor_into`, which takes one: two at a time go through `d` half as often.
pub fn xor_two(d: &mut [u8], a: &[u8], b: &[u8])
    requires { (length a.now ≡ length d.old) × (length b.now ≡ length d.old) }
    ensures { d.new ≡ xors (xors d.old a.now) b.now }
{
    for (i, &x) in a.iter().enumerate() {
        d[i] = d[i] ^ x ^ b[i];
    }
}

// Takes into `piece`, the stretch of an output that begins at `at`, the exclusive or of the same stretch of `count` parts of `long` bytes:
// two at a time, so that `piece` is gone through half as often.
fn xor_stretch(piece: &mut [u8], at: usize, parts: &[u8], long: usize, count: usize)
    requires { (at + length piece.old ≤ long) × (count * long ≡ length parts.now) }
    ensures { piece.new ≡ xor_stretch long (length piece.old) count piece.old (drop at parts.now) }
{
    for pair in 0..count / 2 {
        let from = 2 * pair * long + at;
        let end = from + piece.len();
        xor_two(piece, &parts[from..end], &parts[from + long..end + long]);
    }
    if count % 2 == 1 {
        let from = (count - 1) * long + at;
        words::xor_into(piece, &parts[from..from + piece.len()]);
    }
}

// Makes `piece`, the stretch of an output that begins at `at`, the same stretch of the exclusive or of `m` parts and `n` parts of `long` bytes.
fn join_stretch(
    piece: &mut [u8],
    at: usize,
    long: usize,
    before: &[u8],
    m: usize,
    after: &[u8],
    n: usize,
)
    requires { (at + length piece.old ≤ long) × ((m * long ≡ length before.now) × (n * long ≡ length after.now)) }
    ensures { piece.new ≡ take (length piece.old) (drop at (joined long m before.now n after.now)) }
{
    words::fill_with(piece, 0);
    xor_stretch(piece, at, before, long, m);
    xor_stretch(piece, at, after, long, n);
}

// Makes `out` the exclusive or of `m` parts and `n` parts, each as long as `out`: at most 4,096 bytes at a time, so that
// they stay near while all parts are gone through.
pub fn join(out: &mut [u8], before: &[u8], m: usize, after: &[u8], n: usize)
    requires { (m * length out.old ≡ length before.now) × (n * length out.old ≡ length after.now) }
    ensures { out.new ≡ joined (length out.old) m before.now n after.now }
{
    let long = out.len();
    for at in (0..long).step_by(4096) {
        let end = at + (long - at).min(4096);
        join_stretch(&mut out[at..end], at, long, before, m, after, n);
    }
}

// Makes `out` part `lost` of `count` parts and their parity, each as long as `out`: the exclusive or of the parts before it and those after it.
pub fn rebuild(out: &mut [u8], parts: &[u8], count: usize, lost: usize)
    requires { (lost ≤ count) × (length parts.now ≡ (count + 1) * length out.old) }
    ensures { out.new ≡ rebuilt_of (length out.old) count lost parts.now }
{
    let long = out.len();
    let end = lost * long;
    let next = end + long;
    join(out, &parts[..end], lost, &parts[next..], count - lost);
}
