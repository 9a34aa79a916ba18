// Kept: a description is six numbers in each of them: it is what C passes.
// What a C server links. Each function takes numbers and byte slices, and answers every input.
#![tactic(auto)]

ghost use Rattle.std.specs.Prelude.{◌≡◌};
ghost use Rattle.guard.specs.Guard.{guard};
ghost use Rattle.guards.specs.Guards.{guards};
ghost use Rattle.answer.specs.Answer.{sense_numbered};
ghost use Rattle.segment.specs.Segment.{described};
ghost use Rattle.execute.specs.Lent.{lent};
ghost use Rattle.execute.specs.Execute.{executed};
ghost use Rattle.format.specs.Choice.{choice_of};
ghost use Rattle.filling.specs.Fresh.{filled};
ghost use Rattle.scrub.specs.Scrub.{scrubbed};
ghost use Rattle.stripe.specs.Stripe.{made, rebuilt, corrected};
ghost use Rattle.listing.specs.Listing.{Listed};
ghost use Rattle.lamptassel.specs.Answers.{Executed, Chosen, Answered, HandedBack};

// Executes a command on a segment: READ, WRITE or VERIFY. Hands back the answer's number; the block's address and the
// interval's place that go with it are put into `address` and `place`.
#[unsafe(no_mangle)]
pub extern "C" fn lamptassel_execute(
    kind: u64,
    block: u64,
    exponent: u64,
    first: u64,
    count: u64,
    ato: u64,
    segment: &mut [u8],
    command: &[u8],
    buffer: &mut [u8],
    address: &mut u64,
    place: &mut u64,
) -> u64
    ensures { Executed (executed (described kind block exponent first count ato) command.now (lent segment.old buffer.old)) result address.new place.new (lent segment.new buffer.new) }
{
    let d = segment::described(kind, block, exponent, first, count, ato);
    let a = execute::execute(d, segment, command, buffer);
    *address = answer::address(a);
    *place = answer::place(a);
    answer::number(a)
}

// The format choice: the type is put into `kind`.
#[unsafe(no_mangle)]
pub extern "C" fn lamptassel_format_choice(
    spt: u64,
    protect: u64,
    fmtpinfo: u64,
    usage: u64,
    kind: &mut u64,
) -> u64
    ensures { Chosen (choice_of spt protect fmtpinfo usage) result kind.new }
{
    let c = format::choice_of(spt, protect, fmtpinfo, usage);
    *kind = format::kind(c);
    match c {
        Ok(_) => answer::number(Ok(())),
        Err(e) => answer::number(Err(e)),
    }
}

// Fills a fresh segment.
#[unsafe(no_mangle)]
pub extern "C" fn lamptassel_fill(
    kind: u64,
    block: u64,
    exponent: u64,
    first: u64,
    count: u64,
    ato: u64,
    segment: &mut [u8],
) -> u64
    ensures { Answered (filled (described kind block exponent first count ato) segment.old) result segment.new }
{
    let d = segment::described(kind, block, exponent, first, count, ato);
    answer::number(filling::fill(d, segment))
}

// Scrubs a segment from `place` on, over `blocks` blocks or as many as are left. Hands back the answer's number; the new place,
// the blocks judged in this call, how many had a fault, and the address of the first are put into the four places.
#[unsafe(no_mangle)]
pub extern "C" fn lamptassel_scrub(
    kind: u64,
    block: u64,
    exponent: u64,
    first: u64,
    count: u64,
    ato: u64,
    segment: &[u8],
    place: u64,
    blocks: u64,
    next: &mut u64,
    judged: &mut u64,
    faults: &mut u64,
    first_fault: &mut u64,
) -> u64
    ensures { HandedBack (scrubbed (described kind block exponent first count ato) segment.now place blocks) result next.new judged.new faults.new first_fault.new }
{
    let d = segment::described(kind, block, exponent, first, count, ato);
    let s = scrub::scrub(d, segment, place, blocks);
    *next = s.next;
    *judged = s.judged;
    *faults = s.faults;
    *first_fault = s.first;
    answer::number(s.answer)
}

// Makes the parity of `k` members in `out`.
#[unsafe(no_mangle)]
pub extern "C" fn lamptassel_parity(
    kind: u64,
    block: u64,
    exponent: u64,
    first: u64,
    count: u64,
    ato: u64,
    k: u64,
    members: &[u8],
    out: &mut [u8],
) -> u64
    ensures { Answered (made (described kind block exponent first count ato) k members.now out.old) result out.new }
{
    let d = segment::described(kind, block, exponent, first, count, ato);
    answer::number(stripe::make(d, k, members, out))
}

// Rebuilds part `lost` of `k` members and their parity in `out`.
#[unsafe(no_mangle)]
pub extern "C" fn lamptassel_rebuild(
    kind: u64,
    block: u64,
    exponent: u64,
    first: u64,
    count: u64,
    ato: u64,
    k: u64,
    lost: u64,
    parts: &[u8],
    out: &mut [u8],
) -> u64
    ensures { Answered (rebuilt (described kind block exponent first count ato) k lost parts.now out.old) result out.new }
{
    let d = segment::described(kind, block, exponent, first, count, ato);
    answer::number(stripe::rebuild(d, k, lost, parts, out))
}

// Corrects `parity` where one member's bytes `old` became `new`.
#[unsafe(no_mangle)]
pub extern "C" fn lamptassel_correct(
    kind: u64,
    block: u64,
    exponent: u64,
    first: u64,
    count: u64,
    ato: u64,
    old: &[u8],
    new: &[u8],
    parity: &mut [u8],
) -> u64
    ensures { Answered (corrected (described kind block exponent first count ato) old.now new.now parity.old) result parity.new }
{
    let d = segment::described(kind, block, exponent, first, count, ato);
    answer::number(stripe::correct(d, old, new, parity))
}

// Writes the listing of a record to `out`: of its bytes, as many as there is room for. Hands back how many bytes the whole
// listing has.
#[unsafe(no_mangle)]
pub extern "C" fn lamptassel_list(input: &[u8], out: &mut [u8]) -> usize
    ensures { Listed input.now out.old result out.new }
{
    listing::list(input, out)
}

// The sense of an answer's number.
#[unsafe(no_mangle)]
pub extern "C" fn lamptassel_sense(number: u64) -> u32
    ensures { result ≡ sense_numbered number }
{
    answer::sense_numbered(number)
}

// The guard of `data`, through the table.
#[unsafe(no_mangle)]
pub extern "C" fn lamptassel_guard(data: &[u8]) -> u16
    ensures { result ≡ guard «data».now }
{
    guard::guard_by_table(data)
}

// The same by long division: slower, and a second way to the same number.
#[unsafe(no_mangle)]
pub extern "C" fn lamptassel_guard_by_division(data: &[u8]) -> u16
    ensures { result ≡ guard «data».now }
{
    guard::guard_by_division(data)
}

// The guards of the intervals of `size` bytes that `data` is made of, two bytes each, big-endian, into `out`: one call for
// many intervals. Answers 0; or 4, with `out` as it was, if `size` is 0, `data` is not a whole number of intervals, or
// `out` does not have exactly two bytes for each.
#[unsafe(no_mangle)]
pub extern "C" fn lamptassel_guards(data: &[u8], size: usize, out: &mut [u8]) -> u64
    ensures { Answered (guards «data».now size out.old) result out.new }
{
    answer::number(guards::guards(data, size, out))
}
