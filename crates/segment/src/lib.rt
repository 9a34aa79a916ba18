// The description of a segment, by value: which descriptions are segments, the sizes that follow, and where blocks lie.
#![tactic(auto)]

ghost use Rattle.std.specs.Prelude.{◌≡◌, ◌+◌, ◌^◌, ◌≤◌, leb, IfOk};
ghost use Rattle.answer.specs.Answer.{answer_of};
ghost use Rattle.segment.specs.Segment.{described, is_segment, IsSegment, intervals_of, size_of, stored_of, length_of};
ghost use Rattle.segment.specs.Rules.{description_rule, segment_rules};
ghost use Rattle.segment.specs.Places.{range_rule, place_rule, offset_of, span_of};

use answer::{Answer, Reason, Refusal};

// Kept: the type is a number, as all of them: a C program passes any six, and each gets its answer.
// Type P, block length B, exponent e, first address W, count N and ATO, as wide as a caller can pass them.
#[derive(Clone, Copy)]
pub struct Description {
    pub kind: u64,
    pub block: u64,
    pub exponent: u64,
    pub first: u64,
    pub count: u64,
    pub ato: u64,
}

// Kept: with it the six exports that are handed numbers say their order once.
// The description that six numbers give, in the order in which they are handed over.
pub fn described(
    kind: u64,
    block: u64,
    exponent: u64,
    first: u64,
    count: u64,
    ato: u64,
) -> Description
    ensures { result ≡ described kind block exponent first count ato }
{
    Description {
        kind,
        block,
        exponent,
        first,
        count,
        ato,
    }
}

// Whether so many blocks from an address on end at `end` or before it, as whole numbers.
fn ends(address: u64, count: u64, end: u64) -> bool
    ensures { result ≡ leb (address + count) end }
{
    count <= end && address <= end - count
}

// Whether the numbers describe a segment.
#[tactic(auto, using(std::proofs::lemmas::Bool::Decides::nat_tests), unfolding(crate::specs::Segment::is_segment))]
fn is_segment(d: Description) -> bool
    ensures { result ≡ is_segment d }
{
    if 3 < d.kind || 1 < d.ato {
        return false;
    }
    if d.block < 8 || 4096 < d.block || d.block % 8 != 0 {
        return false;
    }
    if 3 < d.exponent || (d.exponent != 0 && d.kind < 2) {
        return false;
    }
    if d.count < 1 || 65536 < d.count {
        return false;
    }
    ends(d.first, d.count, 0x8000_0000_0000_0000)
}

// Refusal 7, of a place above the number of blocks: the place of a block is the number of those before it.
pub fn place_rule(d: Description, place: u64) -> Answer
    ensures { result ≡ place_rule d place }
{
    answer::refused_if(d.count < place, Reason::AddressOutOfRange)
}

// A segment: the numbers of a description that are seen to describe one.
#[derive(Clone, Copy)]
pub struct Segment {
    pub numbers: Description,
    pub ghost is: { IsSegment numbers },
}

impl Segment {
    // Refusal 1, of numbers that describe no segment.
    pub fn of(d: Description) -> Result<Segment, Refusal>
        ensures answer { answer_of result ≡ description_rule d }
        ensures numbers { IfOk result (λ s. s.numbers ≡ d) }
    {
        answer::refused_if(!is_segment(d), Reason::DescriptionBad)?;
        Ok(Segment { numbers: d })
    }

    // Refusals 1 and 2, which every call on a segment of so many bytes begins with.
    pub fn of_bytes(d: Description, bytes: usize) -> Result<Segment, Refusal>
        ensures answer { answer_of result ≡ segment_rules d bytes }
        ensures numbers { IfOk result (λ s. s.numbers ≡ d) }
    {
        let s = Segment::of(d)?;
        answer::refused_if(bytes != s.length(), Reason::SegmentLengthWrong)?;
        Ok(s)
    }

    // The intervals of a block.
    pub fn intervals(self) -> usize
        ensures { result ≡ intervals_of self.numbers }
    {
        1usize << self.numbers.exponent
    }

    // The data bytes of an interval.
    pub fn size(self) -> usize
        ensures { result ≡ size_of self.numbers }
    {
        self.numbers.block as usize / self.intervals()
    }

    // The bytes of a stored block.
    pub fn stored(self) -> usize
        ensures { result ≡ stored_of self.numbers }
    {
        let d = self.numbers;
        if d.kind == 0 {
            return d.block as usize;
        }
        d.block as usize + 8 * self.intervals()
    }

    // The bytes of the segment.
    pub fn length(self) -> usize
        ensures { result ≡ length_of self.numbers }
    {
        self.numbers.count as usize * self.stored()
    }

    // Refusal 7, of `count` blocks from `address` on that are not all of the segment.
    pub fn range_rule(self, address: u64, count: u64) -> Answer
        ensures { result ≡ range_rule self.numbers address count }
    {
        let d = self.numbers;
        let outside = address < d.first || !ends(address, count, d.first + d.count);
        answer::refused_if(outside, Reason::AddressOutOfRange)
    }

    // Where the block of an address begins in the segment.
    pub fn offset(self, address: u64) -> usize
        requires { (self.numbers.first ≤ address) × (address ≤ self.numbers.first + self.numbers.count) }
        ensures { result ≡ offset_of self.numbers address }
    {
        (address - self.numbers.first) as usize * self.stored()
    }

    // How many bytes so many blocks have.
    pub fn span(self, count: u64) -> usize
        requires { count ≤ 65536 }
        ensures { result ≡ span_of self.numbers count }
    {
        count as usize * self.stored()
    }
}
