// The record that is listed: whether it is bad, the description that it gives, and the segment, or which refusal it gets.
#![tactic(auto)]

ghost use Rattle.std.specs.Prelude.{◌≡◌, IfOk};
ghost use Rattle.answer.specs.Answer.{answer_of};
ghost use Rattle.records.specs.Record.{frame_bad, Framed, described_by, record_answer};

use answer::{Reason, Refusal};
use segment::{Description, Segment};

// Whether the record is bad (answer 13): its length L, the bytes that follow, or its version.
#[tactic(auto, using(std::proofs::lemmas::Bool::Decides::nat_tests), unfolding(crate::specs::Record::frame_bad))]
fn frame_bad(input: &[u8]) -> bool
    ensures { result ≡ frame_bad input.now }
{
    if input.len() < 4 {
        return true;
    }
    let length = words::read4(input, 0) as usize;
    65532 < length || length < 15 || input.len() != 4 + length || input[4] != 1
}

// The description that a record gives.
pub fn described_by(input: &[u8]) -> Description
    requires { Framed input.now }
    ensures { result ≡ described_by input.now }
{
    let block = words::read2(input, 7) as u64;
    let first = words::read_at(input, 9, 8);
    let count = words::read2(input, 17) as u64;
    segment::described(input[5] as u64, block, input[6] as u64, first, count, 0)
}

// The segment that a record gives, of which the bytes stand behind the first nineteen; or the record's refusal.
pub fn segment_of(input: &[u8]) -> Result<Segment, Refusal>
    ensures answer { answer_of result ≡ record_answer input.now }
    ensures numbers { IfOk result (λ s. s.numbers ≡ described_by input.now) }
{
    answer::refused_if(frame_bad(input), Reason::ListingRecordBad)?;
    Segment::of_bytes(described_by(input), input.len() - 19)
}
