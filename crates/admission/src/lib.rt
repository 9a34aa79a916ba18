// The refusals that go by the description, the lengths and the command's bytes, in the document's order.
#![tactic(auto)]

ghost use Rattle.std.specs.Prelude.{◌≡◌, MatchResult};
ghost use Rattle.admission.specs.Admission.{admitted};
ghost use Rattle.admission.specs.Ready.{Ready};

use answer::Refusal;
use command::Command;
use refusal::Lengths;
use segment::{Description, Segment};

// A command that goes on, the segment that it goes on with, and the lengths of what is lent to it.
#[derive(Clone, Copy)]
pub struct Admitted {
    pub segment: Segment,
    pub command: Command,
    pub lengths: Lengths,
    pub ghost ready: { Ready segment.numbers command lengths },
}

// All that is decided before a byte of the segment or the buffer is looked at.
pub fn admit(d: Description, lengths: Lengths, command: &[u8]) -> Result<Admitted, Refusal>
    ensures { MatchResult result
        (λ a. (Ok a.command ≡ admitted d lengths command.now) × (a.segment.numbers ≡ d) × (a.lengths ≡ lengths))
        (λ e. Err e ≡ admitted d lengths command.now) }
{
    let segment = Segment::of_bytes(d, lengths.segment)?;
    let asked = decoding::decode(command)?;
    refusal::refusal(segment, asked, lengths)?;
    Ok(Admitted {
        segment,
        command: asked,
        lengths,
    })
}
