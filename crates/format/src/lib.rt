// The format choice.
#![tactic(auto)]

ghost use Rattle.std.specs.Prelude.{◌≡◌};
ghost use Rattle.format.specs.Choice.{choice_of, in_range, sentences, supports, by_usage, illegal, kind_of};

use answer::{Reason, Refusal};

// Kept: with it the sentences below read as the document's.
fn illegal(reason: Reason) -> Result<u64, Refusal>
    ensures { result ≡ illegal reason }
{
    Err(Refusal::Refused(reason))
}

// A type that one usage alone gives.
fn by_usage(usage: u64, wanted: u64, kind: u64) -> Result<u64, Refusal>
    ensures { result ≡ by_usage usage wanted kind }
{
    if usage == wanted {
        return Ok(kind);
    }
    illegal(Reason::ParameterInvalid)
}

fn supports(protect: u64, spt: u64) -> bool
    ensures { result ≡ supports protect spt }
{
    protect != 0 && matches!(spt, 0 | 1 | 3)
}

fn in_range(spt: u64, protect: u64, fmtpinfo: u64, usage: u64) -> bool
    ensures { result ≡ in_range spt protect fmtpinfo usage }
{
    spt <= 7 && protect <= 1 && fmtpinfo <= 3 && usage <= 7
}

fn sentences(spt: u64, protect: u64, fmtpinfo: u64, usage: u64) -> Result<u64, Refusal>
    ensures { result ≡ sentences spt protect fmtpinfo usage }
{
    if fmtpinfo == 0 {
        return by_usage(usage, 0, 0);
    }
    if fmtpinfo == 1 {
        return illegal(Reason::FieldInvalid);
    }
    if !supports(protect, spt) {
        return illegal(Reason::FieldInvalid);
    }
    if fmtpinfo == 2 {
        return by_usage(usage, 0, 1);
    }
    if spt == 0 {
        return illegal(Reason::FieldInvalid);
    }
    if spt == 1 {
        return by_usage(usage, 0, 2);
    }
    by_usage(usage, 1, 3)
}

// The type that a FORMAT UNIT command asks for. Any numbers.
pub fn choice_of(spt: u64, protect: u64, fmtpinfo: u64, usage: u64) -> Result<u64, Refusal>
    ensures { result ≡ choice_of spt protect fmtpinfo usage }
{
    if in_range(spt, protect, fmtpinfo, usage) {
        return sentences(spt, protect, fmtpinfo, usage);
    }
    illegal(Reason::FieldInvalid)
}

// The type that goes with the answer: a refusal comes with type 0.
pub fn kind(choice: Result<u64, Refusal>) -> u64
    ensures { result ≡ kind_of choice }
{
    choice.unwrap_or(0)
}
