// Stripes of up to sixteen members: making parity, rebuilding a lost part, correcting parity, and their refusals.
#![tactic(auto)]

ghost use Rattle.std.specs.Prelude.{◌≡◌, IfOk};
ghost use Rattle.answer.specs.Answer.{answer_of};
ghost use Rattle.answer.specs.Outcome.{outcome};
ghost use Rattle.stripe.specs.Stripe.{stripe_rules, in_range, made, rebuilt, corrected};

use answer::{Answer, Reason, Refusal};
use segment::{Description, Segment};

// Whether a stripe can have `k` members.
#[tactic(auto, unfolding(crate::specs::Stripe::in_range))]
fn in_range(k: u64) -> bool
    ensures { result ≡ in_range k }
{
    1 <= k && k <= 16
}

// Refusal 1, then 11 for type 0 and where the shape is not right.
fn stripe_rules(d: Description, shaped: bool) -> Result<Segment, Refusal>
    ensures answer { answer_of result ≡ stripe_rules d shaped }
    ensures numbers { IfOk result (λ s. s.numbers ≡ d) }
{
    let s = Segment::of(d)?;
    if d.kind == 0 || !shaped {
        return Err(Refusal::Refused(Reason::StripeShapeBad));
    }
    Ok(s)
}

// Makes the parity of `k` members in `out`.
pub fn make(d: Description, k: u64, members: &[u8], out: &mut [u8]) -> Answer
    ensures { outcome result out.new ≡ made d k members.now out.old }
{
    let s = stripe_rules(d, in_range(k))?;
    let count = k as usize;
    let long = s.length();
    if members.len() != count * long || out.len() != long {
        return Err(Refusal::Refused(Reason::StripeShapeBad));
    }
    parity::join(out, members, count, &members[..0], 0);
    Ok(())
}

// Rebuilds part `lost` of `k` members and their parity in `out`.
pub fn rebuild(d: Description, k: u64, lost: u64, parts: &[u8], out: &mut [u8]) -> Answer
    ensures { outcome result out.new ≡ rebuilt d k lost parts.now out.old }
{
    let shaped = in_range(k) && lost <= k;
    let s = stripe_rules(d, shaped)?;
    let count = k as usize;
    let long = s.length();
    if parts.len() != (count + 1) * long || out.len() != long {
        return Err(Refusal::Refused(Reason::StripeShapeBad));
    }
    parity::rebuild(out, parts, count, lost as usize);
    Ok(())
}

// Corrects `parity` where one member's bytes `old` became `new`.
pub fn correct(d: Description, old: &[u8], new: &[u8], parity: &mut [u8]) -> Answer
    ensures { outcome result parity.new ≡ corrected d old.now new.now parity.old }
{
    let s = stripe_rules(d, true)?;
    let long = s.length();
    if old.len() != long || new.len() != long || parity.len() != long {
        return Err(Refusal::Refused(Reason::StripeShapeBad));
    }
    parity::xor_two(parity, old, new);
    Ok(())
}
