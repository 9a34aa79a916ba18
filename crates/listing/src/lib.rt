// A record to the bytes of its listing.
#![tactic(auto)]

ghost use Rattle.listing.specs.Listing.{Listed};

// Writes the listing of a record to `out`: of its bytes, as many as there is room for. Hands back how many bytes the whole listing has.
pub fn list(input: &[u8], out: &mut [u8]) -> usize
    ensures { Listed input.now out.old result out.new }
{
    match records::segment_of(input) {
        Ok(segment) => page::print_listed(segment, &input[19..], out),
        Err(e) => closing::print_refused(out, Err(e)),
    }
}
