// The answers of document 01's table and of document 02, and the numbers and senses of the papers.
#![tactic(auto)]

ghost use Rattle.std.specs.Prelude.{◌≡◌};
ghost use Rattle.answer.specs.declared.Refusal.TheVariants.{Refused};
ghost use Rattle.answer.specs.Answer.{field_row, reason_row, number_of, address_of, place_of, refused_if, sense_numbered};

// A field of an interval.
#[derive(Clone, Copy)]
pub enum Field {
    Guard,
    Application,
    Reference,
}

// Why a call is refused, other than for an interval's field. The header has the same names.
#[derive(Clone, Copy)]
pub enum Reason {
    DescriptionBad,
    SegmentLengthWrong,
    CommandLengthWrong,
    BufferLengthWrong,
    OperationInvalid,
    FieldInvalid,
    AddressOutOfRange,
    StripeShapeBad,
    ParameterInvalid,
    ListingRecordBad,
    TransferTooLarge,
}

// Why a call is not good.
#[derive(Clone, Copy)]
pub enum Refusal {
    // the field whose check failed, the block's address and the interval's place in the transfer
    Wrong(Field, u64, u64),
    // the address of the first block that is not the one sent
    BlockDiffers(u64),
    Refused(Reason),
}

impl From<Reason> for Refusal {
    ghost from_gives = { λ r e. e ≡ Refused r };

    fn from(r: Reason) -> Refusal
        ensures { result ≡ Refused r }
    {
        Refusal::Refused(r)
    }
}

// Good, or why not.
pub type Answer = Result<(), Refusal>;

impl Field {
    fn number(self) -> u64
        ensures { result ≡ (field_row self).number }
    {
        match self {
            Field::Guard => 8,
            Field::Application => 9,
            Field::Reference => 10,
        }
    }
}

impl Reason {
    fn number(self) -> u64
        ensures { result ≡ (reason_row self).number }
    {
        match self {
            Reason::DescriptionBad => 1,
            Reason::SegmentLengthWrong => 2,
            Reason::CommandLengthWrong => 3,
            Reason::BufferLengthWrong => 4,
            Reason::OperationInvalid => 5,
            Reason::FieldInvalid => 6,
            Reason::AddressOutOfRange => 7,
            Reason::StripeShapeBad => 11,
            Reason::ParameterInvalid => 12,
            Reason::ListingRecordBad => 13,
            Reason::TransferTooLarge => 14,
        }
    }
}

// The answer's number.
// Kept: this and the next two are functions, and no `From`: an answer is std's Result, for which no impl can stand here.
pub fn number(a: Answer) -> u64
    ensures { result ≡ number_of a }
{
    match a {
        Ok(()) => 0,
        Err(Refusal::Wrong(f, _, _)) => f.number(),
        Err(Refusal::BlockDiffers(_)) => 15,
        Err(Refusal::Refused(r)) => r.number(),
    }
}

// The address of the block that a check failed at, or that differs; 0 for every other answer.
pub fn address(a: Answer) -> u64
    ensures { result ≡ address_of a }
{
    match a {
        Err(Refusal::Wrong(_, block, _)) => block,
        Err(Refusal::BlockDiffers(block)) => block,
        _ => 0,
    }
}

// The place of the interval that a check failed at; 0 for every other answer.
pub fn place(a: Answer) -> u64
    ensures { result ≡ place_of a }
{
    match a {
        Err(Refusal::Wrong(_, _, interval)) => interval,
        _ => 0,
    }
}

// A rule: the refusal where something holds.
pub fn refused_if(holds: bool, r: Reason) -> Answer
    ensures { result ≡ refused_if holds r }
{
    if holds {
        return Err(Refusal::Refused(r));
    }
    Ok(())
}

// Kept: a number to a number, since a C program asks by the number that it was handed.
// The sense that goes with an answer's number: key, code and qualifier, two hexadecimal digits each; 0 where the table has none.
pub fn sense_numbered(number: u64) -> u32
    ensures { result ≡ sense_numbered number }
{
    match number {
        5 => 0x05_20_00,
        6 => 0x05_24_00,
        7 => 0x05_21_00,
        8 => 0x0B_10_01,
        9 => 0x0B_10_02,
        10 => 0x0B_10_03,
        12 => 0x05_26_00,
        15 => 0x0E_1D_00,
        _ => 0,
    }
}
