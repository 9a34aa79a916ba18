// What is judged is one of two sides; here stands which of them an operation checks, and over how many blocks.
#![tactic(auto)]

ghost use Rattle.std.specs.Prelude.{◌≡◌};
ghost use Rattle.sides.specs.Sides.{checks_as_write, checks_on, checked_on};

use command::{Command, Operation};
use segment::Description;

// What is judged: the blocks that a command sends, or the stored ones.
#[derive(Clone, Copy)]
pub enum Side {
    Sent,
    Stored,
}

// Whether a VERIFY checks what is sent, as a WRITE does, and not what is stored: it compares whole blocks.
fn checks_as_write(c: Command) -> bool
    ensures { result ≡ checks_as_write c }
{
    command::compares(c) && c.code != 0
}

// Whether an operation checks a side.
fn checks_on(side: Side, o: Operation, c: Command) -> bool
    ensures { result ≡ checks_on side o c }
{
    match side {
        Side::Sent => match o {
            Operation::Read => false,
            Operation::Write => c.code != 0,
            Operation::Verify => checks_as_write(c),
        },
        Side::Stored => match o {
            Operation::Read => true,
            Operation::Write => false,
            Operation::Verify => !checks_as_write(c),
        },
    }
}

// How many blocks of a side are checked: all of the transfer's or none.
pub fn checked_on(side: Side, d: Description, c: Command) -> u64
    ensures { result ≡ checked_on side d c }
{
    if d.kind == 0 {
        return 0;
    }
    if checks_on(side, c.operation, c) {
        return c.length;
    }
    0
}
