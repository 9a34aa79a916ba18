// The rules on a command's fields, in the document's order: the first that refuses.
#![tactic(auto)]

ghost use Rattle.std.specs.Prelude.{◌≡◌, ◌≤◌};
ghost use Rattle.refusal.specs.Refusal.{type_rules, code_rule, check_rule, moved_of, size_rule, buffer_of, buffer_rule, refusal};

use answer::{Answer, Reason, Refusal};
use command::{Command, Operation};
use segment::{Description, Segment};

// The lengths of what is lent to a command.
#[derive(Clone, Copy)]
pub struct Lengths {
    pub segment: usize,
    pub buffer: usize,
}

fn type_rules(d: Description, c: Command) -> Answer
    ensures { result ≡ type_rules d c }
{
    if c.long {
        return answer::refused_if(d.kind != 2, Reason::OperationInvalid);
    }
    if c.code == 0 {
        return Ok(());
    }
    if d.kind == 2 {
        return Err(Refusal::Refused(Reason::OperationInvalid));
    }
    answer::refused_if(d.kind == 0, Reason::FieldInvalid)
}

fn code_rule(c: Command) -> Answer
    ensures { result ≡ code_rule c }
{
    answer::refused_if(0b101 < c.code, Reason::FieldInvalid)
}

fn check_rule(c: Command) -> Answer
    ensures { result ≡ check_rule c }
{
    answer::refused_if(0b01 < c.check, Reason::FieldInvalid)
}

// A command, and the segment that all of its blocks are of.
#[derive(Clone, Copy)]
struct Within {
    segment: Segment,
    command: Command,
    ghost few: { command.length ≤ 65536 },
}

impl Within {
    // The bytes that the transfer moves.
    fn moved(self) -> u64
        ensures { result ≡ moved_of self.segment.numbers self.command }
    {
        let c = self.command;
        if c.code == 0 {
            return c.length * self.segment.numbers.block;
        }
        c.length * self.segment.stored() as u64
    }

    fn size_rule(self) -> Answer
        ensures { result ≡ size_rule self.segment.numbers self.command }
    {
        answer::refused_if(4294967295 < self.moved(), Reason::TransferTooLarge)
    }

    // The bytes that the buffer must have.
    fn buffer(self) -> usize
        ensures { result ≡ buffer_of self.segment.numbers self.command }
    {
        let c = self.command;
        match c.operation {
            Operation::Read => self.moved() as usize,
            Operation::Write => self.moved() as usize,
            Operation::Verify => if command::compares(c) {
                self.moved() as usize
            } else {
                0
            },
        }
    }

    fn buffer_rule(self, lengths: Lengths) -> Answer
        ensures { result ≡ buffer_rule self.segment.numbers self.command lengths }
    {
        answer::refused_if(lengths.buffer != self.buffer(), Reason::BufferLengthWrong)
    }
}

// The first refusal of a command's fields, or good.
pub fn refusal(s: Segment, c: Command, lengths: Lengths) -> Answer
    ensures { result ≡ refusal s.numbers c lengths }
{
    type_rules(s.numbers, c)?;
    code_rule(c)?;
    check_rule(c)?;
    s.range_rule(c.address, c.length)?;
    let within = Within {
        segment: s,
        command: c,
    };
    within.size_rule()?;
    within.buffer_rule(lengths)
}
