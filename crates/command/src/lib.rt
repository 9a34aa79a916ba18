// What a command asks for, by value; whether it compares; and what a 16-byte command with code 001 asks.
#![tactic(auto)]

ghost use Rattle.std.specs.Prelude.{◌≡◌};
ghost use Rattle.command.specs.Sixteen.{sixteen};
ghost use Rattle.command.specs.Compares.{compares};
ghost use Rattle.command.specs.Tags.{tag_of, application_of, mask_of};

#[derive(Clone, Copy)]
pub enum Operation {
    Read,
    Write,
    Verify,
}

// The expected tags, and the mask of the application tag.
#[derive(Clone, Copy)]
pub struct Tags {
    pub reference: u32,
    pub application: u16,
    pub mask: u16,
}

// What a command asks. A 32-byte command, which is `long`, brings tags; any other has 0 there.
// Kept: the code and the byte-check bits are numbers, as the document prints them: which are refused is asked later, in its order.
// Kept: `long` stands beside the tags, so that a command that is short and has tags can be written too: the rules answer on it.
#[derive(Clone, Copy)]
pub struct Command {
    pub operation: Operation,
    pub long: bool,
    pub code: u8,
    pub check: u8,
    pub address: u64,
    pub length: u64,
    pub tags: Tags,
}

impl Command {
    // The first reference tag expected.
    pub fn tag(self) -> u32
        ensures { result ≡ tag_of self }
    {
        self.tags.reference
    }

    // The application tag expected.
    pub fn application(self) -> u16
        ensures { result ≡ application_of self }
    {
        self.tags.application
    }

    // The application tag's mask.
    pub fn mask(self) -> u16
        ensures { result ≡ mask_of self }
    {
        self.tags.mask
    }
}

// Whether what is stored is compared with what is sent: a VERIFY with byte-check bits 01b.
pub fn compares(c: Command) -> bool
    ensures { result ≡ compares c }
{
    matches!(c.operation, Operation::Verify) && c.check == 0b01
}

// What a 16-byte command with code 001 asks of `length` blocks from `address` on.
pub fn sixteen(o: Operation, address: u64, length: u64) -> Command
    ensures { result ≡ sixteen o address length }
{
    Command {
        operation: o,
        long: false,
        code: 0b001,
        check: 0,
        address,
        length,
        tags: Tags {
            reference: 0,
            application: 0,
            mask: 0,
        },
    }
}
