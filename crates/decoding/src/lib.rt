// From a command's bytes to what it asks for, by value; or the refusal.
#![tactic(auto)]

ghost use Rattle.std.specs.Prelude.{◌≡◌, length};
ghost use Rattle.decoding.specs.Commands.{byte_zero, service_action, find, check_bits, recognise, laid, layout_of, is_long, tags, fields, decode_as, decode};

use answer::Reason;
use command::{Command, Operation, Tags};

// The four sizes of a command.
#[derive(Clone, Copy)]
pub enum Form {
    Ten,
    Twelve,
    Sixteen,
    ThirtyTwo,
}

// Where the fields of a form stand: its bytes, the address and the bytes it has, the length and the bytes it has, the
// protect byte.
#[derive(Clone, Copy)]
pub struct Layout {
    pub bytes: usize,
    pub address: usize,
    pub addressed: usize,
    pub length: usize,
    pub lengthened: usize,
    pub protect: usize,
}

// Kept: this and the next are two columns of the document's table, one of a byte and one of a number of two bytes.
// The operation and the form that byte 0 names, of the three shorter forms.
fn by_byte(first: u8) -> Result<(Operation, Form), Reason>
    ensures { result ≡ find first byte_zero }
{
    match first {
        0x28 => Ok((Operation::Read, Form::Ten)),
        0x2A => Ok((Operation::Write, Form::Ten)),
        0x2F => Ok((Operation::Verify, Form::Ten)),
        0xA8 => Ok((Operation::Read, Form::Twelve)),
        0xAA => Ok((Operation::Write, Form::Twelve)),
        0xAF => Ok((Operation::Verify, Form::Twelve)),
        0x88 => Ok((Operation::Read, Form::Sixteen)),
        0x8A => Ok((Operation::Write, Form::Sixteen)),
        0x8F => Ok((Operation::Verify, Form::Sixteen)),
        _ => Err(Reason::OperationInvalid),
    }
}

// And that the service action names, of the longest.
fn by_action(action: u16) -> Result<(Operation, Form), Reason>
    ensures { result ≡ find action service_action }
{
    match action {
        0x0009 => Ok((Operation::Read, Form::ThirtyTwo)),
        0x000B => Ok((Operation::Write, Form::ThirtyTwo)),
        0x000A => Ok((Operation::Verify, Form::ThirtyTwo)),
        _ => Err(Reason::OperationInvalid),
    }
}

// The operation and the form of a command.
fn recognise(c: &[u8]) -> Result<(Operation, Form), Reason>
    ensures { result ≡ recognise c.now }
{
    if c.len() == 0 {
        return Err(Reason::CommandLengthWrong);
    }
    if c[0] != 0x7F {
        return by_byte(c[0]);
    }
    if c.len() < 10 {
        return Err(Reason::CommandLengthWrong);
    }
    by_action(words::read2(c, 8))
}

// Kept: with it the rows below stand as in the document's table.
fn laid(
    bytes: usize,
    address: usize,
    addressed: usize,
    length: usize,
    lengthened: usize,
    protect: usize,
) -> Layout
    ensures { result ≡ laid bytes address addressed length lengthened protect }
{
    Layout {
        bytes,
        address,
        addressed,
        length,
        lengthened,
        protect,
    }
}

// The row of a form: its bytes, the address, the length, the protect byte.
fn layout_of(f: Form) -> Layout
    ensures { result ≡ layout_of f }
{
    match f {
        Form::Ten => laid(10, 2, 4, 7, 2, 1),
        Form::Twelve => laid(12, 2, 4, 6, 4, 1),
        Form::Sixteen => laid(16, 2, 8, 10, 4, 1),
        Form::ThirtyTwo => laid(32, 12, 8, 28, 4, 10),
    }
}

// Whether the form has expected tags and a mask.
fn is_long(f: Form) -> bool
    ensures { result ≡ is_long f }
{
    matches!(f, Form::ThirtyTwo)
}

// The byte-check bits of the protect byte, which VERIFY alone has.
fn check_bits(o: Operation, protects: u8) -> u8
    ensures { result ≡ check_bits o protects }
{
    match o {
        Operation::Read => 0,
        Operation::Write => 0,
        Operation::Verify => protects / 2 % 4,
    }
}

// The tags and the mask, which the longest form alone brings; 0 in the others.
fn tags(f: Form, c: &[u8]) -> Tags
    requires { length c.now ≡ (layout_of f).bytes }
    ensures { result ≡ tags f c.now }
{
    if is_long(f) {
        Tags {
            reference: words::read4(c, 20),
            application: words::read2(c, 24),
            mask: words::read2(c, 26),
        }
    } else {
        Tags {
            reference: 0,
            application: 0,
            mask: 0,
        }
    }
}

// What the command asks for, given as many bytes as its form has.
fn fields(o: Operation, f: Form, c: &[u8]) -> Command
    requires { length c.now ≡ (layout_of f).bytes }
    ensures { result ≡ fields o f c.now }
{
    let l = layout_of(f);
    let protect = l.protect;
    let protects = c[protect];
    let check = check_bits(o, protects);
    let address = words::read_at(c, l.address, l.addressed);
    let length = words::read_at(c, l.length, l.lengthened);
    Command {
        operation: o,
        long: is_long(f),
        code: protects / 32,
        check,
        address,
        length,
        tags: tags(f, c),
    }
}

// A command of a known operation and form.
fn decode_as(o: Operation, f: Form, c: &[u8]) -> Result<Command, Reason>
    ensures { result ≡ decode_as o f c.now }
{
    if c.len() != layout_of(f).bytes {
        return Err(Reason::CommandLengthWrong);
    }
    if is_long(f) && c[7] != 0x18 {
        return Err(Reason::FieldInvalid);
    }
    Ok(fields(o, f, c))
}

// What a command's bytes ask for, or the refusal. Any bytes may be handed in, also no byte at all.
pub fn decode(c: &[u8]) -> Result<Command, Reason>
    ensures { result ≡ decode c.now }
{
    let (o, f) = recognise(c)?;
    decode_as(o, f, c)
}
