// What each protect code chooses: document 01's table, in eight rows, looked up by the code. No other crate asks it yet.
#![tactic(auto)]

ghost use Rattle.std.specs.Prelude.{◌≡◌};
ghost use Rattle.codes.specs.Codes.{columns_of};
ghost use Rattle.codes.specs.Rows.{named, InOrder};

// A row for each code, its digits the document's columns: refused, moved with fields, guard, application, reference; 1 is yes, 0 is no.
// Of 110 and 111 the document says only that they are refused: they check nothing, and like all codes but 000 count as moved with fields.
const CODES: [u8; 8] = [
    0b0_0_1_1_1, // 000
    0b0_1_1_1_1, // 001
    0b0_1_0_1_1, // 010
    0b0_1_0_0_0, // 011
    0b0_1_1_0_0, // 100
    0b0_1_1_1_1, // 101
    0b1_1_0_0_0, // 110
    0b1_1_0_0_0, // 111
];

// A row, its columns by name; `fields` is 'moved with fields'.
#[derive(Clone, Copy)]
pub struct Columns {
    pub refused: bool,
    pub fields: bool,
    pub guard: bool,
    pub application: bool,
    pub reference: bool,
}

fn named(row: u8) -> Columns
    ensures { result ≡ named row }
{
    Columns {
        refused: row / 0b10000 % 2 == 1,
        fields: row / 0b01000 % 2 == 1,
        guard: row / 0b00100 % 2 == 1,
        application: row / 0b00010 % 2 == 1,
        reference: row % 2 == 1,
    }
}

// The rows, with their rule: looked up by `columns_of`, whose proof sees the rule and no row.
fn codes() -> [u8; 8]
    ensures { InOrder result }
{
    CODES
}

// What a code chooses. A number above 111 is no code, and is refused as 111 is.
pub fn columns_of(code: u8) -> Columns
    ensures { result ≡ columns_of code }
{
    let t = codes();
    if 0b111 < code {
        return named(t[0b111]);
    }
    named(t[code as usize])
}
