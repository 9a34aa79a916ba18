// The eight field bytes behind an interval's data, read and written.
#![tactic(auto)]

ghost use Rattle.std.specs.Prelude.{◌≡◌, ◌+◌, ◌≤◌, length};
ghost use Rattle.field.specs.Field.{field_of, stored_guard, stored_application, stored_reference, field_bytes};

// The field that stands behind `at` bytes.
pub fn field_of(s: &[u8], at: usize) -> &[u8; 8]
    requires { at + 8 ≤ length s.now }
    ensures { result.now ≡ field_of at s.now }
{
    let (fields, _) = s[at..].as_chunks();
    &fields[0]
}

pub fn stored_guard(field: &[u8; 8]) -> u16
    ensures { result ≡ stored_guard field.now }
{
    words::read2(field, 0)
}

pub fn stored_application(field: &[u8; 8]) -> u16
    ensures { result ≡ stored_application field.now }
{
    words::read2(field, 2)
}

pub fn stored_reference(field: &[u8; 8]) -> u32
    ensures { result ≡ stored_reference field.now }
{
    words::read4(field, 4)
}

// Fills the field `d`: the three, one behind the other, are one number of eight bytes.
pub fn write(d: &mut [u8], guard: u16, application: u16, reference: u32)
    requires { length d.old ≡ 8 }
    ensures { d.new ≡ field_bytes guard application reference }
{
    let tags = application as u64 * 0x1_0000_0000 + reference as u64;
    words::write(d, guard as u64 * 0x1_0000_0000_0000 + tags);
}
