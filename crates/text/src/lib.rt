// A number with a byte behind it, or between a word and a byte, printed to a lent buffer.
#![tactic(auto)]

ghost use Rattle.std.specs.Prelude.{◌∷◌, [], ◌++◌, ◌+◌, ◌≤◌, ◌<◌, ◌^◌, length};
ghost use Rattle.writing.specs.Printed.{Printed};
ghost use Rattle.digits.specs.Digits.{hexadecimal, decimal};

use writing::Pen;

// A number, and one byte behind it.
// Kept: this and the next are two lines each, and one function that takes the number's printing as a closure is no shorter.
pub fn decimal_then(pen: &mut Pen, n: u64, b: u8)
    requires { pen.old.at + 21 ≤ 2 ^ 32 }
    ensures { Printed (decimal n ++ (b ∷ [])) pen.old pen.new }
{
    digits::decimal(pen, n);
    pen.put(b);
}

pub fn hexadecimal_then(pen: &mut Pen, k: usize, n: u64, b: u8)
    requires { pen.old.at + k < 2 ^ 32 }
    ensures { Printed (hexadecimal k n ++ (b ∷ [])) pen.old pen.new }
{
    digits::hexadecimal(pen, k, n);
    pen.put(b);
}

// A word, a number behind it, and one byte behind that.
pub fn labelled(pen: &mut Pen, word: &[u8], n: u64, b: u8)
    requires { pen.old.at + length word.now + 21 ≤ 2 ^ 32 }
    ensures { Printed (word.now ++ (decimal n ++ (b ∷ []))) pen.old pen.new }
{
    pen.word(word);
    decimal_then(pen, n, b);
}
