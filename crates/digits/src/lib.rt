// Numbers in decimal and hexadecimal digits, printed to a lent buffer.
#![tactic(auto)]

ghost use Rattle.std.specs.Prelude.{◌≡◌, ◌+◌, ◌≤◌, ◌<◌, ◌^◌};
ghost use Rattle.writing.specs.Laid.{Written};
ghost use Rattle.writing.specs.Printed.{Printed};
ghost use Rattle.digits.specs.Digits.{digit, hexadecimal, decimal_in, decimal};

use writing::Pen;

// The digit that stands for a number below sixteen.
fn digit(n: u64) -> u8
    requires { n < 16 }
    ensures { result ≡ digit n }
{
    if n < 10 {
        return 0x30 + n as u8;
    }
    0x57 + n as u8
}

// The low `k` hexadecimal digits of `n`, and the place behind them.
// Kept: it calls itself, and so does `decimal_in`, since the digit that is worked out first is printed last. Both have the place by value:
// see `writing::put`.
fn hexadecimal_in(out: &mut [u8], at: usize, k: usize, n: u64) -> usize
    requires { at + k ≤ 2 ^ 32 }
    ensures { Written (hexadecimal k n) at out.old result out.new }
{
    if k == 0 {
        return at;
    }
    let end = hexadecimal_in(out, at, k - 1, n / 16);
    writing::put(out, end, digit(n % 16))
}

// The low `k` hexadecimal digits of `n`.
pub fn hexadecimal(pen: &mut Pen, k: usize, n: u64)
    requires { pen.old.at + k ≤ 2 ^ 32 }
    ensures { Printed (hexadecimal k n) pen.old pen.new }
{
    pen.at = hexadecimal_in(pen.out, pen.at, k, n);
}

// The digits of `n`, of which there are at most `k`, and the place behind them.
fn decimal_in(out: &mut [u8], at: usize, k: usize, n: u64) -> usize
    requires { at + k ≤ 2 ^ 32 }
    ensures { Written (decimal_in k n) at out.old result out.new }
{
    if k == 0 {
        return at;
    }
    if n < 10 {
        return writing::put(out, at, digit(n));
    }
    let end = decimal_in(out, at, k - 1, n / 10);
    writing::put(out, end, digit(n % 10))
}

// A number, in as few digits as it needs.
pub fn decimal(pen: &mut Pen, n: u64)
    requires { pen.old.at + 20 ≤ 2 ^ 32 }
    ensures { Printed (decimal n) pen.old pen.new }
{
    pen.at = decimal_in(pen.out, pen.at, 20, n);
}
