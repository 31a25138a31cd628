// A quotient as a whole number.
#![tactic(auto)]

ghost use Rattle.std.specs.Prelude.{◌<◌};
ghost use Rattle.rounding.specs.Rounding.{Rounded};

// A quotient as the nearest whole number, and on an exact half the even one. The dividend is below 2 ^ 31, so that
// twice the remainder is a number.
pub fn rounded_quotient(dividend: usize, divisor: usize) -> usize
    requires divisor_nonzero { 0 < divisor }
    requires dividend_bound { dividend < 2147483648 }
    ensures { Rounded dividend divisor result }
{
    let below = dividend / divisor;
    let above = below + 1;
    let twice = 2 * (dividend % divisor);
    if twice < divisor {
        return below;
    }
    if divisor < twice {
        return above;
    }
    if below % 2 == 0 {
        return below;
    }
    above
}
