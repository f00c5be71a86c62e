// Whole square roots by Newton's iteration from above: an opening's supply is the whole root of its product.
#![tactic(auto)]

ghost use Rattle.std.specs.Prelude.{◌≡◌};
ghost use Rattle.root.specs.Root.{root};
ghost use Rattle.wide.specs.Value.{value};

use divide::div_rem;
use wide::U128;

// The first guess is a power of two. The loop has no index, and each guess comes of the one before, so it stays a `while`; the library's `isqrt`
// halves an interval 32 times, and is slower.
fn isqrt_u64(x: u64) -> u64
    ensures { result ≡ root x }
{
    if x == 0 {
        return 0;
    }
    let mut guess = 1u64 << ((65 - x.leading_zeros()) / 2);
    let mut quotient = x / guess;
    while quotient < guess {
        guess = (guess + quotient) / 2;
        quotient = x / guess;
    }
    guess
}

// The first guess is the root of the high half, raised; the loop is a `while` as above. A guess at or below the high half is the root: its
// quotient has more than 64 bits.
pub fn isqrt(n: U128) -> u64
    ensures { result ≡ root (value n) }
{
    let high = n.high;
    if high == 0 {
        return isqrt_u64(n.low);
    }
    let mut guess = isqrt_u64(high) * 0x1_0000_0000 + 0xffff_ffff;
    while high < guess {
        let quotient = div_rem(n, guess).quotient;
        if guess <= quotient {
            break;
        }
        guess = quotient + (guess - quotient) / 2;
    }
    guess
}
