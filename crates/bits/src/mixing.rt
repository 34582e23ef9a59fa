// Numbers mixed digit by digit: of bytes, and of quarters.
ghost use Rattle.std.specs.Prelude.{◌≡◌, ℕ, refl};
ghost use Rattle.std.specs.Int.Bits.{bit_and, bit_xor};
ghost use Rattle.bits.specs.Steps.{mixed};

use std::ops::{BitAnd, BitXor};

// A number whose `^` and `&` go digit by digit.
pub trait Digits: Copy + BitXor<Output = Self> + BitAnd<Output = Self> {
    // The number that it is.
    ghost number: { Self → ℕ };

    // The value that a number is of: so no two have one number.
    ghost value: { ℕ → Self };

    ghost number_tells: { (a : Self) → value (number a) ≡ a };

    ghost can_xor: { (a b : Self) → Self.can_bitxor a b };

    ghost can_and: { (a b : Self) → Self.can_bitand a b };

    ghost xor_is: { (a b c : Self) → Self.bitxor_gives a b c → number c ≡ bit_xor (number a) (number b) };

    ghost and_is: { (a b c : Self) → Self.bitand_gives a b c → number c ≡ bit_and (number a) (number b) };
}

impl Digits for u8 {
    ghost number = { λ x. x };

    ghost value = { λ n. n };

    ghost number_tells = { λ a. refl };

    ghost can_xor = { λ a b. tt };

    ghost can_and = { λ a b. tt };

    ghost xor_is = { λ a b c e. e };

    ghost and_is = { λ a b c e. e };
}

impl Digits for u64 {
    ghost number = { λ x. x };

    ghost value = { λ n. n };

    ghost number_tells = { λ a. refl };

    ghost can_xor = { λ a b. tt };

    ghost can_and = { λ a b. tt };

    ghost xor_is = { λ a b c e. e };

    ghost and_is = { λ a b c e. e };
}

// `a` with `b`'s digits where those of `m` are 1.
pub fn mix<T: Digits>(a: T, b: T, m: T) -> T
    ensures { T.number result ≡ mixed (T.number a) (T.number b) (T.number m) }
{
    a ^ ((a ^ b) & m)
}
