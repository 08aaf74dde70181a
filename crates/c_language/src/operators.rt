//! The operators on whole numbers (C99 6.5.3.3, 6.5.5 to 6.5.14): each converts its operands to the type in which it
//! works, and gives a value of this type, or the kind of undefined behaviour that is met.
ghost use Rattle.std.specs.Prelude.{◌≡◌, ◌≢◌, ◌<◌, ◌*◌, ◌-◌, ◌^◌, ◌+ℤ◌, ◌-ℤ◌, ◌*ℤ◌, int_div, pos, negsuc, false, ◌≤ℤ◌};
ghost use Rattle.c_language.specs.Operators as spec;
ghost use Rattle.c_language.specs.Integers.{converted, is_signed};

use crate::ctype::IntegerKind;
use plain_data::{Undefined, wrap};

fn plus(a: i128, b: i128) -> i128
    requires a_low { negsuc (2 ^ 63 - 1) ≤ℤ a }
    requires a_high { a ≤ℤ pos (2 ^ 64 - 1) }
    requires b_low { negsuc (2 ^ 63 - 1) ≤ℤ b }
    requires b_high { b ≤ℤ pos (2 ^ 64 - 1) }
    ensures { result ≡ a +ℤ b }
{
    a + b
}

fn minus(a: i128, b: i128) -> i128
    requires a_low { negsuc (2 ^ 63 - 1) ≤ℤ a }
    requires a_high { a ≤ℤ pos (2 ^ 64 - 1) }
    requires b_low { negsuc (2 ^ 63 - 1) ≤ℤ b }
    requires b_high { b ≤ℤ pos (2 ^ 64 - 1) }
    ensures { result ≡ a -ℤ b }
{
    a - b
}

fn times(a: i128, b: i128) -> i128
    requires a_low { negsuc (2 ^ 63 - 1) ≤ℤ a }
    requires a_high { a ≤ℤ pos (2 ^ 63 - 1) }
    requires b_low { negsuc (2 ^ 63 - 1) ≤ℤ b }
    requires b_high { b ≤ℤ pos (2 ^ 63 - 1) }
    ensures { result ≡ a *ℤ b }
{
    a * b
}

fn unsigned_times(a: u64, b: u64) -> u128
    ensures { result ≡ a * b }
{
    u128::from(a) * u128::from(b)
}

fn scaled(a: i128, by: u32) -> i128
    requires low { pos 0 ≤ℤ a }
    requires high { a ≤ℤ pos (2 ^ 64 - 1) }
    requires by_in { by < 64 }
    ensures { result ≡ a *ℤ pos (2 ^ by) }
{
    a << by
}

fn over(a: i128, b: i128) -> i128
    requires divisor { b ≢ pos 0 }
    requires low { negsuc (2 ^ 63 - 1) ≤ℤ a }
    ensures { result ≡ int_div a b }
{
    a / b
}

impl IntegerKind {
    /// A result in this type: a signed type must have it, and in an unsigned type it is taken modulo 2^N (C99 6.5p5).
    #[tactic(auto, unfolding(crate::specs::Operators::exact))]
    fn exact(self, value: i128) -> Result<i128, Undefined>
        ensures { result ≡ spec.exact self value }
    {
        if !self.is_signed() {
            Ok(self.operand(value))
        } else if self.has(value) {
            Ok(value)
        } else {
            Err(Undefined::Overflow)
        }
    }

    /// `x + y` (C99 6.5.6).
    pub fn sum(self, x: i128, y: i128) -> Result<i128, Undefined>
        ensures { result ≡ spec.sum self x y }
    {
        self.exact(plus(self.operand(x), self.operand(y)))
    }

    /// `x - y` (C99 6.5.6).
    pub fn difference(self, x: i128, y: i128) -> Result<i128, Undefined>
        ensures { result ≡ spec.difference self x y }
    {
        self.exact(minus(self.operand(x), self.operand(y)))
    }

    /// A natural number modulo 2^N, or for `_Bool` whether it isn't 0.
    #[tactic(auto, unfolding(crate::specs::Integers::converted))]
    fn convert_natural(self, value: u128) -> i128
        ensures { result ≡ converted self (pos value) }
    {
        if matches!(self, IntegerKind::Bool) {
            i128::from(value != 0)
        } else {
            let modulus = 1u128 << self.width().bits();
            self.value_of_word((value % modulus) as u64)
        }
    }

    /// `x * y` of an unsigned type.
    #[tactic(auto, unfolding(crate::specs::Operators::exact))]
    fn unsigned_product(self, a: i128, b: i128) -> Result<i128, Undefined>
        requires unsigned { is_signed self ≡ false }
        requires a_low { pos 0 ≤ℤ a }
        requires a_high { a ≤ℤ pos (2 ^ 64 - 1) }
        requires b_low { pos 0 ≤ℤ b }
        requires b_high { b ≤ℤ pos (2 ^ 64 - 1) }
        ensures { result ≡ spec.exact self (a *ℤ b) }
    {
        Ok(self.convert_natural(unsigned_times(a as u64, b as u64)))
    }

    /// `x * y` (C99 6.5.5).
    pub fn product(self, x: i128, y: i128) -> Result<i128, Undefined>
        ensures { result ≡ spec.product self x y }
    {
        let a = self.operand(x);
        let b = self.operand(y);
        if self.is_signed() {
            self.exact(times(a, b))
        } else {
            self.unsigned_product(a, b)
        }
    }

    /// `x / y`, toward zero (C99 6.5.5).
    pub fn quotient(self, x: i128, y: i128) -> Result<i128, Undefined>
        ensures { result ≡ spec.quotient self x y }
    {
        let divisor = self.operand(y);
        if divisor == 0 {
            Err(Undefined::ZeroDivisor)
        } else {
            self.exact(over(self.operand(x), divisor))
        }
    }

    /// `x % y`, with the sign of `x`, where `x / y` has a value (C99 6.5.5).
    pub fn remainder(self, x: i128, y: i128) -> Result<i128, Undefined>
        ensures { result ≡ spec.remainder self x y }
    {
        match self.quotient(x, y) {
            Ok(_) => Ok(self.operand(x) % self.operand(y)),
            Err(kind) => Err(kind),
        }
    }

    /// Whether a count of a shift is negative or not below the width (C99 6.5.7p3).
    fn is_far(self, count: i128) -> bool
        ensures { result ≡ spec.is_far self count }
    {
        count < 0 || count >= i128::from(self.width().bits())
    }

    /// `x << count` (C99 6.5.7).
    pub fn shifted_left(self, x: i128, count: i128) -> Result<i128, Undefined>
        ensures { result ≡ spec.shifted_left self x count }
    {
        let value = self.operand(x);
        if self.is_far(count) || value < 0 {
            return Err(Undefined::Shift);
        }
        match self.exact(scaled(value, count as u32)) {
            Ok(shifted) => Ok(shifted),
            Err(_) => Err(Undefined::Shift),
        }
    }

    /// `x >> count`, where the sign bit is copied (C99 6.5.7).
    pub fn shifted_right(self, x: i128, count: i128) -> Result<i128, Undefined>
        ensures { result ≡ spec.shifted_right self x count }
    {
        if self.is_far(count) {
            Err(Undefined::Shift)
        } else {
            Ok(self.operand(x) >> count as u32)
        }
    }

    /// `x & y` (C99 6.5.10).
    #[tactic(auto, using(crate::proofs::Words::and_below))]
    pub fn bits_and(self, x: i128, y: i128) -> i128
        ensures { result ≡ spec.bits_and self x y }
    {
        let width = self.width();
        self.value_of_word(wrap(x, width) & wrap(y, width))
    }

    /// `x ^ y` (C99 6.5.11).
    #[tactic(auto, using(std::proofs::lemmas::Nat::xor_lt))]
    pub fn bits_xor(self, x: i128, y: i128) -> i128
        ensures { result ≡ spec.bits_xor self x y }
    {
        let width = self.width();
        self.value_of_word(wrap(x, width) ^ wrap(y, width))
    }

    /// `x | y` (C99 6.5.12).
    #[tactic(auto, using(std::proofs::lemmas::Nat::or_lt))]
    pub fn bits_or(self, x: i128, y: i128) -> i128
        ensures { result ≡ spec.bits_or self x y }
    {
        let width = self.width();
        self.value_of_word(wrap(x, width) | wrap(y, width))
    }

    /// `~x` (C99 6.5.3.3p4).
    pub fn complement(self, x: i128) -> i128
        ensures { result ≡ spec.complement self x }
    {
        self.operand(-1 - x)
    }

    /// `-x` (C99 6.5.3.3p3).
    pub fn negation(self, x: i128) -> Result<i128, Undefined>
        ensures { result ≡ spec.negation self x }
    {
        self.exact(0 - self.operand(x))
    }

    /// `x < y`: 1 or 0 (C99 6.5.8).
    pub fn less(self, x: i128, y: i128) -> i128
        ensures { result ≡ spec.less self x y }
    {
        i128::from(self.operand(x) < self.operand(y))
    }

    /// `x <= y`: 1 or 0 (C99 6.5.8).
    pub fn less_equal(self, x: i128, y: i128) -> i128
        ensures { result ≡ spec.less_equal self x y }
    {
        i128::from(!(self.operand(y) < self.operand(x)))
    }

    /// `x == y`: 1 or 0 (C99 6.5.9).
    pub fn equal(self, x: i128, y: i128) -> i128
        ensures { result ≡ spec.equal self x y }
    {
        i128::from(self.operand(x) == self.operand(y))
    }

    /// `x != y`: 1 or 0 (C99 6.5.9).
    pub fn unequal(self, x: i128, y: i128) -> i128
        ensures { result ≡ spec.unequal self x y }
    {
        i128::from(self.operand(x) != self.operand(y))
    }
}
