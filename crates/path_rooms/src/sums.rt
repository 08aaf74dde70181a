//! Sums that 64 bits hold.
ghost use Rattle.std.specs.Prelude.{◌≡◌, ◌+◌, ◌*◌, ℕ, IfOk};

use path_forms::WalkFault;

/// The sum of two numbers. It fails where 64 bits don't hold it.
pub fn sum(first: u64, second: u64) -> Result<u64, WalkFault>
    ensures { IfOk result (λ n. n ≡ first + second) }
{
    match first.checked_add(second) {
        Some(sum) => Ok(sum),
        None => Err(WalkFault::TooFar),
    }
}

/// The sum of two numbers that were counted.
pub(crate) fn both(
    first: Result<u64, WalkFault>,
    second: Result<u64, WalkFault>,
) -> Result<u64, WalkFault>
    ensures { (m n : ℕ) → IfOk first (λ x. x ≡ m) → IfOk second (λ y. y ≡ n) → IfOk result (λ z. z ≡ m + n) }
{
    let first = first?;
    let second = second?;
    sum(first, second)
}

/// So many times a number that was counted, and once more.
pub(crate) fn times(count: u32, number: Result<u64, WalkFault>) -> Result<u64, WalkFault>
    ensures { (n : ℕ) → IfOk number (λ x. x ≡ n) → IfOk result (λ z. z ≡ (count + 1) * n) }
{
    let number = number?;
    match (u64::from(count) + 1).checked_mul(number) {
        Some(all) => Ok(all),
        None => Err(WalkFault::TooFar),
    }
}
