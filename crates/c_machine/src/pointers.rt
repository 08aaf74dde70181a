//! Pointers moved, compared and subtracted (C99 6.5.6p7 to p9, 6.5.8p5).
ghost use Rattle.std.specs.Prelude.{◌≡◌, pos, neg_ℤ, ◌+ℤ◌, ◌-ℤ◌, ◌*ℤ◌};
ghost use Rattle.c_store.specs.Access as access;
ghost use Rattle.c_means.specs.Pointers as pointers;
ghost use Rattle.c_machine.specs.States.{state, Runs, Leads};

use crate::halt::Halt;
use crate::machine::Machine;
use plain_data::Undefined;

/// The number as an address of 64 bits.
fn as_address(number: i128) -> Option<u64>
    ensures { Leads result number }
{
    if number < 0 {
        return None;
    }
    if number > i128::from(u64::MAX) {
        return None;
    }
    Some(number as u64)
}

/// So many elements of a size behind an address.
fn target(element: u64, count: i128, address: u64) -> Option<u64>
    ensures { Leads result (pos address +ℤ count *ℤ pos element) }
{
    match count.checked_mul(i128::from(element)) {
        Some(distance) => match i128::from(address).checked_add(distance) {
            Some(number) => as_address(number),
            None => None,
        },
        None => None,
    }
}

/// So many elements of a size in front of an address.
fn target_back(element: u64, count: i128, address: u64) -> Option<u64>
    ensures { Leads result (pos address +ℤ neg_ℤ count *ℤ pos element) }
{
    match count.checked_mul(i128::from(element)) {
        Some(distance) => match i128::from(address).checked_sub(distance) {
            Some(number) => as_address(number),
            None => None,
        },
        None => None,
    }
}

/// How many elements of a size are between two addresses: none of size 0 (C99 6.5.6p9).
fn elements(one: u64, other: u64, element: u64) -> i128
    ensures { result ≡ pointers.elements_in (pos one -ℤ pos other) element }
{
    if element == 0 {
        return 0;
    }
    let distance = i128::from(one) - i128::from(other);
    distance / i128::from(element)
}

impl Machine {
    fn share(&self, one: u64, other: u64) -> bool
        ensures { result ≡ access.in_one_object (state self.now).store one other }
    {
        self.memory.in_one_object(one, other)
    }

    /// An address so many elements of a size further: both in, or one past, one live object (C99 6.5.6p8).
    pub fn moved(&mut self, at: u32, element: u64, count: i128, address: u64) -> Result<i128, Halt>
        ensures world { self.new.world ≡ self.old.world }
        ensures runs { Runs result (state self.new) (pointers.moved at element count address (state self.old)) }
    {
        self.moved_to(at, address, target(element, count, address))
    }

    /// An address so many elements of a size in front: both in, or one past, one live object (C99 6.5.6p8).
    pub fn moved_back(
        &mut self,
        at: u32,
        element: u64,
        count: i128,
        address: u64,
    ) -> Result<i128, Halt>
        ensures world { self.new.world ≡ self.old.world }
        ensures runs { Runs result (state self.new) (pointers.moved at element (neg_ℤ count) address (state self.old)) }
    {
        self.moved_to(at, address, target_back(element, count, address))
    }

    fn moved_to(&mut self, at: u32, from: u64, to: Option<u64>) -> Result<i128, Halt>
        ensures world { self.new.world ≡ self.old.world }
        ensures runs { (z : _) → Leads to z → Runs result (state self.new) (pointers.moved_to at from z (state self.old)) }
    {
        match to {
            Some(to) => {
                if self.share(from, to) {
                    Ok(i128::from(to))
                } else {
                    Err(self.stop(at, Undefined::PointerRange))
                }
            }
            None => Err(self.stop(at, Undefined::PointerRange)),
        }
    }

    /// Whether an order holds between two addresses in, or one past, one live object (C99 6.5.8p5).
    pub fn ordered(&mut self, at: u32, one: u64, other: u64, holds: bool) -> Result<i128, Halt>
        ensures world { self.new.world ≡ self.old.world }
        ensures runs { Runs result (state self.new) (pointers.ordered at (λ a b. holds) one other (state self.old)) }
    {
        if self.share(one, other) {
            Ok(i128::from(holds))
        } else {
            Err(self.stop(at, Undefined::PointerOrder))
        }
    }

    /// So many elements of a size in front of an address.
    fn target_back(element: u64, count: i128, address: u64) -> Option<u64>
        ensures { Leads result (pos address +ℤ neg_ℤ count *ℤ pos element) }
    {
        match count.checked_mul(i128::from(element)) {
            Some(distance) => match i128::from(address).checked_sub(distance) {
                Some(number) => as_address(number),
                None => None,
            },
            None => None,
        }
    }

    /// How many elements of a size are between two addresses in, or one past, one live object (C99 6.5.6p9).
    pub fn apart(&mut self, at: u32, element: u64, one: u64, other: u64) -> Result<i128, Halt>
        ensures world { self.new.world ≡ self.old.world }
        ensures runs { Runs result (state self.new) (pointers.apart at element one other (state self.old)) }
    {
        if self.share(one, other) {
            Ok(elements(one, other, element))
        } else {
            Err(self.stop(at, Undefined::PointerOrder))
        }
    }
}
