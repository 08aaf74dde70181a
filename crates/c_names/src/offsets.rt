//! Lists of offsets that grow at both ends.

ghost use Rattle.std.specs.Prelude.{◌≡◌, [], ◌++◌, IfOk, OnOk};

use crate::stack::Stack;
use plain_data::Items;
use std::alloc::{AllocError, Global};
use std::marker::Model;
use std::mem::replace;

/// A list of offsets: those in front as a stack, and those behind them.
#[derive(Drop)]
pub struct Offsets {
    front: Stack<u32>,
    back: Items<u32>,
}

impl Model for Offsets {
    ghost use Rattle.std.specs.Prelude.{ℕ, List, ◌++◌};

    ghost Value = { List ℕ };

    ghost view = { λ o. o.front ++ o.back };
}

/// Puts these on, the first of them first.
fn put_on(stack: &mut Stack<u32>, offsets: &[u32]) -> Result<(), AllocError>
    ensures { OnOk result (stack.new ≡ offsets.now ++ stack.old) }
{
    let mut left = offsets.len();
    'put: while left > 0 {
        left -= 1;
        stack.push(offsets[left])?;
    }
    Ok(())
}

impl Offsets {
    /// No offsets. It takes no memory.
    pub fn new(alloc: Global) -> Offsets
        ensures { result ≡ [] }
    {
        Offsets {
            front: Stack::new(alloc),
            back: Items::new(alloc),
        }
    }

    /// Takes these over, in front of its own, in time by their number. It fails for want of memory alone.
    pub fn take_over(&mut self, alloc: Global, first: &mut Offsets) -> Result<(), AllocError>
        ensures { OnOk result (self.new ≡ first.old ++ self.old) }
    {
        put_on(&mut self.front, first.back.as_slice())?;
        self.front.take_over(alloc, &mut first.front)
    }

    /// Puts these at the end, in time by their number. It fails for want of memory alone.
    pub fn extend(&mut self, alloc: Global, more: Stack<u32>) -> Result<(), AllocError>
        ensures { OnOk result (self.new ≡ self.old ++ more) }
    {
        let mut more = more;
        let last = more.take_items(alloc)?;
        self.back.append(last)
    }

    /// Takes the offsets out, in order. It fails for want of memory alone.
    pub fn take_items(&mut self, alloc: Global) -> Result<Items<u32>, AllocError>
        ensures { IfOk result (λ items. items ≡ self.old) }
    {
        let mut items = self.front.take_items(alloc)?;
        items.append(replace(&mut self.back, Items::new(alloc)))?;
        Ok(items)
    }
}
