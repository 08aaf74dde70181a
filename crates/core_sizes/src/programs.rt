//! How many nodes a program unrolls to, level by level of calls.
ghost use Rattle.std.specs.Prelude.{◌≡◌, ◌+◌, ◌++◌, cond, map, min, slice_get, Some, IfOk, OnOk};
ghost use Rattle.core_tree.specs.Programs as program;
ghost use Rattle.core_tree.specs.Programs.{measures_of};
ghost use Rattle.core_sizes.specs.Programs.{silent_machine, size_in, size_over, HoldsSizes};

use crate::codes::items_size;
use crate::sizes::Sizes;
use core_tree::{Core, Function};
use plain_data::{Bounds, Items};
use std::alloc::{AllocError, Global};

/// Where a function of a program runs: the program, the bounds, the sizes of the functions that it may call, how many
/// levels of calls are left below it, and the function.
#[derive(Clone, Copy)]
struct Stage<'a> {
    core: &'a Core,
    bounds: &'a Bounds,
    row: &'a [u64],
    left: u32,
    function: &'a Function,
    ghost row_holds: { HoldsSizes (silent_machine core.now bounds.now) left row.now },
}

/// How many turns loops take: in a function of the prelude the limit of texts.
fn turns_in(bounds: &Bounds, is_prelude: bool) -> u32
    ensures { result ≡ cond is_prelude bounds.now.texts bounds.now.turns }
{
    if is_prelude {
        bounds.texts
    } else {
        bounds.turns
    }
}

/// The size of a function in a row, 0 where the row has none.
fn size_found(row: &[u64], function: u32) -> u64
    ensures { result ≡ size_in row.now function }
{
    row.get(function as usize).copied().unwrap_or(0)
}

impl<'a> Sizes for Stage<'a> {
    ghost measures = { λ s. measures_of (silent_machine s.core.now s.bounds.now) s.left s.function.now };

    #[tactic(auto, using(crate::proofs::Levels::turns_are))]
    fn turns(&self) -> u32 {
        turns_in(self.bounds, self.function.is_prelude)
    }

    #[tactic(auto, using(crate::proofs::Levels::size_is))]
    fn size(&self, function: u32) -> u64 {
        size_found(self.row, function)
    }
}

/// How many nodes a function unrolls to, or the greatest number of 64 bits where it has more.
#[tactic(auto, using(crate::proofs::Levels::one_more))]
fn function_size<'a>(stage: &Stage<'a>) -> u64
    ensures { result ≡ size_over (silent_machine stage.now.core.now stage.now.bounds.now) stage.now.left stage.now.function.now }
{
    items_size(stage, stage.function.items.as_slice()).saturating_add(1)
}

/// Adds the sizes of functions with so many levels left, in order.
fn add_sizes(
    core: &Core,
    bounds: &Bounds,
    below: &[u64],
    left: u32,
    functions: &[Function],
    row: &mut Items<u64>,
) -> Result<(), AllocError>
    requires holds { HoldsSizes (silent_machine core.now bounds.now) left below.now }
    ensures { OnOk result (row.new ≡ row.old ++ map (size_over (silent_machine core.now bounds.now) left) functions.now) }
{
    match functions.split_first() {
        Some((function, rest)) => {
            let stage = Stage {
                core,
                bounds,
                row: below,
                left,
                function,
            };
            row.push(function_size(&stage))?;
            add_sizes(core, bounds, below, left, rest, row)
        }
        None => Ok(()),
    }
}

/// The sizes of all functions with one level more, in order.
#[tactic(auto, using(crate::proofs::Levels::holds_more))]
fn next_sizes(
    alloc: Global,
    core: &Core,
    bounds: &Bounds,
    below: &[u64],
    left: u32,
) -> Result<Items<u64>, AllocError>
    requires holds { HoldsSizes (silent_machine core.now bounds.now) left below.now }
    ensures { IfOk result (λ row. HoldsSizes (silent_machine core.now bounds.now) (left + 1) row) }
{
    let mut row = Items::new(alloc);
    add_sizes(
        core,
        bounds,
        below,
        left,
        core.functions.as_slice(),
        &mut row,
    )?;
    Ok(row)
}

/// The sizes of all functions, in order, where so many levels are left. It fails for want of memory alone.
#[tactic(auto, using(crate::proofs::Levels::holds_none, crate::proofs::Levels::holds_next))]
fn sizes_of(
    alloc: Global,
    core: &Core,
    bounds: &Bounds,
    left: u32,
) -> Result<Items<u64>, AllocError>
    ensures { IfOk result (λ row. HoldsSizes (silent_machine core.now bounds.now) left row) }
{
    if left == 0 {
        return Ok(Items::new(alloc));
    }
    let below = sizes_of(alloc, core, bounds, left - 1)?;
    next_sizes(alloc, core, bounds, below.as_slice(), left - 1)
}

/// The function of a number. It fails where there is none, which no accepted program asks for.
fn function_at<'a>(core: &'a Core, number: u32) -> Result<&'a Function, AllocError>
    ensures { IfOk result (λ f. slice_get core.now.functions number ≡ Some f.now) }
{
    match core.functions.get(number as usize) {
        Some(function) => Ok(function),
        None => Err(AllocError),
    }
}

/// The lesser of how many nodes a program unrolls to within bounds and a cap. It fails for want of memory, as which a
/// program without `main` counts.
#[tactic(auto, using(crate::proofs::Levels::main_size))]
pub fn unrolled_size(
    alloc: Global,
    core: &Core,
    bounds: &Bounds,
    cap: u64,
) -> Result<u64, AllocError>
    ensures { IfOk result (λ size. size ≡ min (program.unrolled_size (silent_machine core.now bounds.now)) cap) }
{
    let function = function_at(core, core.main)?;
    let left = bounds.depth - 1;
    let row = sizes_of(alloc, core, bounds, left)?;
    let stage = Stage {
        core,
        bounds,
        row: row.as_slice(),
        left,
        function,
    };
    Ok(function_size(&stage).min(cap))
}
