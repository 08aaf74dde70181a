//! The log expressions of functions.
ghost use Rattle.std.specs.Prelude.{IfOk};
ghost use Rattle.log_language.specs.Tells.{IsExpression};

use crate::codes::tell_codes;
use crate::told::Told;
use crate::tree::LogExpr;
use core_tree::Core;
use plain_data::Shared;
use std::alloc::{AllocError, Global};

/// The log expression of a function: the printed bytes of each run of its body, however it ends, are a text of it. It
/// has no text but that of no bytes where there is no such function. It fails for want of memory alone.
pub fn expression(alloc: Global, core: &Core, function: u32) -> Result<Shared<LogExpr>, AllocError>
    ensures { IfOk result (λ e. IsExpression core.now function e) }
{
    let mut told = Told::begin(alloc)?;
    match core.functions.get(function as usize) {
        Some(found) => {
            tell_codes(alloc, found.items.as_slice(), &mut told)?;
            let Told { so_far, .. } = told;
            Ok(so_far)
        }
        None => {
            let Told { so_far, .. } = told;
            Ok(so_far)
        }
    }
}
