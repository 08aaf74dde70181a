//! Where functions come back along a log.
ghost use Rattle.std.specs.Prelude.{IfOk};
ghost use Rattle.log_expr.specs.Below.{Finds};
ghost use Rattle.log_expr.specs.Bodies.{WalksBody, IsEndOf};

use crate::callees::Walk;
use crate::codes::walk_codes;
use crate::course::Course;
use crate::flow::Flow;
use crate::stage::Stage;
use crate::table::{EndTable, Ends};
use core_tree::Function;
use positions::Positions;
use std::alloc::{AllocError, Global};

/// Behind a function's body: a run that has not ended comes back (C99 6.9.1p12). It fails for want of memory alone.
fn ends_behind(mut at: Flow) -> Result<Ends, AllocError>
    ensures { IfOk result (λ e. IsEndOf at e) }
{
    at.running.put_all(&at.breaking)?;
    at.running.put_all(&at.continuing)?;
    at.running.put_all(&at.returning)?;
    at.running.put_all(&at.going)?;
    at.running.put_all(&at.choosing)?;
    Ok(at.into_ends())
}

/// The ends of a function that is called at a position. It fails for want of memory alone.
pub fn walk_body<
    'a,
    L: Stage,
    K: Fn(Global, &L, u32, usize, &mut EndTable) -> Result<Ends, AllocError>,
>(
    walk: &Walk<'a, L, K>,
    function: &Function,
    start: usize,
    table: &mut EndTable,
) -> Result<Ends, AllocError>
    requires { Finds L.site K.Fn walk.now.stage walk.now.call.now }
    ensures { IfOk result (λ e. WalksBody (L.site walk.now.stage.now) table.old table.new function.now start e) }
{
    let starts = Positions::one(walk.alloc, start)?;
    let mut course = Course::begin(walk.alloc, starts);
    walk_codes(walk, function.items.as_slice(), &mut course, table)?;
    let ends = ends_behind(course.into_flow())?;
    Ok(ends)
}
