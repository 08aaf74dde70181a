//! Where the functions of a program run along a log.
ghost use Rattle.std.specs.Prelude.{◌≡◌, ◌+◌, ◌<◌, cond};
ghost use Rattle.core_tree.specs.Programs.{turns_in};
ghost use Rattle.log_expr.specs.Bodies.{whole_of, site_of};

use crate::stage::Stage;
use core_tree::{Core, Function};
use plain_data::Bounds;

/// Where a function of a program runs along a log: the bounds, how many turns its loops take, and how many levels of
/// calls are left below it.
#[derive(Clone, Copy)]
pub struct Place<'a> {
    pub core: &'a Core,
    pub log: &'a [u8],
    pub bounds: &'a Bounds,
    pub turns: u32,
    pub left: u32,
}

impl<'a> Stage for Place<'a> {
    ghost use Rattle.log_expr.specs.Bodies.{site_of};

    ghost site = { site_of };

    fn log(&self) -> &[u8] {
        self.log
    }

    fn turns(&self) -> u32 {
        self.turns
    }

    fn left(&self) -> u32 {
        self.left
    }
}

/// How many turns the loops of a function take: in one of the prelude the limit of texts.
fn turns_of(bounds: &Bounds, is_prelude: bool) -> u32
    ensures { result ≡ cond is_prelude bounds.now.texts bounds.now.turns }
{
    if is_prelude {
        bounds.texts
    } else {
        bounds.turns
    }
}

/// Where a function runs that is called from there.
pub(crate) fn below<'a>(here: &Place<'a>, function: &Function) -> Place<'a>
    requires { 0 < here.now.left }
    ensures lower { result.left + 1 ≡ here.now.left }
    ensures whole { (site_of result).whole ≡ (site_of here.now).whole }
    ensures turns { result.turns ≡ turns_in (site_of here.now).whole.limits function.now }
{
    Place {
        core: here.core,
        log: here.log,
        bounds: here.bounds,
        turns: turns_of(here.bounds, function.is_prelude),
        left: here.left - 1,
    }
}
