//! Where a function runs, and where nothing but initializers does.
ghost use Rattle.std.specs.Prelude.{◌≡◌, cond};
ghost use Rattle.run_core.specs.Scenes.{machine_of, setting_at, bare_setting, row_at, HoldsRooms};

use core_running::Scene;
use core_tree::{Core, Function};
use plain_data::{Bounds, Rows, World};

/// Where a function of a program runs: the program, a copy of the machine's world, the bounds, how many places each
/// function takes by the levels of calls that are left, how many levels are left below this one, and the function.
#[derive(Clone, Copy)]
pub struct Place<'a> {
    pub core: &'a Core,
    pub world: &'a World,
    pub bounds: &'a Bounds,
    pub rooms: &'a Rows<u64>,
    pub left: u32,
    pub function: &'a Function,
    ghost rooms_hold: { HoldsRooms (machine_of core.now world.now bounds.now) left rooms.now },
}

/// Where what lives throughout the run is initialised: no function is called there.
#[derive(Clone, Copy)]
pub struct Bare<'a> {
    pub core: &'a Core,
    pub world: &'a World,
    pub bounds: &'a Bounds,
}

/// How many turns loops take: in a function of the prelude the limit of texts.
fn turns_in(bounds: &Bounds, is_prelude: bool) -> u32
    ensures { result ≡ cond is_prelude bounds.now.texts bounds.now.turns }
{
    if is_prelude {
        bounds.texts
    } else {
        bounds.turns
    }
}

/// The room of a function in a table, 0 where the table has none.
#[tactic(auto, using(crate::proofs::Measured::row_found, crate::proofs::Measured::row_missing))]
fn room_in(rooms: &Rows<u64>, left: u32, function: u32) -> u64
    ensures { result ≡ row_at rooms.now left function }
{
    let left = left as usize;
    if left >= rooms.len() {
        return 0;
    }
    rooms.row(left).get(function as usize).copied().unwrap_or(0)
}

impl<'a> Scene for Place<'a> {
    ghost setting = { λ p. setting_at (machine_of p.core.now p.world.now p.bounds.now) p.left p.function.now };

    #[tactic(auto, using(crate::proofs::Measured::turns_are))]
    fn turns(&self) -> u32 {
        turns_in(self.bounds, self.function.is_prelude)
    }

    #[tactic(auto, using(crate::proofs::Measured::room_is))]
    fn room(&self, function: u32) -> u64 {
        room_in(self.rooms, self.left, function)
    }

    fn heap(&self) -> u32 {
        self.bounds.heap
    }

    fn outside(&self) -> u32 {
        self.bounds.outside
    }
}

impl<'a> Scene for Bare<'a> {
    ghost setting = { λ p. bare_setting (machine_of p.core.now p.world.now p.bounds.now) };

    fn turns(&self) -> u32 {
        self.bounds.turns
    }

    fn room(&self, _function: u32) -> u64 {
        0
    }

    fn heap(&self) -> u32 {
        self.bounds.heap
    }

    fn outside(&self) -> u32 {
        self.bounds.outside
    }
}
