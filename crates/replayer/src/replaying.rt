//! Runs of accepted sources.
ghost use Rattle.std.specs.Prelude.{◌≡◌, IfOk, min};
ghost use Rattle.c_places.specs.Places.{MeetsItsPlacesOnce};
ghost use Rattle.c_means.specs.Units.{source_room, source_run, source_size};

use accepted::Accepted;
use plain_data::{Bounds, Run, World};
use std::alloc::{AllocError, Global};

/// The run of an accepted source in a world, within bounds: what it prints, what happens, and how it ends (C99
/// 5.1.2.3). Of the places of the world that it meets, it meets none twice. It fails for want of memory alone.
#[tactic(auto, using(crate::proofs::Replays::replays, crate::proofs::Replays::meets_each_once))]
pub fn replay(
    alloc: Global,
    program: &Accepted,
    world: &World,
    bounds: &Bounds,
) -> Result<Run, AllocError>
    ensures runs { IfOk result (λ r. r ≡ source_run program.now.externals program.now.profile world.now bounds.now) }
    ensures once { MeetsItsPlacesOnce program.now.externals program.now.profile world.now bounds.now }
{
    run_programs::run(alloc, &program.core, world, bounds)
}

/// How many places the runs of an accepted source may take within bounds, in any world. It fails for want of memory, as
/// which 2^63 places or more count.
#[tactic(auto, using(crate::proofs::Replays::takes))]
pub fn room(alloc: Global, program: &Accepted, bounds: &Bounds) -> Result<u64, AllocError>
    ensures { IfOk result (λ n. n ≡ source_room program.now.externals program.now.profile bounds.now) }
{
    run_programs::room(alloc, &program.core, bounds)
}

/// The lesser of how many nodes an accepted source unrolls to within bounds and a cap. It fails for want of memory
/// alone.
#[tactic(auto, using(crate::proofs::Replays::unrolls))]
pub fn unrolled_size(
    alloc: Global,
    program: &Accepted,
    bounds: &Bounds,
    cap: u64,
) -> Result<u64, AllocError>
    ensures { IfOk result (λ n. n ≡ min (source_size program.now.externals program.now.profile bounds.now) cap) }
{
    core_sizes::unrolled_size(alloc, &program.core, bounds, cap)
}
