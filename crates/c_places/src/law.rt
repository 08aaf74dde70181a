//! The laws, each as the contract of a function.
ghost use Rattle.std.specs.Prelude.{List};
ghost use Rattle.plain_data.specs.declared.bounds.Bounds.{Bounds};
ghost use Rattle.plain_data.specs.Worlds.{WorldTables};
ghost use Rattle.c_language.specs.declared.unit.External.{External};
ghost use Rattle.c_means.specs.declared.profile.Profile.{Profile};
ghost use Rattle.c_places.specs.Places.{IsTheSameInEveryWorld, MeetsItsPlacesOnce};

/// Does nothing. What it promises is the law: whatever the source is, in every world and for all bounds, its run meets
/// each place once at most, and none but those of its room.
#[tactic(auto, using(crate::proofs::Sources::meets_its_places_once))]
pub fn places_are_met_once()
    ensures once { (xs : List External) (profile : Profile) (w : WorldTables) (b : Bounds) →
        MeetsItsPlacesOnce xs profile w b }
{}

/// Does nothing. It promises that how many places a source has, and how many nodes it unrolls to, is the same in every
/// world.
pub fn rooms_are_the_same_in_every_world()
    ensures same { (xs : List External) (profile : Profile) (w : WorldTables) (b : Bounds) →
        IsTheSameInEveryWorld xs profile w b }
{}
