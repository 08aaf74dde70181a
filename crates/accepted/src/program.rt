//! An accepted source.
ghost use Rattle.c_means.specs.Units.{IsAcceptedSource};
ghost use Rattle.accepted.specs.Cores.{HasItsFunctions, HasItsRuns};

use c_language::External;
use c_means::Profile;
use core_tree::Core;
use plain_data::{Items, Shared};

/// A source that breaks no rule, with what is known of functions besides, and its core: that has the source's run in
/// every world and bounds, its size and its room, and its functions that are reached, with what stands at their tokens.
pub struct Accepted {
    pub externals: Items<Shared<External>>,
    pub profile: Profile,
    pub core: Core,
    pub ghost kept: { IsAcceptedSource externals profile },
    pub ghost has_its_runs: { HasItsRuns externals profile core },
    pub ghost has_its_functions: { HasItsFunctions externals profile core },
}

/// By hand, so that a call stands in place of all its parts wherever a value is let go.
impl Drop for Accepted {
    fn drop(self) {
        let Accepted {
            externals,
            profile,
            core,
        } = self;
    }
}

/// Lets a source go that has no program. Who calls this has no proof of how whole trees are let go.
pub fn discard_source(externals: Items<Shared<External>>, profile: Profile) {
    drop(externals);
    drop(profile);
}

impl Accepted {
    /// Lets the source and its core go. Each crate that lets one go by itself proves anew how whole trees are let go.
    pub fn discard(self) {
        drop(self);
    }
}
