//! What calls are to a walk.
ghost use Rattle.std.specs.Prelude.{◌≡◌, IfOk, List};
ghost use Rattle.term_bank.specs.declared.shape.Shape.{Shape as ShapeType};
ghost use Rattle.path_states.specs.States.{IsState};
ghost use Rattle.path_states.specs.Ways.{Tries};
ghost use Rattle.path_forms.specs.Around.{Around as Surroundings};
ghost use Rattle.path_forms.specs.Calling.{Stays, call_way};

use crate::fault::WalkFault;
use crate::frame::Placed;
use core_tree::{Callee, ValueType};
use path_states::{State, Walked};
use std::alloc::Global;
use term_bank::Bank;

/// A call: the byte offset of the callee's name, the type of its answer, whether the answer is used, how many arguments
/// are on top of the operands, and how many places its own first one is behind the base.
#[derive(Clone, Copy, PartialEq, Eq)]
pub struct CallSite {
    pub at: u32,
    pub answer: ValueType,
    pub is_used: bool,
    pub count: usize,
    pub place: u64,
}

/// What a function is walked in: how many turns and places there are, and what its calls do to states.
pub trait Calls {
    ghost around: { Self → Surroundings };
    /// What calls ask of the bank, which stays so as it grows.
    ghost ready: { Self → List ShapeType → Type 0 };

    /// How many turns a loop takes.
    fn turns(&self) -> u32
        ensures { result ≡ (around self.now).measures.turns };

    /// How many places the function of this number takes where it is called. It fails where 64 bits don't count them.
    fn room(&self, function: u32) -> Result<u64, WalkFault>
        ensures { IfOk result (λ n. n ≡ (around self.now).measures.room function) };

    /// A call, in a function whose places behind the base are so many.
    fn call(
        &self,
        alloc: Global,
        bank: &mut Bank,
        frame: &[Placed],
        room: u64,
        callee: &Callee,
        site: CallSite,
        state: &State,
    ) -> Result<Walked, WalkFault>
        requires ready { Stays (ready self.now) bank.old }
        requires state { IsState bank.old state.now }
        ensures { IfOk result (λ w. Tries room bank.old bank.new state.now w (call_way (around self.now) frame.now
            callee.now site)) };
}
