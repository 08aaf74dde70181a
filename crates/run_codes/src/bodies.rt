//! Bodies of functions (C99 6.5.2.2p4, 6.9.1): the parameters' objects, the block, and the way back.
ghost use Rattle.std.specs.Prelude.{◌≡◌, Some, map, IfOk};
ghost use Rattle.c_machine.specs.Worth.{worth};
ghost use Rattle.core_tree.specs.Programs as program;
ghost use Rattle.core_tree.specs.States.{Output, plain, entered};
ghost use Rattle.core_running.specs.Below.{ReachesCode};
ghost use Rattle.core_running.specs.Running.{done, Low};
ghost use Rattle.core_running.specs.Settings.{level, HasWorld};
ghost use Rattle.code_steps.specs.Below.{ReachesRoom};

use crate::below::Steps;
use c_machine::{Machine, Value};
use code_steps::{add_parameters, bear, bind_all, bury, come_back, no_objects, pass};
use core_running::{Frame, Scene};
use core_tree::{Code, Expr, Function};
use plain_data::Items;
use std::alloc::{AllocError, Global};

impl<
    'a,
    L: Scene,
    V,
    R: Fn(&L, &Expr) -> u64,
    X: Fn(Global, &L, &mut Frame, &Code, u64, &mut Machine) -> Result<u64, AllocError>,
> Steps<'a, L, V, R, X> {
    /// Runs a function by its body, from where it begins: the parameters' objects have the first places, and the block
    /// those behind them. It fails for want of memory alone.
    pub fn body(
        &self,
        function: &Function,
        values: &[Value],
        base: u64,
        m: &mut Machine,
    ) -> Result<(), AllocError>
        requires rooms { ReachesRoom L.setting R.Fn self.now.scene self.now.room }
        requires codes { ReachesCode L.setting X.Fn self.now.scene self.now.code }
        requires low { Low base (program.body_room {O = Output} (program.body_of function.now) (L.setting self.now.scene.now).measures) }
        requires same_world { HasWorld (L.setting self.now.scene.now) m.old }
        ensures world { m.new.world ≡ m.old.world }
        ensures runs { (o : _) → done m.old ≡ entered plain (done m.old).store o
            → IfOk result (λ _. program.by_body (level (L.setting self.now.scene.now)) (program.body_of function.now) (map worth values.now) base (done m.old).store o ≡ Some (done m.new)) }
    {
        let parameters = function.parameters.as_slice();
        let mut objects = Items::new(self.alloc);
        add_parameters(parameters, base, &mut objects)?;
        let mut frame = no_objects(self.alloc);
        bind_all(objects.as_slice(), &mut frame)?;
        bear(objects.as_slice(), m)?;
        pass(parameters, values, base, m)?;
        let behind = base + parameters.len() as u64;
        self.block(function.items.as_slice(), &mut frame, behind, m)?;
        bury(objects.as_slice(), m);
        come_back(m);
        Ok(())
    }
}
