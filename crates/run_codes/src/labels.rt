//! Labeled statements (C99 6.8.1), at which a run on its way may arrive.
ghost use Rattle.std.specs.Prelude.{◌≡◌, Some, OnOk};
ghost use Rattle.c_means.specs.Items as arriving;
ghost use Rattle.core_tree.specs.Codes as form;
ghost use Rattle.core_running.specs.Below.{ReachesCode, code_room};
ghost use Rattle.core_running.specs.Frames.{env_of};
ghost use Rattle.core_running.specs.Running.{done, Low};
ghost use Rattle.core_running.specs.Settings.{HasWorld};
ghost use Rattle.run_codes.specs.Items.{TakesAs, ActsAs};

use crate::below::Steps;
use c_machine::Machine;
use code_steps::{at_case, at_default, at_label};
use core_running::{Frame, Scene};
use core_tree::Code;
use std::alloc::{AllocError, Global};

impl<
    'a,
    L: Scene,
    V,
    R,
    X: Fn(Global, &L, &mut Frame, &Code, u64, &mut Machine) -> Result<u64, AllocError>,
> Steps<'a, L, V, R, X> {
    /// Code behind a label, at which a `goto` to it arrives (C99 6.8.1p4).
    pub(crate) fn labeled(
        &self,
        name: &[u8],
        body: &Code,
        frame: &mut Frame,
        base: u64,
        m: &mut Machine,
    ) -> Result<u64, AllocError>
        requires codes { ReachesCode L.setting X.Fn self.now.scene self.now.code }
        requires low { Low base (code_room (L.setting self.now.scene.now) body.now) }
        requires same_world { HasWorld (L.setting self.now.scene.now) m.old }
        ensures world { m.new.world ≡ m.old.world }
        ensures env { OnOk result (env_of frame.new ≡ env_of frame.old) }
        ensures next { TakesAs result (form.code body.now) (L.setting self.now.scene.now) base }
        ensures runs { ActsAs result (form.arrived (arriving.at_label name.now) form.no_more (form.code body.now)) (L.setting self.now.scene.now) (env_of frame.old) base (done m.old) (done m.new) }
    {
        at_label(name, m);
        self.part(body, frame, base, m)
    }

    /// Code behind `case`, at which a `switch` to this value arrives (C99 6.8.4.2p5).
    pub(crate) fn case(
        &self,
        value: &i128,
        body: &Code,
        frame: &mut Frame,
        base: u64,
        m: &mut Machine,
    ) -> Result<u64, AllocError>
        requires codes { ReachesCode L.setting X.Fn self.now.scene self.now.code }
        requires low { Low base (code_room (L.setting self.now.scene.now) body.now) }
        requires same_world { HasWorld (L.setting self.now.scene.now) m.old }
        ensures world { m.new.world ≡ m.old.world }
        ensures env { OnOk result (env_of frame.new ≡ env_of frame.old) }
        ensures next { TakesAs result (form.code body.now) (L.setting self.now.scene.now) base }
        ensures runs { ActsAs result (form.arrived (arriving.at_case (Some value.now)) form.no_more (form.code body.now)) (L.setting self.now.scene.now) (env_of frame.old) base (done m.old) (done m.new) }
    {
        at_case(*value, m);
        self.part(body, frame, base, m)
    }

    /// Code behind `default`, at which a `switch` without a case for its value arrives (C99 6.8.4.2p5).
    pub(crate) fn default(
        &self,
        body: &Code,
        frame: &mut Frame,
        base: u64,
        m: &mut Machine,
    ) -> Result<u64, AllocError>
        requires codes { ReachesCode L.setting X.Fn self.now.scene self.now.code }
        requires low { Low base (code_room (L.setting self.now.scene.now) body.now) }
        requires same_world { HasWorld (L.setting self.now.scene.now) m.old }
        ensures world { m.new.world ≡ m.old.world }
        ensures env { OnOk result (env_of frame.new ≡ env_of frame.old) }
        ensures next { TakesAs result (form.code body.now) (L.setting self.now.scene.now) base }
        ensures runs { ActsAs result (form.arrived arriving.at_default form.no_more (form.code body.now)) (L.setting self.now.scene.now) (env_of frame.old) base (done m.old) (done m.new) }
    {
        at_default(m);
        self.part(body, frame, base, m)
    }
}
