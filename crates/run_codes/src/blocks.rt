//! Blocks (C99 6.8.2): their objects live from entry to exit (C99 6.2.4p5).
ghost use Rattle.std.specs.Prelude.{◌≡◌, Some, map, OnOk, IfOk};
ghost use Rattle.c_means.specs.Items.{known};
ghost use Rattle.core_tree.specs.Codes as form;
ghost use Rattle.core_running.specs.Below.{ReachesCode};
ghost use Rattle.core_running.specs.Frames.{env_of};
ghost use Rattle.core_running.specs.Running.{done, Low};
ghost use Rattle.core_running.specs.Settings.{level, HasWorld};
ghost use Rattle.code_steps.specs.Below.{ReachesRoom};
ghost use Rattle.code_steps.specs.Blocks.{made_all, objects_of, item_of};
ghost use Rattle.run_codes.specs.Items.{TakesAs, ActsAs};
ghost use Rattle.code_steps.specs.Rooms.{items_room};

use crate::below::Steps;
use c_machine::Machine;
use code_steps::{Birth, add_objects, bear, bind, bury};
use core_running::{Frame, Scene};
use core_tree::{Code, Expr};
use plain_data::{Items, Shared};
use std::alloc::{AllocError, Global};

impl<
    'a,
    L: Scene,
    V,
    R,
    X: Fn(Global, &L, &mut Frame, &Code, u64, &mut Machine) -> Result<u64, AllocError>,
> Steps<'a, L, V, R, X> {
    /// Items one behind the other, the places of each behind those of the one before.
    fn sequence(
        &self,
        items: &[Shared<Code>],
        frame: &mut Frame,
        base: u64,
        m: &mut Machine,
    ) -> Result<u64, AllocError>
        requires codes { ReachesCode L.setting X.Fn self.now.scene self.now.code }
        requires low { Low base (items_room (L.setting self.now.scene.now) items.now) }
        requires same_world { HasWorld (L.setting self.now.scene.now) m.old }
        ensures world { m.new.world ≡ m.old.world }
        ensures env { OnOk result (env_of frame.new ≡ env_of frame.old) }
        ensures next { TakesAs result (item_of items.now) (L.setting self.now.scene.now) base }
        ensures runs { ActsAs result (item_of items.now) (L.setting self.now.scene.now) (env_of frame.old) base (done m.old) (done m.new) }
    {
        let mut next = base;
        for item in items {
            next = self.part(item.get(), frame, next, m)?;
        }
        Ok(next)
    }

    /// The items of a block, with its objects in force.
    fn within(
        &self,
        objects: &[Birth],
        items: &[Shared<Code>],
        frame: &mut Frame,
        base: u64,
        m: &mut Machine,
    ) -> Result<u64, AllocError>
        requires codes { ReachesCode L.setting X.Fn self.now.scene self.now.code }
        requires low { Low base (items_room (L.setting self.now.scene.now) items.now) }
        requires same_world { HasWorld (L.setting self.now.scene.now) m.old }
        ensures world { m.new.world ≡ m.old.world }
        ensures env { OnOk result (env_of frame.new ≡ env_of frame.old) }
        ensures next { TakesAs result (item_of items.now) (L.setting self.now.scene.now) base }
        ensures runs { ActsAs result (item_of items.now) (L.setting self.now.scene.now) (known (made_all objects.now) (env_of frame.old)) base (done m.old) (done m.new) }
    {
        match objects.split_first() {
            Some((object, rest)) => {
                if object.place > u64::from(u32::MAX) {
                    return Err(AllocError);
                }
                let outer = frame.number(object.at);
                bind(frame, object.at, object.place as u32)?;
                let next = self.within(rest, items, frame, base, m)?;
                bind(frame, object.at, outer)?;
                Ok(next)
            }
            None => self.sequence(items, frame, base, m),
        }
    }
}

impl<
    'a,
    L: Scene,
    V,
    R: Fn(&L, &Expr) -> u64,
    X: Fn(Global, &L, &mut Frame, &Code, u64, &mut Machine) -> Result<u64, AllocError>,
> Steps<'a, L, V, R, X> {
    /// The items of a block that is entered by a run in any state: its objects live while they run, also where the run
    /// ends in it.
    pub fn block(
        &self,
        items: &[Shared<Code>],
        frame: &mut Frame,
        base: u64,
        m: &mut Machine,
    ) -> Result<u64, AllocError>
        requires rooms { ReachesRoom L.setting R.Fn self.now.scene self.now.room }
        requires codes { ReachesCode L.setting X.Fn self.now.scene self.now.code }
        requires low { Low base (items_room (L.setting self.now.scene.now) items.now) }
        requires same_world { HasWorld (L.setting self.now.scene.now) m.old }
        ensures world { m.new.world ≡ m.old.world }
        ensures env { OnOk result (env_of frame.new ≡ env_of frame.old) }
        ensures next { TakesAs result (item_of items.now) (L.setting self.now.scene.now) base }
        ensures runs { IfOk result (λ _. form.lived (item_of items.now) (level (L.setting self.now.scene.now)) (env_of frame.old) base (done m.old) ≡ Some (done m.new)) }
    {
        let mut objects = Items::new(self.alloc);
        add_objects(items, self.scene, &self.room, base, &mut objects)?;
        bear(objects.as_slice(), m)?;
        let next = self.within(objects.as_slice(), items, frame, base, m)?;
        bury(objects.as_slice(), m);
        Ok(next)
    }

    /// A block as a statement: a run that is on its way passes it by, so nothing jumps into it.
    pub(crate) fn block_statement(
        &self,
        items: &[Shared<Code>],
        frame: &mut Frame,
        base: u64,
        m: &mut Machine,
    ) -> Result<u64, AllocError>
        requires rooms { ReachesRoom L.setting R.Fn self.now.scene self.now.room }
        requires codes { ReachesCode L.setting X.Fn self.now.scene self.now.code }
        requires low { Low base (items_room (L.setting self.now.scene.now) items.now) }
        requires same_world { HasWorld (L.setting self.now.scene.now) m.old }
        ensures world { m.new.world ≡ m.old.world }
        ensures env { OnOk result (env_of frame.new ≡ env_of frame.old) }
        ensures next { TakesAs result (item_of items.now) (L.setting self.now.scene.now) base }
        ensures runs { (is_node : _) → ActsAs result (form.block is_node (map (form.code) items.now)) (L.setting self.now.scene.now) (env_of frame.old) base (done m.old) (done m.new) }
    {
        if !m.is_running() {
            return Ok(self.behind_items(items, base));
        }
        self.block(items, frame, base, m)
    }
}
