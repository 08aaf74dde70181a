//! Loops (C99 6.8.5): so many turns at most.
ghost use Rattle.std.specs.Prelude.{◌≡◌, ◌+◌, ◌<◌, ◌^◌, option_map, Some, OnOk, IfOk};
ghost use Rattle.core_tree.specs.Codes as form;
ghost use Rattle.core_tree.specs.Values.{value};
ghost use Rattle.core_running.specs.Below.{ReachesValue, ReachesCode, value_room, code_room};
ghost use Rattle.core_running.specs.Frames.{env_of};
ghost use Rattle.core_running.specs.Running.{done, Low};
ghost use Rattle.core_running.specs.Settings.{level, HasWorld};
ghost use Rattle.code_steps.specs.Below.{ReachesRoom};
ghost use Rattle.code_steps.specs.Rooms.{room_in};
ghost use Rattle.run_codes.specs.Items.{TakesAs, ActsAs, Sides};
ghost use Rattle.code_steps.specs.Rooms.{option_room, turns_room};
ghost use Rattle.run_codes.specs.Turns.{step_of, MeasuresTurn, Turns};

use crate::below::Steps;
use c_machine::{Halt, Machine};
use code_steps::{
    branch, leave_at, past_break, past_continue, room_of_code, room_of_option, room_of_turns,
    room_of_value,
};
use core_running::{Found, Frame, Scene};
use core_tree::{Code, Expr};
use plain_data::Shared;
use std::alloc::{AllocError, Global};

/// How far behind a turn's first place its body has its own, and how many places a turn takes.
#[derive(Clone, Copy)]
pub(crate) struct TurnRooms {
    pub body_at: u64,
    pub whole: u64,
}

impl<
    'a,
    L: Scene,
    V: Fn(Global, &L, &Frame, &Expr, u64, &mut Machine) -> Result<Found, Halt>,
    R: Fn(&L, &Expr) -> u64,
    X: Fn(Global, &L, &mut Frame, &Code, u64, &mut Machine) -> Result<u64, AllocError>,
> Steps<'a, L, V, R, X> {
    /// A loop's condition: the side that it takes, or nothing where the run ended.
    fn side_of(
        &self,
        at: u32,
        test: &Expr,
        frame: &Frame,
        base: u64,
        m: &mut Machine,
    ) -> Result<Option<bool>, AllocError>
        requires values { ReachesValue L.setting V.Fn self.now.scene self.now.value }
        requires low { Low base (value_room (L.setting self.now.scene.now) test.now) }
        requires same_world { HasWorld (L.setting self.now.scene.now) m.old }
        ensures world { m.new.world ≡ m.old.world }
        ensures sides { Sides result (λ go. form.tested at (Some (value test.now)) (level (L.setting self.now.scene.now)) (env_of frame.now) base go (done m.old)) (done m.new) }
    {
        match self.value(test, frame, base, m) {
            Ok(Found { value, .. }) => {
                let side = branch(at, &value, m)?;
                Ok(Some(side))
            }
            Err(Halt::Over) => Ok(None),
            Err(Halt::Memory) => Err(AllocError),
        }
    }

    /// A loop's test: without a condition its side is always taken, and it is no branch (C99 6.8.5.3p2).
    fn side(
        &self,
        at: u32,
        test: &Option<Shared<Expr>>,
        frame: &Frame,
        base: u64,
        m: &mut Machine,
    ) -> Result<Option<bool>, AllocError>
        requires values { ReachesValue L.setting V.Fn self.now.scene self.now.value }
        requires low { Low base (option_room (L.setting self.now.scene.now) test.now) }
        requires same_world { HasWorld (L.setting self.now.scene.now) m.old }
        ensures world { m.new.world ≡ m.old.world }
        ensures sides { Sides result (λ go. form.tested at (option_map value test.now) (level (L.setting self.now.scene.now)) (env_of frame.now) base go (done m.old)) (done m.new) }
    {
        match test {
            Some(test) => self.side_of(at, test.get(), frame, base, m),
            None => Ok(Some(true)),
        }
    }

    /// The step of a `for`, which may be missing.
    fn step(
        &self,
        step: &Option<Shared<Expr>>,
        frame: &Frame,
        base: u64,
        m: &mut Machine,
    ) -> Result<(), AllocError>
        requires values { ReachesValue L.setting V.Fn self.now.scene self.now.value }
        requires rooms { ReachesRoom L.setting R.Fn self.now.scene self.now.room }
        requires low { Low base (option_room (L.setting self.now.scene.now) step.now) }
        requires same_world { HasWorld (L.setting self.now.scene.now) m.old }
        ensures world { m.new.world ≡ m.old.world }
        ensures runs { ActsAs result (step_of step.now) (L.setting self.now.scene.now) (env_of frame.now) base (done m.old) (done m.new) }
    {
        match step {
            Some(step) => {
                self.expression(step.get(), frame, base, m)?;
                Ok(())
            }
            None => Ok(()),
        }
    }

    /// How the places of a turn lie.
    fn turn_rooms(
        &self,
        test: &Option<Shared<Expr>>,
        step: &Option<Shared<Expr>>,
        body: &Code,
    ) -> TurnRooms
        requires rooms { ReachesRoom L.setting R.Fn self.now.scene self.now.room }
        requires low { option_room (L.setting self.now.scene.now) test.now + (code_room (L.setting self.now.scene.now) body.now + option_room (L.setting self.now.scene.now) step.now) < 2 ^ 63 }
        ensures { MeasuresTurn (L.setting self.now.scene.now) test.now body.now step.now result }
    {
        let body_at = room_of_option(test, self.scene, &self.room);
        let behind = room_of_code(body, self.scene, &self.room)
            + room_of_option(step, self.scene, &self.room);
        let whole = body_at + behind;
        TurnRooms { body_at, whole }
    }

    /// A turn of a `while` or `for`: whether the loop goes on behind it.
    fn turn(
        &self,
        at: u32,
        test: &Option<Shared<Expr>>,
        step: &Option<Shared<Expr>>,
        body: &Code,
        rooms: TurnRooms,
        frame: &mut Frame,
        base: u64,
        m: &mut Machine,
    ) -> Result<bool, AllocError>
        requires values { ReachesValue L.setting V.Fn self.now.scene self.now.value }
        requires rooms { ReachesRoom L.setting R.Fn self.now.scene self.now.room }
        requires codes { ReachesCode L.setting X.Fn self.now.scene self.now.code }
        requires turn { MeasuresTurn (L.setting self.now.scene.now) test.now body.now step.now rooms }
        requires low { Low base rooms.whole }
        requires same_world { HasWorld (L.setting self.now.scene.now) m.old }
        ensures world { m.new.world ≡ m.old.world }
        ensures env { OnOk result (env_of frame.new ≡ env_of frame.old) }
        ensures turns { Turns result (λ n. form.turns_from at (option_map value test.now) (form.code body.now) (step_of step.now)
            (level (L.setting self.now.scene.now)) (env_of frame.old) n) rooms.whole base (done m.old) (done m.new) }
    {
        match self.side(at, test, frame, base, m)? {
            None => return Ok(false),
            Some(false) => return Ok(false),
            Some(true) => {}
        }
        let next = self.part(body, frame, base + rooms.body_at, m)?;
        past_continue(m);
        if !m.is_running() {
            return Ok(false);
        }
        self.step(step, frame, next, m)?;
        Ok(m.is_running())
    }

    /// All turns of a `while` or `for`, the first of which has its places from `base` on.
    fn turns(
        &self,
        at: u32,
        test: &Option<Shared<Expr>>,
        step: &Option<Shared<Expr>>,
        body: &Code,
        rooms: TurnRooms,
        frame: &mut Frame,
        base: u64,
        m: &mut Machine,
    ) -> Result<(), AllocError>
        requires values { ReachesValue L.setting V.Fn self.now.scene self.now.value }
        requires rooms { ReachesRoom L.setting R.Fn self.now.scene self.now.room }
        requires codes { ReachesCode L.setting X.Fn self.now.scene self.now.code }
        requires turn { MeasuresTurn (L.setting self.now.scene.now) test.now body.now step.now rooms }
        requires low { Low base (turns_room (L.setting self.now.scene.now) rooms.whole) }
        requires same_world { HasWorld (L.setting self.now.scene.now) m.old }
        ensures world { m.new.world ≡ m.old.world }
        ensures env { OnOk result (env_of frame.new ≡ env_of frame.old) }
        ensures runs { IfOk result (λ _. form.turns_from at (option_map value test.now) (form.code body.now) (step_of step.now)
            (level (L.setting self.now.scene.now)) (env_of frame.old) (L.setting self.now.scene.now).measures.turns base (done m.old) ≡ Some (done m.new)) }
    {
        let mut left = self.scene.turns();
        let mut next = base;
        'turns: while left > 0 {
            let goes_on = self.turn(at, test, step, body, rooms, frame, next, m)?;
            if !goes_on {
                return Ok(());
            }
            left -= 1;
            next += rooms.whole;
        }
        match self.side(at, test, frame, next, m)? {
            None => Ok(()),
            Some(false) => Ok(()),
            Some(true) => {
                leave_at(at, m);
                Ok(())
            }
        }
    }

    /// `while` and `for` (C99 6.8.5.1, 6.8.5.3), by the keyword: at most so many turns each time that it is entered.
    pub(crate) fn loop_statement(
        &self,
        at: u32,
        test: &Option<Shared<Expr>>,
        step: &Option<Shared<Expr>>,
        body: &Code,
        frame: &mut Frame,
        base: u64,
        m: &mut Machine,
    ) -> Result<u64, AllocError>
        requires values { ReachesValue L.setting V.Fn self.now.scene self.now.value }
        requires rooms { ReachesRoom L.setting R.Fn self.now.scene self.now.room }
        requires codes { ReachesCode L.setting X.Fn self.now.scene self.now.code }
        requires low { Low base (room_in (L.setting self.now.scene.now) (form.looped at (option_map value test.now) (option_map value step.now) (form.code body.now))) }
        requires same_world { HasWorld (L.setting self.now.scene.now) m.old }
        ensures world { m.new.world ≡ m.old.world }
        ensures env { OnOk result (env_of frame.new ≡ env_of frame.old) }
        ensures next { TakesAs result (form.looped at (option_map value test.now) (option_map value step.now) (form.code body.now)) (L.setting self.now.scene.now) base }
        ensures runs { ActsAs result (form.looped at (option_map value test.now) (option_map value step.now) (form.code body.now)) (L.setting self.now.scene.now) (env_of frame.old) base (done m.old) (done m.new) }
    {
        let rooms = self.turn_rooms(test, step, body);
        let next = base + room_of_turns(rooms.whole, self.scene);
        if !m.is_running() {
            return Ok(next);
        }
        self.turns(at, test, step, body, rooms, frame, base, m)?;
        past_break(m);
        Ok(next)
    }

    /// A turn of a `do`: whether the loop goes on behind it.
    fn round(
        &self,
        at: u32,
        test: &Expr,
        body: &Code,
        whole: u64,
        frame: &mut Frame,
        base: u64,
        m: &mut Machine,
    ) -> Result<bool, AllocError>
        requires values { ReachesValue L.setting V.Fn self.now.scene self.now.value }
        requires codes { ReachesCode L.setting X.Fn self.now.scene self.now.code }
        requires round { whole ≡ code_room (L.setting self.now.scene.now) body.now + value_room (L.setting self.now.scene.now) test.now }
        requires low { Low base whole }
        requires same_world { HasWorld (L.setting self.now.scene.now) m.old }
        ensures world { m.new.world ≡ m.old.world }
        ensures env { OnOk result (env_of frame.new ≡ env_of frame.old) }
        ensures turns { Turns result (λ n. form.rounds_from at (form.code body.now) (value test.now)
            (level (L.setting self.now.scene.now)) (env_of frame.old) n) whole base (done m.old) (done m.new) }
    {
        let next = self.part(body, frame, base, m)?;
        past_continue(m);
        if !m.is_running() {
            return Ok(false);
        }
        match self.side_of(at, test, frame, next, m)? {
            None => Ok(false),
            Some(side) => Ok(side),
        }
    }

    /// All turns of a `do`, the first of which has its places from `base` on.
    fn rounds(
        &self,
        at: u32,
        test: &Expr,
        body: &Code,
        whole: u64,
        frame: &mut Frame,
        base: u64,
        m: &mut Machine,
    ) -> Result<(), AllocError>
        requires values { ReachesValue L.setting V.Fn self.now.scene self.now.value }
        requires codes { ReachesCode L.setting X.Fn self.now.scene self.now.code }
        requires round { whole ≡ code_room (L.setting self.now.scene.now) body.now + value_room (L.setting self.now.scene.now) test.now }
        requires low { Low base (turns_room (L.setting self.now.scene.now) whole) }
        requires same_world { HasWorld (L.setting self.now.scene.now) m.old }
        ensures world { m.new.world ≡ m.old.world }
        ensures env { OnOk result (env_of frame.new ≡ env_of frame.old) }
        ensures runs { IfOk result (λ _. form.rounds_from at (form.code body.now) (value test.now)
            (level (L.setting self.now.scene.now)) (env_of frame.old) (L.setting self.now.scene.now).measures.turns base (done m.old) ≡ Some (done m.new)) }
    {
        let mut left = self.scene.turns();
        let mut next = base;
        'rounds: while left > 0 {
            let goes_on = self.round(at, test, body, whole, frame, next, m)?;
            if !goes_on {
                return Ok(());
            }
            left -= 1;
            next += whole;
        }
        leave_at(at, m);
        Ok(())
    }

    /// `do` (C99 6.8.5.2), by its keyword: at most so many turns each time that it is entered.
    pub(crate) fn do_statement(
        &self,
        at: u32,
        test: &Expr,
        body: &Code,
        frame: &mut Frame,
        base: u64,
        m: &mut Machine,
    ) -> Result<u64, AllocError>
        requires values { ReachesValue L.setting V.Fn self.now.scene self.now.value }
        requires rooms { ReachesRoom L.setting R.Fn self.now.scene self.now.room }
        requires codes { ReachesCode L.setting X.Fn self.now.scene self.now.code }
        requires low { Low base (room_in (L.setting self.now.scene.now) (form.repeated at (form.code body.now) (value test.now))) }
        requires same_world { HasWorld (L.setting self.now.scene.now) m.old }
        ensures world { m.new.world ≡ m.old.world }
        ensures env { OnOk result (env_of frame.new ≡ env_of frame.old) }
        ensures next { TakesAs result (form.repeated at (form.code body.now) (value test.now)) (L.setting self.now.scene.now) base }
        ensures runs { ActsAs result (form.repeated at (form.code body.now) (value test.now)) (L.setting self.now.scene.now) (env_of frame.old) base (done m.old) (done m.new) }
    {
        let whole = room_of_code(body, self.scene, &self.room)
            + room_of_value(test, self.scene, &self.room);
        let next = base + room_of_turns(whole, self.scene);
        if !m.is_running() {
            return Ok(next);
        }
        self.rounds(at, test, body, whole, frame, base, m)?;
        past_break(m);
        Ok(next)
    }
}
