//! The walk: code is run over the walk at one level less.
ghost use Rattle.std.specs.Prelude.{◌≡◌, ◌+◌, map, Some, OnOk, IfOk};
ghost use Rattle.c_machine.specs.Worth.{worth};
ghost use Rattle.core_tree.specs.Codes.{code, lived};
ghost use Rattle.core_tree.specs.Programs as program;
ghost use Rattle.core_tree.specs.States.{Output, plain, entered};
ghost use Rattle.core_tree.specs.Values.{value};
ghost use Rattle.core_running.specs.Below.{ReachesValue, ReachesCode, value_room, code_room};
ghost use Rattle.core_running.specs.Frames.{env_of};
ghost use Rattle.core_running.specs.Running.{done, Low, RunsTo};
ghost use Rattle.core_running.specs.Settings.{level, HasWorld};
ghost use Rattle.code_steps.specs.Below.{capped, ReachesRoom};
ghost use Rattle.code_steps.specs.Blocks.{item_of};
ghost use Rattle.run_codes.specs.Items.{TakesAs, ActsAs};
ghost use Rattle.code_steps.specs.Rooms.{items_room};

use crate::below::Steps;
use c_machine::{Halt, Machine, Value};
use c_means::Kind;
use code_steps::{go_to, jump};
use core_running::{Found, Frame, Scene};
use core_tree::{Code, Expr, Function};
use plain_data::Shared;
use std::alloc::{AllocError, Global};

impl<
    'a,
    L: Scene,
    V: Fn(Global, &L, &Frame, &Expr, u64, &mut Machine) -> Result<Found, Halt>,
    R: Fn(&L, &Expr) -> u64,
    X: Fn(Global, &L, &mut Frame, &Code, u64, &mut Machine) -> Result<u64, AllocError>,
> Steps<'a, L, V, R, X> {
    /// Code, over what runs its parts.
    pub fn run(
        &self,
        c: &Code,
        frame: &mut Frame,
        base: u64,
        m: &mut Machine,
    ) -> Result<u64, AllocError>
        requires values { ReachesValue L.setting V.Fn self.now.scene self.now.value }
        requires rooms { ReachesRoom L.setting R.Fn self.now.scene self.now.room }
        requires codes { ReachesCode L.setting X.Fn self.now.scene self.now.code }
        requires low { Low base (code_room (L.setting self.now.scene.now) c.now) }
        requires same_world { HasWorld (L.setting self.now.scene.now) m.old }
        ensures world { m.new.world ≡ m.old.world }
        ensures env { OnOk result (env_of frame.new ≡ env_of frame.old) }
        ensures next { TakesAs result (code c.now) (L.setting self.now.scene.now) base }
        ensures runs { ActsAs result (code c.now) (L.setting self.now.scene.now) (env_of frame.old) base (done m.old) (done m.new) }
    {
        match c {
            Code::Nothing { .. } => Ok(base),
            Code::Value { value, .. } => self.expression(value.get(), frame, base, m),
            Code::Declare {
                at,
                size,
                is_zeroed,
                settings,
            } => self.declaration(*at, *size, *is_zeroed, settings.as_slice(), frame, base, m),
            Code::Static { .. } => Ok(base),
            Code::Block { items, .. } => self.block_statement(items.as_slice(), frame, base, m),
            Code::Label { name, body } => {
                self.labeled(name.get().as_slice(), body.get(), frame, base, m)
            }
            Code::Case { value, body, .. } => self.case(value, body.get(), frame, base, m),
            Code::Default { body } => self.default(body.get(), frame, base, m),
            Code::If {
                at,
                condition,
                positive,
                negative,
            } => self.if_statement(
                *at,
                condition.get(),
                positive.get(),
                negative.get(),
                frame,
                base,
                m,
            ),
            Code::Switch {
                at,
                word,
                cases,
                value,
                items,
                ..
            } => self.switch_statement(
                *at,
                *word,
                cases.as_slice(),
                value.get(),
                items.as_slice(),
                frame,
                base,
                m,
            ),
            Code::Loop {
                at,
                test,
                step,
                body,
            } => self.loop_statement(*at, test, step, body.get(), frame, base, m),
            Code::Repeat { at, test, body } => {
                self.do_statement(*at, test.get(), body.get(), frame, base, m)
            }
            Code::Goto { name } => {
                go_to(name, m)?;
                Ok(base)
            }
            Code::Continue => {
                jump(Kind::Continuing, m);
                Ok(base)
            }
            Code::Break => {
                jump(Kind::Breaking, m);
                Ok(base)
            }
            Code::Return { value } => self.return_statement(value, frame, base, m),
        }
    }
}

/// What runs the parts of a function, and how many levels of its code are gone down into.
#[derive(Clone, Copy)]
pub struct Walk<'a, L, V, R> {
    pub scene: &'a L,
    pub value: V,
    pub room: R,
    pub height: u32,
}

impl<'a, L: Scene, V, R> Scene for Walk<'a, L, V, R> {
    ghost setting = { λ w. L.setting w.scene.now };

    fn turns(&self) -> u32 {
        self.scene.turns()
    }

    fn room(&self, function: u32) -> u64 {
        self.scene.room(function)
    }

    fn heap(&self) -> u32 {
        self.scene.heap()
    }

    fn outside(&self) -> u32 {
        self.scene.outside()
    }
}

/// Evaluates an expression where the code of the walk runs.
fn value_on<
    'a,
    L: Scene,
    V: Fn(Global, &L, &Frame, &Expr, u64, &mut Machine) -> Result<Found, Halt>,
    R,
>(
    alloc: Global,
    here: &Walk<'a, L, V, R>,
    frame: &Frame,
    e: &Expr,
    base: u64,
    m: &mut Machine,
) -> Result<Found, Halt>
    requires values { ReachesValue L.setting V.Fn here.now.scene here.now.value }
    requires low { Low base (value_room (L.setting here.now.scene.now) e.now) }
    requires same_world { HasWorld (L.setting here.now.scene.now) m.old }
    ensures world { m.new.world ≡ m.old.world }
    ensures next { IfOk result (λ x. x.next ≡ base + value_room (L.setting here.now.scene.now) e.now) }
    ensures runs { RunsTo (λ x. worth x.value) result (done m.new) ((value e.now).run (level (L.setting here.now.scene.now)) (env_of frame.now) base (done m.old)) }
{
    (here.value)(alloc, here.scene, frame, e, base, m)
}

/// Tells how many places an expression takes there.
fn room_on<'a, L: Scene, V, R: Fn(&L, &Expr) -> u64>(here: &Walk<'a, L, V, R>, e: &Expr) -> u64
    requires rooms { ReachesRoom L.setting R.Fn here.now.scene here.now.room }
    ensures { result ≡ capped (value_room (L.setting here.now.scene.now) e.now) }
{
    (here.room)(here.scene, e)
}

/// Runs code, and answers the first place behind its own: wherever the run stands, it does what the code does. It fails
/// for want of memory, as which besides are answered: code of more levels than the walk goes down into, an object whose
/// number or size has more than 32 bits, and a structure that is returned, which no accepted program has.
pub fn run_code<
    'a,
    L: Scene,
    V: Copy + Fn(Global, &L, &Frame, &Expr, u64, &mut Machine) -> Result<Found, Halt>,
    R: Copy + Fn(&L, &Expr) -> u64,
>(
    alloc: Global,
    here: &Walk<'a, L, V, R>,
    frame: &mut Frame,
    c: &Code,
    base: u64,
    m: &mut Machine,
) -> Result<u64, AllocError>
    requires values { ReachesValue L.setting V.Fn here.now.scene here.now.value }
    requires rooms { ReachesRoom L.setting R.Fn here.now.scene here.now.room }
    requires low { Low base (code_room (L.setting here.now.scene.now) c.now) }
    requires same_world { HasWorld (L.setting here.now.scene.now) m.old }
    ensures world { m.new.world ≡ m.old.world }
    ensures env { OnOk result (env_of frame.new ≡ env_of frame.old) }
    ensures next { TakesAs result (code c.now) (L.setting here.now.scene.now) base }
    ensures runs { ActsAs result (code c.now) (L.setting here.now.scene.now) (env_of frame.old) base (done m.old) (done m.new) }
{
    if here.height == 0 {
        return Err(AllocError);
    }
    let lower = Walk {
        scene: here.scene,
        value: here.value,
        room: here.room,
        height: here.height - 1,
    };
    let steps = Steps {
        alloc,
        scene: &lower,
        value: value_on,
        room: room_on,
        code: run_code,
    };
    steps.run(c, frame, base, m)
}

/// Runs the items of a function's block, whose objects live while they run, and answers the first place behind their
/// own. It fails as `run_code` does.
pub fn run_items<
    'a,
    L: Scene,
    V: Copy + Fn(Global, &L, &Frame, &Expr, u64, &mut Machine) -> Result<Found, Halt>,
    R: Copy + Fn(&L, &Expr) -> u64,
>(
    alloc: Global,
    here: &Walk<'a, L, V, R>,
    frame: &mut Frame,
    items: &[Shared<Code>],
    base: u64,
    m: &mut Machine,
) -> Result<u64, AllocError>
    requires values { ReachesValue L.setting V.Fn here.now.scene here.now.value }
    requires rooms { ReachesRoom L.setting R.Fn here.now.scene here.now.room }
    requires low { Low base (items_room (L.setting here.now.scene.now) items.now) }
    requires same_world { HasWorld (L.setting here.now.scene.now) m.old }
    ensures world { m.new.world ≡ m.old.world }
    ensures env { OnOk result (env_of frame.new ≡ env_of frame.old) }
    ensures next { TakesAs result (item_of items.now) (L.setting here.now.scene.now) base }
    ensures runs { IfOk result (λ _. lived (item_of items.now) (level (L.setting here.now.scene.now)) (env_of frame.old) base (done m.old) ≡ Some (done m.new)) }
{
    let steps = Steps {
        alloc,
        scene: here,
        value: value_on::<L, V, R>,
        room: room_on::<L, V, R>,
        code: run_code::<L, V, R>,
    };
    steps.block(items, frame, base, m)
}

/// Runs a function by its body, from where it begins: the parameters' objects have the first places, and the block
/// those behind them. It fails as `run_code` does.
pub fn run_body<
    'a,
    L: Scene,
    V: Copy + Fn(Global, &L, &Frame, &Expr, u64, &mut Machine) -> Result<Found, Halt>,
    R: Copy + Fn(&L, &Expr) -> u64,
>(
    alloc: Global,
    here: &Walk<'a, L, V, R>,
    function: &Function,
    values: &[Value],
    base: u64,
    m: &mut Machine,
) -> Result<(), AllocError>
    requires values { ReachesValue L.setting V.Fn here.now.scene here.now.value }
    requires rooms { ReachesRoom L.setting R.Fn here.now.scene here.now.room }
    requires low { Low base (program.body_room {O = Output} (program.body_of function.now) (L.setting here.now.scene.now).measures) }
    requires same_world { HasWorld (L.setting here.now.scene.now) m.old }
    ensures world { m.new.world ≡ m.old.world }
    ensures runs { (o : _) → done m.old ≡ entered plain (done m.old).store o
        → IfOk result (λ _. program.by_body (level (L.setting here.now.scene.now)) (program.body_of function.now) (map worth values.now) base (done m.old).store o ≡ Some (done m.new)) }
{
    let steps = Steps {
        alloc,
        scene: here,
        value: value_on::<L, V, R>,
        room: room_on::<L, V, R>,
        code: run_code::<L, V, R>,
    };
    steps.body(function, values, base, m)
}
