//! The sides of a branch inside an expression.
ghost use Rattle.std.specs.Prelude.{IfOk, OnOk};
ghost use Rattle.path_steps.specs.Leaves.{IsLeaf, HasRoom, leaf_way};
ghost use Rattle.path_forms.specs.Reaching.{Ready, Branches, Meets, TurnsTo, Closes};
ghost use Rattle.path_forms.specs.Waits.{TakesYes, TakesNo, WaitsReady, Changes, MeetsWaiting, ClosesAnd, ClosesOr};

use crate::fault::WalkFault;
use crate::forms::leaf;
use core_tree::ValueType;
use path_states::{State, Walked, join, settled};
use path_steps::{Leaf, Parted, part};
use plain_data::Items;
use std::alloc::Global;
use std::mem::replace;
use term_bank::Bank;

/// The states that take a branch, those that don't, and those that had ended before it.
#[derive(Drop)]
pub struct Sides {
    pub yes: Walked,
    pub no: Walked,
    pub ended: Items<State>,
}

/// The operand on top is taken as a condition at a token (C99 6.5.13 to 6.5.15). It fails for want of memory alone.
fn branch(alloc: Global, bank: &mut Bank, at: u32, walked: Walked) -> Result<Sides, WalkFault>
    requires { Ready bank.old walked }
    ensures { IfOk result (λ p. Branches bank.old bank.new walked at p) }
{
    let Walked { going, ended } = walked;
    let Parted { yes, no } = part(alloc, bank, at, going.as_slice())?;
    Ok(Sides {
        yes: Walked {
            going: yes,
            ended: Items::new(alloc),
        },
        no: Walked {
            going: no,
            ended: Items::new(alloc),
        },
        ended,
    })
}

/// The states that go on by either side are joined. It fails for want of memory alone.
fn meet(alloc: Global, bank: &mut Bank, sides: Sides) -> Result<Walked, WalkFault>
    requires yes { Ready bank.old sides.yes }
    requires no { Ready bank.old sides.no }
    ensures { IfOk result (λ w. Meets bank.old bank.new sides w) }
{
    let Sides {
        yes: first,
        no: second,
        ended,
    } = sides;
    let Walked {
        going: taken,
        ended: more,
    } = first;
    let Walked {
        going: skipped,
        ended: last,
    } = second;
    let mut ended = ended;
    let mut more = more;
    more.append(last)?;
    ended.append(more)?;
    let mut all = taken;
    all.append(skipped)?;
    let going = join(alloc, bank, all.as_slice())?;
    Ok(Walked { going, ended })
}

/// The second side is next, and the states that go on by the first are joined. It fails for want of memory alone.
fn turn(alloc: Global, bank: &mut Bank, sides: Sides) -> Result<Sides, WalkFault>
    requires yes { Ready bank.old sides.yes }
    requires no { Ready bank.old sides.no }
    ensures { IfOk result (λ q. TurnsTo bank.old bank.new sides q) }
{
    let Sides {
        yes: first,
        no,
        ended,
    } = sides;
    let Walked {
        going: taken,
        ended: more,
    } = first;
    let going = join(alloc, bank, taken.as_slice())?;
    Ok(Sides {
        yes: Walked { going, ended: more },
        no,
        ended,
    })
}

/// A leaf behind each side, and the states that go on joined.
fn close(
    alloc: Global,
    bank: &mut Bank,
    room: u64,
    first: Leaf,
    second: Leaf,
    sides: Sides,
) -> Result<Walked, WalkFault>
    requires yes { Ready bank.old sides.yes }
    requires no { Ready bank.old sides.no }
    requires first { IsLeaf first }
    requires second { IsLeaf second }
    requires first_room { HasRoom room first }
    requires second_room { HasRoom room second }
    ensures { IfOk result (λ w. Closes room bank.old bank.new sides w (leaf_way first) (leaf_way second)) }
{
    let Sides { yes, no, ended } = sides;
    let mut positive = yes;
    leaf(alloc, bank, room, first, &mut positive)?;
    let mut negative = no;
    leaf(alloc, bank, room, second, &mut negative)?;
    let closed = meet(
        alloc,
        bank,
        Sides {
            yes: positive,
            no: negative,
            ended,
        },
    )?;
    Ok(closed)
}

/// The side of a branch that waits while the other is walked, and the states that had ended before.
#[derive(Drop)]
pub struct Waiting {
    pub side: Walked,
    pub ended: Items<State>,
}

/// The states that take a branch are next, and those that don't wait.
pub fn take_yes(
    alloc: Global,
    bank: &mut Bank,
    at: u32,
    walked: &mut Walked,
    waiting: &mut Items<Waiting>,
) -> Result<(), WalkFault>
    requires { Ready bank.old walked.old }
    ensures { OnOk result (TakesYes bank.old bank.new at walked.old walked.new waiting.old waiting.new) }
{
    let now = replace(walked, settled(alloc));
    let Sides { yes, no, ended } = branch(alloc, bank, at, now)?;
    *walked = yes;
    waiting.push(Waiting { side: no, ended })?;
    Ok(())
}

/// The states that don't take a branch are next, and those that do wait.
pub fn take_no(
    alloc: Global,
    bank: &mut Bank,
    at: u32,
    walked: &mut Walked,
    waiting: &mut Items<Waiting>,
) -> Result<(), WalkFault>
    requires { Ready bank.old walked.old }
    ensures { OnOk result (TakesNo bank.old bank.new at walked.old walked.new waiting.old waiting.new) }
{
    let now = replace(walked, settled(alloc));
    let Sides { yes, no, ended } = branch(alloc, bank, at, now)?;
    *walked = no;
    waiting.push(Waiting { side: yes, ended })?;
    Ok(())
}

/// The side that waits is next, and the other one, joined, waits.
pub fn change(
    alloc: Global,
    bank: &mut Bank,
    walked: &mut Walked,
    waiting: &mut Items<Waiting>,
) -> Result<(), WalkFault>
    requires ready { Ready bank.old walked.old }
    requires waits { WaitsReady bank.old waiting.old }
    ensures { OnOk result (Changes bank.old bank.new walked.old walked.new waiting.old waiting.new) }
{
    let Some(Waiting { side, ended }) = waiting.pop() else {
        return Err(WalkFault::NothingWaits);
    };
    let now = replace(walked, settled(alloc));
    let before = Sides {
        yes: now,
        no: side,
        ended,
    };
    let Sides {
        yes: first,
        no: second,
        ended: left,
    } = turn(alloc, bank, before)?;
    *walked = second;
    waiting.push(Waiting {
        side: first,
        ended: left,
    })?;
    Ok(())
}

/// The side that waits was the first, and both meet.
pub fn meet_waiting(
    alloc: Global,
    bank: &mut Bank,
    walked: &mut Walked,
    waiting: &mut Items<Waiting>,
) -> Result<(), WalkFault>
    requires ready { Ready bank.old walked.old }
    requires waits { WaitsReady bank.old waiting.old }
    ensures { OnOk result (MeetsWaiting bank.old bank.new walked.old walked.new waiting.old waiting.new) }
{
    let Some(Waiting { side, ended }) = waiting.pop() else {
        return Err(WalkFault::NothingWaits);
    };
    let now = replace(walked, settled(alloc));
    let sides = Sides {
        yes: side,
        no: now,
        ended,
    };
    let met = meet(alloc, bank, sides)?;
    *walked = met;
    Ok(())
}

/// Of the states that took the branch the value on top is 0 or 1, and those that wait have 0 (C99 6.5.13p3).
pub fn close_and(
    alloc: Global,
    bank: &mut Bank,
    room: u64,
    walked: &mut Walked,
    waiting: &mut Items<Waiting>,
) -> Result<(), WalkFault>
    requires ready { Ready bank.old walked.old }
    requires waits { WaitsReady bank.old waiting.old }
    ensures { OnOk result (ClosesAnd room bank.old bank.new walked.old walked.new waiting.old waiting.new) }
{
    let Some(Waiting { side, ended }) = waiting.pop() else {
        return Err(WalkFault::NothingWaits);
    };
    let now = replace(walked, settled(alloc));
    let sides = Sides {
        yes: now,
        no: side,
        ended,
    };
    let truth = Leaf::Convert {
        to: ValueType::Truth,
    };
    let closed = close(alloc, bank, room, truth, Leaf::Constant { value: 0 }, sides)?;
    *walked = closed;
    Ok(())
}

/// Of the states that didn't take the branch the value on top is 0 or 1, and those that wait have 1 (C99 6.5.14p3).
pub fn close_or(
    alloc: Global,
    bank: &mut Bank,
    room: u64,
    walked: &mut Walked,
    waiting: &mut Items<Waiting>,
) -> Result<(), WalkFault>
    requires ready { Ready bank.old walked.old }
    requires waits { WaitsReady bank.old waiting.old }
    ensures { OnOk result (ClosesOr room bank.old bank.new walked.old walked.new waiting.old waiting.new) }
{
    let Some(Waiting { side, ended }) = waiting.pop() else {
        return Err(WalkFault::NothingWaits);
    };
    let now = replace(walked, settled(alloc));
    let sides = Sides {
        yes: side,
        no: now,
        ended,
    };
    let truth = Leaf::Convert {
        to: ValueType::Truth,
    };
    let closed = close(alloc, bank, room, Leaf::Constant { value: 1 }, truth, sides)?;
    *walked = closed;
    Ok(())
}
