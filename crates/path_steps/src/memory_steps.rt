ghost use Rattle.std.specs.Prelude.{IfOk, unsigned_abs, ℕ};
ghost use Rattle.path_states.specs.States.{IsState};
ghost use Rattle.path_states.specs.Ways.{Tries};
ghost use Rattle.path_steps.specs.Memories.{IsScalar, load_by, put_by};
ghost use Rattle.path_steps.specs.Operands.{on_one, on_two};

use crate::accesses::{access_exit, literal_exit, spelled, stored_width};
use crate::addresses::natural;
use crate::operands::pop;
use crate::settling::settle;
use core_tree::Access;
use mem_terms::{read, write};
use path_numbers::{converted, in_width};
use path_states::{State, Walked};
use std::alloc::Global;
use term_bank::{Bank, BankFault};

/// What stands at the address on top of the operands (C99 6.3.2.1p2).
pub(crate) fn load_step(
    alloc: Global,
    bank: &mut Bank,
    access: Access,
    state: State,
) -> Result<Walked, BankFault>
    requires state { IsState bank.old state }
    requires scalar { IsScalar access.stored }
    ensures { IfOk result (λ w. (room : ℕ) → Tries room bank.old bank.new state w
        (on_one (λ e z d. load_by access (unsigned_abs z) d))) }
{
    let mut state = state;
    let operand = pop(bank, &mut state)?;
    let address = natural(bank, operand)?;
    let width = stored_width(access.stored);
    let exit = access_exit(
        bank,
        access.is_tested,
        access.at,
        state.memory,
        address,
        width,
    )?;
    let node = read(bank, state.memory, address, width)?;
    let number = spelled(bank, access.stored, node)?;
    let mut next = state.copy(alloc)?;
    next.operands.push(number)?;
    let walked = settle(alloc, bank, &state, next, exit, None)?;
    Ok(walked)
}

/// The value on top of the operands is converted and stored at the address below it (C99 6.5.16.1).
pub(crate) fn put_step(
    alloc: Global,
    bank: &mut Bank,
    at: u32,
    access: Access,
    state: State,
) -> Result<Walked, BankFault>
    requires state { IsState bank.old state }
    requires scalar { IsScalar access.stored }
    ensures { IfOk result (λ w. (room : ℕ) → Tries room bank.old bank.new state w
        (on_two (λ e a z d. put_by at access (unsigned_abs a) z d))) }
{
    let mut state = state;
    let value = pop(bank, &mut state)?;
    let operand = pop(bank, &mut state)?;
    let address = natural(bank, operand)?;
    let width = stored_width(access.stored);
    let exit = access_exit(
        bank,
        access.is_tested,
        access.at,
        state.memory,
        address,
        width,
    )?;
    let literal = literal_exit(bank, access.is_tested, at, state.memory, address, width)?;
    let number = converted(bank, value, access.stored)?;
    let word = in_width(bank, number, width)?;
    let memory = write(bank, state.memory, address, width, word)?;
    let mut next = state.copy(alloc)?;
    next.operands.push(number)?;
    next.memory = memory;
    let walked = settle(alloc, bank, &state, next, exit, literal)?;
    Ok(walked)
}
