ghost use Rattle.std.specs.Prelude.{IfOk};
ghost use Rattle.path_states.specs.States.{IsState};
ghost use Rattle.path_steps.specs.Operands.{Pops};

use path_numbers::constant;
use path_states::{Number, State};
use term_bank::{Bank, BankFault};

/// Takes the operand on top off a state; one that isn't there is 0. It fails for want of memory alone.
pub fn pop(bank: &mut Bank, state: &mut State) -> Result<Number, BankFault>
    requires { IsState bank.old state.old }
    ensures { IfOk result (λ x. Pops bank.old bank.new state.old state.new x) }
{
    match state.operands.pop() {
        Some(number) => Ok(number),
        None => {
            let zero = constant(bank, 0)?;
            Ok(zero)
        }
    }
}
