ghost use Rattle.std.specs.Prelude.{◌≡◌, true, IfOk};
ghost use Rattle.term_bank.specs.Shapes.{Each, IsInWidth, parts};
ghost use Rattle.term_bank.specs.declared.shape.Shape.TheVariants.{Binary, Test, Convert, Not, Connect, Choose};
ghost use Rattle.bitvectors.specs.Signals.{AreInputs, HasBits, IsSignal, is_of_bits, is_plain};

use crate::inputs::Inputs;
use crate::leaves::{blast_constant, blast_flag, blast_initial_byte, blast_world_word};
use crate::operators::{compare, extend, operate};
use crate::signals::bits_of;
use crate::truths::{connect, negate, one_bit, select};
use gates::{Bit, BlastFault, Gates};
use plain_data::{Items, Width};
use std::collections::HashMap;
use term_bank::{Connective, Extension, Shape, Sort, WordOperator, WordTest};

/// An operator on two words.
fn blast_binary(
    gates: &mut Gates,
    inputs: &Inputs,
    signals: &HashMap<u32, Items<Bit>>,
    operator: WordOperator,
    width: Width,
    left: u32,
    right: u32,
) -> Result<Items<Bit>, BlastFault>
    requires inputs { AreInputs gates.old inputs.now }
    requires parts { Each (HasBits gates.old signals.now) (parts (Binary operator width left right)) }
    ensures { IfOk result (IsSignal gates.old gates.new inputs.now inputs.now signals.now
        (Binary operator width left right)) }
{
    let _ = inputs;
    let (a, b) = (bits_of(signals, left), bits_of(signals, right));
    let word = operate(gates, operator, width, a, b)?;
    Ok(word)
}

/// A test of two words.
fn blast_test(
    gates: &mut Gates,
    inputs: &Inputs,
    signals: &HashMap<u32, Items<Bit>>,
    test: WordTest,
    width: Width,
    left: u32,
    right: u32,
) -> Result<Items<Bit>, BlastFault>
    requires inputs { AreInputs gates.old inputs.now }
    requires parts { Each (HasBits gates.old signals.now) (parts (Test test width left right)) }
    ensures { IfOk result (IsSignal gates.old gates.new inputs.now inputs.now signals.now
        (Test test width left right)) }
{
    let _ = inputs;
    let (a, b) = (bits_of(signals, left), bits_of(signals, right));
    let bit = compare(gates, test, width, a, b)?;
    let word = one_bit(gates, bit)?;
    Ok(word)
}

/// A word in another width.
fn blast_convert(
    gates: &Gates,
    inputs: &Inputs,
    signals: &HashMap<u32, Items<Bit>>,
    extension: Extension,
    from: Width,
    to: Width,
    operand: u32,
) -> Result<Items<Bit>, BlastFault>
    requires inputs { AreInputs gates.now inputs.now }
    requires parts { Each (HasBits gates.now signals.now) (parts (Convert extension from to operand)) }
    ensures { IfOk result (IsSignal gates.now gates.now inputs.now inputs.now signals.now
        (Convert extension from to operand)) }
{
    let _ = inputs;
    let word = extend(gates, extension, from, to, bits_of(signals, operand))?;
    Ok(word)
}

/// The other truth value.
fn blast_not(
    gates: &Gates,
    inputs: &Inputs,
    signals: &HashMap<u32, Items<Bit>>,
    operand: u32,
) -> Result<Items<Bit>, BlastFault>
    requires inputs { AreInputs gates.now inputs.now }
    requires parts { Each (HasBits gates.now signals.now) (parts (Not operand)) }
    ensures { IfOk result (IsSignal gates.now gates.now inputs.now inputs.now signals.now (Not operand)) }
{
    let _ = inputs;
    let word = negate(gates, bits_of(signals, operand))?;
    Ok(word)
}

/// A connective of two truth values.
fn blast_connect(
    gates: &mut Gates,
    inputs: &Inputs,
    signals: &HashMap<u32, Items<Bit>>,
    connective: Connective,
    left: u32,
    right: u32,
) -> Result<Items<Bit>, BlastFault>
    requires inputs { AreInputs gates.old inputs.now }
    requires parts { Each (HasBits gates.old signals.now) (parts (Connect connective left right)) }
    ensures { IfOk result (IsSignal gates.old gates.new inputs.now inputs.now signals.now
        (Connect connective left right)) }
{
    let _ = inputs;
    let (a, b) = (bits_of(signals, left), bits_of(signals, right));
    let word = connect(gates, connective, a, b)?;
    Ok(word)
}

/// Of two values of one sort, the first where a truth value is true.
fn blast_choose(
    gates: &mut Gates,
    inputs: &Inputs,
    signals: &HashMap<u32, Items<Bit>>,
    sort: Sort,
    condition: u32,
    yes: u32,
    no: u32,
) -> Result<Items<Bit>, BlastFault>
    requires inputs { AreInputs gates.old inputs.now }
    requires parts { Each (HasBits gates.old signals.now) (parts (Choose sort condition yes no)) }
    requires sort { is_of_bits sort ≡ true }
    ensures { IfOk result (IsSignal gates.old gates.new inputs.now inputs.now signals.now
        (Choose sort condition yes no)) }
{
    let _ = inputs;
    let _ = sort;
    let (a, b) = (bits_of(signals, yes), bits_of(signals, no));
    let word = select(gates, bits_of(signals, condition), a, b)?;
    Ok(word)
}

/// A shape's bits, over the bits of its parts.
pub(crate) fn blast_shape(
    gates: &mut Gates,
    inputs: &mut Inputs,
    signals: &HashMap<u32, Items<Bit>>,
    shape: Shape,
) -> Result<Items<Bit>, BlastFault>
    requires inputs { AreInputs gates.old inputs.old }
    requires parts { Each (HasBits gates.old signals.now) (parts shape) }
    requires plain { is_plain shape ≡ true }
    requires within { IsInWidth shape }
    ensures { IfOk result (IsSignal gates.old gates.new inputs.old inputs.new signals.now shape) }
{
    match shape {
        Shape::Flag(truth) => blast_flag(gates, inputs, signals, truth),
        Shape::Constant { bits, width } => blast_constant(gates, inputs, signals, bits, width),
        Shape::WorldWord { width, place } => {
            blast_world_word(gates, inputs, signals, width, place)
        }
        Shape::InitialByte { row, address } => {
            blast_initial_byte(gates, inputs, signals, row, address)
        }
        Shape::Binary {
            operator,
            width,
            left,
            right,
        } => blast_binary(gates, inputs, signals, operator, width, left, right),
        Shape::Test {
            test,
            width,
            left,
            right,
        } => blast_test(gates, inputs, signals, test, width, left, right),
        Shape::Convert {
            extension,
            from,
            to,
            operand,
        } => blast_convert(gates, inputs, signals, extension, from, to, operand),
        Shape::Not(operand) => blast_not(gates, inputs, signals, operand),
        Shape::Connect {
            connective,
            left,
            right,
        } => blast_connect(gates, inputs, signals, connective, left, right),
        Shape::Choose {
            sort,
            condition,
            yes,
            no,
        } => blast_choose(gates, inputs, signals, sort, condition, yes, no),
        _ => Ok(gates.no_bits()),
    }
}
