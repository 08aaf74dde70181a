//! Earlier memories that have the same object.
ghost use Rattle.std.specs.Prelude.{◌≡◌, IsTrue, IfSome};
ghost use Rattle.plain_data.specs.declared.width.Width.TheVariants.{W64};
ghost use Rattle.term_bank.specs.Shapes.{Each, IsNode, memory as memory_node, word};
ghost use Rattle.flat_reads.specs.Objects.{AsksObject, AsksOther, IsEarlier, IsNumbered, operands};

use crate::objects::ObjectQuestion;
use plain_data::Width;
use term_bank::{Bank, Shape};

/// The number of the object that a question asks for, where a constant tells it.
fn known_number(bank: &Bank, question: ObjectQuestion) -> Option<u64>
    requires { Each (IsNode bank.now) (operands question) }
    ensures { IfSome result (IsNumbered bank.now question) }
{
    match question {
        ObjectQuestion::Live { address, .. } => match bank.constant(address, Width::W64) {
            Some(address) => Some(address >> 32),
            None => None,
        },
        ObjectQuestion::Kind { object, .. } => bank.constant(object, Width::W64),
        ObjectQuestion::Size { object } => bank.constant(object, Width::W64),
    }
}

/// Whether constants tell that a question asks for another object than that of a number.
fn asks_other(bank: &Bank, question: ObjectQuestion, object: u32) -> bool
    requires operands { Each (IsNode bank.now) (operands question) }
    requires object { IsNode bank.now (word W64 object) }
    ensures { IsTrue result → AsksOther bank.now question object }
{
    match (
        known_number(bank, question),
        bank.constant(object, Width::W64),
    ) {
        (Some(asked), Some(object)) => asked != object,
        _ => false,
    }
}

/// The memory before the last change, where that doesn't concern the object that a question asks for.
fn before(bank: &Bank, memory: u32, question: ObjectQuestion) -> Option<u32>
    requires memory { IsNode bank.now (memory_node memory) }
    requires operands { Each (IsNode bank.now) (operands question) }
    ensures { IfSome result (IsEarlier bank.now question memory) }
{
    match bank.shape(memory) {
        Some(Shape::Write { memory: old, .. }) => Some(old),
        Some(Shape::ZeroRange { memory: old, .. }) => Some(old),
        Some(Shape::CopyRange { memory: old, .. }) => Some(old),
        Some(
            Shape::Made {
                memory: old,
                object,
                ..
            },
        ) if asks_other(bank, question, object) => Some(old),
        Some(
            Shape::Ended {
                memory: old,
                object,
            },
        ) if asks_other(bank, question, object) => Some(old),
        _ => None,
    }
}

/// A question for an object, asked of the earliest memory in which that is the same: changes are passed over that
/// constants tell to concern other objects.
pub(crate) fn asked_object(bank: &Bank, memory: u32, question: ObjectQuestion) -> Shape
    requires memory { IsNode bank.now (memory_node memory) }
    requires operands { Each (IsNode bank.now) (operands question) }
    ensures { AsksObject bank.now memory question result }
{
    let mut earliest = memory;
    'changes: while let Some(old) = before(bank, earliest, question) {
        earliest = old;
    }
    question.of(earliest)
}
