//! What questions for objects lead to, by the memory's last change.
ghost use Rattle.std.specs.Prelude.{◌≡◌, IfOk, Some, slice_get};
ghost use Rattle.term_bank.specs.Banks.{IsBank};
ghost use Rattle.term_bank.specs.Shapes.{Each, IsNode, memory as memory_node};
ghost use Rattle.term_bank.specs.Values.{Grows};
ghost use Rattle.term_bank.specs.declared.shape.Shape.TheVariants.{Entry, Initial, Made, Ended};
ghost use Rattle.flat_reads.specs.Choices.{IsChoice};
ghost use Rattle.flat_reads.specs.Objects.{IsEarlier, asked_of, operands};

use crate::choices::{Choice, Found, certain};
use crate::earlier::asked_object;
use crate::objects::{ObjectQuestion, asks_for, told_of, told_of_none};
use c_store::ObjectKind;
use term_bank::{Bank, BankFault, Node, Shape, Sort};

/// The question where an object was made.
fn made(
    bank: &mut Bank,
    memory: u32,
    question: ObjectQuestion,
    kind: ObjectKind,
    old: u32,
    object: u32,
    size: u32,
) -> Result<Choice, BankFault>
    requires bank { IsBank bank.old }
    requires memory { slice_get bank.old memory ≡ Some (Made kind old object size) }
    requires operands { Each (IsNode bank.old) (operands question) }
    ensures choice { IfOk result (IsChoice bank.new (asked_of memory question)) }
    ensures grows { Grows bank.old bank.new }
    ensures bank { IsBank bank.new }
{
    let condition = asks_for(bank, question, object)?;
    let yes = told_of(bank, question, kind, size)?;
    let no = asked_object(bank, old, question);
    Ok(Choice {
        condition,
        yes: Found::Known(yes),
        no: Found::Asked(no),
    })
}

/// The question where an object's life ended.
fn ended(
    bank: &mut Bank,
    memory: u32,
    question: ObjectQuestion,
    old: u32,
    object: u32,
) -> Result<Choice, BankFault>
    requires bank { IsBank bank.old }
    requires memory { slice_get bank.old memory ≡ Some (Ended old object) }
    requires operands { Each (IsNode bank.old) (operands question) }
    ensures choice { IfOk result (IsChoice bank.new (asked_of memory question)) }
    ensures grows { Grows bank.old bank.new }
    ensures bank { IsBank bank.new }
{
    let condition = asks_for(bank, question, object)?;
    let yes = told_of_none(bank, question)?;
    let no = asked_object(bank, old, question);
    Ok(Choice {
        condition,
        yes: Found::Known(yes),
        no: Found::Asked(no),
    })
}

/// The question where bytes were changed, or nothing that concerns objects.
fn kept(
    bank: &mut Bank,
    memory: u32,
    question: ObjectQuestion,
    old: u32,
) -> Result<Choice, BankFault>
    requires bank { IsBank bank.old }
    requires operands { Each (IsNode bank.old) (operands question) }
    requires old { IsEarlier bank.old question memory old }
    ensures choice { IfOk result (IsChoice bank.new (asked_of memory question)) }
    ensures grows { Grows bank.old bank.new }
    ensures bank { IsBank bank.new }
{
    let asked = asked_object(bank, old, question);
    certain(bank, Found::Asked(asked))
}

/// The question of the initial memory, in which no object lives.
fn initial(bank: &mut Bank, memory: u32, question: ObjectQuestion) -> Result<Choice, BankFault>
    requires bank { IsBank bank.old }
    requires memory { slice_get bank.old memory ≡ Some Initial }
    requires operands { Each (IsNode bank.old) (operands question) }
    ensures choice { IfOk result (IsChoice bank.new (asked_of memory question)) }
    ensures grows { Grows bank.old bank.new }
    ensures bank { IsBank bank.new }
{
    let none = told_of_none(bank, question)?;
    certain(bank, Found::Known(none))
}

/// The question of the entry memory: it is left.
fn entry(bank: &mut Bank, memory: u32, question: ObjectQuestion) -> Result<Choice, BankFault>
    requires memory { slice_get bank.old memory ≡ Some Entry }
    requires stands { IsNode bank.old (memory_node memory) }
    requires operands { Each (IsNode bank.old) (operands question) }
    ensures choice { IfOk result (IsChoice bank.new (asked_of memory question)) }
    ensures grows { Grows bank.old bank.new }
    ensures bank { IsBank bank.new }
{
    let node = bank.add(question.of(memory))?;
    certain(bank, Found::Known(node))
}

/// What a question for an object leads to, whatever its condition is.
pub(crate) fn object_choice(
    bank: &mut Bank,
    memory: u32,
    question: ObjectQuestion,
) -> Result<Choice, BankFault>
    requires bank { IsBank bank.old }
    requires memory { IsNode bank.old (memory_node memory) }
    requires operands { Each (IsNode bank.old) (operands question) }
    ensures choice { IfOk result (IsChoice bank.new (asked_of memory question)) }
    ensures grows { Grows bank.old bank.new }
    ensures bank { IsBank bank.new }
{
    match bank.shape(memory) {
        Some(
            Shape::Made {
                kind,
                memory: old,
                object,
                size,
            },
        ) => made(bank, memory, question, kind, old, object, size),
        Some(
            Shape::Ended {
                memory: old,
                object,
            },
        ) => ended(bank, memory, question, old, object),
        Some(
            Shape::Choose {
                condition,
                yes,
                no,
                ..
            },
        ) => Ok(Choice {
            condition: Node {
                index: condition,
                sort: Sort::Truth,
            },
            yes: Found::Asked(asked_object(bank, yes, question)),
            no: Found::Asked(asked_object(bank, no, question)),
        }),
        Some(Shape::Write { memory: old, .. }) => kept(bank, memory, question, old),
        Some(Shape::ZeroRange { memory: old, .. }) => kept(bank, memory, question, old),
        Some(Shape::CopyRange { memory: old, .. }) => kept(bank, memory, question, old),
        Some(Shape::Initial) => initial(bank, memory, question),
        _ => entry(bank, memory, question),
    }
}
