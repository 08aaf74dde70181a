ghost use Rattle.std.specs.Prelude.{◌≡◌, ◌∷◌, [], Some, slice_get, IfOk};
ghost use Rattle.plain_data.specs.declared.width.Width.TheVariants.{W8, W64};
ghost use Rattle.term_bank.specs.Banks.{IsBank};
ghost use Rattle.term_bank.specs.Shapes.{IsNode, IsWell, memory as memory_node, word};
ghost use Rattle.term_bank.specs.Values.{Grows, IsWorth};
ghost use Rattle.term_bank.specs.declared.shape.Shape.TheVariants.{Entry, Initial, InitialByte, Write, ZeroRange, CopyRange, Read};
ghost use Rattle.term_bank.specs.declared.sort.Sort.TheVariants.{Word};
ghost use Rattle.term_bank.specs.Terms.{IsTerm};
ghost use Rattle.flat_reads.specs.Flats.{IsFlatOver};
ghost use Rattle.flat_reads.specs.Choices.{Asks, IsChoice, IsQuestion, Leads};

use crate::object_choices::object_choice;
use crate::objects::ObjectQuestion;
use crate::parts::{behind, constant, distance, inside, octet};
use mem_terms::{octets, seen};
use plain_data::Width;
use term_bank::{Bank, BankFault, Node, Shape, Sort};

/// What a question leads to: a node, or another question.
#[derive(Clone, Copy, PartialEq, Eq)]
pub enum Found {
    Known(Node),
    Asked(Shape),
}

/// Of two answers the first where the condition is true.
#[derive(Clone, Copy, PartialEq, Eq)]
pub struct Choice {
    pub condition: Node,
    pub yes: Found,
    pub no: Found,
}

/// What was found, whatever else is true.
pub(crate) fn certain(bank: &mut Bank, found: Found) -> Result<Choice, BankFault>
    ensures choice { (question : _) → Leads bank.old question found → IfOk result (IsChoice bank.new question) }
    ensures grows { Grows bank.old bank.new }
    ensures bank { IsBank bank.new }
{
    let condition = bank.add(Shape::Flag(true))?;
    Ok(Choice {
        condition,
        yes: found,
        no: found,
    })
}

/// The question for the byte of a memory at an address. It is asked of the earliest memory that constants tell to
/// have the same byte there.
pub(crate) fn asked(bank: &Bank, memory: u32, address: u32) -> Found
    requires memory { IsNode bank.now (memory_node memory) }
    requires address { IsNode bank.now (word W64 address) }
    ensures { Asks bank.now memory (word W64 address) result }
{
    let found = Node {
        index: memory,
        sort: Sort::Memory,
    };
    let place = Node {
        index: address,
        sort: Sort::Word(Width::W64),
    };
    let seen = seen(bank, found, place, Width::W8);
    Found::Asked(Shape::Read {
        width: Width::W8,
        memory: seen.index,
        address,
    })
}

/// The byte at an address where a word was written.
fn written(
    bank: &mut Bank,
    memory: u32,
    width: Width,
    old: u32,
    to: u32,
    value: u32,
    address: u32,
) -> Result<Choice, BankFault>
    requires bank { IsBank bank.old }
    requires memory { slice_get bank.old memory ≡ Some (Write width old to value) }
    requires address { IsNode bank.old (word W64 address) }
    ensures choice { IfOk result (IsChoice bank.new (Read W8 memory address)) }
    ensures grows { Grows bank.old bank.new }
    ensures bank { IsBank bank.new }
{
    let far = distance(bank, to, address)?;
    let length = constant(bank, octets(width), Width::W64)?;
    let condition = inside(bank, far.index, length.index)?;
    let byte = octet(bank, value, width, far)?;
    let no = asked(bank, old, address);
    Ok(Choice {
        condition,
        yes: Found::Known(byte),
        no,
    })
}

/// The byte at an address where a range was zeroed.
fn zeroed(
    bank: &mut Bank,
    memory: u32,
    old: u32,
    from: u32,
    length: u32,
    address: u32,
) -> Result<Choice, BankFault>
    requires bank { IsBank bank.old }
    requires memory { slice_get bank.old memory ≡ Some (ZeroRange old from length) }
    requires address { IsNode bank.old (word W64 address) }
    ensures choice { IfOk result (IsChoice bank.new (Read W8 memory address)) }
    ensures grows { Grows bank.old bank.new }
    ensures bank { IsBank bank.new }
{
    let far = distance(bank, from, address)?;
    let condition = inside(bank, far.index, length)?;
    let byte = constant(bank, 0, Width::W8)?;
    let no = asked(bank, old, address);
    Ok(Choice {
        condition,
        yes: Found::Known(byte),
        no,
    })
}

/// The byte at an address where a range was copied: it is read of the source at the same distance.
fn copied(
    bank: &mut Bank,
    memory: u32,
    old: u32,
    to: u32,
    source: u32,
    from: u32,
    length: u32,
    address: u32,
) -> Result<Choice, BankFault>
    requires bank { IsBank bank.old }
    requires memory { slice_get bank.old memory ≡ Some (CopyRange old to source from length) }
    requires address { IsNode bank.old (word W64 address) }
    ensures choice { IfOk result (IsChoice bank.new (Read W8 memory address)) }
    ensures grows { Grows bank.old bank.new }
    ensures bank { IsBank bank.new }
{
    let far = distance(bank, to, address)?;
    let condition = inside(bank, far.index, length)?;
    let place = behind(bank, from, far.index)?;
    let yes = asked(bank, source, place.index);
    let no = asked(bank, old, address);
    Ok(Choice { condition, yes, no })
}

/// The node of a byte of the initial memory: the row of the table that has its address's number.
pub(crate) fn initial_byte(bank: &mut Bank, address: u32) -> Result<Node, BankFault>
    requires { IsNode bank.old (word W64 address) }
    ensures node { IfOk result (IsTerm bank.new (Word W8)) }
    ensures flat { IfOk result (λ n. IsFlatOver bank.new (word W64 address ∷ []) n.index) }
    ensures value { IfOk result (IsWorth bank.new (InitialByte address address)) }
    ensures grows { Grows bank.old bank.new }
    ensures bank { IsBank bank.new }
{
    bank.add(Shape::InitialByte {
        row: address,
        address,
    })
}

/// The byte at an address of the initial memory.
fn initial(bank: &mut Bank, memory: u32, address: u32) -> Result<Choice, BankFault>
    requires bank { IsBank bank.old }
    requires memory { slice_get bank.old memory ≡ Some Initial }
    requires address { IsNode bank.old (word W64 address) }
    ensures choice { IfOk result (IsChoice bank.new (Read W8 memory address)) }
    ensures grows { Grows bank.old bank.new }
    ensures bank { IsBank bank.new }
{
    let byte = initial_byte(bank, address)?;
    certain(bank, Found::Known(byte))
}

/// The byte at an address of the entry memory: a read that is left.
fn entry(bank: &mut Bank, memory: u32, address: u32) -> Result<Choice, BankFault>
    requires memory { slice_get bank.old memory ≡ Some Entry }
    requires well { IsWell bank.old (Read W8 memory address) }
    ensures choice { IfOk result (IsChoice bank.new (Read W8 memory address)) }
    ensures grows { Grows bank.old bank.new }
    ensures bank { IsBank bank.new }
{
    let byte = bank.add(Shape::Read {
        width: Width::W8,
        memory,
        address,
    })?;
    certain(bank, Found::Known(byte))
}

/// What the question for a byte leads to, whatever its condition is.
fn byte_choice(bank: &mut Bank, memory: u32, address: u32) -> Result<Choice, BankFault>
    requires bank { IsBank bank.old }
    requires well { IsWell bank.old (Read W8 memory address) }
    ensures choice { IfOk result (IsChoice bank.new (Read W8 memory address)) }
    ensures grows { Grows bank.old bank.new }
    ensures bank { IsBank bank.new }
{
    match bank.shape(memory) {
        Some(
            Shape::Write {
                width,
                memory: old,
                address: to,
                value,
            },
        ) => written(bank, memory, width, old, to, value, address),
        Some(
            Shape::ZeroRange {
                memory: old,
                from,
                length,
            },
        ) => zeroed(bank, memory, old, from, length, address),
        Some(
            Shape::CopyRange {
                memory: old,
                to,
                source,
                from,
                length,
            },
        ) => copied(bank, memory, old, to, source, from, length, address),
        Some(
            Shape::Choose {
                condition,
                yes,
                no,
                ..
            },
        ) => Ok(Choice {
            condition: Node {
                index: condition,
                sort: Sort::Truth,
            },
            yes: asked(bank, yes, address),
            no: asked(bank, no, address),
        }),
        Some(Shape::Made { memory: old, .. }) => {
            let found = asked(bank, old, address);
            certain(bank, found)
        }
        Some(Shape::Ended { memory: old, .. }) => {
            let found = asked(bank, old, address);
            certain(bank, found)
        }
        Some(Shape::Initial) => initial(bank, memory, address),
        _ => entry(bank, memory, address),
    }
}

/// What a question leads to, whatever its condition is.
fn undecided(bank: &mut Bank, question: Shape) -> Result<Choice, BankFault>
    requires bank { IsBank bank.old }
    requires well { IsWell bank.old question }
    requires asks { IsQuestion question }
    ensures choice { IfOk result (IsChoice bank.new question) }
    ensures grows { Grows bank.old bank.new }
    ensures bank { IsBank bank.new }
{
    match question {
        Shape::Read {
            width: Width::W8,
            memory,
            address,
        } => byte_choice(bank, memory, address),
        Shape::IsLive {
            memory,
            address,
            length,
        } => object_choice(bank, memory, ObjectQuestion::Live { address, length }),
        Shape::HasKind {
            kind,
            memory,
            object,
        } => object_choice(bank, memory, ObjectQuestion::Kind { kind, object }),
        Shape::ObjectSize { memory, object } => {
            object_choice(bank, memory, ObjectQuestion::Size { object })
        }
        _ => certain(bank, Found::Asked(question)),
    }
}

/// A choice whose condition is a constant has the chosen arm twice.
fn decided(bank: &Bank, choice: Choice) -> Choice
    ensures { (question : _) → IsChoice bank.now question choice → IsChoice bank.now question result }
{
    match bank.flag(choice.condition.index) {
        Some(true) => Choice {
            condition: choice.condition,
            yes: choice.yes,
            no: choice.yes,
        },
        Some(false) => Choice {
            condition: choice.condition,
            yes: choice.no,
            no: choice.no,
        },
        None => choice,
    }
}

/// What a question leads to.
pub(crate) fn choice_of(bank: &mut Bank, question: Shape) -> Result<Choice, BankFault>
    requires bank { IsBank bank.old }
    requires well { IsWell bank.old question }
    requires asks { IsQuestion question }
    ensures choice { IfOk result (IsChoice bank.new question) }
    ensures grows { Grows bank.old bank.new }
    ensures bank { IsBank bank.new }
{
    let choice = undecided(bank, question)?;
    Ok(decided(bank, choice))
}
