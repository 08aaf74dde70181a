//! The memory in which a run begins (C99 5.1.2, 6.2.4p3): what lives throughout it was made.
ghost use Rattle.std.specs.Prelude.{◌≡◌, ◌<◌, ◌^◌, IfOk};
ghost use Rattle.c_store.specs.Store.{make, start};
ghost use Rattle.core_tree.specs.Programs.{filled_with};
ghost use Rattle.term_bank.specs.Terms.{IsTerm};
ghost use Rattle.term_bank.specs.declared.sort.Sort.TheVariants.{Memory};
ghost use Rattle.run_formula.specs.Starts.{Becomes, Begins, made_in, made_all};

use crate::texts::{lay_text, zero_object};
use c_store::ObjectKind;
use core_tree::{Contents, LastingObject};
use mem_terms::{initial, made};
use path_forms::WalkFault;
use plain_data::Width;
use term_bank::{Bank, BankFault, Node};

/// The memory in which the object of a place has the bytes that it has before any initializer is evaluated.
fn fill(
    bank: &mut Bank,
    memory: Node,
    place: u64,
    size: u32,
    contents: &Contents,
) -> Result<Node, BankFault>
    requires memory { IsTerm bank.old Memory memory }
    requires place { place < 2 ^ 32 }
    ensures { IfOk result (λ n. Becomes bank.old bank.new memory n (filled_with contents.now (start place) size)) }
{
    match contents {
        Contents::World => Ok(memory),
        Contents::Zero => zero_object(bank, memory, place, size),
        Contents::Text(text) => lay_text(bank, memory, place, size, text.as_slice()),
    }
}

/// The memory in which an object of so many bytes was made at a place. It fails for want of memory alone.
pub(crate) fn make_at(
    bank: &mut Bank,
    memory: Node,
    kind: ObjectKind,
    place: u64,
    size: u32,
) -> Result<Node, BankFault>
    requires { IsTerm bank.old Memory memory }
    ensures { IfOk result (λ n. Becomes bank.old bank.new memory n
        (make place (record { kind = kind; size = size }))) }
{
    let number = bank.word(place, Width::W64)?;
    let bytes = bank.word(size as u64, Width::W64)?;
    let node = made(bank, memory, kind, number, bytes)?;
    Ok(node)
}

/// The memory in which an object that lives throughout the run was made. It fails for want of memory, and where the
/// object's place has no number below 2^32.
fn make_object(bank: &mut Bank, memory: Node, object: &LastingObject) -> Result<Node, WalkFault>
    requires { IsTerm bank.old Memory memory }
    ensures { IfOk result (λ n. Becomes bank.old bank.new memory n (made_in object.now)) }
{
    if object.place >= 0x1_0000_0000 {
        return Err(WalkFault::Unplaced);
    }
    let made = make_at(bank, memory, object.kind, object.place, object.size)?;
    let node = fill(bank, made, object.place, object.size, &object.contents)?;
    Ok(node)
}

/// The memory of the world's initial bytes in which these objects were made, in order. It fails as `make_object` does.
pub fn start_memory(bank: &mut Bank, objects: &[LastingObject]) -> Result<Node, WalkFault>
    ensures { IfOk result (λ n. Begins bank.old bank.new n (made_all objects.now)) }
{
    let mut memory = initial(bank)?;
    for object in objects {
        memory = make_object(bank, memory, object)?;
    }
    Ok(memory)
}
