//! The bytes of objects that live throughout the run, before any initializer is evaluated (C99 6.4.5p5, 6.7.8p10).
ghost use Rattle.std.specs.Prelude.{◌≡◌, ◌<◌, ◌≤◌, ◌+◌, ◌^◌, IfOk};
ghost use Rattle.c_store.specs.Store.{start, lay, zero_range as zeroes};
ghost use Rattle.c_means.specs.Initials.{text_byte};
ghost use Rattle.term_bank.specs.Terms.{IsTerm};
ghost use Rattle.term_bank.specs.declared.sort.Sort.TheVariants.{Memory};
ghost use Rattle.run_formula.specs.Starts.{Becomes};

use mem_terms::zero_range;
use plain_data::Width;
use term_bank::{Bank, BankFault, Node};

/// The first address of the object of a place.
pub(crate) fn start_of(place: u64) -> u64
    requires { place < 2 ^ 32 }
    ensures { result ≡ start place }
{
    place * 0x1_0000_0000
}

/// The memory in which so many bytes from an address on are 0. It fails for want of memory alone.
pub(crate) fn zero_bytes(
    bank: &mut Bank,
    memory: Node,
    address: u64,
    count: u64,
) -> Result<Node, BankFault>
    requires memory { IsTerm bank.old Memory memory }
    requires ends { address + count ≤ 2 ^ 64 }
    ensures { IfOk result (λ n. Becomes bank.old bank.new memory n (zeroes address count)) }
{
    let from = bank.word(address, Width::W64)?;
    let length = bank.word(count, Width::W64)?;
    let node = zero_range(bank, memory, from, length)?;
    Ok(node)
}

/// The memory in which the first bytes of the object of a place are 0. It fails for want of memory alone.
pub(crate) fn zero_object(
    bank: &mut Bank,
    memory: Node,
    place: u64,
    size: u32,
) -> Result<Node, BankFault>
    requires memory { IsTerm bank.old Memory memory }
    requires place { place < 2 ^ 32 }
    ensures { IfOk result (λ n. Becomes bank.old bank.new memory n (zeroes (start place) size)) }
{
    let node = zero_bytes(bank, memory, start_of(place), size as u64)?;
    Ok(node)
}

/// The memory in which the first bytes of the object of a place are a text's, and 0 behind its end. It fails for want
/// of memory alone.
pub(crate) fn lay_text(
    bank: &mut Bank,
    memory: Node,
    place: u64,
    size: u32,
    text: &[u8],
) -> Result<Node, BankFault>
    requires memory { IsTerm bank.old Memory memory }
    requires place { place < 2 ^ 32 }
    ensures { IfOk result (λ n. Becomes bank.old bank.new memory n (lay (start place) size (text_byte text.now))) }
{
    let from = bank.word(start_of(place), Width::W64)?;
    let node = path_codes::lay_text(bank, memory, from, size as u64, text)?;
    Ok(node)
}
