ghost use Rattle.std.specs.Prelude.{IfOk, IfSome};
ghost use Rattle.term_bank.specs.Banks.{IsBank};
ghost use Rattle.term_bank.specs.Shapes.{Each, IsNode};
ghost use Rattle.term_bank.specs.Values.{Grows};
ghost use Rattle.bitvectors.specs.Blasts.{IsBlasted, IsMore, IsReady};
ghost use Rattle.bitvectors.specs.Reads.{ArePlainFor, IfNone, IsNotPlain};

use crate::blasting::{Blasted, blast};
use crate::more::More;
use crate::plainness::are_plain;
use flat_reads::flat_roots;
use gates::BlastFault;
use plain_data::Items;
use std::alloc::Global;
use term_bank::{Bank, BankFault, Node};

/// Why clauses were not made, of why a node wasn't.
fn fault_of(fault: BankFault) -> BlastFault {
    match fault {
        BankFault::Memory => BlastFault::Memory,
    }
}

/// The roots that stand for roots without reads, none where they aren't plain.
fn plain_roots(
    alloc: Global,
    bank: &mut Bank,
    roots: &[Node],
) -> Result<Option<Items<Node>>, BlastFault>
    requires bank { IsBank bank.old }
    requires roots { Each (IsNode bank.old) roots.now }
    ensures flat { IfOk result (λ found. IfSome found (ArePlainFor bank.new roots.now)) }
    ensures none { IfOk result (λ found. IfNone found (IsNotPlain bank.new roots.now)) }
    ensures grows { Grows bank.old bank.new }
    ensures bank { IsBank bank.new }
{
    let flat = match flat_roots(alloc, bank, roots) {
        Ok(flat) => flat,
        Err(fault) => return Err(fault_of(fault)),
    };
    if !are_plain(alloc, bank, flat.as_slice())? {
        return Ok(None);
    }
    Ok(Some(flat))
}

/// Clauses for the values of roots under which memory is read: each byte that is read becomes a choice among those that
/// were written and initial bytes. It answers none exactly where what stands for the roots without reads depends on
/// more than the world, or asks for a memory's objects.
pub fn blast_reads(
    alloc: Global,
    bank: &mut Bank,
    roots: &[Node],
) -> Result<Option<Blasted>, BlastFault>
    requires bank { IsBank bank.old }
    requires roots { Each (IsNode bank.old) roots.now }
    ensures blasted { IfOk result (λ found. IfSome found (IsBlasted bank.new roots.now)) }
    ensures ready { IfOk result (λ found. IfSome found (IsReady bank.new)) }
    ensures none { IfOk result (λ found. IfNone found (IsNotPlain bank.new roots.now)) }
    ensures grows { Grows bank.old bank.new }
    ensures bank { IsBank bank.new }
{
    match plain_roots(alloc, bank, roots)? {
        None => Ok(None),
        Some(flat) => {
            let blasted = blast(alloc, bank, flat.as_slice())?;
            Ok(Some(blasted))
        }
    }
}

/// Clauses for the values of more roots under which memory is read, to be put behind a formula's (`Blasted::go_on`). It
/// answers none where `blast_reads` does.
pub fn go_on_reads(
    alloc: Global,
    bank: &mut Bank,
    blasted: &Blasted,
    roots: &[Node],
) -> Result<Option<More>, BlastFault>
    requires bank { IsBank bank.old }
    requires roots { Each (IsNode bank.old) roots.now }
    requires ready { IsReady bank.old blasted.now }
    ensures more { IfOk result (λ found. IfSome found (IsMore bank.new roots.now blasted.now)) }
    ensures none { IfOk result (λ found. IfNone found (IsNotPlain bank.new roots.now)) }
    ensures grows { Grows bank.old bank.new }
    ensures bank { IsBank bank.new }
{
    match plain_roots(alloc, bank, roots)? {
        None => Ok(None),
        Some(flat) => {
            let more = blasted.go_on(alloc, bank, flat.as_slice())?;
            Ok(Some(more))
        }
    }
}
