ghost use Rattle.std.specs.Prelude.{◌≡◌, ◌≢◌, Err, None, true, IfOk, OnOk, IfErr};
ghost use Rattle.std.specs.Ordering.{nat_cmp};
ghost use Rattle.std.specs.Map.{keys_of};
ghost use Rattle.std.specs.List.Sorted.{IsStrictlySortedBy};
ghost use Rattle.plain_data.specs.Worlds.{has_no_zero};
ghost use Rattle.cert_text.specs.WorldTexts.{ReadsWorld};
ghost use Rattle.cert_text.specs.WorldSteps as spec;

use crate::fault::CertFault;
use crate::lines::line_len;
use crate::saying::{Said, said_by};
use crate::stage::{Stage, stage_after};
use crate::version::names_other_version;
use plain_data::{World, WorldFault};
use std::alloc::Global;

impl From<WorldFault> for CertFault {
    ghost use Rattle.std.specs.Prelude.{◌≡◌};
    ghost use Rattle.cert_text.specs.declared.fault.CertFault.TheVariants.{Memory};

    ghost from_gives = { λ _ fault. fault ≡ Memory };

    fn from(_fault: WorldFault) -> CertFault {
        CertFault::Memory
    }
}

/// Puts what a line says into the world. It fails for want of memory alone.
fn put_said(world: &mut World, said: Said) -> Result<(), CertFault>
    ensures ok { OnOk result (spec.PutsSaid world.old world.new said) }
    ensures err { IfErr result (λ fault. fault ≡ CertFault.Memory) }
{
    match said {
        Said::Word(place, word) => world.set_word(u64::from(place), word)?,
        Said::Byte(address, byte) => world.set_byte(address, byte)?,
        Said::Head | Said::End => {}
    }
    Ok(())
}

/// Takes the line of this number; the answer is the stage behind it.
fn take_line(
    alloc: Global,
    world: &mut World,
    stage: Stage,
    line: &[u8],
    number: usize,
) -> Result<Stage, CertFault>
    ensures ok { IfOk result (λ next. spec.TakesLine stage line.now world.old world.new next) }
    ensures err { IfErr result (λ fault. fault ≢ CertFault.Memory →
        (fault ≡ CertFault.BadLine number) × (spec.line_stage stage (spec.said_by line.now) ≡ None)) }
{
    let Some(said) = said_by(alloc, line)? else {
        return Err(CertFault::BadLine(number));
    };
    let Some(next) = stage_after(stage, said) else {
        return Err(CertFault::BadLine(number));
    };
    put_said(world, said)?;
    Ok(next)
}

/// The world as it is. Its tables ascend, as its iterators say.
fn in_order(world: World) -> World
    ensures same { result ≡ world }
    ensures words { IsStrictlySortedBy nat_cmp (keys_of result.words) }
    ensures bytes { IsStrictlySortedBy nat_cmp (keys_of result.bytes) }
    ensures some_words { has_no_zero result.words ≡ true }
    ensures some_bytes { has_no_zero result.bytes ≡ true }
{
    let _ = world.words();
    let _ = world.bytes();
    world
}

/// The world whose lines the bytes are, or the first line that has no place.
fn read_lines(alloc: Global, bytes: &[u8]) -> Result<World, CertFault>
    ensures { result ≢ Err CertFault.Memory → result ≡ spec.reading bytes.now }
{
    let mut world = World::new(alloc);
    let mut stage = Stage::Head;
    let mut number = 1usize;
    let mut rest = bytes;
    'lines: while !rest.is_empty() {
        let (line, more) = rest.split_at(line_len(rest));
        stage = take_line(alloc, &mut world, stage, line, number)?;
        number += 1;
        rest = more;
    }
    match stage {
        Stage::Done => Ok(in_order(world)),
        _ => Err(CertFault::BadLine(number)),
    }
}

/// The world whose text the bytes are: exactly where there is one. Otherwise the fault is the first
/// line that has no place in the form, or that line 1 names another version.
pub fn read_world(alloc: Global, bytes: &[u8]) -> Result<World, CertFault>
    ensures { ReadsWorld bytes.now result }
{
    if names_other_version(bytes) {
        return Err(CertFault::WrongVersion);
    }
    read_lines(alloc, bytes)
}
