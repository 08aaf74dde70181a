ghost use Rattle.std.specs.Prelude.{◌≡◌};
ghost use Rattle.cert_text.specs.WorldSteps as spec;

use crate::saying::Said;

/// What was read so far of a world's lines.
#[derive(Clone, Copy, PartialEq, Eq)]
pub(crate) enum Stage {
    /// Nothing.
    Head,
    /// The next place is at least this.
    Words(u64),
    /// The next address is at least this; no word comes any more.
    Bytes(u128),
    /// All.
    Done,
}

fn from_place(least: u64, place: u32) -> Option<Stage>
    ensures { result ≡ spec.from_place least place }
{
    if least <= u64::from(place) {
        Some(Stage::Words(u64::from(place) + 1))
    } else {
        None
    }
}

fn from_address(least: u128, address: u64) -> Option<Stage>
    ensures { result ≡ spec.from_address least address }
{
    if least <= u128::from(address) {
        Some(Stage::Bytes(u128::from(address) + 1))
    } else {
        None
    }
}

/// The stage behind a line, if it has a place there.
pub(crate) fn stage_after(stage: Stage, said: Said) -> Option<Stage>
    ensures { result ≡ spec.stage_after stage said }
{
    match (stage, said) {
        (Stage::Head, Said::Head) => Some(Stage::Words(1)),
        (Stage::Words(least), Said::Word(place, _)) => from_place(least, place),
        (Stage::Words(_), Said::Byte(address, _)) => from_address(0, address),
        (Stage::Bytes(least), Said::Byte(address, _)) => from_address(least, address),
        (Stage::Words(_) | Stage::Bytes(_), Said::End) => Some(Stage::Done),
        _ => None,
    }
}
