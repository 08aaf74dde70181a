ghost use Rattle.std.specs.Prelude.{◌≡◌, ◌<◌, ◌≤◌, ◌*◌, ◌^◌, length, IfSome};
ghost use Rattle.cnf_core.specs.Truth.{Valuation};
ghost use Rattle.gates.specs.Nets.{bit_holds};
ghost use Rattle.word_gates.specs.Spelling.{number, spelled};
ghost use Rattle.input_tables.specs.Rows.{IsKnownAs, IsPart};

use gates::Bit;

/// What a known bit is worth at a place.
fn known_part(bit: &Bit, place: usize) -> Option<u64>
    requires { place < 64 }
    ensures { IfSome result (IsPart bit.now place) }
{
    match bit {
        Bit::Known(true) => Some(1 << place),
        Bit::Known(false) => Some(0),
        Bit::Unknown(_) => None,
    }
}

/// The number that a word is, where each of its bits is known.
pub(crate) fn known_number(word: &[Bit]) -> Option<u64>
    requires { length word.now ≤ 64 }
    ensures { IfSome result (IsKnownAs word.now) }
{
    let mut number = 0;
    'bits: for index in 0..word.len() {
        let part = known_part(&word[index], index)?;
        number += part;
    }
    Some(number)
}
