//! Which of several broken rules is the refusal.

ghost use Rattle.std.specs.Prelude.{◌≡◌, ◌≤◌};
ghost use Rattle.c_means.specs.Items as items;
ghost use Rattle.c_checks.specs.Refusals as spec;

use c_language::{Fault, Rule};
use c_means::{Breach, BrokenRule};

fn typing_number(rule: Rule) -> u8
    ensures { result ≡ spec.typing_number rule }
{
    match rule {
        Rule::Undeclared => 3,
        Rule::TypeMismatch => 4,
        Rule::NotModifiable => 5,
        Rule::FloatUsed => 6,
        Rule::IndirectCall => 7,
        Rule::StructByValue => 8,
        Rule::BitField => 9,
        Rule::Layout(_) => 14,
        Rule::DuplicateDefinition => 15,
    }
}

fn number_of(rule: &BrokenRule) -> u8
    ensures { result ≡ spec.number_of rule.now }
{
    match rule {
        BrokenRule::UnreadBody => 2,
        BrokenRule::Typing(rule) => typing_number(*rule),
        BrokenRule::BadGoto => 10,
        BrokenRule::FormatNotLiteral => 11,
        BrokenRule::Format(_) => 12,
        BrokenRule::FormatArgument => 13,
    }
}

fn comes_before(x: &Breach, y: &Breach) -> bool
    ensures { result ≡ spec.comes_before x.now y.now }
{
    x.at < y.at || (x.at == y.at && number_of(&x.rule) < number_of(&y.rule))
}

/// The refusal of what two parts break: the one that comes first in the source, at one offset the first in the order of
/// refusals, and of two alike that of the first part.
pub fn lesser(x: Option<Breach>, y: Option<Breach>) -> Option<Breach>
    ensures { result ≡ spec.lesser x y }
{
    match (x, y) {
        (None, y) => y,
        (Some(x), None) => Some(x),
        (Some(x), Some(y)) => {
            if comes_before(&y, &x) {
                Some(y)
            } else {
                Some(x)
            }
        }
    }
}

/// The refusal of broken rules on types, names and constants.
pub fn least_fault(faults: &[Fault]) -> Option<Breach>
    ensures { result ≡ spec.least_of (items.typing faults.now) }
{
    let mut least = None;
    for fault in faults {
        let breach = Breach {
            at: fault.at,
            rule: BrokenRule::Typing(fault.rule),
        };
        least = lesser(least, Some(breach));
    }
    least
}
