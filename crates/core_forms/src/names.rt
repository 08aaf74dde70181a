//! Names, string literals and `__func__` (C99 6.5.1, 6.4.5, 6.4.2.2).
ghost use Rattle.std.specs.Prelude.{◌≡◌, [], false, IfOk};
ghost use Rattle.std.specs.Option.{option_copied};
ghost use Rattle.c_language.specs.Scopes.{Scope};
ghost use Rattle.c_language.specs.Typing as says;
ghost use Rattle.core_tree.specs.declared.expr.Expr.TheVariants as expr;
ghost use Rattle.elaborate.specs.Means.{Numbering};
ghost use Rattle.core_forms.specs.Nodes.{a_part, a_place, a_value, is_object, named_node, unmeant};

use crate::built::{Built, placed, valued};
use c_language::{Duration, Entry, Means, Name, Tables, Told};
use c_type_forms as forms;
use core_tree::Expr;
use plain_data::{Bytes, Shared};
use std::alloc::{AllocError, Global};

/// Where objects and functions are that live throughout the run.
pub trait Places {
    ghost numbering: { Self → Numbering };

    /// The place of what is declared at this offset, or of the literal that stands there.
    fn place(&self, at: u32) -> u64
        ensures { result ≡ (numbering self.now).place at };
}

/// What breaks a rule, and isn't run. It fails for want of memory alone.
pub fn left(alloc: Global, told: Told) -> Result<Built, AllocError>
    ensures { IfOk result (λ y. y ≡ a_part told false unmeant) }
{
    valued(alloc, told, Expr::Constant { value: 0 })
}

/// The core of a name, by its declaration. A name without one, a typedef name, and one whose declaration breaks a rule
/// aren't run. It fails for want of memory alone.
pub fn identifier<P: Places>(
    alloc: Global,
    places: &P,
    at: u32,
    entry: Option<&Shared<Entry>>,
) -> Result<Built, AllocError>
    ensures { let e = option_copied entry.entry in IfOk result (λ y. y ≡ a_part (says.named_told at e) (is_object e) (named_node e (P.numbering places.now).place)) }
{
    let told = forms::identifier(alloc, at, entry)?;
    match entry {
        Some(entry) => {
            let entry = entry.get();
            let at = entry.at;
            match &entry.means {
                Means::Object { duration, .. } => match *duration {
                    Duration::Automatic => placed(alloc, told, true, Expr::Local { at }),
                    Duration::Static => {
                        let place = places.place(at);
                        placed(alloc, told, true, Expr::Fixed { place })
                    }
                },
                Means::Function { .. } => {
                    let place = places.place(at);
                    placed(alloc, told, true, Expr::Fixed { place })
                }
                Means::Constant { value } => {
                    let value = i128::from(*value);
                    valued(alloc, told, Expr::Constant { value })
                }
                Means::Typedef { .. } => left(alloc, told),
                Means::Faulty => left(alloc, told),
            }
        }
        None => left(alloc, told),
    }
}

/// Adjacent string literals: the array that was made for them. It fails for want of memory alone.
pub fn string_literal<P: Places>(
    alloc: Global,
    places: &P,
    tables: &Tables,
    at: u32,
    pieces: &[Shared<Bytes>],
) -> Result<Built, AllocError>
    ensures { IfOk result (λ y. y ≡ a_place (says.node at (says.literal_shown tables.now pieces.now) []) false (expr.Fixed ((P.numbering places.now).place at))) }
{
    let told = forms::string_literal(alloc, tables, at, pieces)?;
    let place = places.place(at);
    placed(alloc, told, false, Expr::Fixed { place })
}

/// `__func__`: the array that was made for it. It fails for want of memory alone.
pub fn function_name<P: Places>(
    alloc: Global,
    places: &P,
    tables: &Tables,
    at: u32,
    function: &Option<Name>,
) -> Result<Built, AllocError>
    ensures { (s : Scope) → s.tables ≡ tables.now → IfOk result (λ y. y ≡ a_place (says.told_of (says.function_name at function.now s)) false (expr.Fixed ((P.numbering places.now).place at))) }
{
    let told = forms::function_name(alloc, tables, at, function)?;
    let place = places.place(at);
    placed(alloc, told, false, Expr::Fixed { place })
}
