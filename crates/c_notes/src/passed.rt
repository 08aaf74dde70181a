//! The types of arguments as they are converted (C99 6.5.2.2p4, p6, p7).

ghost use Rattle.std.specs.Prelude.{◌≡◌, IfOk};
ghost use Rattle.c_language.specs.Typing as typing;
ghost use Rattle.c_language.specs.Types as types_;
ghost use Rattle.c_means.specs.Expressions as means;
ghost use Rattle.c_notes.specs.Tellings as spec;

use c_language::{Base, CType, Derivation, Shown, Tables};
use plain_data::Items;
use std::alloc::{AllocError, Global};

fn promoted(alloc: Global, ctype: &CType) -> Result<CType, AllocError>
    ensures { IfOk result (λ t. t ≡ means.promoted_as ctype.now (types_.kind_of ctype.now)) }
{
    match ctype.kind() {
        None => ctype.duplicate(alloc),
        Some(kind) => Ok(CType::basic(alloc, Base::Integer(kind.promoted()))),
    }
}

/// The promoted type of a value, to which it is converted where no parameter is declared for it. It fails for want of
/// memory alone.
pub(crate) fn promoted_type(
    alloc: Global,
    shown: &Option<Shown>,
) -> Result<Option<CType>, AllocError>
    ensures { IfOk result (λ t. t ≡ means.promoted_type (typing.type_in shown.now)) }
{
    match shown {
        None => Ok(None),
        Some(shown) => Ok(Some(promoted(alloc, &shown.ctype)?)),
    }
}

/// The types of the parameters that a function's type declares.
fn parameters_of<'a>(tables: &'a Tables, shown: &Option<Shown>) -> &'a [CType]
    ensures { result.now ≡ means.parameters_of tables.now (typing.type_in shown.now) }
{
    match shown {
        None => &[],
        Some(shown) => match shown.ctype.derivations.as_slice().first() {
            Some(Derivation::Function(number)) => {
                match tables.signatures.get(*number as usize) {
                    None => &[],
                    Some(signature) => signature.parameters.as_slice(),
                }
            }
            Some(Derivation::Pointer(_)) => &[],
            Some(Derivation::Array(_)) => &[],
            None => &[],
        },
    }
}

fn copied(alloc: Global, ctype: &Option<CType>) -> Result<Option<CType>, AllocError>
    ensures { IfOk result (λ t. t ≡ ctype.now) }
{
    match ctype {
        None => Ok(None),
        Some(ctype) => Ok(Some(ctype.duplicate(alloc)?)),
    }
}

fn passed_as(
    alloc: Global,
    types: &[Option<CType>],
    parameters: &[CType],
) -> Result<Items<Option<CType>>, AllocError>
    ensures { IfOk result (λ ts. ts ≡ spec.passed_as types.now parameters.now) }
{
    let mut passed = Items::new(alloc);
    let mut rest = parameters;
    for ctype in types {
        match rest.split_first() {
            None => passed.push(copied(alloc, ctype)?)?,
            Some((first, more)) => {
                passed.push(Some(first.duplicate(alloc)?))?;
                rest = more;
            }
        }
    }
    Ok(passed)
}

/// The types of arguments as they are converted, from their promoted types: to those of the parameters of what is
/// called, as far as there are. It fails for want of memory alone.
pub(crate) fn passed_types(
    alloc: Global,
    tables: &Tables,
    callee: &Option<Shown>,
    types: &[Option<CType>],
) -> Result<Items<Option<CType>>, AllocError>
    ensures { IfOk result (λ ts. ts ≡ spec.passed_as types.now (means.parameters_of tables.now (typing.type_in callee.now))) }
{
    passed_as(alloc, types, parameters_of(tables, callee))
}
