//! The functions with a body in the source, by name.
ghost use Rattle.std.specs.Prelude.{◌≡◌, IfOk, reverse};
ghost use Rattle.core_callees.specs.Numbered as spec;

use c_language::Name;
use c_type_scope::{HasName, Named};
use plain_data::Shared;
use std::alloc::{AllocError, Global};

/// A function with a body in the source, and the number of its core.
#[derive(Drop)]
pub struct FunctionNumber {
    pub name: Name,
    pub number: u32,
}

impl HasName for FunctionNumber {
    ghost name_of = { λ f. f.name };

    fn name(&self) -> &Name {
        &self.name
    }
}

/// Functions by their names: the first of each. It fails for want of memory alone.
pub fn numbered_functions(
    alloc: Global,
    functions: &[Shared<FunctionNumber>],
) -> Result<Named<FunctionNumber>, AllocError>
    ensures { IfOk result (λ named. named ≡ reverse functions.now) }
{
    let mut named = Named::new(alloc);
    let mut left = functions.len();
    'named: while left > 0 {
        left -= 1;
        named.push(functions[left].clone()?)?;
    }
    Ok(named)
}

/// The number of the core of this name's function, where it has a body in the source.
pub fn number_named(functions: &Named<FunctionNumber>, name: &[u8]) -> Option<u32>
    ensures { result ≡ spec.numbers_in functions.now name.now }
{
    match functions.get(name) {
        Some(function) => Some(function.get().number),
        None => None,
    }
}
