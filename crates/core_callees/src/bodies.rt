//! The functions of the C library that have a body here (C99 7.20.1.2, 7.21), where they have their type.
ghost use Rattle.std.specs.Prelude.{◌≡◌, IfOk};
ghost use Rattle.c_means.specs.Rules.{declared_taking, same_taking};
ghost use Rattle.core_callees.specs.Bodies as spec;

use c_checks::{PlainType, means_function_of};
use c_language::{Entry, Means, Tables};
use std::alloc::{AllocError, Global};

/// A function of the C library that has a body here.
#[derive(Clone, Copy, PartialEq, Eq)]
pub enum PreludeFunction {
    Strlen,
    Strcmp,
    Strncmp,
    Strchr,
    Strcpy,
    Strcat,
    Memset,
    Memcpy,
    Atoi,
}

impl PreludeFunction {
    /// Its place among the functions of the prelude, from 0.
    pub fn position(self) -> u32
        ensures { result ≡ spec.position self }
    {
        match self {
            PreludeFunction::Strlen => 0,
            PreludeFunction::Strcmp => 1,
            PreludeFunction::Strncmp => 2,
            PreludeFunction::Strchr => 3,
            PreludeFunction::Strcpy => 4,
            PreludeFunction::Strcat => 5,
            PreludeFunction::Memset => 6,
            PreludeFunction::Memcpy => 7,
            PreludeFunction::Atoi => 8,
        }
    }
}

fn function_named(name: &[u8]) -> Option<PreludeFunction>
    ensures { result ≡ spec.named name.now }
{
    if b"strlen".as_slice() == name {
        return Some(PreludeFunction::Strlen);
    }
    if b"strcmp".as_slice() == name {
        return Some(PreludeFunction::Strcmp);
    }
    if b"strncmp".as_slice() == name {
        return Some(PreludeFunction::Strncmp);
    }
    if b"strchr".as_slice() == name {
        return Some(PreludeFunction::Strchr);
    }
    if b"strcpy".as_slice() == name {
        return Some(PreludeFunction::Strcpy);
    }
    if b"strcat".as_slice() == name {
        return Some(PreludeFunction::Strcat);
    }
    if b"memset".as_slice() == name {
        return Some(PreludeFunction::Memset);
    }
    if b"memcpy".as_slice() == name {
        return Some(PreludeFunction::Memcpy);
    }
    if b"atoi".as_slice() == name {
        return Some(PreludeFunction::Atoi);
    }
    None
}

/// Whether what a name means is a function of the type of this one, every pointer taken as one to void and without
/// qualifiers.
fn has_type(
    alloc: Global,
    tables: &Tables,
    means: &Means,
    function: PreludeFunction,
) -> Result<bool, AllocError>
    ensures { IfOk result (λ b. b ≡ same_taking (declared_taking tables.now means.now) (spec.head_for function).taking) }
{
    let int = PlainType::Int;
    let size = PlainType::UnsignedLong;
    let pointer = PlainType::Pointer;
    match function {
        PreludeFunction::Strlen => means_function_of(alloc, tables, means, size, &[pointer]),
        PreludeFunction::Strcmp => means_function_of(
            alloc,
            tables,
            means,
            int,
            &[pointer, pointer],
        ),
        PreludeFunction::Strncmp => {
            means_function_of(alloc, tables, means, int, &[pointer, pointer, size])
        }
        PreludeFunction::Strchr => means_function_of(
            alloc,
            tables,
            means,
            pointer,
            &[pointer, int],
        ),
        PreludeFunction::Strcpy | PreludeFunction::Strcat => {
            means_function_of(alloc, tables, means, pointer, &[pointer, pointer])
        }
        PreludeFunction::Memset => {
            means_function_of(alloc, tables, means, pointer, &[pointer, int, size])
        }
        PreludeFunction::Memcpy => {
            means_function_of(alloc, tables, means, pointer, &[pointer, pointer, size])
        }
        PreludeFunction::Atoi => means_function_of(alloc, tables, means, int, &[pointer]),
    }
}

/// Which function with a body here a call of a name is, that is declared with the type of that function. It fails for
/// want of memory alone.
pub fn prelude_function(
    alloc: Global,
    tables: &Tables,
    entry: &Entry,
) -> Result<Option<PreludeFunction>, AllocError>
    ensures { IfOk result (λ f. f ≡ spec.prelude_in (declared_taking tables.now entry.now.means) entry.now.name) }
{
    match function_named(entry.name.get().as_slice()) {
        Some(function) => {
            if has_type(alloc, tables, &entry.means, function)? {
                Ok(Some(function))
            } else {
                Ok(None)
            }
        }
        None => Ok(None),
    }
}
