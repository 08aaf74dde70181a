//! The profile by which calls of functions outside are told from those of functions with a meaning of their own.
ghost use Rattle.std.specs.Prelude.{◌≡◌, ◌++◌, ◌∷◌, [], map, IfOk, OnOk};
ghost use Rattle.assumptions.specs.Asked as spec;

use crate::names::name_of;
use c_means::{FillAnswer, FillFunction, IdentityFunction, LogFunction, LogText, Profile};
use plain_data::{Bytes, Items};
use std::alloc::{AllocError, Global};

/// A function that fills a buffer that is its own length, as no call does that breaks no rule.
fn put_impossible(
    alloc: Global,
    name: &[u8],
    fills: &mut Items<FillFunction>,
) -> Result<(), AllocError>
    ensures { OnOk result (fills.new ≡ fills.old ++ spec.impossible name.now ∷ []) }
{
    fills.push(FillFunction {
        name: name_of(alloc, name)?,
        buffer: 0,
        length: 0,
        answer: FillAnswer::Free,
    })?;
    Ok(())
}

/// The functions of the C library that have a meaning of their own (C99 7.20.3, 7.20.4).
fn put_library(alloc: Global, fills: &mut Items<FillFunction>) -> Result<(), AllocError>
    ensures { OnOk result (fills.new ≡ fills.old ++ map spec.impossible spec.library_names) }
{
    put_impossible(alloc, b"exit", fills)?;
    put_impossible(alloc, b"abort", fills)?;
    put_impossible(alloc, b"malloc", fills)?;
    put_impossible(alloc, b"calloc", fills)?;
    put_impossible(alloc, b"free", fills)
}

/// Those whose body stands in the prelude (C99 7.20.1.2, 7.21).
fn put_prelude(alloc: Global, fills: &mut Items<FillFunction>) -> Result<(), AllocError>
    ensures { OnOk result (fills.new ≡ fills.old ++ map spec.impossible spec.prelude_names) }
{
    put_impossible(alloc, b"strlen", fills)?;
    put_impossible(alloc, b"strcmp", fills)?;
    put_impossible(alloc, b"strncmp", fills)?;
    put_impossible(alloc, b"strchr", fills)?;
    put_impossible(alloc, b"strcpy", fills)?;
    put_impossible(alloc, b"strcat", fills)?;
    put_impossible(alloc, b"memset", fills)?;
    put_impossible(alloc, b"memcpy", fills)?;
    put_impossible(alloc, b"atoi", fills)
}

fn fills(alloc: Global) -> Result<Items<FillFunction>, AllocError>
    ensures { IfOk result (λ fills. fills ≡ spec.fills) }
{
    let mut fills = Items::new(alloc);
    put_library(alloc, &mut fills)?;
    put_prelude(alloc, &mut fills)?;
    Ok(fills)
}

fn text_copy(alloc: Global, text: &LogText) -> Result<LogText, AllocError>
    ensures { IfOk result (λ copy. copy ≡ text.now) }
{
    match text {
        LogText::Format { index, newline } => Ok(LogText::Format {
            index: *index,
            newline: *newline,
        }),
        LogText::Text { format } => Ok(LogText::Text {
            format: Bytes::from_slice(alloc, format.as_slice())?,
        }),
    }
}

fn log_copy(alloc: Global, functions: &[LogFunction]) -> Result<Items<LogFunction>, AllocError>
    ensures { IfOk result (λ copy. copy ≡ functions.now) }
{
    let mut copy = Items::new(alloc);
    for function in functions {
        copy.push(LogFunction {
            name: function.name.clone()?,
            text: text_copy(alloc, &function.text)?,
        })?;
    }
    Ok(copy)
}

fn identity_copy(
    alloc: Global,
    functions: &[IdentityFunction],
) -> Result<Items<IdentityFunction>, AllocError>
    ensures { IfOk result (λ copy. copy ≡ functions.now) }
{
    let mut copy = Items::new(alloc);
    for function in functions {
        copy.push(IdentityFunction {
            name: function.name.clone()?,
            index: function.index,
        })?;
    }
    Ok(copy)
}

/// The profile with nothing of functions outside but that those with a meaning of their own fill what they can't: so a
/// call of one of them breaks a rule exactly where it is outside. It fails for want of memory alone.
pub(crate) fn asked(alloc: Global, profile: &Profile) -> Result<Profile, AllocError>
    ensures { IfOk result (λ p. p ≡ spec.asked profile.now) }
{
    let log = log_copy(alloc, profile.log.as_slice())?;
    let identity = identity_copy(alloc, profile.identity.as_slice())?;
    Ok(Profile {
        log,
        identity,
        fills: fills(alloc)?,
        never_null: Items::new(alloc),
    })
}
