//! A core without its last functions.
ghost use Rattle.std.specs.Prelude.{◌≡◌, take};
ghost use Rattle.std.specs.List.{list_all};
ghost use Rattle.core_prefix.specs.Prefixes as prefixes;
ghost use Rattle.core_prefix.specs.Runs.{RunsAs};

use crate::codes::items_below;
use core_tree::{Core, Function};
use plain_data::Items;

fn function_below(bound: u32, function: &Function) -> bool
    ensures { result ≡ prefixes.calls_below bound function.now }
{
    items_below(bound, function.items.as_slice())
}

fn functions_below(bound: u32, functions: &[Function]) -> bool
    ensures { result ≡ list_all (prefixes.calls_below bound) functions.now }
{
    functions
        .iter()
        .all(|function| function_below(bound, function))
}

/// Whether the first so many functions are there, and `main` is one of them, and none of them calls another one.
fn is_closed(core: &Core, count: u32) -> bool
    ensures { result ≡ prefixes.is_closed count core.now }
{
    let functions = core.functions.as_slice();
    let end = count as usize;
    end <= functions.len() && core.main < count && functions_below(count, &functions[..end])
}

/// The first so many functions.
fn first(functions: Items<Function>, count: u32) -> Items<Function>
    ensures { result ≡ take count functions }
{
    let mut functions = functions.into_vec();
    functions.truncate(count as usize);
    Items::from_vec(functions)
}

/// A core with its first so many functions alone, where `main` is one of them and none of them calls another one; else
/// the core as it is. It runs as the core does.
pub fn cut(core: Core, count: u32) -> Core
    ensures value { result ≡ prefixes.cut count core }
    ensures runs { RunsAs result core }
{
    if !is_closed(&core, count) {
        return core;
    }
    let Core {
        functions,
        met,
        objects,
        settings,
        places,
        main,
        has_arguments,
    } = core;
    Core {
        functions: first(functions, count),
        met,
        objects,
        settings,
        places,
        main,
        has_arguments,
    }
}
