//! The log calls of a source, in the order of their tokens. All fail for want of memory alone.
ghost use Rattle.std.specs.Prelude.{◌≡◌, ◌++◌, IfOk, OnOk};
ghost use Rattle.c_item_notes.specs.Levels.{judged};
ghost use Rattle.c_program_notes.specs.Wholes.{overview as overview_in};
ghost use Rattle.source_sites.specs.Sites as spec;

use c_item_notes::Source;
use c_notes::{CallNote, LogFormat};
use c_program_notes::Overview;
use c_reach::FunctionNotes;
use plain_data::{Bytes, Items, Shared};
use std::alloc::{AllocError, Global};

/// A log call: the byte offset of the callee's name, and the format.
#[derive(Drop)]
pub struct Site {
    pub at: u32,
    pub format: LogFormat,
}

fn format_copy(alloc: Global, format: &LogFormat) -> Result<LogFormat, AllocError>
    ensures { IfOk result (λ copy. copy ≡ format.now) }
{
    Ok(LogFormat {
        bytes: Bytes::from_slice(alloc, format.bytes.as_slice())?,
        newline: format.newline,
    })
}

/// Puts a call at the end, where it is a log call.
fn put_call(alloc: Global, call: &CallNote, out: &mut Items<Site>) -> Result<(), AllocError>
    ensures { OnOk result (out.new ≡ out.old ++ spec.noted_site call.now) }
{
    match &call.format {
        None => Ok(()),
        Some(format) => {
            let format = format_copy(alloc, format)?;
            out.push(Site {
                at: call.at,
                format,
            })?;
            Ok(())
        }
    }
}

/// Puts the log calls among calls at the end.
fn put_calls(alloc: Global, calls: &[CallNote], out: &mut Items<Site>) -> Result<(), AllocError>
    ensures { OnOk result (out.new ≡ out.old ++ spec.noted_sites calls.now) }
{
    for call in calls {
        put_call(alloc, call, out)?;
    }
    Ok(())
}

/// The log calls in functions, one function behind the other.
fn calls_in(alloc: Global, functions: &[Shared<FunctionNotes>]) -> Result<Items<Site>, AllocError>
    ensures { IfOk result (λ found. found ≡ spec.noted_in functions.now) }
{
    let mut found = Items::new(alloc);
    for function in functions {
        put_calls(alloc, function.get().body.calls.as_slice(), &mut found)?;
    }
    Ok(found)
}

fn in_order(sites: Items<Site>) -> Result<Items<Site>, AllocError>
    ensures { IfOk result (λ ordered. spec.AreInOrder sites ordered) }
{
    let mut items = sites.into_vec();
    items.sort_by_key(|site| site.at)?;
    Ok(Items::from_vec(items))
}

/// The log calls in the functions of a source that are reached, by the offset of the callee's name, those in operands
/// of `sizeof` too: of the external declarations in order, with what is known of functions besides.
pub fn sites(
    alloc: Global,
    source: &Source<'_>,
    overview: &Overview,
) -> Result<Items<Site>, AllocError>
    requires { overview.now ≡ overview_in (judged source.now) }
    ensures { IfOk result (spec.AreSitesOf source.now.externals.now source.now.profile.now) }
{
    let found = calls_in(alloc, overview.reached.as_slice())?;
    in_order(found)
}
