//! What a source needs of its external declarations. It fails for want of memory alone.
ghost use Rattle.std.specs.Prelude.{◌≡◌, IfOk, OnOk, ◌++◌, ◌∷◌, [], cond};
ghost use Rattle.c_item_notes.specs.Levels.{judged};
ghost use Rattle.c_program_notes.specs.Wholes.{overview as overview_in};
ghost use Rattle.unread_forms.specs.Needed as spec;

use c_item_notes::Source;
use c_language::External;
use c_names::{Word, is_needed};
use c_program_notes::{OuterNotes, Overview};
use c_reach::{FunctionNotes, is_among};
use plain_data::{Items, Shared};
use std::alloc::{AllocError, Global};

/// Whether an external declaration is needed where these words are, or defines one of these functions.
fn keeps(words: &[Word], reached: &[Shared<FunctionNotes>], outer: &OuterNotes) -> bool
    ensures { result ≡ spec.keeps words.now reached.now outer.now }
{
    if is_needed(words, outer.names.get()) {
        return true;
    }
    match &outer.function {
        None => false,
        Some(function) => is_among(function.get().at, reached),
    }
}

/// Puts an external declaration at the end, where it is kept.
fn put_if(
    is_kept: bool,
    external: &Shared<External>,
    kept: &mut Items<Shared<External>>,
) -> Result<(), AllocError>
    ensures { OnOk result (kept.new ≡ kept.old ++ cond is_kept (external.now ∷ []) []) }
{
    if is_kept {
        kept.push(external.clone()?)?;
    }
    Ok(())
}

fn kept_noted(
    alloc: Global,
    words: &[Word],
    reached: &[Shared<FunctionNotes>],
    outers: &[OuterNotes],
    externals: &[Shared<External>],
) -> Result<Items<Shared<External>>, AllocError>
    ensures { IfOk result (λ kept. kept ≡ spec.kept_noted words.now reached.now outers.now externals.now) }
{
    let mut kept = Items::new(alloc);
    let count = outers.len().min(externals.len());
    for index in 0..count {
        let is_kept = keeps(words, reached, &outers[index]);
        put_if(is_kept, &externals[index], &mut kept)?;
    }
    Ok(kept)
}

/// The external declarations that a source needs, in order: those of what the functions that are reached use, and those
/// functions.
pub fn kept(
    alloc: Global,
    source: &Source<'_>,
    overview: &Overview,
) -> Result<Items<Shared<External>>, AllocError>
    requires { overview.now ≡ overview_in (judged source.now) }
    ensures { IfOk result (λ kept. kept ≡ spec.kept source.now.externals.now source.now.profile.now) }
{
    let found = kept_noted(
        alloc,
        overview.words.as_slice(),
        overview.reached.as_slice(),
        overview.program.outers.as_slice(),
        source.externals,
    )?;
    Ok(found)
}
