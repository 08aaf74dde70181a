//! The lines on log calls.
ghost use Rattle.std.specs.Prelude.{◌≡◌, ◌++◌, IfOk};
ghost use Rattle.site_text.specs.Lines as spec;

use crate::ending::put_matches;
use crate::escaping::put_format;
use c_language::Places;
use log_text::LogText;
use plain_data::Bytes;
use report_text::put_place;
use source_sites::Site;
use std::alloc::{AllocError, Global};

fn put_site(text: &mut Bytes, places: &Places, site: &Site) -> Result<(), AllocError>
    ensures { IfOk result (λ _. text.new ≡ text.old ++ spec.site_line places.now site.now) }
{
    text.extend_from_slice(b"site ")?;
    put_place(text, places, site.at)?;
    text.extend_from_slice(b" \"")?;
    put_format(text, &site.format)?;
    text.extend_from_slice(b"\"\n")
}

/// The lines on log calls, each with its place and its format. It fails for want of memory alone.
pub fn site_lines(alloc: Global, places: &Places, sites: &[Site]) -> Result<Bytes, AllocError>
    ensures { IfOk result (λ text. text ≡ spec.site_lines places.now sites.now) }
{
    let mut text = Bytes::new(alloc);
    for site in sites {
        put_site(&mut text, places, site)?;
    }
    Ok(text)
}

/// The lines on log calls along a log: for each log call and each line of the log the positions above the line's first
/// byte at which a print that begins there can end, where there are any. It fails for want of memory alone.
pub fn match_lines(
    alloc: Global,
    places: &Places,
    log: &LogText,
    sites: &[Site],
) -> Result<Bytes, AllocError>
    ensures { IfOk result (spec.AreMatchLines places.now log.now sites.now) }
{
    let mut text = Bytes::new(alloc);
    for site in sites {
        put_matches(alloc, &mut text, places, log, site)?;
    }
    Ok(text)
}
