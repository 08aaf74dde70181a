//! Log calls, each by a line `site AT PIECES:` with the tokens of the variables that it shows behind it.

use crate::text::{put, put_next};
use core_marks::Site;
use core_tree::Watched;
use plain_data::Bytes;
use std::alloc::AllocError;

fn put_shown(watched: &[Watched], text: &mut Bytes) -> Result<(), AllocError> {
    for variable in watched {
        put_next(text, u64::from(variable.at))?;
    }
    Ok(())
}

fn put_site(site: &Site, text: &mut Bytes) -> Result<(), AllocError> {
    put(text, "site")?;
    put_next(text, u64::from(site.at))?;
    put_next(text, site.pieces.len() as u64)?;
    put(text, ":")?;
    put_shown(site.watched.as_slice(), text)?;
    put(text, "\n")
}

/// Puts log calls at the end.
pub fn put_sites(sites: &[Site], text: &mut Bytes) -> Result<(), AllocError> {
    for site in sites {
        put_site(site, text)?;
    }
    Ok(())
}
