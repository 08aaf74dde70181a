//! The log calls of a program, in the order of their tokens.
ghost use Rattle.std.specs.Prelude.{◌≡◌, ◌++◌, IfOk, OnOk};
ghost use Rattle.log_sites.specs.Sites as spec;

use core_marks::{Mark, Site, in_order, source_marks};
use core_tree::Core;
use plain_data::Items;
use std::alloc::{AllocError, Global};
use thiserror::Error;

/// The log calls of a program, by the offset of the callee's name.
pub type SiteList = Items<Site>;

/// Why no sites were answered.
#[derive(Clone, Copy, Debug, PartialEq, Eq, Drop, Error)]
pub enum SiteFault {
    /// Memory ran out.
    #[error("out of memory")]
    Memory,
}

impl From<AllocError> for SiteFault {
    fn from(_error: AllocError) -> SiteFault {
        SiteFault::Memory
    }
}

/// Puts a site at the end, where a mark is one.
fn put_site(mark: Mark, out: &mut SiteList) -> Result<(), AllocError>
    ensures { OnOk result (out.new ≡ out.old ++ spec.own_sites mark) }
{
    match mark {
        Mark::Log(site) => {
            out.push(site)?;
        }
        _ => {}
    }
    Ok(())
}

/// The log calls among marks, in order.
fn sites_of(alloc: Global, marks: Items<Mark>) -> Result<SiteList, AllocError>
    ensures { IfOk result (λ sites. sites ≡ spec.all_sites marks) }
{
    let mut sites = Items::new(alloc);
    'marks: for mark in marks.into_vec() {
        put_site(mark, &mut sites)?;
    }
    Ok(sites)
}

/// The log calls in the functions of a program's source that are reached, by the offset of the callee's name: where
/// each stands, its format and the variables that it shows. It fails for want of memory alone.
pub fn sites(alloc: Global, core: &Core) -> Result<SiteList, SiteFault>
    ensures { IfOk result (λ sites. spec.AreSitesOf core.now sites) }
{
    let source = source_marks(alloc, core)?;
    let marks = in_order(source)?;
    let sites = sites_of(alloc, marks)?;
    Ok(sites)
}
