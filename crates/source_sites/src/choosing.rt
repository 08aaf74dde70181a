//! Which log calls of a source may print. All fail for want of memory alone.
ghost use Rattle.std.specs.Prelude.{◌≡◌, ◌++◌, IfOk, OnOk};
ghost use Rattle.std.specs.List.{filter};
ghost use Rattle.source_sites.specs.Chosen as spec;

use crate::listing::{Site, sites};
use accepted::Accepted;
use c_item_notes::Source;
use c_program_notes::read_source;
use plain_data::Items;
use std::alloc::{AllocError, Global};

/// The log calls of a program, in the order of their tokens.
fn own_sites(alloc: Global, program: &Accepted) -> Result<log_sites::SiteList, AllocError>
    ensures { IfOk result (spec.AreOwn program.now) }
{
    match log_sites::sites(alloc, &program.core) {
        Ok(own) => Ok(own),
        Err(_) => Err(AllocError),
    }
}

/// The log calls of a program's source, those in operands of `sizeof` too.
fn all_sites(alloc: Global, program: &Accepted) -> Result<Items<Site>, AllocError>
    ensures { IfOk result (spec.AreAll program.now) }
{
    let source = Source {
        externals: program.externals.as_slice(),
        profile: &program.profile,
    };
    let overview = read_source(alloc, &source)?;
    let found = sites(alloc, &source, &overview);
    overview.discard();
    found
}

/// Whether one of these log calls stands at an offset.
fn stands_at(own: &[log_sites::Site], at: u32) -> bool
    ensures { result ≡ spec.stands_at own.now at }
{
    own.iter().any(|site| site.at == at)
}

/// Puts a log call at the end, where one of the program's stands at its offset.
fn put_if(site: Site, own: &[log_sites::Site], out: &mut Items<Site>) -> Result<(), AllocError>
    ensures { OnOk result (out.new ≡ out.old ++ spec.one_if own.now site) }
{
    if stands_at(own, site.at) {
        out.push(site)?;
    }
    Ok(())
}

/// Those log calls at whose offset one of the program's stands, in order.
fn chosen(
    alloc: Global,
    all: Items<Site>,
    own: &[log_sites::Site],
) -> Result<Items<Site>, AllocError>
    ensures { IfOk result (λ found. found ≡ spec.chosen own.now all) }
{
    let mut found = Items::new(alloc);
    'sites: for site in all.into_vec() {
        put_if(site, own, &mut found)?;
    }
    Ok(found)
}

/// The log calls of a program that may print, by the offset of the callee's name, each with its format: of those in the
/// functions of its source that are reached, those that the program's core has.
pub fn sites_of(alloc: Global, program: &Accepted) -> Result<Items<Site>, AllocError>
    ensures { IfOk result (spec.AreChosen program.now) }
{
    let own = own_sites(alloc, program)?;
    let all = all_sites(alloc, program)?;
    chosen(alloc, all, own.as_slice())
}
