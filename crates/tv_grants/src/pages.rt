//! Pages of guest memory that are withdrawn from all devices.

ghost use Rattle.std.specs.Prelude.{◌≡◌, ◌-◌, length, slice_set};
ghost use Rattle.std.specs.Bool.{OnTrue, OnFalse};
ghost use Rattle.tv_grants.specs.Grants.{first_page, is_ram_page, is_withdrawn};

use tv_base::{PAGE_BYTES, RAM_BASE};

/// The number of memory's first page.
const FIRST_PAGE: u64 = RAM_BASE / PAGE_BYTES as u64;

/// Whether a page is withdrawn.
pub fn is_out(withdrawn: &[bool], page: u64) -> bool
    ensures { result ≡ is_withdrawn withdrawn.now page }
{
    if page < FIRST_PAGE {
        return false;
    }
    let place = page - FIRST_PAGE;
    place < withdrawn.len() as u64 && withdrawn[place as usize]
}

/// Notes whether a page is withdrawn; false where the page isn't one of memory's.
pub fn set_page(withdrawn: &mut [bool], page: u32, is: bool) -> bool
    ensures page { result ≡ is_ram_page (length withdrawn.old) page }
    ensures set { OnTrue result (withdrawn.new ≡ slice_set withdrawn.old (page - first_page) is) }
    ensures unchanged { OnFalse result (withdrawn.new ≡ withdrawn.old) }
    ensures size { length withdrawn.new ≡ length withdrawn.old }
{
    let page = u64::from(page);
    if page < FIRST_PAGE {
        return false;
    }
    let place = page - FIRST_PAGE;
    if place >= withdrawn.len() as u64 {
        return false;
    }
    withdrawn[place as usize] = is;
    true
}
