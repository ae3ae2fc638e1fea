// Sets of pages: bit `p` of a set is set where it has page `p`.
ghost use Rattle.std.specs.Prelude.{◌≡◌, ◌<◌, ℕ, All};
ghost use Rattle.tmem_record.specs.declared.layout.TheConstants.{MOST_VARS};
ghost use Rattle.tmem_image.specs.Pages.{has_page, is_page_written, is_page_changed};

use tmem_effect::Effect;
use tmem_record::{MOST_VARS, PAGE_VALUES};

/// The set of all pages.
pub const ALL_PAGES: u16 = u16::MAX;

/// Whether a set has a page.
pub(crate) fn has_page(pages: u16, page: u16) -> bool
    requires { page < 16 }
    ensures { result ≡ has_page pages page }
{
    pages >> page & 1 == 1
}

/// The pages that effects change: those of the variables that they write.
pub fn pages_changed(effects: &[Effect]) -> u16
    requires { All (λ e. All (λ w. w.0 < MOST_VARS) e.writes) effects.now }
    ensures { (page : ℕ) → has_page result page ≡ is_page_changed effects.now page }
{
    let mut pages = 0;
    for effect in effects {
        pages |= pages_written(effect.writes.as_slice());
    }
    pages
}

// The pages of the variables that are written.
fn pages_written(writes: &[(u16, i64)]) -> u16
    requires { All (λ w. w.0 < MOST_VARS) writes.now }
    ensures { (page : ℕ) → has_page result page ≡ is_page_written writes.now page }
{
    let mut pages = 0;
    for (var, _) in writes {
        pages |= 1 << (*var as usize / PAGE_VALUES);
    }
    pages
}
