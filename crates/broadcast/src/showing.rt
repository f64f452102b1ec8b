// What is shown of a page: its rows and its version.
ghost use Rattle.std.specs.Prelude.{◌≡◌, ℕ, false, ◌&&◌, List, ◌++◌, IfSome, is_ok, if◌then◌else◌, string_bytes, MatchOption};
ghost use Rattle.store.specs.Layout.{well_formed, page_in};
ghost use Rattle.store.specs.Slots.{RowOf, VersionOf};
ghost use Rattle.text.specs.Screen.{shown};
ghost use Rattle.broadcast.specs.Showing.{TextToScreen, VersionOfText};

use std::alloc::AllocError;
use text::screen::render_row;

// Appends a row of a page as it is shown: nothing if there is no such row. Where there is no memory for it, the text stays as it was.
pub fn show_row(store: &[u8], page: u64, at: u64, out: &mut String) -> Result<(), AllocError>
    ensures row { (t : List ℕ) × RowOf store.now page at t × TextToScreen store.now page at t × (string_bytes out.new ≡ (if is_ok result then string_bytes out.old ++ shown t else string_bytes out.old)) }
{
    render_row(receiver::row(store, page, at), out)
}

// The version in which a page is shown; none if it isn't there, or the store isn't as it should be.
#[tactic(auto, using(crate::proofs::Screens::shown_of_text))]
pub fn shown_version(store: &[u8], page: u64) -> Option<u8>
    ensures version { MatchOption result ((well_formed store.now && (page_in store.now page).there) ≡ false) (λ v. VersionOf store.now page v) }
    ensures of_text { IfSome result (λ v. VersionOfText store.now page v) }
{
    store::version(store, page)
}
