//! Which of the two header pages has the newest root.
ghost use Rattle.std.specs.Prelude.{◌≡◌, ◌≢◌, ◌<◌, ◌↔◌, ℕ, List, IsTrue, IfOk, IfErr, IsErrOf, IfSome, IfNone};
ghost use Rattle.grid_types.specs.declared.shape.Shape.{Shape};
ghost use Rattle.grid_types.specs.declared.refusal.Refusal.TheVariants.{Damaged};
ghost use Rattle.grid_types.specs.Pages.{page_of};
ghost use Rattle.grid_model.specs.Images.{header_gate, IsNewest};
ghost use Rattle.root_pages.specs.Headers.{SpellsNoRoot};
ghost use Rattle.root_pages.specs.Fields.{model_fields};
ghost use Rattle.grid_model.specs.Roots.{AreRootFields};
ghost use Rattle.file_roots.specs.Damage.{IsRootDamage};
ghost use Rattle.file_roots.specs.Headers.{AreAlikeOn, Says, SaysNothing};
ghost use Rattle.file_roots.specs.Refusals.{TellsDamage};

use grid_types::{Geometry, PAGE_BYTES, Refusal};
use root_pages::{RootHeader, decode_fields, is_open, root_number};

/// Whether both header pages are open, over one root number.
fn are_alike(zeroth: &[u8; PAGE_BYTES], first: &[u8; PAGE_BYTES]) -> bool
    ensures { IsTrue result ↔ AreAlikeOn zeroth.now first.now }
{
    is_open(zeroth) && is_open(first) && root_number(zeroth) == root_number(first)
}

/// The root over which a header page is open, none where it is closed.
fn open_root(
    page: &[u8; PAGE_BYTES],
    geometry: &Geometry,
    header: u8,
) -> Result<Option<RootHeader>, Refusal>
    requires { header < 2 }
    ensures said { IfOk result (Says geometry.now.shape header page.now) }
    ensures damaged { IfErr result (λ e.
        (e ≡ Damaged header) × SaysNothing geometry.now.shape header page.now) }
{
    if !is_open(page) {
        return Ok(None);
    }
    match decode_fields(page, geometry, header) {
        Some(fields) => Ok(Some(fields)),
        None => Err(Refusal::Damaged {
            page: header.into(),
        }),
    }
}

/// The one of the greater number.
fn newer(zeroth: Option<RootHeader>, first: Option<RootHeader>) -> Option<RootHeader>
    ensures found { (s : Shape) (image : List ℕ)
        → Says s 0 (page_of 0 image) zeroth
        → Says s 1 (page_of 1 image) first
        → IfSome result (λ f. IsNewest s image (model_fields f)) }
    ensures lawful { (s : Shape) (a b : List ℕ)
        → Says s 0 a zeroth
        → Says s 1 b first
        → IfSome result (λ f. AreRootFields s (model_fields f)) }
    ensures none { (s : Shape) (image : List ℕ)
        → Says s 0 (page_of 0 image) zeroth
        → Says s 1 (page_of 1 image) first
        → IfNone result ((header_gate image 0 ≢ 1) × (header_gate image 1 ≢ 1)) }
{
    match zeroth {
        None => first,
        Some(zeroth) => match first {
            None => Some(zeroth),
            Some(first) => {
                if zeroth.number < first.number {
                    return Some(first);
                }
                Some(zeroth)
            }
        },
    }
}

/// The fields of the newest root of a file with these header pages.
pub fn choose(
    zeroth: &[u8; PAGE_BYTES],
    first: &[u8; PAGE_BYTES],
    geometry: &Geometry,
) -> Result<RootHeader, Refusal>
    ensures found { (image : List ℕ)
        → page_of 0 image ≡ zeroth.now
        → page_of 1 image ≡ first.now
        → IfOk result (λ f. IsNewest geometry.now.shape image (model_fields f)) }
    ensures lawful { IfOk result (λ f. AreRootFields geometry.now.shape (model_fields f)) }
    ensures damaged { (image : List ℕ)
        → page_of 0 image ≡ zeroth.now
        → page_of 1 image ≡ first.now
        → (p : ℕ)
        → IsErrOf result (Damaged p)
        → IsRootDamage geometry.now.shape image p }
    ensures no_other { IfErr result TellsDamage }
{
    if are_alike(zeroth, first) {
        return Err(Refusal::Damaged { page: 1 });
    }
    let zeroth = open_root(zeroth, geometry, 0)?;
    let first = open_root(first, geometry, 1)?;
    match newer(zeroth, first) {
        Some(root) => Ok(root),
        None => Err(Refusal::Damaged { page: 0 }),
    }
}
