//! What follows of the definition of a page after images.

ghost use Rattle.std.specs.Prelude.{◌≡◌, ◌==◌, ◌++◌, [], ◌∷◌, ℕ, List, if◌then◌else◌};
ghost use Rattle.ct_frames.specs.Pages.{PageImage, page_at, placed};

/// With one more image its page has that image, and every other page is as it was; and images after
/// others are images over the pages that the others gave.
pub fn pages_go_on()
    ensures none { (base : ℕ → List ℕ) (page : ℕ) → page_at base [] page ≡ base page }
    ensures last { (base : ℕ → List ℕ) (images : List PageImage) (image : PageImage) (page : ℕ)
        → page_at base (images ++ image ∷ []) page ≡ (if image.page == page then placed image else page_at base images page) }
    ensures parts { (base : ℕ → List ℕ) (first second : List PageImage) (page : ℕ)
        → page_at base (first ++ second) page ≡ page_at (page_at base first) second page }
{}
