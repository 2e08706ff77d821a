//! Finds the help page of a text.

ghost use Rattle.std.specs.Prelude.{◌≡◌, IfSome};
ghost use Rattle.prep_program.specs.Pages.{page_text};

use crate::pages::Page;

/// The page with this text, if there is one.
pub fn page_of(text: &str) -> Option<Page>
    ensures { IfSome result (λ page. page_text page ≡ text.now) }
{
    let pages = [
        Page::Program,
        Page::Policy,
        Page::Users,
        Page::Join,
        Page::Reassemble,
        Page::Translate,
        Page::Look,
        Page::Cut,
        Page::Ready,
    ];
    pages.into_iter().find(|page| page.text() == text)
}
