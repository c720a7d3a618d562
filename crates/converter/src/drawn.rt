ghost use Rattle.std.specs.Prelude.{◌≡◌};
ghost use Rattle.converter.specs.Drawn.{visible, drawn};

use element::{Element, Kind, Role};

// Whether its shown is not "no" and its own matrix is invertible.
#[tactic(auto, unfolding(crate::specs::Drawn::visible, crate::specs::Drawn::invertible_matrix))]
fn is_visible(element: &Element) -> bool
    ensures { result ≡ visible element.now }
{
    !element.is_hidden() && element.matrix().is_invertible()
}

/// Whether an element is drawn under a parent of this kind; the root has no parent.
#[tactic(auto, unfolding(crate::specs::Drawn::drawn_as))]
pub fn is_drawn(element: &Element, parent: Option<Kind>) -> bool
    ensures { result ≡ drawn parent element.now }
{
    match element.kind.role() {
        Role::Svg | Role::G | Role::Use | Role::Leaf => is_visible(element),
        Role::Symbol => parent == Some(Kind::Use),
        Role::Other => false,
    }
}
