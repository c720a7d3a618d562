ghost use Rattle.std.specs.Prelude.{◌≡◌};
ghost use Rattle.element.specs.Attributes.{matrix_of, opacity_of};
ghost use Rattle.converter.specs.Groups.{group, clip_group, spare};

use element::Element;
use geom::{Matrix, Rect, is_plain};
use record::{Group, Id};

/// A group without clip.
#[tactic(auto, unfolding(crate::specs::Groups::group))]
pub(crate) fn plain_group(id: Id, matrix: Matrix, opacity: f32) -> Group
    ensures { result ≡ group id matrix opacity }
{
    Group {
        id,
        matrix,
        clip: None,
        opacity,
    }
}

/// The group of a clip, whose decoration is plain.
#[tactic(auto, using(crate::proofs::Constants::constants), unfolding(crate::specs::Groups::clip_group))]
pub(crate) fn clip_group(id: Id, matrix: Matrix, clip: Rect) -> Group
    ensures { result ≡ clip_group id matrix clip }
{
    Group {
        id,
        matrix,
        clip: Some(clip),
        opacity: 1.0,
    }
}

/// A spare group: left out when its element's decoration is plain and both its matrix and its element's own are the identity.
#[tactic(auto, unfolding(crate::specs::Groups::spare))]
pub(crate) fn spare_group(element: &Element, matrix: Matrix) -> Option<Group>
    ensures { result ≡ spare (matrix_of element.now) matrix (opacity_of element.now) }
{
    let opacity = element.opacity();
    let left_out = is_plain(opacity) && matrix.is_identity() && element.matrix().is_identity();
    if left_out {
        None
    } else {
        Some(plain_group(0, matrix, opacity))
    }
}
