//! Groups and marks with their floats as bits, as an entry of the table keeps them.

ghost use Rattle.std.specs.Prelude.{◌≡◌, true, Some};
ghost use Rattle.record.specs.Good.{good_clip, good_group, good_mark};
ghost use Rattle.group_table.specs.Bits.{rect_of, group_of, mark_of};

use crate::bits::Bits;
use geom::Rect;
use record::{Group, Id, Mark};

/// A group whose floats are kept as bits.
#[derive(Clone, Copy)]
pub struct GroupBits {
    pub id: Id,
    matrix: Bits<6>,
    clip: Option<Bits<4>>,
    opacity: Bits<1>,
}

/// A mark whose floats are kept as bits.
#[derive(Clone, Copy)]
pub struct MarkBits {
    leaf: Id,
    ruler: Bits<3>,
}

#[tactic(auto, using(crate::proofs::Finite::clip_all))]
fn pack_clip(clip: Rect) -> Bits<4>
    requires { good_clip (Some clip) ≡ true }
    ensures { rect_of result ≡ clip }
{
    Bits::pack(clip.into())
}

impl From<Bits<4>> for Rect {
    ghost from_gives = { λ clip r. r ≡ rect_of clip };

    fn from(clip: Bits<4>) -> Rect {
        clip.unpack().into()
    }
}

impl GroupBits {
    /// The bits of a good group.
    #[tactic(auto, using(crate::proofs::Finite::group_parts, crate::proofs::Finite::matrix_all))]
    pub(crate) fn pack(group: Group) -> GroupBits
        requires { good_group group ≡ true }
        ensures { group_of result ≡ group }
    {
        GroupBits {
            id: group.id,
            matrix: Bits::pack(group.matrix.into()),
            clip: group.clip.map(pack_clip),
            opacity: Bits::pack([group.opacity]),
        }
    }
}

/// The group of the bits.
impl From<GroupBits> for Group {
    ghost from_gives = { λ bits g. g ≡ group_of bits };

    fn from(bits: GroupBits) -> Group {
        let [opacity] = bits.opacity.unpack();
        Group {
            id: bits.id,
            matrix: bits.matrix.unpack().into(),
            clip: bits.clip.map(Rect::from),
            opacity,
        }
    }
}

impl MarkBits {
    /// The bits of a good mark.
    #[tactic(auto, using(crate::proofs::Finite::mark_part, crate::proofs::Finite::ruler_all))]
    pub(crate) fn pack(mark: Mark) -> MarkBits
        requires { good_mark mark ≡ true }
        ensures { mark_of result ≡ mark }
    {
        MarkBits {
            leaf: mark.leaf,
            ruler: Bits::pack(mark.ruler.into()),
        }
    }
}

/// The mark of the bits.
impl From<MarkBits> for Mark {
    ghost from_gives = { λ bits m. m ≡ mark_of bits };

    fn from(bits: MarkBits) -> Mark {
        Mark {
            leaf: bits.leaf,
            ruler: bits.ruler.unpack().into(),
        }
    }
}
