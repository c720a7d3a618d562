ghost use Rattle.group_table.specs.Links.{Innermost, Example};

/// The parent of a record is the innermost of the groups that are open there.
pub fn parents_stand()
    ensures { Innermost }
{}

/// The links of a small script, worked out.
#[tactic(auto, unfolding(crate::specs::Links::last_below, crate::specs::Links::first_from, crate::specs::Links::around, crate::specs::Links::child_after, crate::specs::Links::parent_of, crate::specs::Links::first_child_of, crate::specs::Links::next_sibling_of))]
pub fn example_stands()
    ensures { Example }
{}
