ghost use Rattle.std.specs.Prelude.{◌≡◌};
ghost use Rattle.group_table.specs.Finding.{group_with};
ghost use Rattle.group_table.specs.Links.{parent_of, first_child_of, next_sibling_of};
ghost use Rattle.group_table.specs.Table.{script};

use super::GroupTable;
use record::Id;

impl GroupTable {
    /// The open of the innermost group that record n lies in: none if no group is open there, or past the end.
    #[tactic(auto, using(crate::proofs::Reading::past_end, crate::proofs::Reading::no_parent, crate::proofs::Reading::parent_read))]
    pub fn parent(&self, n: usize) -> Option<usize>
        ensures { result ≡ parent_of (script self.now) n }
    {
        self.entries.read(n)?.parent.map(usize::from)
    }

    /// The first open or mark that lies in the group of record n: none if there is none, or n is no open.
    #[tactic(auto, using(crate::proofs::Reading::past_end, crate::proofs::Reading::no_first, crate::proofs::Reading::first_read))]
    pub fn first_child(&self, n: usize) -> Option<usize>
        ensures { result ≡ first_child_of (script self.now) n }
    {
        self.entries.read(n)?.first_child.map(usize::from)
    }

    /// The next open or mark that lies in the same group as record n: none if there is none, or n is a close.
    #[tactic(auto, using(crate::proofs::Reading::past_end, crate::proofs::Reading::no_next, crate::proofs::Reading::next_read))]
    pub fn next_sibling(&self, n: usize) -> Option<usize>
        ensures { result ≡ next_sibling_of (script self.now) n }
    {
        self.entries.read(n)?.next_sibling.map(usize::from)
    }

    /// The first record that opens a group with the id: none for 0, which is no id.
    #[tactic(auto, using(crate::proofs::Reading::found, crate::proofs::Reading::no_id))]
    pub fn find_group(&self, id: Id) -> Option<usize>
        ensures { result ≡ group_with (script self.now) id }
    {
        if id == 0 {
            return None;
        }
        self.entries.find(id)
    }
}
