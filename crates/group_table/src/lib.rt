//! The group table: a sink whose entries are linked by parent, child and sibling.

#![tactic(auto)]

mod bits;
mod entries;
mod entry;
mod laws;
mod packed;
mod table;

pub use entry::Entry;
pub use laws::{example_stands, parents_stand};
pub use table::GroupTable;

#[cfg(test)]
mod tests {
    use super::*;
    use geom::{Matrix, Ruler};
    use record::{Group, Id, Mark, Record};
    use sink::{Sink, SinkFault, Strip};
    use std::test::Fail;

    fn group(id: Id) -> Group {
        Group {
            id,
            matrix: Matrix::default(),
            clip: None,
            opacity: 1.0,
        }
    }

    fn mark(leaf: Id) -> Mark {
        Mark {
            leaf,
            ruler: Ruler {
                w: 100.0,
                h: 50.0,
                f: 12.0,
            },
        }
    }

    // A group with a mark, a group and a mark in it: six records on six places.
    fn draw<S: Sink>(sink: &mut S) -> Result<(), SinkFault> {
        sink.begin()?;
        sink.open(group(7))?;
        sink.mark(mark(1))?;
        sink.open(group(5))?;
        sink.close()?;
        sink.mark(mark(2))?;
        sink.close()?;
        sink.end()
    }

    #[test]
    fn links(rt: HostRuntime) -> Result<(), Fail> {
        let mut table = GroupTable::new(vec![in rt.alloc(); Entry::default(); 6]?);
        assert!(rt; draw(&mut table).is_ok());
        assert_eq!(rt; table.parent(3), Some(2));
        assert_eq!(rt; table.first_child(0), Some(1));
        assert_eq!(rt; table.next_sibling(1), Some(2));
        assert_eq!(rt; table.next_sibling(2), Some(4));
        assert_eq!(rt; table.record(4), Some(Record::Mark(mark(2))));
        Ok(())
    }

    #[test]
    fn full(rt: HostRuntime) -> Result<(), Fail> {
        let mut table = GroupTable::new(vec![in rt.alloc(); Entry::default(); 5]?);
        assert_eq!(rt; draw(&mut table), Err(SinkFault::NoPlaces));
        assert_eq!(rt; table.count(), 4);
        assert_eq!(rt; table.depth(), Some(1));
        Ok(())
    }

    #[test]
    fn find(rt: HostRuntime) -> Result<(), Fail> {
        let mut table = GroupTable::new(vec![in rt.alloc(); Entry::default(); 8]?);
        assert!(rt; draw(&mut table).is_ok());
        assert_eq!(rt; table.find_group(5), Some(2));
        assert_eq!(rt; table.find_group(0), None);
        let mut layer = Strip::new(table);
        assert!(rt; draw(&mut layer).is_ok());
        assert_eq!(rt; layer.into_below().find_group(5), None);
        Ok(())
    }
}
