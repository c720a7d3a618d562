//! One bounded list for every kind of record: generic functions over memory that the caller lends and a count of the
//! records of it that are in use. A count is read as at most the number lent.

#![tactic(auto)]

ghost use Rattle.std.specs.Prelude.{◌≡◌, ℕ, min, length, is_some};
ghost use Rattle.std.specs.List.{slice_get};
ghost use Rattle.list.specs.Bounded.{used, count_added, Added, Replaced};
ghost use Rattle.list.specs.Places.{place_of, Found};

use std::mem;

/// The type of a record's number.
pub type Number = u16;

/// A record that has a number.
pub trait Numbered {
    ghost number: { Self → ℕ };

    /// The record's number.
    fn id(&self) -> Number
        ensures { result ≡ number self.now };
}

/// The refusal of an add: every record lent is in use.
#[derive(Clone, Copy, PartialEq, Eq, Debug)]
pub struct Full;

/// The records in use: the first `count` of those lent, or all where fewer are lent.
pub fn in_use<T>(items: &[T], count: usize) -> &[T]
    ensures { result.now ≡ used items.now count }
{
    &items[..count.min(items.len())]
}

/// How many records are in use: the count, as it is read.
pub fn count<T>(items: &[T], count: usize) -> usize
    ensures listed { result ≡ length (used items.now count) }
    ensures bounded { result ≡ min count (length items.now) }
{
    in_use(items, count).len()
}

/// Adds a record after those in use, and answers the new count. Where no place is free, nothing is written.
pub fn add<T: Copy>(items: &mut [T], count: usize, x: T) -> Result<usize, Full>
    ensures answer { result ≡ count_added items.old count }
    ensures effect { Added items.old count x result items.new }
{
    if count < items.len() {
        items[count] = x;
        Ok(count + 1)
    } else {
        Err(Full)
    }
}

/// The record at place i, counted from 0; none past the records in use.
pub fn read<T: Copy>(items: &[T], count: usize, i: usize) -> Option<T>
    ensures { result ≡ slice_get (used items.now count) i }
{
    in_use(items, count).get(i).copied()
}

/// Writes a record over the one at place i, and answers that one. Past the records in use it answers none, and nothing
/// is written.
pub fn replace<T: Copy>(items: &mut [T], count: usize, i: usize, x: T) -> Option<T>
    ensures answer { result ≡ slice_get (used items.old count) i }
    ensures effect { Replaced items.old count i x (is_some result) items.new }
{
    if i >= crate::count(items, count) {
        return None;
    }
    Some(mem::replace(&mut items[i], x))
}

/// The place of the first record in use that has the wanted number.
pub fn find<T: Numbered>(items: &[T], count: usize, wanted: Number) -> Option<usize>
    ensures answer { result ≡ place_of T.Numbered.number wanted (used items.now count) }
    ensures first { Found T.Numbered.number wanted (used items.now count) result }
{
    let records = in_use(items, count);
    records.iter().position(|record| record.id() == wanted)
}

#[cfg(test)]
mod tests {
    use super::*;
    use std::test::Fail;

    #[derive(Clone, Copy, PartialEq, Eq, Debug)]
    struct Tag {
        id: Number,
        value: u8,
    }

    impl Numbered for Tag {
        ghost number = { λ tag. tag.id };

        fn id(&self) -> Number {
            self.id
        }
    }

    const BLANK: Tag = Tag { id: 0, value: 0 };

    #[test]
    fn empty_memory(rt: HostRuntime) {
        let mut none: [Tag; 0] = [];
        assert_eq!(rt; add(&mut none, 0, BLANK), Err(Full));
        assert_eq!(rt; read(&none, 0, 0), None);
    }

    #[test]
    fn fills_up(rt: HostRuntime) -> Result<(), Fail> {
        let mut tags = [BLANK; 2];
        let last = Tag { id: 5, value: 2 };
        let used = add(&mut tags, 0, BLANK)?;
        let used = add(&mut tags, used, last)?;
        assert_eq!(rt; read(&tags, used, 1), Some(last));
        assert_eq!(rt; add(&mut tags, used, BLANK), Err(Full));
        Ok(())
    }

    #[test]
    fn count_above_memory(rt: HostRuntime) {
        let mut tags = [BLANK; 2];
        assert_eq!(rt; count(&tags, 9), 2);
        assert_eq!(rt; add(&mut tags, 9, BLANK), Err(Full));
        assert_eq!(rt; replace(&mut tags, 9, 2, BLANK), None);
    }

    #[test]
    fn first_of_two_equals(rt: HostRuntime) {
        let tags = [BLANK, Tag { id: 3, value: 1 }, Tag { id: 3, value: 2 }];
        assert_eq!(rt; find(&tags, 3, 3), Some(1));
        assert_eq!(rt; find(&tags, 1, 3), None);
    }
}
