//! A small pile at work: a fixed list of records, fed into strip over window over place over a table.

use anyhow::anyhow;
use feed::feed;
use geom::{Matrix, Rect, Ruler};
use group_table::{Entry, GroupTable};
use record::{Group, Mark, Record};
use reply::{ForPeople, Plain, Style};
use sink::{Framed, Sink, Strip};
use std::alloc::Global;
use std::io::{BufWriter, Stdout, Write};

type Pile = Strip<Framed<Framed<GroupTable>>>;

// A group with an id round a mark and an empty group, and a mark outside both.
fn records() -> [Record; 6] {
    let outer = Group {
        id: 7,
        matrix: Matrix::from_translate(5.0, 5.0),
        clip: None,
        opacity: 0.5,
    };
    let empty = Group {
        id: 8,
        matrix: Matrix::default(),
        clip: None,
        opacity: 1.0,
    };
    let ruler = Ruler {
        w: 100.0,
        h: 50.0,
        f: 12.0,
    };
    [
        Record::Open(outer),
        Record::Mark(Mark { leaf: 1, ruler }),
        Record::Open(empty),
        Record::Close,
        Record::Close,
        Record::Mark(Mark { leaf: 2, ruler }),
    ]
}

// The pile over an empty table, placed at (10, 20) and seen through a window of 100 by 50.
fn pile(heap: Global) -> anyhow::Result<Pile> {
    let table = GroupTable::new(vec![in heap; Entry::default(); 32]?);
    let Ok(placed) = Framed::place(table, Matrix::from_translate(10.0, 20.0)) else {
        return Err(anyhow!("the place is not good"));
    };
    let Ok(seen) = Framed::window(
        placed,
        Rect {
            x: 0.0,
            y: 0.0,
            w: 100.0,
            h: 50.0,
        },
    ) else {
        return Err(anyhow!("the window is not good"));
    };
    Ok(Strip::new(seen))
}

/// Feeds the records into the pile and writes the script that its table then holds.
pub fn show(out: &mut BufWriter<Stdout>, style: Style, heap: Global) -> anyhow::Result<()> {
    let mut pile = pile(heap)?;
    if feed(&records(), &mut pile).is_err() {
        return Err(anyhow!("the pile refused the records"));
    }
    for record in (0..pile.count()).filter_map(|n| pile.record(n)) {
        match style {
            Style::Plain => writeln!(out, "> {}", Plain(record))?,
            Style::People => writeln!(out, "    {}", ForPeople(record))?,
        }
    }
    Ok(())
}
