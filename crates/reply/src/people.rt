//! How answers, failures and records are written for people: floats in decimals, a refusal by its number and in plain words.

ghost use Rattle.reply.specs.People.{answer_text, failure_text, record_text};

use crate::answer::{Answer, Failure};
use record::Record;
use std::fmt;

/// What it holds, as people read it.
#[derive(Clone, Copy)]
pub struct ForPeople<T>(pub T);

// A zero has no sign.
fn unsigned_zero(x: f32) -> f32 {
    if x == 0.0 { 0.0 } else { x }
}

impl fmt::Display for ForPeople<Answer> {
    ghost output = { λ p. answer_text p.0 };

    fn fmt<W: fmt::Write>(&self, f: &mut fmt::Formatter<W>) -> fmt::Result {
        match self.0 {
            Answer::Number(x) => write!(f, "{}", unsigned_zero(x)),
            Answer::Matrix(m) => write!(
                f,
                "matrix {} {} {} {} {} {}",
                unsigned_zero(m.a),
                unsigned_zero(m.b),
                unsigned_zero(m.c),
                unsigned_zero(m.d),
                unsigned_zero(m.e),
                unsigned_zero(m.f)
            ),
            Answer::Size(root) => {
                let (w, h) = (unsigned_zero(root.size.w), unsigned_zero(root.size.h));
                write!(f, "{w} by {h}")?;
                if root.flag {
                    f.write_str(", a percent without a view box")?;
                }
                Ok(())
            }
            Answer::Node(node) => write!(f, "node {node}"),
            Answer::Done => f.write_str("done"),
        }
    }
}

impl fmt::Display for ForPeople<Failure> {
    ghost output = { λ p. failure_text p.0 };

    fn fmt<W: fmt::Write>(&self, f: &mut fmt::Formatter<W>) -> fmt::Result {
        match self.0 {
            Failure::Refused(refusal) => write!(f, "refused {}: {refusal}", refusal.number()),
            Failure::Unreadable(unreadable) => write!(f, "{unreadable}"),
        }
    }
}

impl fmt::Display for ForPeople<Record> {
    ghost output = { λ p. record_text p.0 };

    fn fmt<W: fmt::Write>(&self, f: &mut fmt::Formatter<W>) -> fmt::Result {
        match self.0 {
            Record::Open(group) => {
                let m = group.matrix;
                write!(
                    f,
                    "open group {}: matrix {} {} {} {} {} {}",
                    group.id, m.a, m.b, m.c, m.d, m.e, m.f
                )?;
                if let Some(r) = group.clip {
                    write!(f, ", clip {} {} {} {}", r.x, r.y, r.w, r.h)?;
                }
                write!(f, ", opacity {}", group.opacity)
            }
            Record::Mark(mark) => {
                let r = mark.ruler;
                write!(
                    f,
                    "mark leaf {}: viewport {} by {}, font size {}",
                    mark.leaf, r.w, r.h, r.f
                )
            }
            Record::Close => f.write_str("close"),
        }
    }
}
