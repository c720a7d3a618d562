//! How answers, failures and records are written for programs: floats by their bits, a refusal by its number.

ghost use Rattle.std.specs.Prelude.{Some};
ghost use Rattle.reply.specs.Plain.{answer_text, failure_text, matrix_text, clip_text, record_text};

use crate::answer::{Answer, Failure};
use crate::bits::Bits;
use geom::{Matrix, Rect};
use record::Record;
use std::fmt;

/// What it holds, as programs read it.
#[derive(Clone, Copy)]
pub struct Plain<T>(pub T);

impl fmt::Display for Plain<Matrix> {
    ghost output = { λ p. Some (matrix_text p.0) };

    fn fmt<W: fmt::Write>(&self, f: &mut fmt::Formatter<W>) -> fmt::Result {
        let m = self.0;
        write!(
            f,
            "{} {} {} {} {} {}",
            Bits(m.a),
            Bits(m.b),
            Bits(m.c),
            Bits(m.d),
            Bits(m.e),
            Bits(m.f)
        )
    }
}

impl fmt::Display for Plain<Option<Rect>> {
    ghost output = { λ p. Some (clip_text p.0) };

    fn fmt<W: fmt::Write>(&self, f: &mut fmt::Formatter<W>) -> fmt::Result {
        match self.0 {
            Some(rect) => write!(
                f,
                "clip {} {} {} {}",
                Bits(rect.x),
                Bits(rect.y),
                Bits(rect.w),
                Bits(rect.h)
            ),
            None => f.write_str("noclip"),
        }
    }
}

impl fmt::Display for Plain<Answer> {
    ghost output = { λ p. Some (answer_text p.0) };

    fn fmt<W: fmt::Write>(&self, f: &mut fmt::Formatter<W>) -> fmt::Result {
        match self.0 {
            Answer::Number(x) => write!(f, "{}", Bits(x)),
            Answer::Matrix(m) => write!(f, "{}", Plain(m)),
            Answer::Size(root) => write!(
                f,
                "size {} {} flag {}",
                Bits(root.size.w),
                Bits(root.size.h),
                u8::from(root.flag)
            ),
            Answer::Node(node) => write!(f, "ok {node}"),
            Answer::Done => f.write_str("ok"),
        }
    }
}

impl fmt::Display for Plain<Failure> {
    ghost output = { λ p. Some (failure_text p.0) };

    fn fmt<W: fmt::Write>(&self, f: &mut fmt::Formatter<W>) -> fmt::Result {
        match self.0 {
            Failure::Refused(refusal) => write!(f, "refused {}", refusal.number()),
            Failure::Unreadable(unreadable) => write!(f, "{unreadable}"),
        }
    }
}

impl fmt::Display for Plain<Record> {
    ghost output = { λ p. Some (record_text p.0) };

    fn fmt<W: fmt::Write>(&self, f: &mut fmt::Formatter<W>) -> fmt::Result {
        match self.0 {
            Record::Open(group) => write!(
                f,
                "open {} {} {} {}",
                group.id,
                Plain(group.matrix),
                Plain(group.clip),
                Bits(group.opacity)
            ),
            Record::Mark(mark) => write!(
                f,
                "mark {} {} {} {}",
                mark.leaf,
                Bits(mark.ruler.w),
                Bits(mark.ruler.h),
                Bits(mark.ruler.f)
            ),
            Record::Close => f.write_str("close"),
        }
    }
}
