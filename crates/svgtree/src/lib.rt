//! The document: nodes by number in memory that the caller lends, and the calls that make and edit it.

#![tactic(auto)]

mod allowed;
mod calls;
mod document;
mod laws;
mod limits;
mod node;

pub use calls::{Answer, Call, Done, run};
pub use document::Document;
pub use geom::Options;
pub use laws::{calls_leave_sound, levels_are_depths, links_give_children};
pub use limits::{Level, MAX_LEVELS, MAX_NODES};
pub use node::{Node, NodeId};

#[cfg(test)]
mod tests {
    use super::*;
    use element::{Attribute, Kind, Value, Word};
    use refusal::Refusal;
    use std::test::Fail;

    fn options(dpi: f32, font_size: f32) -> Options {
        Options { dpi, font_size }
    }

    #[test]
    fn numbers_from_1_until_full(rt: HostRuntime) -> Result<(), Fail> {
        let mut nodes = [Node::new(Kind::Svg, 0, 0); 3];
        let mut document = Document::new(&mut nodes, options(96.0, 12.0))?;
        assert_eq!(rt; document.add(&mut nodes, 0, Kind::Use), Ok(1));
        assert_eq!(rt; document.add(&mut nodes, 1, Kind::Rect), Ok(2));
        assert_eq!(rt;
            document.add(&mut nodes, 1, Kind::G),
            Err(Refusal::ChildNotAllowed)
        );
        assert_eq!(rt;
            document.add(&mut nodes, 3, Kind::G),
            Err(Refusal::UnknownNode)
        );
        assert_eq!(rt;
            document.add(&mut nodes, 0, Kind::G),
            Err(Refusal::DocumentFull)
        );
        Ok(())
    }

    #[test]
    fn options_in_range(rt: HostRuntime) {
        let mut nodes = [Node::new(Kind::Svg, 0, 0); 1];
        assert!(rt; Document::new(&mut nodes, options(10.0, 1000.0)).is_ok());
        assert!(rt; Document::new(&mut nodes, options(9.0, 12.0)).is_err());
        assert!(rt; Document::new(&mut nodes, options(96.0, 0.0)).is_err());
    }

    #[test]
    fn values_by_the_table(rt: HostRuntime) -> Result<(), Fail> {
        let mut nodes = [Node::new(Kind::Svg, 0, 0); 2];
        let document = Document::new(&mut nodes, options(96.0, 12.0))?;
        let half = Value::Number(0.5);
        assert_eq!(rt;
            document.set(&mut nodes, 0, Attribute::Opacity, half),
            Ok(())
        );
        assert_eq!(rt;
            document.set(&mut nodes, 0, Attribute::Id, half),
            Err(Refusal::BadValue)
        );
        assert_eq!(rt;
            document.set(&mut nodes, 0, Attribute::Shown, Value::Word(Word::Auto)),
            Err(Refusal::BadValue)
        );
        assert_eq!(rt;
            document.unset(&mut nodes, 0, Attribute::Matrix),
            Err(Refusal::AttributeNotAllowed)
        );
        assert_eq!(rt;
            document.unset(&mut nodes, 1, Attribute::Id),
            Err(Refusal::UnknownNode)
        );
        Ok(())
    }

    #[test]
    fn answers_one_by_one(rt: HostRuntime) -> Result<(), Fail> {
        let mut nodes = [Node::new(Kind::Svg, 0, 0); 3];
        let mut answers = [Ok(Done::Edited); 2];
        let calls = [
            Call::Add {
                parent: 7,
                kind: Kind::G,
            },
            Call::Add {
                parent: 0,
                kind: Kind::G,
            },
            Call::Add {
                parent: 1,
                kind: Kind::Path,
            },
        ];
        let document = run(&mut nodes, options(96.0, 12.0), &calls, &mut answers)?;
        assert_eq!(rt; document.used(&nodes), 3);
        assert_eq!(rt; document.first_child(&nodes, 1), Some(2));
        assert_eq!(rt; answers[0], Err(Refusal::UnknownNode));
        assert_eq!(rt; answers[1], Ok(Done::Added(1)));
        Ok(())
    }
}
