//! The rules of groups on directed drawings. Most of the expected numbers are ones on which a run of the Rust's functions
//! and a second implementation from the rules agree; the others follow from the rules.

#![tactic(auto)]

#[cfg(test)]
mod tests {
    use converter::{State, convert_svg, convert_symbol, convert_use, is_drawn};
    use element::{Attribute, Element, Kind, Value, word_of};
    use geom::{Align, Aspect, Length, Matrix, Rect, Ruler, Unit};
    use std::test::Fail;

    fn px(number: f32) -> Option<Value> {
        Some(Value::from(Length {
            number,
            unit: Unit::None,
        }))
    }

    fn matrix(entries: [f32; 6]) -> Option<Value> {
        Some(Value::from(Matrix::from(entries)))
    }

    fn number(number: f32) -> Option<Value> {
        Some(Value::from(number))
    }

    fn word(text: &str) -> Option<Value> {
        Some(Value::from(word_of(text)))
    }

    // A viewport of 100 by 100 at 96 dpi and font size 12.
    fn outside() -> State {
        State {
            ruler: Ruler::from([100.0, 100.0, 12.0]),
            dpi: 96.0,
            use_size: (None, None),
            symbol_matrix: Matrix::default(),
        }
    }

    // A nested svg of own matrix (0, 1, -1, 0, 100, 0) at (10, 20), 60 by 30, with view box 1 2 3 4, xMinYMax slice, opacity 0.5.
    fn turned_svg() -> Element {
        let view_box = Rect::from([1.0, 2.0, 3.0, 4.0]);
        let aspect = Aspect {
            align: Align::XMinYMax,
            slice: true,
        };
        Element::new(Kind::Svg)
            .with(Attribute::Matrix, matrix([0.0, 1.0, -1.0, 0.0, 100.0, 0.0]))
            .with(Attribute::X, px(10.0))
            .with(Attribute::Y, px(20.0))
            .with(Attribute::Width, px(60.0))
            .with(Attribute::Height, px(30.0))
            .with(Attribute::ViewBox, Some(Value::from(view_box)))
            .with(Attribute::Aspect, Some(Value::from(aspect)))
            .with(Attribute::Opacity, number(0.5))
    }

    #[test]
    fn clipped_svg_has_two_groups(rt: HostRuntime) -> Result<(), Fail> {
        let svg = turned_svg().with(Attribute::Id, number(2.0));
        let given = convert_svg(&svg, &outside())?;
        let outer = given.outer.ok_or("no outer group")?;
        assert_eq!(rt; outer.id, 2);
        assert_eq!(rt;
            outer.matrix,
            Matrix::from([0.0, 1.0, -1.0, 0.0, 100.0, 0.0])
        );
        assert_eq!(rt; outer.clip, Some(Rect::from([10.0, 20.0, 60.0, 30.0])));
        let inner = given.inner.ok_or("no inner group")?;
        assert_eq!(rt;
            inner.matrix,
            Matrix::from([20.0, 0.0, 0.0, 20.0, -10.0, -70.0])
        );
        assert_eq!(rt; inner.opacity, 0.5);
        assert!(rt; given.inside.ruler.w == 3.0 && given.inside.ruler.h == 4.0);
        Ok(())
    }

    #[test]
    fn unclipped_svg_has_the_product_in_one(rt: HostRuntime) -> Result<(), Fail> {
        let svg = turned_svg().with(Attribute::Overflow, word("visible"));
        let given = convert_svg(&svg, &outside())?;
        assert!(rt; given.outer.is_none());
        let inner = given.inner.ok_or("no inner group")?;
        assert_eq!(rt;
            inner.matrix,
            Matrix::from([0.0, 20.0, -20.0, 0.0, 170.0, -10.0])
        );
        assert!(rt; inner.clip.is_none());
        assert_eq!(rt; inner.id, 0);
        Ok(())
    }

    #[test]
    fn spare_groups_look_at_the_own_matrix(rt: HostRuntime) -> Result<(), Fail> {
        let back = Element::new(Kind::Svg)
            .with(Attribute::Matrix, matrix([1.0, 0.0, 0.0, 1.0, 3.0, 0.0]))
            .with(Attribute::X, px(-3.0));
        let given = convert_svg(&back, &outside())?;
        let inner = given.inner.ok_or("left out")?;
        assert!(rt; inner.matrix.is_identity());
        let still = Element::new(Kind::Svg).with(Attribute::Id, number(77.0));
        let given = convert_svg(&still, &outside())?;
        assert!(rt; given.outer.is_none());
        assert!(rt; given.inner.is_none());
        Ok(())
    }

    // A use of own matrix (2, 0, 0, 3, 5, 7) at (11, 13) with id 6.
    fn scaled_use() -> Element {
        Element::new(Kind::Use)
            .with(Attribute::Matrix, matrix([2.0, 0.0, 0.0, 3.0, 5.0, 7.0]))
            .with(Attribute::X, px(11.0))
            .with(Attribute::Y, px(13.0))
            .with(Attribute::Id, number(6.0))
    }

    #[test]
    fn unclipped_symbol_has_the_matrix_once(rt: HostRuntime) -> Result<(), Fail> {
        let symbol = Element::new(Kind::Symbol).with(Attribute::Overflow, word("auto"));
        let given = convert_use(&scaled_use(), Some(&symbol), &outside())?;
        let outer = given.outer.ok_or("no group")?;
        assert_eq!(rt; outer.id, 6);
        assert!(rt; outer.matrix.is_identity());
        assert!(rt; given.inner.is_none());
        let own = convert_symbol(&symbol, &given.inside)
            .inner
            .ok_or("left out")?;
        assert_eq!(rt; own.matrix, Matrix::from([2.0, 0.0, 0.0, 3.0, 27.0, 46.0]));
        Ok(())
    }

    #[test]
    fn a_use_hands_its_size_to_a_child_svg(rt: HostRuntime) -> Result<(), Fail> {
        let width = Length {
            number: 50.0,
            unit: Unit::Percent,
        };
        let half = Element::new(Kind::Use).with(Attribute::Width, Some(Value::from(width)));
        let svg = Element::new(Kind::Svg);
        let below = convert_use(&half, Some(&svg), &outside())?.inside;
        let given = convert_svg(&svg, &below)?;
        let outer = given.outer.ok_or("no clip")?;
        assert_eq!(rt; outer.clip, Some(Rect::from([0.0, 0.0, 50.0, 100.0])));
        let deeper = convert_svg(&svg, &given.inside)?;
        assert!(rt; deeper.outer.is_none());
        Ok(())
    }

    #[test]
    fn refused_and_not_drawn(rt: HostRuntime) {
        let far = Element::new(Kind::Svg).with(Attribute::X, px(f32::INFINITY));
        assert!(rt; convert_svg(&far, &outside()).is_err());
        let flat = Element::new(Kind::G).with(
            Attribute::Matrix,
            matrix([1.0, 1.0, 1.0, 1.0, 0.0, 0.0]),
        );
        assert!(rt; !is_drawn(&flat, Some(Kind::Svg)));
        let hidden = Element::new(Kind::Symbol).with(Attribute::Shown, word("no"));
        assert!(rt; is_drawn(&hidden, Some(Kind::Use)));
        assert!(rt; !is_drawn(&hidden, Some(Kind::G)));
    }
}
