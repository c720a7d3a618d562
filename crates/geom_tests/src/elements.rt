use element::{Attribute, Element, Kind, Value, word_of};
use geom::Rect;

fn with(attribute: Attribute, value: Value) -> Element {
    Element::new(Kind::Svg).with(attribute, Some(value))
}

fn corner_box(w: f32, h: f32) -> Value {
    Value::from(Rect::from([0.0, 0.0, w, h]))
}

// A view box's sides, and whether it counts as there.
#[test]
fn view_boxes(rt: HostRuntime) {
    let table = [
        (10.0, 20.0, true),
        (1e-45, 1.0, true),
        (0.0, 20.0, false),
        (10.0, 0.0, false),
        (-0.0, 20.0, false),
        (10.0, -5.0, false),
    ];
    for (w, h, present) in table {
        let svg = with(Attribute::ViewBox, corner_box(w, h));
        assert_eq!(rt; svg.view_box().is_some(), present);
    }
    let of_another_form = with(Attribute::ViewBox, Value::Number(1.0));
    assert!(rt; of_another_form.view_box().is_none());
    let of_another_name = with(Attribute::Id, corner_box(1.0, 1.0));
    assert!(rt; of_another_name.view_box().is_none());
}

#[test]
fn ids(rt: HostRuntime) {
    let table = [
        (0.0, 0),
        (-0.0, 0),
        (1.0, 1),
        (256.0, 256),
        (65535.0, 65535),
    ];
    for (number, id) in table {
        assert_eq!(rt; with(Attribute::Id, Value::Number(number)).id(), id);
    }
    assert_eq!(rt; with(Attribute::Opacity, Value::Number(1.0)).id(), 0);
}

// A text, and whether as a word it hides its element and whether it lets its content overflow.
#[test]
fn words(rt: HostRuntime) {
    let table = [
        ("yes", false, false),
        ("no", true, false),
        ("visible", false, true),
        ("auto", false, true),
        ("hidden", false, false),
        ("No", false, false),
        ("auto ", false, false),
        ("", false, false),
    ];
    for (text, hides, overflows) in table {
        let word = Value::from(word_of(text));
        assert_eq!(rt; with(Attribute::Shown, word).is_hidden(), hides);
        assert_eq!(rt; with(Attribute::Overflow, word).overflows(), overflows);
        assert_eq!(rt; with(Attribute::Shown, word).overflows(), false);
        assert_eq!(rt; with(Attribute::Overflow, word).is_hidden(), false);
    }
}
