use crate::bits::bits;
use geom::{Length, Options, Rect, RootAttributes, Unit, resolve_svg_size};
use refusal::Refusal;
use std::process::Abort;
use std::test::Fail;

const OPTIONS: Options = Options {
    dpi: 96.0,
    font_size: 12.0,
};

fn of(number: f32, unit: Unit) -> Option<Length> {
    Some(Length { number, unit })
}

fn px(number: f32) -> Option<Length> {
    of(number, Unit::Px)
}

fn percent(number: f32) -> Option<Length> {
    of(number, Unit::Percent)
}

fn view_box(w: f32, h: f32) -> Option<Rect> {
    Some(Rect::from([3.0, -4.0, w, h]))
}

// At dpi 96 and font size 12 the root has this size and this flag.
fn check_root(
    rt: &impl Abort,
    attributes: RootAttributes,
    w: f32,
    h: f32,
    flag: bool,
) -> Result<(), Fail> {
    let root = resolve_svg_size(attributes, OPTIONS)?;
    assert_eq!(rt; bits(root.size.w), bits(w));
    assert_eq!(rt; bits(root.size.h), bits(h));
    assert_eq!(rt; root.flag, flag);
    Ok(())
}

#[test]
fn root_sizes(rt: HostRuntime) -> Result<(), Fail> {
    // With no view box: the width and height given, the sides and the flag.
    let bare = [
        (None, None, 100.0, 100.0, true),
        (px(200.0), None, 200.0, 100.0, true),
        (None, of(50.0, Unit::Pt), 100.0, 66.666664, true),
        (percent(50.0), None, 50.0, 100.0, true),
        (of(2.0, Unit::Em), of(1.0, Unit::In), 24.0, 96.0, false),
        (percent(50.0), px(20.0), 50.0, 20.0, true),
        (of(20.0, Unit::Mm), percent(50.0), 75.59055, 50.0, true),
        (percent(33.3), percent(66.6), 33.3, 66.6, true),
        (px(1e-45), px(1e38), 1e-45, 1e38, false),
    ];
    for (width, height, w, h, flag) in bare {
        let attributes = RootAttributes {
            width,
            height,
            view_box: None,
        };
        check_root(&rt, attributes, w, h, flag)?;
    }
    // With a view box: the width and height given, the view box's sides and the root's; the flag is off.
    let boxed = [
        (None, None, 100.0, 50.0, 100.0, 50.0),
        (px(200.0), None, 100.0, 50.0, 200.0, 100.0),
        (None, px(30.0), 100.0, 50.0, 60.0, 30.0),
        (px(200.0), px(10.0), 100.0, 50.0, 200.0, 10.0),
        (percent(50.0), percent(10.0), 100.0, 50.0, 50.0, 5.0),
        (percent(50.0), px(10.0), 100.0, 50.0, 50.0, 10.0),
        (percent(33.3), None, 3.0, 7.0, 0.999, 2.331),
        (None, percent(33.3), 3.0, 7.0, 0.999, 2.331),
        (percent(33.3), percent(33.3), 3.0, 7.0, 0.999, 2.331),
        (px(10.1), None, 3.0, 7.0, 10.1, 23.566668),
        (None, px(10.1), 3.0, 7.0, 4.328572, 10.1),
        (of(1.0, Unit::Ex), None, 3.0, 7.0, 6.0, 14.0),
        (None, of(1.0, Unit::Cm), 3.0, 7.0, 16.197977, 37.795277),
    ];
    for (width, height, vw, vh, w, h) in boxed {
        let attributes = RootAttributes {
            width,
            height,
            view_box: view_box(vw, vh),
        };
        check_root(&rt, attributes, w, h, false)?;
    }
    Ok(())
}

// A side that is not above 0 is refused 6; one that is not finite is refused 8, whatever the other side is.
#[test]
fn roots_refused(rt: HostRuntime) {
    let table = [
        (px(0.0), None, None, 6),
        (px(-0.0), px(5.0), None, 6),
        (None, px(-5.0), None, 6),
        (percent(0.0), None, None, 6),
        (px(5.0), px(-5.0), view_box(100.0, 50.0), 6),
        (percent(0.0), None, view_box(100.0, 50.0), 6),
        (None, px(0.0), view_box(100.0, 50.0), 6),
        (px(1e-45), None, view_box(1e6, 1.0), 6),
        (of(1e38, Unit::In), None, None, 8),
        (px(f32::NAN), px(0.0), None, 8),
        (of(1e38, Unit::Mm), px(-1.0), None, 8),
        (px(0.0), of(1e38, Unit::Em), None, 8),
        (px(1e6), None, view_box(1.0, 3e38), 8),
    ];
    for (width, height, view_box, number) in table {
        let attributes = RootAttributes {
            width,
            height,
            view_box,
        };
        let refusal = resolve_svg_size(attributes, OPTIONS).err();
        assert_eq!(rt; refusal.map(Refusal::number), Some(number));
    }
}
