use geom::{Matrix, Rect, Ruler};
use record::{Group, Mark, Record};

fn is_good(e: f32, clip: Option<Rect>, opacity: f32) -> bool {
    let matrix = Matrix::from_translate(e, 0.0);
    Record::Open(Group {
        id: 1,
        matrix,
        clip,
        opacity,
    })
    .is_good()
}

fn clip(x: f32, w: f32, h: f32) -> Option<Rect> {
    Some(Rect::from([x, 0.0, w, h]))
}

#[test]
fn good_records(rt: HostRuntime) {
    // A group's move across, its clip, its opacity, and whether it is good.
    let groups = [
        (0.0, None, 0.0, true),
        (0.0, None, -0.0, true),
        (0.0, None, 1.0, true),
        (0.0, None, -1e-45, false),
        (0.0, None, 1.0000001, false),
        (0.0, None, f32::NAN, false),
        (f32::MAX, None, 1.0, true),
        (f32::INFINITY, None, 1.0, false),
        (f32::NAN, None, 1.0, false),
        (0.0, clip(-1.0, 1e-45, f32::MAX), 1.0, true),
        (0.0, clip(0.0, 0.0, 1.0), 1.0, false),
        (0.0, clip(0.0, 1.0, -0.0), 1.0, false),
        (0.0, clip(f32::INFINITY, 1.0, 1.0), 1.0, false),
        (0.0, clip(0.0, 1.0, f32::INFINITY), 1.0, false),
    ];
    for (e, clip, opacity, good) in groups {
        assert_eq!(rt; is_good(e, clip, opacity), good);
    }
    // A mark's ruler, and whether the mark is good.
    let marks = [
        (0.0, -1.0, f32::MAX, true),
        (f32::NAN, 1.0, 1.0, false),
        (1.0, f32::INFINITY, 1.0, false),
        (1.0, 1.0, f32::NEG_INFINITY, false),
    ];
    for (w, h, f, good) in marks {
        let ruler = Ruler { w, h, f };
        assert_eq!(rt; Record::Mark(Mark { leaf: 1, ruler }).is_good(), good);
    }
    assert!(rt; Record::Close.is_good());
}
