use crate::bits::check_entries;
use geom::{Align, Aspect, Matrix, Rect, Size, ViewBox};
use std::process::Abort;

fn fit(rect: [f32; 4], size: [f32; 2], aspect: Aspect) -> Matrix {
    let [w, h] = size;
    ViewBox {
        rect: Rect::from(rect),
        aspect,
    }
    .to_transform(Size { w, h })
}

// b and c are 0, and the other entries are the given ones.
fn check_fit(rt: &impl Abort, fit: Matrix, a: f32, d: f32, e: f32, f: f32) {
    check_entries(rt, fit, [a, 0.0, 0.0, d, e, f]);
}

// View box 8 -16 32 64 into a size: alignment, whether to slice, then a, d, e and f.
fn check_alignments(rt: &impl Abort, size: [f32; 2], table: &[(Align, bool, f32, f32, f32, f32)]) {
    for (align, slice, a, d, e, f) in table {
        let aspect = Aspect {
            align: *align,
            slice: *slice,
        };
        let fit = fit([8.0, -16.0, 32.0, 64.0], size, aspect);
        check_fit(rt, fit, *a, *d, *e, *f);
    }
}

// The first size is wider than the view box and the second is taller, so that each leaves something over on one side.
#[test]
fn each_alignment_meets_and_slices(rt: HostRuntime) {
    check_alignments(
        &rt,
        [96.0, 96.0],
        &[
            (Align::None, false, 3.0, 1.5, -24.0, 24.0),
            (Align::XMinYMin, false, 1.5, 1.5, -12.0, 24.0),
            (Align::XMidYMin, false, 1.5, 1.5, 12.0, 24.0),
            (Align::XMaxYMin, false, 1.5, 1.5, 36.0, 24.0),
            (Align::XMinYMid, false, 1.5, 1.5, -12.0, 24.0),
            (Align::XMidYMid, false, 1.5, 1.5, 12.0, 24.0),
            (Align::XMaxYMid, false, 1.5, 1.5, 36.0, 24.0),
            (Align::XMinYMax, false, 1.5, 1.5, -12.0, 24.0),
            (Align::XMidYMax, false, 1.5, 1.5, 12.0, 24.0),
            (Align::XMaxYMax, false, 1.5, 1.5, 36.0, 24.0),
            (Align::None, true, 3.0, 1.5, -24.0, 24.0),
            (Align::XMinYMin, true, 3.0, 3.0, -24.0, 48.0),
            (Align::XMidYMin, true, 3.0, 3.0, -24.0, 48.0),
            (Align::XMaxYMin, true, 3.0, 3.0, -24.0, 48.0),
            (Align::XMinYMid, true, 3.0, 3.0, -24.0, 0.0),
            (Align::XMidYMid, true, 3.0, 3.0, -24.0, 0.0),
            (Align::XMaxYMid, true, 3.0, 3.0, -24.0, 0.0),
            (Align::XMinYMax, true, 3.0, 3.0, -24.0, -48.0),
            (Align::XMidYMax, true, 3.0, 3.0, -24.0, -48.0),
            (Align::XMaxYMax, true, 3.0, 3.0, -24.0, -48.0),
        ],
    );
    check_alignments(
        &rt,
        [48.0, 192.0],
        &[
            (Align::None, false, 1.5, 3.0, -12.0, 48.0),
            (Align::XMinYMin, false, 1.5, 1.5, -12.0, 24.0),
            (Align::XMidYMin, false, 1.5, 1.5, -12.0, 24.0),
            (Align::XMaxYMin, false, 1.5, 1.5, -12.0, 24.0),
            (Align::XMinYMid, false, 1.5, 1.5, -12.0, 72.0),
            (Align::XMidYMid, false, 1.5, 1.5, -12.0, 72.0),
            (Align::XMaxYMid, false, 1.5, 1.5, -12.0, 72.0),
            (Align::XMinYMax, false, 1.5, 1.5, -12.0, 120.0),
            (Align::XMidYMax, false, 1.5, 1.5, -12.0, 120.0),
            (Align::XMaxYMax, false, 1.5, 1.5, -12.0, 120.0),
            (Align::None, true, 1.5, 3.0, -12.0, 48.0),
            (Align::XMinYMin, true, 3.0, 3.0, -24.0, 48.0),
            (Align::XMidYMin, true, 3.0, 3.0, -48.0, 48.0),
            (Align::XMaxYMin, true, 3.0, 3.0, -72.0, 48.0),
            (Align::XMinYMid, true, 3.0, 3.0, -24.0, 48.0),
            (Align::XMidYMid, true, 3.0, 3.0, -48.0, 48.0),
            (Align::XMaxYMid, true, 3.0, 3.0, -72.0, 48.0),
            (Align::XMinYMax, true, 3.0, 3.0, -24.0, 48.0),
            (Align::XMidYMax, true, 3.0, 3.0, -48.0, 48.0),
            (Align::XMaxYMax, true, 3.0, 3.0, -72.0, 48.0),
        ],
    );
    let fit = fit([0.0, 0.0, 10.0, 20.0], [100.0, 100.0], Aspect::default());
    check_fit(&rt, fit, 5.0, 5.0, 25.0, 0.0);
}

#[test]
fn fits_at_the_edges(rt: HostRuntime) {
    // With no alignment, the corner, the view box's side and the size's, then the scale and the move, the same across
    // and down: a corner at 0 and at -0, a size of 0, scales that overflow or vanish.
    let scales = [
        (0.0, 10.0, 10.0, 1.0, -0.0),
        (-0.0, 10.0, 10.0, 1.0, 0.0),
        (0.1, 0.3, 1.1, 3.6666665, -0.36666664),
        (-0.2, 0.7, 1.3, 1.8571428, 0.37142858),
        (1.0, 1.0, 0.0, 0.0, -0.0),
        (-1.0, 1e-45, 1e-45, 1.0, 1.0),
        (3.0, 1e-45, 1.0, f32::INFINITY, f32::NEG_INFINITY),
        (0.0, 1e-45, 1.0, f32::INFINITY, f32::NAN),
        (1.0, 3e38, 1e-45, 0.0, -0.0),
        (3e38, 1.0, 4.0, 4.0, f32::NEG_INFINITY),
        (1e-45, 2.0, 1.0, 0.5, -0.0),
        (4e-45, 2.0, 1.0, 0.5, -3e-45),
    ];
    let unaligned = Aspect {
        align: Align::None,
        slice: false,
    };
    for (corner, side, size, scale, moved) in scales {
        let fit = fit([corner, corner, side, side], [size, size], unaligned);
        check_fit(&rt, fit, scale, scale, moved, moved);
    }
    // View box 0.1 -0.2 0.3 0.7 into 1.1 by 1.3, where all is rounded: the scale, e and f.
    let rounded = [
        (Align::XMidYMid, false, 1.8571428, 0.085714296, 0.37142858),
        (Align::XMaxYMin, false, 1.8571428, 0.35714287, 0.37142858),
        (Align::XMidYMid, true, 3.6666665, -0.36666664, 0.099999964),
        (Align::XMinYMax, true, 3.6666665, -0.36666664, -0.53333336),
    ];
    for (align, slice, scale, e, f) in rounded {
        let aspect = Aspect { align, slice };
        let fit = fit([0.1, -0.2, 0.3, 0.7], [1.1, 1.3], aspect);
        check_fit(&rt, fit, scale, scale, e, f);
    }
}
