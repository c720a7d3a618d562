use crate::bits::bits;
use geom::{Rect, Ruler, Size, is_plain};

// Two sides, whether both are above 0 and whether both are finite.
#[test]
fn sides(rt: HostRuntime) {
    let table = [
        (1.0, 1.0, true, true),
        (1e-45, f32::MAX, true, true),
        (0.0, 1.0, false, true),
        (1.0, -0.0, false, true),
        (1.0, -1e-45, false, true),
        (f32::INFINITY, 1.0, true, false),
        (1.0, f32::INFINITY, true, false),
        (f32::NEG_INFINITY, 1.0, false, false),
        (f32::NAN, 1.0, false, false),
        (1.0, f32::NAN, false, false),
    ];
    for (w, h, is_valid, is_finite) in table {
        assert_eq!(rt; Size { w, h }.is_valid(), is_valid);
        assert_eq!(rt; Size { w, h }.is_finite(), is_finite);
        assert_eq!(rt; Rect::from([-1.0, 0.0, w, h]).is_valid(), is_valid);
        assert_eq!(rt; Rect::from([-1.0, 0.0, w, h]).is_finite(), is_finite);
        assert_eq!(rt; Rect::from([w, h, 1.0, 1.0]).is_finite(), is_finite);
        assert_eq!(rt; Ruler::from([w, h, 12.0]).is_finite(), is_finite);
        assert_eq!(rt; Ruler::from([1.0, w, h]).is_finite(), is_finite);
    }
}

// An opacity, its bits, and whether it counts as 1.
#[test]
fn plain_opacities(rt: HostRuntime) {
    let table = [
        (1.0, Some(0x3f80_0000), true),
        (0.99999976, Some(0x3f7f_fffc), true),
        (0.9999997, Some(0x3f7f_fffb), false),
        (1.0000005, Some(0x3f80_0004), true),
        (1.0000006, Some(0x3f80_0005), false),
        (-1.0, Some(0xbf80_0000), false),
        (0.0, Some(0), false),
        (f32::INFINITY, Some(0x7f80_0000), false),
        (f32::NAN, None, false),
    ];
    for (opacity, expected, plain) in table {
        assert_eq!(rt; bits(opacity), expected);
        assert_eq!(rt; is_plain(opacity), plain);
    }
}
