use crate::bits::bits;
use geom::{Direction, Length, Ruler, Unit, convert_length};

// 7.3 of each unit in a viewport of 320 by 200 with font size 12.5: across and down at dpi 10, then at dpi 4,000.
#[test]
fn each_unit_across_and_down(rt: HostRuntime) {
    let ruler = Ruler::from([320.0, 200.0, 12.5]);
    let table = [
        (Unit::None, 7.3, 7.3, 7.3, 7.3),
        (Unit::Px, 7.3, 7.3, 7.3, 7.3),
        (Unit::Em, 91.25, 91.25, 91.25, 91.25),
        (Unit::Ex, 45.625, 45.625, 45.625, 45.625),
        (Unit::In, 73.0, 73.0, 29200.0, 29200.0),
        (Unit::Cm, 28.740158, 28.740158, 11496.063, 11496.063),
        (Unit::Mm, 2.8740158, 2.8740158, 1149.6063, 1149.6063),
        (Unit::Pt, 1.0138888, 1.0138888, 405.55554, 405.55554),
        (Unit::Pc, 12.166667, 12.166667, 4866.6665, 4866.6665),
        (Unit::Percent, 23.36, 14.6, 23.36, 14.6),
    ];
    for (unit, coarse_across, coarse_down, fine_across, fine_down) in table {
        let length = Length { number: 7.3, unit };
        for (direction, dpi, expected) in [
            (Direction::Across, 10.0, coarse_across),
            (Direction::Down, 10.0, coarse_down),
            (Direction::Across, 4000.0, fine_across),
            (Direction::Down, 4000.0, fine_down),
        ] {
            let measured = convert_length(length, direction, dpi, ruler);
            assert_eq!(rt; bits(measured), bits(expected));
        }
    }
}

// Number, unit, dpi, the viewport's side, font size and the length: signs of zero, subnormals and ties, overflow on the
// way, percents of nothing and of infinity.
#[test]
fn lengths_at_the_edges(rt: HostRuntime) {
    let table = [
        (-0.0, Unit::Px, 96.0, 0.0, 12.0, -0.0),
        (f32::MAX, Unit::None, 96.0, 0.0, 12.0, 3.4028235e38),
        (-0.0, Unit::Em, 96.0, 0.0, 12.0, -0.0),
        (72.0, Unit::Pt, 96.0, 0.0, 12.0, 96.0),
        (1.0, Unit::Ex, 96.0, 0.0, 12.0, 6.0),
        (2.54, Unit::Cm, 96.0, 0.0, 12.0, 96.0),
        (25.4, Unit::Mm, 96.0, 0.0, 12.0, 96.0),
        (0.1, Unit::In, 96.0, 0.0, 12.0, 9.6),
        (1e-45, Unit::Ex, 96.0, 0.0, 1.0, 0.0),
        (4e-45, Unit::Ex, 96.0, 0.0, 1.0, 3e-45),
        (1e-45, Unit::In, 4000.0, 0.0, 1.0, 5.605e-42),
        (1e-45, Unit::Cm, 10.0, 0.0, 1.0, 6e-45),
        (1e-45, Unit::Mm, 10.0, 0.0, 1.0, 0.0),
        (1e-45, Unit::Pt, 4000.0, 0.0, 1.0, 7.8e-44),
        (1e-45, Unit::Pc, 10.0, 0.0, 1.0, 3e-45),
        (1e6, Unit::In, 4000.0, 0.0, 1.0, 4000000000.0),
        (-1e6, Unit::Mm, 4000.0, 0.0, 1.0, -157480320.0),
        (1e38, Unit::Mm, 10.0, 0.0, 1.0, f32::INFINITY),
        (-1e38, Unit::Em, 10.0, 0.0, 1000.0, f32::NEG_INFINITY),
        (50.0, Unit::Percent, 96.0, 0.0, 12.0, 0.0),
        (-50.0, Unit::Percent, 96.0, 0.0, 12.0, -0.0),
        (0.0, Unit::Percent, 96.0, 100.0, 12.0, 0.0),
        (-0.0, Unit::Percent, 96.0, 100.0, 12.0, -0.0),
        (33.3, Unit::Percent, 96.0, 7.0, 12.0, 2.3309999),
        (1e-45, Unit::Percent, 96.0, 150.0, 12.0, 3e-45),
        (100.0, Unit::Percent, 96.0, 3e38, 12.0, f32::INFINITY),
        (0.0, Unit::Percent, 96.0, f32::INFINITY, 12.0, f32::NAN),
    ];
    for (number, unit, dpi, side, f, expected) in table {
        let length = Length { number, unit };
        let wide = Ruler { w: side, h: 1.0, f };
        let across = convert_length(length, Direction::Across, dpi, wide);
        assert_eq!(rt; bits(across), bits(expected));
        let tall = Ruler { w: 1.0, h: side, f };
        let down = convert_length(length, Direction::Down, dpi, tall);
        assert_eq!(rt; bits(down), bits(expected));
    }
}
