use crate::bits::check_entries;
use geom::Matrix;

// A product one way round and the other, a translation and a fit likewise; sums in their order, signs of zero, overflow.
#[test]
fn products(rt: HostRuntime) {
    let table = [
        (
            [1.1, 2.2, 3.3, 4.4, 5.5, 6.6],
            [0.7, -1.3, 2.9, 0.1, -8.8, 9.9],
            [-3.52, -4.18, 3.52, 6.82, 28.489998, 30.799997],
        ),
        (
            [0.7, -1.3, 2.9, 0.1, -8.8, 9.9],
            [1.1, 2.2, 3.3, 4.4, 5.5, 6.6],
            [7.15, -1.2099999, 15.07, -3.85, 14.1900015, 3.4099998],
        ),
        (
            [1.0, 0.0, 0.0, 1.0, 20.0, 30.0],
            [5.0, 0.0, 0.0, 5.0, 25.0, 0.0],
            [5.0, 0.0, 0.0, 5.0, 45.0, 30.0],
        ),
        (
            [5.0, 0.0, 0.0, 5.0, 25.0, 0.0],
            [1.0, 0.0, 0.0, 1.0, 20.0, 30.0],
            [5.0, 0.0, 0.0, 5.0, 125.0, 150.0],
        ),
        (
            [1.0, 1.0, 1.0, 1.0, 1.0, 1.0],
            [0.0, 0.0, 0.0, 0.0, 1e8, -1e8],
            [0.0, 0.0, 0.0, 0.0, 1.0, 1.0],
        ),
        (
            [1.0, 0.0, 0.0, 1.0, 0.0, 0.0],
            [-0.0, -0.0, -0.0, -0.0, -0.0, -0.0],
            [-0.0, -0.0, -0.0, -0.0, 0.0, 0.0],
        ),
        (
            [1e38, 0.0, 0.0, 1.0, 0.0, 0.0],
            [10.0, 0.0, 0.0, 1.0, f32::INFINITY, 1.0],
            [f32::INFINITY, 0.0, 0.0, 1.0, f32::INFINITY, f32::NAN],
        ),
        (
            [1e-45, 0.0, 0.0, 0.5, 0.0, 1e-45],
            [0.5, 0.0, 0.0, 1e-45, 0.0, 0.0],
            [0.0, 0.0, 0.0, 0.0, 0.0, 1e-45],
        ),
    ];
    for (left, right, expected) in table {
        let product = Matrix::from(left).pre_concat(Matrix::from(right));
        check_entries(&rt, product, expected);
    }
    check_entries(
        &rt,
        Matrix::from_translate(20.0, 30.0),
        [1.0, 0.0, 0.0, 1.0, 20.0, 30.0],
    );
    check_entries(&rt, Matrix::default(), [1.0, 0.0, 0.0, 1.0, 0.0, 0.0]);
}

// Each matrix with whether it is the identity and whether it is finite: -0 counts as 0, the smallest float does not.
#[test]
fn identities(rt: HostRuntime) {
    let table = [
        ([1.0, 0.0, 0.0, 1.0, 0.0, 0.0], true, true),
        ([1.0, -0.0, -0.0, 1.0, -0.0, -0.0], true, true),
        ([-1.0, 0.0, 0.0, 1.0, 0.0, 0.0], false, true),
        ([1.0, 1e-45, 0.0, 1.0, 0.0, 0.0], false, true),
        ([1.0, 0.0, 1e-45, 1.0, 0.0, 0.0], false, true),
        ([1.0, 0.0, 0.0, 1.0000001, 0.0, 0.0], false, true),
        ([1.0, 0.0, 0.0, 1.0, -1e-45, 0.0], false, true),
        ([1.0, 0.0, 0.0, 1.0, 0.0, 1e-45], false, true),
        ([f32::NAN, 0.0, 0.0, 1.0, 0.0, 0.0], false, false),
        ([1.0, f32::INFINITY, 0.0, 1.0, 0.0, 0.0], false, false),
        ([1.0, 0.0, f32::NAN, 1.0, 0.0, 0.0], false, false),
        ([1.0, 0.0, 0.0, f32::INFINITY, 0.0, 0.0], false, false),
        ([1.0, 0.0, 0.0, 1.0, f32::NAN, 0.0], false, false),
        ([1.0, 0.0, 0.0, 1.0, 0.0, f32::INFINITY], false, false),
        (
            [f32::MAX, f32::MIN, f32::MAX, f32::MIN, f32::MAX, f32::MIN],
            false,
            true,
        ),
    ];
    for (entries, is_identity, is_finite) in table {
        let matrix = Matrix::from(entries);
        assert_eq!(rt; matrix.is_identity(), is_identity);
        assert_eq!(rt; matrix.is_finite(), is_finite);
    }
}

// a, b, c, d, and whether a*d differs from b*c when neither is rounded.
#[test]
fn invertible_matrices(rt: HostRuntime) {
    let smallest: f32 = 1e-45;
    assert_eq!(rt; smallest * smallest, 0.0);
    let above: f32 = 1.0 + f32::EPSILON;
    let next: f32 = 1.0 + 2.0 * f32::EPSILON;
    assert_eq!(rt; above * above, next);
    let table = [
        (1.0, 0.0, 0.0, 1.0, true),
        // products too small for an f32
        (smallest, 0.0, 0.0, smallest, true),
        (smallest, smallest, smallest, smallest, false),
        // a product that an f32 rounds to the other
        (above, next, 1.0, above, true),
        // products that an f32 holds as infinity
        (f32::MAX, f32::MAX, 2.0, 3.0, true),
        (f32::MAX, f32::MAX, 2.0, 2.0, false),
        // equal products
        (1.0, 1.0, 1.0, 1.0, false),
        (-2.0, 4.0, -3.0, 6.0, false),
        (-0.0, 0.0, 5.0, 7.0, false),
        (0.0, 0.0, 0.0, 0.0, false),
        // unlike signs, infinities, what is not a number
        (-1.0, 1.0, 1.0, 1.0, true),
        (f32::INFINITY, 0.0, 0.0, 1.0, false),
        (1.0, 0.0, 0.0, f32::NEG_INFINITY, false),
        (1.0, f32::NAN, 0.0, 1.0, false),
        (1.0, 0.0, f32::NAN, 1.0, false),
    ];
    for (a, b, c, d, expected) in table {
        let matrix = Matrix::from([a, b, c, d, 0.0, f32::INFINITY]);
        assert_eq!(rt; matrix.is_invertible(), expected);
    }
}
