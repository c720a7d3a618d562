ghost use Rattle.std.specs.Prelude.{◌≡◌};
ghost use Rattle.geom.specs.Invertible.{invertible};
ghost use Rattle.geom.specs.Matrix.{identity, translation, product, finite_matrix, is_identity, entries};

use crate::finite::all_finite;

/// A matrix maps x to `a*x + c*y + e` and y to `b*x + d*y + f`.
#[derive(Clone, Copy, PartialEq, Debug)]
pub struct Matrix {
    pub a: f32,
    pub b: f32,
    pub c: f32,
    pub d: f32,
    pub e: f32,
    pub f: f32,
}

/// The matrix that moves nothing.
impl Default for Matrix {
    ghost is_default = { λ m. m ≡ identity };

    #[tactic(auto, using(crate::proofs::Constants::zero_is, crate::proofs::Constants::one_is), unfolding(crate::specs::Matrix::identity))]
    fn default() -> Matrix {
        Matrix {
            a: 1.0,
            b: 0.0,
            c: 0.0,
            d: 1.0,
            e: 0.0,
            f: 0.0,
        }
    }
}

impl From<[f32; 6]> for Matrix {
    ghost from_gives = { λ floats m. floats ≡ entries m };

    fn from(floats: [f32; 6]) -> Matrix {
        let [a, b, c, d, e, f] = floats;
        Matrix { a, b, c, d, e, f }
    }
}

impl From<Matrix> for [f32; 6] {
    ghost from_gives = { λ m floats. floats ≡ entries m };

    fn from(m: Matrix) -> [f32; 6] {
        [m.a, m.b, m.c, m.d, m.e, m.f]
    }
}

impl Matrix {
    /// The matrix that moves by (x, y).
    #[tactic(auto, using(crate::proofs::Constants::zero_is, crate::proofs::Constants::one_is), unfolding(crate::specs::Matrix::translation))]
    pub fn from_translate(x: f32, y: f32) -> Matrix
        ensures { result ≡ translation x y }
    {
        Matrix {
            a: 1.0,
            b: 0.0,
            c: 0.0,
            d: 1.0,
            e: x,
            f: y,
        }
    }

    /// The product `self`·`other`, which applies `other` first: each product and each sum is rounded once.
    #[tactic(auto, unfolding(crate::specs::Matrix::product))]
    pub fn pre_concat(self, other: Matrix) -> Matrix
        ensures { result ≡ product self other }
    {
        Matrix {
            a: self.a * other.a + self.c * other.b,
            b: self.b * other.a + self.d * other.b,
            c: self.a * other.c + self.c * other.d,
            d: self.b * other.c + self.d * other.d,
            e: self.a * other.e + self.c * other.f + self.e,
            f: self.b * other.e + self.d * other.f + self.f,
        }
    }

    /// Whether no entry is an infinity or not a number.
    #[tactic(auto, unfolding(crate::specs::Matrix::finite_matrix))]
    pub fn is_finite(self) -> bool
        ensures { result ≡ finite_matrix self }
    {
        all_finite([self.a, self.b, self.c, self.d, self.e, self.f])
    }

    /// Whether every entry compares equal to the identity's.
    #[tactic(auto, unfolding(crate::specs::Matrix::is_identity, crate::specs::Matrix::identity))]
    pub fn is_identity(self) -> bool
        ensures { result ≡ is_identity self }
    {
        self == Matrix::default()
    }

    /// Whether a·d ≠ b·c, neither product being rounded: an f64 holds the product of two f32 exactly. A matrix that is not
    /// finite there is not invertible.
    pub fn is_invertible(self) -> bool
        ensures { result ≡ invertible self.a self.b self.c self.d }
    {
        all_finite([self.a, self.b, self.c, self.d])
            && f64::from(self.a) * f64::from(self.d) != f64::from(self.b) * f64::from(self.c)
    }
}
