ghost use Rattle.std.specs.Prelude.{◌≡◌};
ghost use Rattle.converter.specs.State.{ruled, sized, framed};

use geom::{Matrix, Ruler};

/// What holds outside an element.
#[derive(Clone, Copy, PartialEq, Debug)]
pub struct State {
    /// The viewport's sides and the font size.
    pub ruler: Ruler,
    pub dpi: f32,
    /// The sizes that a use hands to a child svg, each of which may be absent.
    pub use_size: (Option<f32>, Option<f32>),
    /// The matrix that a used symbol's own group is to have; the identity elsewhere.
    pub symbol_matrix: Matrix,
}

impl State {
    /// The state inside an element that hands nothing on to its children but a ruler.
    #[tactic(auto, unfolding(crate::specs::State::ruled))]
    pub fn ruled(&self, ruler: Ruler) -> State
        ensures { result ≡ ruled self.now ruler }
    {
        self.framed(ruler, Matrix::default())
    }

    /// The state inside a use that hands these sizes to its child.
    #[tactic(auto, unfolding(crate::specs::State::sized, crate::specs::State::ruled, crate::specs::State::framed))]
    pub fn sized(&self, use_size: (Option<f32>, Option<f32>)) -> State
        ensures { result ≡ sized self.now use_size }
    {
        State {
            use_size,
            ..self.ruled(self.ruler)
        }
    }

    /// The state inside a use of a symbol whose own group is to have this matrix.
    #[tactic(auto, unfolding(crate::specs::State::framed))]
    pub fn framed(&self, ruler: Ruler, symbol_matrix: Matrix) -> State
        ensures { result ≡ framed self.now ruler symbol_matrix }
    {
        State {
            ruler,
            use_size: (None, None),
            symbol_matrix,
            ..*self
        }
    }
}
