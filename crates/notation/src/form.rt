/// The form of an attribute's value.
#[derive(Clone, Copy, PartialEq, Eq)]
pub enum Form {
    Length,
    Box,
    Matrix,
    Aspect,
    Number,
    Word,
}
