/// What lengths are measured with throughout a document: the dpi and the initial font size.
#[derive(Clone, Copy, PartialEq, Debug)]
pub struct Options {
    pub dpi: f32,
    pub font_size: f32,
}
