/// The type of a level; the root's is 1.
pub type Level = u8;

/// The most nodes that a document has.
pub const MAX_NODES: usize = 4096;

/// The deepest level of a node.
pub const MAX_LEVELS: Level = 48;

/// The least dpi.
pub const MIN_DPI: f32 = 10.0;

/// The greatest dpi.
pub const MAX_DPI: f32 = 4000.0;

/// The greatest initial font size; the least is above 0.
pub const MAX_FONT_SIZE: f32 = 1000.0;

/// The greatest id.
pub const MAX_ID: f32 = 65535.0;

/// The greatest magnitude of a float in a value.
pub const MAX_MAGNITUDE: f32 = 1_000_000.0;
