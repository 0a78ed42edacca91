/// The most bytes of a line, without its line feed.
pub const MAX_LINE_BYTES: usize = 4_194_304;

/// The most lines of an input.
pub const MAX_LINES: u32 = 200_000;

/// The most bytes of an input.
pub const MAX_INPUT_BYTES: usize = 67_108_864;

/// The most bytes that one read of lines asks for.
pub const MAX_PIECE_BYTES: usize = 65_536;
