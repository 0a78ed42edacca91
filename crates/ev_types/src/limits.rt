/// The greatest length of a name, in bytes.
pub const MAX_NAME_LENGTH: usize = 512;

/// The most digits of a whole number in a text.
pub const MAX_DECIMAL_DIGITS: usize = 19;

/// An assignment has fewer rows than this.
pub const ROW_LIMIT: usize = 4_294_967_295;

/// The greatest sum of the weights of a target's clusters.
pub const MAX_WEIGHT_SUM: u64 = 4_294_967_295;

/// The greatest number of workers.
pub const MAX_WORKERS: u32 = 16;

/// The number of a script's last line is below this.
pub const LINE_LIMIT: u32 = 4_294_967_295;

/// The responses of a script have fewer resources together than this.
pub const ITEM_LIMIT: u32 = 4_294_967_295;
