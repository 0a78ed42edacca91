/// The greatest number of a worker that a line may name. A script has at most 16 workers.
pub const MAX_WORKER: u64 = 4_294_967_295;

/// The greatest number of a connection, and the greatest pick.
pub const MAX_NUMBER: u64 = 18_446_744_073_709_551_615;

/// The greatest length of a path, in bytes.
pub const MAX_PATH_LENGTH: usize = 8192;
