/// The greatest number of a connection.
pub const MAX_NUMBER: u64 = 18_446_744_073_709_551_615;

/// The greatest port.
pub const MAX_PORT_NUMBER: u64 = 65_535;
