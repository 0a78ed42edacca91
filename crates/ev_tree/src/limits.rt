//! The limits of the forms, and of the rules that several resources share. Definitions cite them.

/// The most bytes of a name or an address.
pub const MAX_NAME_BYTES: usize = 512;

/// The greatest port.
pub const MAX_PORT: u32 = 65_535;

/// The most digits of a string that writes a u32.
pub const MAX_U32_DIGITS: usize = 10;

/// The most digits of a duration's whole seconds.
pub const MAX_SECONDS_DIGITS: usize = 12;

/// The most digits after a duration's point.
pub const MAX_FRACTION_DIGITS: usize = 9;

/// The most whole seconds of a duration: ten thousand years, as protobuf's `Duration` has it.
pub const MAX_SECONDS: u64 = 315_576_000_000;
