//! The numbers of the record types and subtypes that are read or written (RFC 6396, sections 4 and 4.4).

pub const BGP4MP: u16 = 16;

pub const BGP4MP_ET: u16 = 17;

/// A change of state, with AS numbers of two bytes.
pub const STATE_CHANGE: u16 = 0;

/// A change of state, with AS numbers of four bytes.
pub const STATE_CHANGE_AS4: u16 = 5;

/// A message that was received, with AS numbers of two bytes.
pub const MESSAGE: u16 = 1;

/// A message that was received, with AS numbers of four bytes.
pub const MESSAGE_AS4: u16 = 4;

/// A message that the recording router sent, with AS numbers of two bytes.
pub const MESSAGE_LOCAL: u16 = 6;

/// A message that the recording router sent, with AS numbers of four bytes.
pub const MESSAGE_AS4_LOCAL: u16 = 7;

/// The address family of IPv4.
pub const IPV4: u16 = 1;
