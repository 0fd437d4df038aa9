//! The exit statuses that the programs have in common.

/// The exit status of a fault.
pub const FAULT: u8 = 1;

/// The exit status of a wrong command line or input.
pub const WRONG_USE: u8 = 2;

/// The exit status if nobody reads standard output any more, that of a program which the signal SIGPIPE ends.
pub const GONE: u8 = 141;
