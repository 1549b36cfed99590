//! The exit statuses of the program.

/// What the words ask for was done; in an exchange the server has the credentials.
pub const DONE: u8 = 0;

/// The exchange was refused; for `gate` the relay had to stop, for `early` the client did not hear
/// success, for `desk` a session has no credentials.
pub const REFUSED: u8 = 1;

/// The text of the source is not a scenario, cannot be explained, or is too long.
pub const NO_SCENARIO: u8 = 2;

/// The text could not be read.
pub const READ_FAULT: u8 = 3;

/// The output could not be written. It hides the status that was due.
pub const WRITE_FAULT: u8 = 4;

/// Memory ran out.
pub const NO_MEMORY: u8 = 5;

/// The words are not a command.
pub const OTHER_WORDS: u8 = 6;
