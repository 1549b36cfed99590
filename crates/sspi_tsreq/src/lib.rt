//! The messages of CredSSP (MS-CSSP 2.2), TSRequest and TSCredentials, and the early user
//! authorization result that a server may send after them (MS-RDPBCGR 2.2.10.2).
//!
//! `TsRequest::from_buffer` reads exactly the grammar of `specs/Grammar.antt`: it returns the
//! request that the bytes begin with, or their first fault from the left. `encode_ts_request`
//! writes exactly the shortest encoding of what the version carries, or refuses what is too long
//! before a byte is written. `laws.rt` relates the two: what was written is read back, whatever
//! follows; no proper prefix of it is read; and it says what the two faults mean.
//! `write_ts_credentials` and `read_ts_credentials` do the same for delegated credentials
//! (`specs/CredsGrammar.antt`, `specs/Creds.antt`, `creds_laws.rt`), and `EarlyUserAuthResult` is
//! the server's four bytes.
//!
//! `TsReader` (`reader.rt`) reads the same from pieces, as a stream delivers them; `from_buffer`
//! reads a single piece. A request that is whole in the first piece is read at once (`reading.rt`);
//! otherwise `walk.rt` goes byte by byte, over the places of `place.rt`. A piece of one byte
//! updates the reader in place (`one_byte.rt`, and `next.rt` for the place). `ending.rt` gives the
//! result when a content ends. `specs/Feeding.antt` says which bytes a reader represents.
//!
//! `request.rt` has the message and its calls. `reading.rt` and `writing.rt` implement them, with
//! one function for each field and for what follows it. What is in one piece is read without
//! allocating; `parts.rt` copies what was found whole. `specs/Reading.antt` has the same chain on
//! lists, and `specs/Spelling.antt` the encoding.
#![tactic(auto)]

mod block;
pub mod creds_laws;
mod creds_reading;
mod creds_writing;
pub mod early;
pub mod early_laws;
mod ending;
pub mod laws;
mod length;
pub mod mode;
mod next;
mod one_byte;
mod outer;
mod parts;
mod place;
mod reader;
mod reading;
pub mod request;
mod sizes;
mod walk;
mod writing;

pub use creds_reading::{read_ts_credentials, read_ts_credentials_from_slice};
pub use creds_writing::write_ts_credentials;
pub use early::{EARLY_USER_AUTH_RESULT_PDU_SIZE, EarlyUserAuthResult};
pub use mode::CredSspMode;
pub use reader::TsReader;
pub use request::TsRequest;
