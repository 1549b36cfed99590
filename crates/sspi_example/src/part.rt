//! A part of the guide: two ends, and a run that shows what they do.

use sspi_types::Error;
use std::alloc::Global;
use std::io;

pub trait Part: Drop {
    /// Runs the part, and describes the result.
    fn run(&mut self, alloc: Global) -> Result<String, Error>;
}

/// Both ends, or why one of them could not be made.
pub(crate) fn pair<A: Drop, B: Drop>(
    client: Result<A, Error>,
    server: Result<B, Error>,
) -> Result<(A, B), Error> {
    Ok((client?, server?))
}

/// Runs a part, and prints its name and the result.
pub(crate) fn say<P: Part>(
    rt: &impl Print,
    alloc: Global,
    name: &str,
    made: Result<P, Error>,
) -> io::Result<()> {
    match made.and_then(|mut part| part.run(alloc)) {
        Ok(text) => println!(rt; "{name}: {text}"),
        Err(error) => println!(rt; "{name}: {error}"),
    }
}
