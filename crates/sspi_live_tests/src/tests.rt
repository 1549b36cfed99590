//! Ends over channels: recorded peers, pieces, pipes and failing channels.

mod connecting;
mod pieces;
mod pipes;
mod recorded;
mod serving;
mod stage;
mod words;
