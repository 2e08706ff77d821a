//! The sessions of a client, each with its certificate and the expected output of the program.

mod channels;
mod credentials;
mod errors;
mod finding;
mod lanes;
mod no_memory;
mod permissions;
mod relays;
mod rows;
mod skews;
