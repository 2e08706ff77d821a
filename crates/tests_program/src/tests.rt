//! Arguments in, status and both streams out, with files in memory.

mod cutting;
mod feeding;
mod finding;
mod growing;
mod lanes;
mod reading;
mod refusing;
mod rows;
mod words;
