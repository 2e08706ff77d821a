//! The names of the files of a ring, and which file is next.

mod names;
mod order;
