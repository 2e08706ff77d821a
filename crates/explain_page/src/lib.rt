//! The evidence page: a verdict, its inputs, and how to repeat it, as one HTML file without
//! scripts, fonts or external links. The same facts result in the same bytes.
#![tactic(auto)]

mod axis;
mod commands;
mod facts;
mod file_reading;
mod hashed;
mod markup;
mod page;
mod picture;
mod style;
mod tables;
mod words;

pub use facts::{CaptureRow, ClientRow, CommentRow, Facts, FileRow, Role, UserRow};
pub use file_reading::FileReading;
pub use hashed::{Digests, Hashing};
pub use page::page_of;
pub use picture::{Bar, BarKind, Mark, Picture};
