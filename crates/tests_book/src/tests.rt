//! Books of two lanes and two seats, and one that four threads fill.

mod books;
mod closing;
mod lanes;
mod memory;
mod texts;
mod threads;
