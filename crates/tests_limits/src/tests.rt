//! Inputs as large as the limits, and larger by one. No contract distinguishes a limit from lack of
//! memory; these tests do.

mod captures;
mod long_lines;
mod texts;
