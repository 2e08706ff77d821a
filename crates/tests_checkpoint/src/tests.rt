//! The texts of checkpoints.

mod texts;
