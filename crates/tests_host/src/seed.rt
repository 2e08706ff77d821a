//! The seed of tests.

use std::alloc::AllocError;
use std::hash::RandomState;
use std::io;
use std::random::RandomSource;

/// A source whose bytes are all the same.
#[derive(Clone, Copy, Debug)]
struct Fives;

impl RandomSource for Fives {
    fn fill_bytes(&self, bytes: &mut [u8]) -> io::Result<()> {
        bytes.fill(5);
        Ok(())
    }
}

/// A seed that is the same in each run, so that a test that fails does so again. The source doesn't
/// fail.
pub(crate) fn fixed_seed() -> Result<RandomState, AllocError> {
    RandomState::new(&Fives).map_err(|_| AllocError)
}
