//! A number or none in four bytes.

ghost use Rattle.std.specs.Prelude.{◌≡◌, ◌<◌, Some, None};
ghost use Rattle.prep_causes.specs.Numbers.{number_in};

/// A number below 4,294,967,295, or none. An `Option<u32>` takes eight bytes, and each datagram has
/// several.
#[derive(Clone, Copy, Debug, PartialEq, Eq)]
pub struct MaybeNumber {
    /// The greatest `u32` represents none.
    number: u32,
}

impl MaybeNumber {
    /// No number.
    pub const fn none() -> Self
        ensures { number_in result ≡ None }
    {
        MaybeNumber { number: u32::MAX }
    }

    /// This number; none if it is the greatest `u32`, which is more than the records that fit in
    /// memory.
    pub fn some(number: u32) -> Self
        ensures { number < 4294967295 → number_in result ≡ Some number }
    {
        MaybeNumber { number }
    }

    /// The number of an index; none if it is too great.
    pub fn of_place(place: usize) -> Self
        ensures { place < 4294967295 → number_in result ≡ Some place }
    {
        match u32::try_from(place) {
            Ok(number) => MaybeNumber::some(number),
            Err(_) => MaybeNumber::none(),
        }
    }

    /// The number, if there is one.
    pub fn get(self) -> Option<u32>
        ensures { result ≡ number_in self }
    {
        if self.number == u32::MAX {
            None
        } else {
            Some(self.number)
        }
    }
}
