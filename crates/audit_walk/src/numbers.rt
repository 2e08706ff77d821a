//! The numbers of arrivals and responses, each from 0 in the order in which they were noted.

ghost use Rattle.std.specs.Prelude.{◌≡◌};

/// The number of a datagram that arrives.
#[derive(Clone, Copy, Debug, PartialEq, Eq, PartialOrd, Ord)]
pub struct ArrivalNumber(u32);

/// The number of a success or error response.
#[derive(Clone, Copy, Debug, PartialEq, Eq, PartialOrd, Ord)]
pub struct AnswerNumber(u32);

impl ArrivalNumber {
    pub fn new(number: u32) -> ArrivalNumber
        ensures { result.0 ≡ number }
    {
        ArrivalNumber(number)
    }

    /// Its place among the arrivals.
    pub fn index(self) -> usize
        ensures { result ≡ self.0 }
    {
        self.0 as usize
    }

    /// The number alone.
    pub fn value(self) -> u32
        ensures { result ≡ self.0 }
    {
        self.0
    }
}

impl AnswerNumber {
    pub fn new(number: u32) -> AnswerNumber
        ensures { result.0 ≡ number }
    {
        AnswerNumber(number)
    }

    /// Its place among the responses.
    pub fn index(self) -> usize
        ensures { result ≡ self.0 }
    {
        self.0 as usize
    }

    /// The number alone.
    pub fn value(self) -> u32
        ensures { result ≡ self.0 }
    {
        self.0
    }
}
