//! A file of a ring, as its name says.

ghost use Rattle.std.specs.Prelude.{◌<◌, ◌^◌};

/// A file of a ring. The derived order is by second, and then by number: of the files 99,999 and 0
/// of one second, 0 is the lesser.
#[derive(Clone, Copy, Debug, PartialEq, Eq, PartialOrd, Ord)]
pub struct RingFile {
    /// The second in which dumpcap opened it: the digits YYYYMMDDHHMMSS. They are of local time, so
    /// dumpcap has to run with TZ=UTC.
    pub opened: u64,
    /// 1 for the first file of a run of dumpcap, and then one more for each; 0 follows 99,999.
    pub number: u32,
    pub ghost dated: { opened < 10 ^ 14 },
    pub ghost counted: { number < 10 ^ 5 },
}
