//! Which file of a ring comes after the current one.

ghost use Rattle.std.specs.Prelude.{◌≡◌, ◌↔◌, ◌+◌, ◌*◌, ◌%◌, ◌≤◌, ◌⊎◌, [], All, Contains, IfSome, IfNone, IsNone, IsTrue};
ghost use Rattle.watch_ring.specs.declared.ring_file.RingFile.{RingFile};
ghost use Rattle.watch_ring.specs.Order.{turn, place, rank, IsBefore, IsAfter, IsEarliestAfter, HasNextNumber, IsNext};

use crate::ring_file::RingFile;

/// How many numbers files have: 0 follows 99,999.
const NUMBERS: u32 = 100_000;

/// What follows the current file of a ring.
#[derive(Clone, Copy, Debug, PartialEq, Eq)]
pub enum Next {
    /// No file of the ring is after it.
    Wait,
    /// The earliest file after it has the next number.
    File(RingFile),
    /// The earliest file after it has another number: files between them were deleted, or dumpcap
    /// was restarted.
    Gap(RingFile),
}

/// By how many numbers a file is after the current one, plus half of all numbers: so half of the
/// numbers are before the current one.
fn turn_of(current: &RingFile, file: &RingFile) -> u32
    ensures { result ≡ turn current.now file.now }
{
    (file.number + NUMBERS / 2 + NUMBERS - current.number) % NUMBERS
}

/// The second in which a file was opened, and its turn.
fn place_of(current: &RingFile, file: &RingFile) -> (u64, u32)
    ensures { result ≡ (file.now.opened, turn current.now file.now) }
{
    (file.opened, turn_of(current, file))
}

/// Whether the file comes after the current one.
fn is_after(current: &RingFile, file: &RingFile) -> bool
    ensures { IsTrue result ↔ IsAfter current.now file.now }
{
    place_of(current, current) < place_of(current, file)
}

/// The earlier of two files, seen from the current one.
fn earlier(current: &RingFile, found: RingFile, file: RingFile) -> RingFile
    ensures no_later { (place current.now result ≤ place current.now found) × (place current.now result ≤ place current.now file) }
    ensures listed { (result ≡ found) ⊎ (result ≡ file) }
{
    if place_of(current, &found) <= place_of(current, &file) {
        found
    } else {
        file
    }
}

/// The first of the files after the current one.
fn earliest_after(files: &[RingFile], current: &RingFile) -> Option<RingFile>
    ensures found { IfSome result (IsEarliestAfter files.now current.now) }
    ensures none { IfNone result (All (λ f. ¬ IsAfter current.now f) files.now) }
{
    let mut found: Option<RingFile> = None;
    for file in files {
        if is_after(current, file) {
            found = match found {
                Some(found) => Some(earlier(current, found, *file)),
                None => Some(*file),
            };
        }
    }
    found
}

/// Whether a file is before the current one, so that `after` doesn't return it. That holds of an
/// unread file, too, if it was opened after the clock was set back.
pub fn is_past(file: &RingFile, current: &RingFile) -> bool
    ensures { IsTrue result ↔ IsBefore current.now file.now }
{
    place_of(current, file) < place_of(current, current)
}

/// The earliest file of the ring, at which a watch without a checkpoint begins.
pub fn first(files: &[RingFile]) -> Option<RingFile>
    ensures empty { IsNone result ↔ (files.now ≡ []) }
    ensures listed { IfSome result (Contains files.now) }
    ensures least { IfSome result (λ m. All (λ f. rank m ≤ rank f) files.now) }
{
    files.iter().copied().min()
}

/// The file to be read after the current one, among the files of the folder in any order.
///
/// A file is after the current one if it was opened in a later second, or in the same second with a
/// number that is up to 49,999 higher, where 0 follows 99,999. The earliest of these is the next.
///
/// Names don't show each restart of dumpcap: after the file 0, the first file of a restart, 1, has
/// the next number. A file that was opened in an earlier second, since the clock was set back, and
/// the first file of a restart in the current file's own second count as past.
///
/// It takes time linear in the number of files.
pub fn after(files: &[RingFile], current: &RingFile) -> Next
    ensures { IsNext files.now current.now result }
{
    let Some(file) = earliest_after(files, current) else {
        return Next::Wait;
    };
    if file.number == (current.number + 1) % NUMBERS {
        Next::File(file)
    } else {
        Next::Gap(file)
    }
}
