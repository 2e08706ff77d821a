//! Folders that are made for a command's files.

use crate::maker::MakeFault;
use host::Failure;

/// Makes, renames and removes folders. It has no contract about their contents.
pub trait Folders {
    /// Refuses the name of an existing file or folder.
    fn check_new(&mut self, name: &str) -> Result<(), MakeFault>;

    /// Makes an empty folder.
    fn make_folder(&mut self, name: &str) -> Result<(), MakeFault>;

    /// Renames a file or a folder to a name that is free.
    fn rename(&mut self, from: &str, to: &str) -> Result<(), MakeFault>;

    /// Removes a folder and its contents, as far as the system permits.
    fn remove_folder(&mut self, name: &str);

    /// The folder that couldn't be made or renamed, and why; `None` if none was recorded.
    fn failure(&self) -> Option<&Failure>;
}
