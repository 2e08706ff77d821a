//! The progress of `ready`: the temporary folder, the commands that repeat the steps manually, and
//! the printed report.

use super::auditing::audit_line;
use super::copying::copy;
use crate::folder::{last_part, path_in};
use crate::folders::Folders;
use crate::maker::Maker;
use crate::source::Source;
use crate::stop::Stop;
use prep_steps::{push_word, push_words};
use std::alloc::{AllocError, Global};

/// A capture between two steps.
#[derive(Drop)]
pub struct Staged {
    /// The file that has its bytes.
    pub file: String,
    /// The file that has its bytes if the steps are repeated manually.
    pub by_hand: String,
    /// Whether `ready` made it.
    is_made: bool,
}

impl Staged {
    /// A capture of the arguments.
    pub fn original(alloc: Global, name: &str) -> Result<Self, AllocError> {
        Ok(Staged {
            file: String::from_str(alloc, name)?,
            by_hand: operand_of(alloc, name)?,
            is_made: false,
        })
    }
}

/// A file's name as an argument that no program parses as an option.
fn operand_of(alloc: Global, name: &str) -> Result<String, AllocError> {
    let here = if name.starts_with('-') { "./" } else { "" };
    format!(in alloc; "{here}{name}")
}

/// The files of captures.
pub fn files_of<'s>(alloc: Global, captures: &'s [Staged]) -> Result<Vec<&'s str>, AllocError> {
    let mut files = Vec::new(alloc);
    for one in captures {
        files.push(one.file.as_str())?;
    }
    Ok(files)
}

/// The folders in which steps write captures.
const FOLDERS: [&str; 3] = ["joined", "whole", "outer"];

/// The progress so far.
#[derive(Drop)]
pub struct Work {
    alloc: Global,
    /// The folder that is made.
    folder: String,
    /// The temporary folder.
    part: String,
    /// The folder for repeating the steps manually.
    hand: String,
    steps: Vec<u8>,
    report: Vec<u8>,
}

impl Work {
    /// Nothing was done. A `/` at the end of the folder's name is ignored.
    pub fn new(alloc: Global, name: &str) -> Result<Self, AllocError> {
        let folder = match name.trim_end_matches('/') {
            "" => name,
            folder => folder,
        };
        let folder = operand_of(alloc, folder)?;
        let hand = format!(in alloc; "{folder}.by-hand")?;
        let steps = first_steps(alloc, hand.as_str())?;
        Ok(Work {
            alloc,
            part: format!(in alloc; "{folder}.part")?,
            folder,
            hand,
            steps,
            report: Vec::from_slice(alloc, b"turnprep-ready 1\n")?,
        })
    }

    /// The folder that is made.
    pub fn folder(&self) -> &str {
        self.folder.as_str()
    }

    /// The temporary folder.
    pub fn part(&self) -> &str {
        self.part.as_str()
    }

    /// The printed report.
    pub fn report(&self) -> &[u8] {
        self.report.as_slice()
    }

    /// The commands for repeating the steps manually.
    pub fn steps(&self) -> &[u8] {
        self.steps.as_slice()
    }

    /// A file in the temporary folder.
    pub fn file(&self, name: &str) -> Result<String, AllocError> {
        path_in(self.alloc, self.part.as_str(), name)
    }

    /// The same file if the steps are repeated manually.
    pub fn by_hand(&self, name: &str) -> Result<String, AllocError> {
        path_in(self.alloc, self.hand.as_str(), name)
    }

    /// Makes a folder for the captures of a step.
    pub fn make_folder<F: Folders>(&mut self, folders: &mut F, name: &str) -> Result<(), Stop> {
        folders.make_folder(self.file(name)?.as_str())?;
        self.folder_by_hand(name)
    }

    /// Records that a folder is made if the steps are repeated manually.
    pub fn folder_by_hand(&mut self, name: &str) -> Result<(), Stop> {
        self.begin("mkdir")?;
        self.word_by_hand(name)?;
        self.end_line()
    }

    /// A capture of this name in the folder of a step.
    pub fn staged(&self, folder: &str, name: &str) -> Result<Staged, AllocError> {
        let inside = path_in(self.alloc, folder, name)?;
        Ok(Staged {
            file: self.file(inside.as_str())?,
            by_hand: self.by_hand(inside.as_str())?,
            is_made: true,
        })
    }

    /// Captures with the same names in the folder of a step.
    pub fn staged_in(&self, folder: &str, captures: &[Staged]) -> Result<Vec<Staged>, Stop> {
        let mut all = Vec::new(self.alloc);
        for one in captures {
            all.push(self.staged(folder, last_part(one.file.as_str())?)?)?;
        }
        Ok(all)
    }

    /// Captures with the same names that were written to the temporary folder.
    pub fn ended_in(&self, captures: &[Staged]) -> Result<Vec<Staged>, Stop> {
        let mut all = Vec::new(self.alloc);
        for one in captures {
            all.push(self.ended(last_part(one.file.as_str())?)?)?;
        }
        Ok(all)
    }

    /// A capture that was written to the temporary folder, and manually to a folder `ready` in its
    /// own folder.
    fn ended(&self, name: &str) -> Result<Staged, AllocError> {
        let inside = path_in(self.alloc, "ready", name)?;
        Ok(Staged {
            file: self.file(name)?,
            by_hand: self.by_hand(inside.as_str())?,
            is_made: true,
        })
    }

    /// Begins a recorded command.
    pub fn begin(&mut self, command: &str) -> Result<(), Stop> {
        self.steps.extend_from_slice(command.as_bytes())?;
        Ok(())
    }

    /// Begins a recorded command whose output goes to a file.
    pub fn begin_to(&mut self, file: &str, command: &str) -> Result<(), Stop> {
        let file = self.by_hand(file)?;
        self.steps.extend_from_slice(b"> ")?;
        push_word(&mut self.steps, file.as_bytes())?;
        self.steps.push(b' ')?;
        self.begin(command)
    }

    /// Adds an argument to the command.
    pub fn word(&mut self, word: &str) -> Result<(), Stop> {
        push_words(&mut self.steps, &[word])?;
        Ok(())
    }

    /// Adds an input file as an argument of the command.
    pub fn operand(&mut self, name: &str) -> Result<(), Stop> {
        let operand = operand_of(self.alloc, name)?;
        self.word(operand.as_str())
    }

    /// Adds arguments to the command.
    pub fn words(&mut self, words: &[&str]) -> Result<(), Stop> {
        push_words(&mut self.steps, words)?;
        Ok(())
    }

    /// Adds a file of the manual steps as an argument of the command.
    pub fn word_by_hand(&mut self, name: &str) -> Result<(), Stop> {
        let file = self.by_hand(name)?;
        self.word(file.as_str())
    }

    /// Adds the files of captures as arguments.
    pub fn captures(&mut self, captures: &[Staged]) -> Result<(), Stop> {
        for one in captures {
            self.word(one.by_hand.as_str())?;
        }
        Ok(())
    }

    /// Ends the command.
    pub fn end_line(&mut self) -> Result<(), Stop> {
        self.steps.push(b'\n')?;
        Ok(())
    }

    /// Prints how many files were joined to how many captures.
    pub fn say_joined(&mut self, files: usize, captures: usize) -> Result<(), Stop> {
        let line = format!(in self.alloc; "joined {files} files to {captures} captures")?;
        self.say(line.as_bytes())
    }

    /// Adds a line to the report.
    pub fn say(&mut self, line: &[u8]) -> Result<(), Stop> {
        self.report.extend_from_slice(line)?;
        self.report.push(b'\n')?;
        Ok(())
    }

    /// Moves a capture to the temporary folder, or copies an original one.
    pub fn keep<S: Source, M: Maker, F: Folders>(
        &mut self,
        alloc: Global,
        capture: Staged,
        source: &mut S,
        maker: &mut M,
        folders: &mut F,
    ) -> Result<Staged, Stop> {
        let Staged {
            file: from,
            by_hand,
            is_made,
        } = capture;
        let file = self.file(last_part(from.as_str())?)?;
        if is_made {
            folders.rename(from.as_str(), file.as_str())?;
        } else {
            copy(alloc, from.as_str(), file.as_str(), u64::MAX, source, maker)?;
        }
        Ok(Staged {
            file,
            by_hand,
            is_made: true,
        })
    }

    /// Removes the folders of the steps, which are no longer needed.
    pub fn remove_folders<F: Folders>(&self, folders: &mut F) {
        for name in FOLDERS {
            if let Ok(folder) = self.file(name) {
                folders.remove_folder(folder.as_str());
            }
        }
    }

    /// Adds the command that audits the folder to the manual steps and to the report.
    pub fn end(&mut self, captures: &[Staged], has_users: bool) -> Result<(), Stop> {
        let own = self.own_files(captures)?;
        let line = audit_line(self.alloc, self.folder.as_str(), &own, has_users)?;
        self.say(&line)?;
        let by_hand = by_hand_of(self.alloc, captures)?;
        let line = audit_line(self.alloc, self.hand.as_str(), &by_hand, has_users)?;
        self.steps.extend_from_slice(&line)?;
        self.end_line()
    }

    /// The files of captures in the folder that is made.
    fn own_files(&self, captures: &[Staged]) -> Result<Vec<String>, Stop> {
        let mut files = Vec::new(self.alloc);
        for one in captures {
            let part = last_part(one.file.as_str())?;
            files.push(path_in(self.alloc, self.folder.as_str(), part)?)?;
        }
        Ok(files)
    }
}

/// The first of the manual commands.
fn first_steps(alloc: Global, hand: &str) -> Result<Vec<u8>, AllocError> {
    let mut steps = Vec::from_slice(alloc, b"# What turnprep ready did, by hand.\nmkdir")?;
    push_words(&mut steps, &[hand])?;
    steps.push(b'\n')?;
    Ok(steps)
}

/// The files of captures if the steps are repeated manually.
fn by_hand_of(alloc: Global, captures: &[Staged]) -> Result<Vec<String>, AllocError> {
    let mut files = Vec::new(alloc);
    for one in captures {
        files.push(String::from_str(alloc, one.by_hand.as_str())?)?;
    }
    Ok(files)
}
