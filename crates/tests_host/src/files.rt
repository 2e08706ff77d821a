//! Files in memory, with contracts about the bytes that they hold and that they returned.

ghost use Rattle.std.specs.Prelude.{◌≡◌, ◌≤◌, ◌++◌, IfOk, length, option_map, take};
ghost use Rattle.tests_host.specs.Held.{held_among};

use audit_files::{ReadFailed, Source};
use audit_program::Growing;
use std::alloc::Global;

/// The files of a run.
#[derive(Drop)]
pub struct Files<'a> {
    pub policy: &'a [u8],
    pub credentials: &'a [u8],
    pub certificate: &'a [u8],
    pub capture: &'a [u8],
    /// Another capture.
    pub second: &'a [u8],
    /// How many bytes of a file the first read returns.
    pub first: usize,
    /// How many bytes each later read returns.
    pub step: usize,
    /// The file whose second piece can't be read.
    pub fails: Option<&'a str>,
    /// How many bytes of each growing capture each of the first turns returns; later turns return
    /// all.
    pub turns: &'a [usize],
    /// The number of turns of each of the two captures.
    asked: usize,
    asked_second: usize,
    /// The bytes that the turns returned of each.
    gave: Vec<u8>,
    gave_second: Vec<u8>,
    /// The number of pauses.
    pub pauses: u32,
}

impl<'a> Files<'a> {
    /// No credentials and no second capture. One read returns the whole file, and doesn't fail.
    pub fn new(
        alloc: Global,
        policy: &'a str,
        certificate: &'a str,
        capture: &'a [u8],
    ) -> Files<'a> {
        Files {
            policy: policy.as_bytes(),
            credentials: &[],
            certificate: certificate.as_bytes(),
            capture,
            second: &[],
            first: 65_536,
            step: 65_536,
            fails: None,
            turns: &[],
            asked: 0,
            asked_second: 0,
            gave: Vec::new(alloc),
            gave_second: Vec::new(alloc),
            pauses: 0,
        }
    }

    /// The bytes of the file with that name.
    fn bytes_of(&self, name: &str) -> Option<&'a [u8]>
        ensures { option_map (λ bytes. bytes.now) result
            ≡ held_among self.now.policy.now self.now.credentials.now self.now.certificate.now self.now.capture.now self.now.second.now name.now }
    {
        if name == "policy" {
            return Some(self.policy);
        }
        if name == "creds" {
            return Some(self.credentials);
        }
        if name == "cert" {
            return Some(self.certificate);
        }
        if name == "capture" {
            return Some(self.capture);
        }
        if name == "second" {
            return Some(self.second);
        }
        None
    }

    /// The most bytes that the turn with this number returns, for this room.
    fn most_of(&self, turn: usize, room: usize) -> usize {
        self.turns.get(turn).copied().unwrap_or(room)
    }
}

/// Returns the next bytes of a capture, after those that it returned before.
fn give(file: &[u8], gave: &mut Vec<u8>, most: usize, into: &mut [u8]) -> Result<usize, ReadFailed>
    ensures within { IfOk result (λ n. n ≤ length into.old) }
    ensures bytes { IfOk result (λ n. gave.new.items ≡ gave.old.items ++ take n into.new) }
{
    let at = gave.len().min(file.len());
    let count = most.min(into.len()).min(file.len() - at);
    into[..count].copy_from_slice(&file[at..at + count]);
    match gave.extend_from_slice(&into[..count]) {
        Ok(()) => Ok(count),
        Err(_) => Err(ReadFailed),
    }
}

impl Source for Files<'_> {
    ghost use Rattle.tests_host.specs.Held.{held_among};

    ghost holds = { λ files name. held_among files.policy.now files.credentials.now files.certificate.now files.capture.now files.second.now name };

    fn piece(&mut self, name: &str, at: u64, into: &mut [u8]) -> Result<usize, ReadFailed> {
        if self.fails == Some(name) && at > 0 {
            return Err(ReadFailed);
        }
        let Some(file) = self.bytes_of(name) else {
            return Err(ReadFailed);
        };
        if at >= file.len() as u64 {
            return Ok(0);
        }
        let most = if at == 0 { self.first } else { self.step };
        let at = at as usize;
        let count = most.max(1).min(into.len()).min(file.len() - at);
        into[..count].copy_from_slice(&file[at..at + count]);
        Ok(count)
    }

    fn beside(&self, alloc: Global) -> Self {
        Files {
            policy: self.policy,
            credentials: self.credentials,
            certificate: self.certificate,
            capture: self.capture,
            second: self.second,
            first: self.first,
            step: self.step,
            fails: self.fails,
            turns: self.turns,
            asked: 0,
            asked_second: 0,
            gave: Vec::new(alloc),
            gave_second: Vec::new(alloc),
            pauses: 0,
        }
    }
}

impl Growing for Files<'_> {
    ghost use Rattle.std.specs.Prelude.{None};
    ghost use Rattle.tests_host.specs.Held.{gave_of};

    ghost bytes_read = { λ files capture. gave_of files.gave.items files.gave_second.items capture };

    // The tests check which bytes were returned; how often, they see by the verdict.
    ghost reads = { λ _ _. None };

    fn start(&mut self) {
        self.asked = 0;
        self.asked_second = 0;
        self.gave.clear();
        self.gave_second.clear();
    }

    fn more(&mut self, capture: u32, name: &str, into: &mut [u8]) -> Result<usize, ReadFailed> {
        let file = match name {
            "capture" => self.capture,
            "second" => self.second,
            _ => return Err(ReadFailed),
        };
        if capture == 0 {
            let turn = self.asked;
            let most = self.most_of(turn, into.len());
            self.asked = turn.saturating_add(1);
            return give(file, &mut self.gave, most, into);
        }
        if capture == 1 {
            let turn = self.asked_second;
            let most = self.most_of(turn, into.len());
            self.asked_second = turn.saturating_add(1);
            return give(file, &mut self.gave_second, most, into);
        }
        Err(ReadFailed)
    }

    fn pause(&mut self) {
        self.pauses = self.pauses.saturating_add(1);
    }
}
