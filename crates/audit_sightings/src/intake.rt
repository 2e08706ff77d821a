//! The intake: the sightings of the captures.

mod joining;

ghost use Rattle.std.specs.Prelude.{◌≤◌, vec_len};

use crate::add_packets::{take_in_turn, take_packets};
use crate::by_interface::ByInterface;
use crate::fault::{IntakeFault, IntakeFaultKind};
use crate::parallel::{gather, take_by_threads};
use audit_model::{Policy, SightId, Sighting};
use audit_pcapng::BlockReader;
use std::alloc::Global;
use std::thread::Threads;

/// From this number of bytes on, many threads read the frames of a piece. Below it threads cost
/// more than they save.
const PARALLEL_FROM: usize = 4_194_304;

/// The most files of an intake.
pub const MAX_FILES: usize = 16;

/// The sightings of the captures that it was fed, and the policy that defines the service.
#[derive(Drop)]
pub struct Intake {
    policy: Policy,
    files: Vec<BlockReader>,
    interfaces: ByInterface,
    /// The file whose feed failed.
    failed: Option<u32>,
    alloc: Global,
    pub ghost few_files: { vec_len files ≤ 16 },
}

impl Intake {
    ghost use Rattle.std.specs.Prelude.{◌≡◌, ◌<◌, ◌+◌, ℕ, List, [], ◌∷◌, ◌++◌, length, vec_len, OnOk, OnErr, IfOk, IfErr, IfSome, IfNone, IsOkUnless, option_copied, Some, None, Err};
    ghost use Rattle.audit_sightings.specs.ByInterface.{Grows, IsNumbered, count_of};
    ghost use Rattle.audit_sightings.specs.Intake.{taken, sighting_at, interface_at, AreNumbered};
    ghost use Rattle.audit_sightings.specs.Amid.{Amid};
    ghost use Rattle.audit_sightings.specs.Bounds.{IsBounded};
    ghost use Rattle.audit_sightings.specs.Newest.{IsNewest};
    ghost use Rattle.audit_sightings.specs.Files.{Fed, not_fed, StandsFor, GoesOn, Refuses, FilesEnd};

    /// An intake of no files. Allocates no memory.
    pub fn new(alloc: Global, policy: Policy) -> Intake
        ensures empty { taken result ≡ record { policy = policy; files = 0; interfaces = [] } }
        ensures stands { StandsFor result [] }
    {
        Intake {
            policy,
            files: Vec::new(alloc),
            interfaces: ByInterface::new(alloc),
            failed: None,
            alloc,
        }
    }

    /// Adds a file, and returns its number, from 0 in order. It fails by V6 after a fault of a
    /// feed, by V4 after 16 files, and by V5; nothing changes then.
    pub fn add_file(&mut self) -> Result<u32, IntakeFault>
        ensures number { IfOk result (λ file. file ≡ vec_len self.old.files) }
        ensures ok { OnOk result (taken self.new ≡ record (taken self.old) { files = vec_len self.old.files + 1 }) }
        ensures stands { (files : List Fed) → StandsFor self.old files → OnOk result (StandsFor self.new (files ++ not_fed ∷ [])) }
        ensures err { OnErr result (taken self.new ≡ taken self.old) }
        ensures kept { (files : List Fed) → StandsFor self.old files → OnErr result (StandsFor self.new files) }
        ensures failed { self.new.failed ≡ self.old.failed }
        ensures room { self.old.failed ≡ None → vec_len self.old.files < MAX_FILES →
            IsOkUnless result (record { kind = IntakeFaultKind.Memory; file = vec_len self.old.files }) }
        ensures full { self.old.failed ≡ None → vec_len self.old.files ≡ MAX_FILES →
            result ≡ Err (record { kind = IntakeFaultKind.Limit; file = MAX_FILES }) }
        ensures again { (failed : ℕ) → self.old.failed ≡ Some failed →
            result ≡ Err (record { kind = IntakeFaultKind.Failed; file = failed }) }
    {
        if let Some(file) = self.failed {
            return Err(IntakeFault {
                kind: IntakeFaultKind::Failed,
                file,
            });
        }
        let count = self.files.len();
        if count >= MAX_FILES {
            return Err(IntakeFault {
                kind: IntakeFaultKind::Limit,
                file: MAX_FILES as u32,
            });
        }
        let file = count as u32;
        match self.files.push(BlockReader::new(self.alloc)) {
            Ok(()) => Ok(file),
            Err(_) => Err(IntakeFault {
                kind: IntakeFaultKind::Memory,
                file,
            }),
        }
    }

    /// Feeds the next bytes of a file, split anywhere: it adds its packets in order, up to the
    /// first fault of a block or a frame. What was added before a fault stays, and every later call
    /// then fails by V6 with this file's number. While it runs it holds about 100 bytes for each
    /// packet of the piece.
    pub fn feed(&mut self, file: u32, piece: &[u8]) -> Result<(), IntakeFault>
        requires { file < vec_len self.old.files }
        ensures ok { (files : List Fed) → StandsFor self.old files → OnOk result (GoesOn self.new files file piece.now) }
        ensures err { (files : List Fed) → StandsFor self.old files → IfErr result (λ fault.
            (fault.file ≡ file) × Refuses self.new.policy self.new.interfaces files file piece.now fault.kind) }
        ensures failed { self.old.failed ≡ None → OnErr result (self.new.failed ≡ Some file) }
        ensures again { (failed : ℕ) → self.old.failed ≡ Some failed →
            (result ≡ Err (record { kind = IntakeFaultKind.Failed; file = failed })) × (self.new ≡ self.old) }
        ensures grows { Grows self.old.interfaces self.new.interfaces }
        ensures policy { self.new.policy ≡ self.old.policy }
        ensures files { vec_len self.new.files ≡ vec_len self.old.files }
    {
        if let Some(failed) = self.failed {
            return Err(IntakeFault {
                kind: IntakeFaultKind::Failed,
                file: failed,
            });
        }
        match self.take_piece(file, piece) {
            Ok(()) => Ok(()),
            Err(kind) => Err(self.fail(file, kind)),
        }
    }

    fn take_piece(&mut self, file: u32, piece: &[u8]) -> Result<(), IntakeFaultKind>
        requires { file < vec_len self.old.files }
        ensures ok { (files : List Fed) → StandsFor self.old files → OnOk result (GoesOn self.new files file piece.now) }
        ensures err { (files : List Fed) → StandsFor self.old files →
            IfErr result (Refuses self.old.policy self.new.interfaces files file piece.now) }
        ensures grows { Grows self.old.interfaces self.new.interfaces }
        ensures policy { self.new.policy ≡ self.old.policy }
        ensures files { vec_len self.new.files ≡ vec_len self.old.files }
    {
        match self.start_piece(file, piece) {
            Ok(rest) => self.take_rest(file, rest),
            Err(fault) => Err(fault),
        }
    }

    /// Adds the packet of the block that was held, once the piece makes it whole, and returns the
    /// bytes after it.
    fn start_piece<'a>(&mut self, file: u32, piece: &'a [u8]) -> Result<&'a [u8], IntakeFaultKind>
        requires { file < vec_len self.old.files }
        ensures ok { (files : List Fed) → StandsFor self.old files → IfOk result (λ rest. Amid self.new files file piece.now rest.now) }
        ensures err { (files : List Fed) → StandsFor self.old files →
            IfErr result (Refuses self.old.policy self.new.interfaces files file piece.now) }
        ensures grows { Grows self.old.interfaces self.new.interfaces }
        ensures policy { self.new.policy ≡ self.old.policy }
        ensures files { vec_len self.new.files ≡ vec_len self.old.files }
    {
        let mut held = Vec::new(self.alloc);
        let reader = &mut self.files[file as usize];
        let started = reader.start(piece, &mut held);
        match take_packets(self.alloc, &self.policy, &mut self.interfaces, file, &held) {
            Err(fault) => Err(fault),
            Ok(()) => match started {
                Ok(rest) => Ok(rest),
                Err(fault) => Err(IntakeFaultKind::Capture(fault)),
            },
        }
    }

    /// As `feed`, except that the frames of a piece of 4 MiB or more are read by as many threads as
    /// there are processors, about a thousand packets by each at a time, and then added in order.
    /// It saves at most a sixth of the time, and nothing for pieces that were just read from a file
    /// (docs/DECISIONS.md).
    pub fn feed_parallel<R: Threads + Sync>(
        &mut self,
        rt: &R,
        file: u32,
        piece: &[u8],
    ) -> Result<(), IntakeFault>
        requires { file < vec_len self.old.files }
        ensures ok { (files : List Fed) → StandsFor self.old files → OnOk result (GoesOn self.new files file piece.now) }
        ensures err { (files : List Fed) → StandsFor self.old files → IfErr result (λ fault.
            (fault.file ≡ file) × Refuses self.new.policy self.new.interfaces files file piece.now fault.kind) }
        ensures failed { self.old.failed ≡ None → OnErr result (self.new.failed ≡ Some file) }
        ensures again { (failed : ℕ) → self.old.failed ≡ Some failed →
            (result ≡ Err (record { kind = IntakeFaultKind.Failed; file = failed })) × (self.new ≡ self.old) }
        ensures grows { Grows self.old.interfaces self.new.interfaces }
        ensures policy { self.new.policy ≡ self.old.policy }
        ensures files { vec_len self.new.files ≡ vec_len self.old.files }
    {
        if piece.len() < PARALLEL_FROM {
            return self.feed(file, piece);
        }
        if let Some(failed) = self.failed {
            return Err(IntakeFault {
                kind: IntakeFaultKind::Failed,
                file: failed,
            });
        }
        match self.take_large_piece(rt, file, piece) {
            Ok(()) => Ok(()),
            Err(kind) => Err(self.fail(file, kind)),
        }
    }

    /// Makes every later call fail because of this file.
    fn fail(&mut self, file: u32, kind: IntakeFaultKind) -> IntakeFault
        ensures fault { result ≡ record { kind = kind; file = file } }
        ensures failed { self.new ≡ record self.old { failed = Some file } }
    {
        self.failed = Some(file);
        IntakeFault { kind, file }
    }

    fn take_large_piece<R: Threads + Sync>(
        &mut self,
        rt: &R,
        file: u32,
        piece: &[u8],
    ) -> Result<(), IntakeFaultKind>
        requires { file < vec_len self.old.files }
        ensures ok { (files : List Fed) → StandsFor self.old files → OnOk result (GoesOn self.new files file piece.now) }
        ensures err { (files : List Fed) → StandsFor self.old files →
            IfErr result (Refuses self.old.policy self.new.interfaces files file piece.now) }
        ensures grows { Grows self.old.interfaces self.new.interfaces }
        ensures policy { self.new.policy ≡ self.old.policy }
        ensures files { vec_len self.new.files ≡ vec_len self.old.files }
    {
        match self.start_piece(file, piece) {
            Ok(rest) => self.take_large_rest(rt, file, rest),
            Err(fault) => Err(fault),
        }
    }

    /// Adds the packets of the rest of a piece, whose frames are read by many threads.
    fn take_large_rest<R: Threads + Sync>(
        &mut self,
        rt: &R,
        file: u32,
        rest: &[u8],
    ) -> Result<(), IntakeFaultKind>
        requires { file < vec_len self.old.files }
        ensures ok { (files : List Fed) (piece : List ℕ) → Amid self.old files file piece rest.now →
            OnOk result (GoesOn self.new files file piece) }
        ensures err { (files : List Fed) (piece : List ℕ) → Amid self.old files file piece rest.now →
            IfErr result (Refuses self.old.policy self.new.interfaces files file piece) }
        ensures grows { Grows self.old.interfaces self.new.interfaces }
        ensures policy { self.new.policy ≡ self.old.policy }
        ensures files { vec_len self.new.files ≡ vec_len self.old.files }
    {
        let mut packets = Vec::new(self.alloc);
        let reader = &mut self.files[file as usize];
        let gathered = gather(reader, rest, &mut packets);
        take_by_threads(
            rt,
            self.alloc,
            &self.policy,
            &mut self.interfaces,
            file,
            &packets,
        )?;
        match gathered {
            Ok(()) => Ok(()),
            Err(fault) => Err(IntakeFaultKind::Capture(fault)),
        }
    }

    /// Adds the packets of the rest of a piece.
    fn take_rest(&mut self, file: u32, rest: &[u8]) -> Result<(), IntakeFaultKind>
        requires { file < vec_len self.old.files }
        ensures ok { (files : List Fed) (piece : List ℕ) → Amid self.old files file piece rest.now →
            OnOk result (GoesOn self.new files file piece) }
        ensures err { (files : List Fed) (piece : List ℕ) → Amid self.old files file piece rest.now →
            IfErr result (Refuses self.old.policy self.new.interfaces files file piece) }
        ensures grows { Grows self.old.interfaces self.new.interfaces }
        ensures policy { self.new.policy ≡ self.old.policy }
        ensures files { vec_len self.new.files ≡ vec_len self.old.files }
    {
        let mut packets = Vec::new(self.alloc);
        let reader = &mut self.files[file as usize];
        let gathered = gather(reader, rest, &mut packets);
        take_in_turn(
            self.alloc,
            &self.policy,
            &mut self.interfaces,
            file,
            &packets,
        )?;
        match gathered {
            Ok(()) => Ok(()),
            Err(fault) => Err(IntakeFaultKind::Capture(fault)),
        }
    }

    /// Checks that each file may end where it does, in the order of the files. Allocates no memory.
    pub fn finish(&self) -> Result<(), IntakeFault>
        ensures ends { (files : List Fed) → StandsFor self.now files → FilesEnd result files }
        ensures again { (failed : ℕ) → self.now.failed ≡ Some failed →
            result ≡ Err (record { kind = IntakeFaultKind.Failed; file = failed }) }
    {
        if let Some(file) = self.failed {
            return Err(IntakeFault {
                kind: IntakeFaultKind::Failed,
                file,
            });
        }
        'files: for (file, reader) in self.files.iter().enumerate() {
            if let Err(fault) = reader.finish() {
                return Err(IntakeFault {
                    kind: IntakeFaultKind::Capture(fault),
                    file: file as u32,
                });
            }
        }
        Ok(())
    }

    /// The sighting of that id. Allocates no memory.
    pub fn sighting(&self, id: SightId) -> Option<&Sighting>
        ensures { option_copied result ≡ sighting_at (taken self.now) id }
    {
        self.interfaces.sighting(id)
    }

    /// The sightings of the interface of that number, in block order; none if there is no such
    /// interface.
    pub fn interface(&self, iface: u32) -> &[Sighting]
        ensures exact { result.now ≡ interface_at (taken self.now) iface }
        ensures numbered { IsNumbered iface result.now }
    {
        self.interfaces.interface(iface)
    }

    /// The number of interface numbers: the greatest that has a sighting and those below it.
    pub fn interfaces(&self) -> u32
        ensures { result ≡ length (taken self.now).interfaces }
    {
        self.interfaces.len()
    }

    /// The number of files and the number of sightings. Allocates no memory.
    pub fn counts(&self) -> (u32, u32)
        ensures files { result.0 ≡ (taken self.now).files }
        ensures sightings { result.1 ≡ count_of (taken self.now).interfaces }
        ensures numbered { AreNumbered (taken self.now) }
        ensures bounded { IsBounded (taken self.now) }
    {
        (self.files.len() as u32, self.interfaces.count())
    }

    /// The moment from which on the newest sighting of a file may have come, in nanoseconds since
    /// 1970: the greatest of the first moments of the sightings' windows. None if the file has no
    /// sighting. Allocates no memory.
    pub fn newest(&self, file: u32) -> Option<u64>
        ensures { IsNewest (taken self.now).interfaces file result }
    {
        self.interfaces.newest(file)
    }

    /// The policy that it was created with. Allocates no memory.
    pub fn policy(&self) -> &Policy
        ensures { result.now ≡ (taken self.now).policy }
    {
        &self.policy
    }
}
