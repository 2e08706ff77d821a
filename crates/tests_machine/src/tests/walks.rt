//! Walks that begin at a cut, each with a machine that goes on from the same cut.

ghost use Rattle.std.specs.Prelude.{IfOk};
ghost use Rattle.audit_machine.specs.Machine.{IsConsistent};

use super::judging::{POLICY, action_of, users};
use super::rest::without_first;
use audit_cuts::{Came, Carried};
use audit_finder::Finder;
use audit_keys::Credentials;
use audit_machine::{Action, Machine, Refusal};
use audit_model::{Pair, read_policy};
use audit_samples::BuildFault;
use audit_sightings::Intake;
use std::alloc::{AllocError, Global};
use std::hash::RandomState;
use std::io;
use std::random::RandomSource;
use std::test::Fail;
use tests_datagrams::{Built, Step};

/// The moments up to which a walk goes in turns, in nanoseconds.
const HORIZONS: [u64; 4] = [1_015_500_000, 1_033_000_000, 3_000_000_000, 10_000_000_000];

/// The number of interfaces of two captures, each with one interface.
pub(super) const INTERFACES: usize = 65;

/// A source whose bytes are all the same.
#[derive(Clone, Copy, Debug)]
struct Fives;

impl RandomSource for Fives {
    fn fill_bytes(&self, bytes: &mut [u8]) -> io::Result<()> {
        bytes.fill(5);
        Ok(())
    }
}

fn seed() -> Result<RandomState, AllocError> {
    RandomState::new(&Fives).map_err(|_| AllocError)
}

/// What becomes of a walk's moves: whether all sightings are placed and nothing is owed at the end,
/// or why the machine refused one.
pub(super) type Outcome = Result<bool, Refusal>;

/// A session's captures from a sighting of each interface on, and the users.
#[derive(Drop)]
pub(super) struct Session {
    alloc: Global,
    intake: Intake,
    users: Credentials,
}

/// The captures of the clients, and of the peers if they have one of their own.
pub(super) fn built(
    alloc: Global,
    has_two_captures: bool,
    steps: &[Step<'_>],
) -> Result<Built, BuildFault> {
    let mut built = Built::new(alloc, has_two_captures, "")?;
    for step in steps {
        built.take(step)?;
    }
    Ok(built)
}

impl Session {
    /// A session whose captures begin at the bases of the interfaces.
    pub(super) fn new(alloc: Global, built: &Built, bases: &[u64]) -> Result<Session, Fail> {
        let mut intake = Intake::new(alloc, read_policy(alloc, POLICY)?);
        let file = intake.add_file()?;
        intake.feed(
            file,
            &without_first(alloc, built.first(), bases.first().copied())?,
        )?;
        if let Some(second) = built.second() {
            let file = intake.add_file()?;
            intake.feed(file, &without_first(alloc, second, bases.last().copied())?)?;
        }
        Ok(Session {
            alloc,
            intake,
            users: users(alloc)?,
        })
    }

    /// The moves of a walk, turn by turn.
    fn moves(&self, finder: &mut Finder) -> Result<Vec<Action>, AllocError> {
        let mut moves = Vec::new(self.alloc);
        for horizon in HORIZONS {
            let extension = finder.extend(&self.intake, &self.users, horizon)?;
            for (lane, event) in extension.events.as_slice() {
                if let Some((client, listen)) = finder.lanes().get(*lane as usize).copied() {
                    moves.push(action_of(Pair { client, listen }, event))?;
                }
            }
        }
        Ok(moves)
    }

    /// The moves of a walk from the start.
    pub(super) fn all_moves(&self) -> Result<Vec<Action>, AllocError> {
        self.moves(&mut Finder::new(self.alloc, seed()?))
    }

    /// A machine at the start.
    pub(super) fn machine(&self) -> Result<Machine, Fail>
        ensures { IfOk result IsConsistent }
    {
        Ok(Machine::new(self.alloc, read_policy(self.alloc, POLICY)?))
    }

    /// What becomes of moves.
    pub(super) fn outcome(&self, machine: &mut Machine, moves: &[Action]) -> Result<Outcome, Fail>
        requires { IsConsistent machine.old }
    {
        if let Err(stop) = machine.apply_all(self.alloc, &self.intake, &self.users, moves) {
            return Ok(Err(stop.refusal));
        }
        let Ok(carried) = machine.carried(self.alloc, &[0; INTERFACES]) else {
            return Ok(Ok(false));
        };
        let mut is_whole = carried.owed.is_empty();
        for iface in 0..self.intake.interfaces() {
            let interface = carried.interfaces.get(iface as usize);
            let placed = interface.map(|interface| interface.placed as usize);
            is_whole = is_whole && placed == Some(self.intake.interface(iface).len());
        }
        Ok(Ok(is_whole))
    }

    /// What becomes of the moves of a walk from what was carried over a cut.
    pub(super) fn resumed(&self, carried: &Carried) -> Result<Outcome, Fail> {
        let mut finder = Finder::resume(self.alloc, seed()?, &self.intake, &self.users, carried)?;
        let moves = self.moves(&mut finder)?;
        let policy = read_policy(self.alloc, POLICY)?;
        match Machine::resume(self.alloc, policy, carried) {
            Ok(mut machine) => self.outcome(&mut machine, &moves),
            Err(_) => Ok(Ok(false)),
        }
    }
}

/// The first sighting of each interface that is needed after a cut.
pub(super) fn needed(alloc: Global, carried: &Carried) -> Result<Vec<u64>, AllocError> {
    let mut bases = Vec::new(alloc);
    for interface in &carried.interfaces {
        bases.push(u64::from(interface.placed))?;
    }
    for Came { sight, .. } in &carried.waiting {
        if let Some(base) = bases.get_mut(sight.iface as usize) {
            *base = (*base).min(u64::from(sight.index));
        }
    }
    Ok(bases)
}
