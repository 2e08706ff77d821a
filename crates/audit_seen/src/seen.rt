//! The sightings, each read once.

use crate::content::{Content, PoolKey};
use crate::lanes::Lanes;
use crate::numbers::{LaneNumber, PoolNumber, SeenNumber};
use crate::pool_numbers::PoolNumbers;
use crate::reading::read_sighting;
use audit_finding::Windows;
use audit_model::{Policy, SightId, Sighting};
use audit_sightings::Intake;
use std::alloc::{AllocError, Global};

/// The content of a sighting.
#[derive(Clone, Copy, Debug, PartialEq, Eq)]
pub enum Says {
    /// A request that arrives, and its pool.
    Request(PoolNumber),
    /// Data of a client that arrives, and its pool.
    Sent(PoolNumber),
    /// A peer's datagram that arrives, and its pool.
    Received(PoolNumber),
    /// An arrival that no departure answers.
    Nothing,
    /// A departure; a response with the pool of its requests.
    Departure(Content, Option<PoolNumber>),
}

/// The facts of a sighting that its order depends on.
#[derive(Clone, Copy, Debug)]
pub struct Seen {
    first_moment: u64,
    last_moment: u64,
    stamp: u64,
    says: Says,
    lane: Option<LaneNumber>,
    id: SightId,
}

impl Says {
    /// The same, with the number of its pool, if it has one.
    fn with_pool(self, pool: PoolNumber) -> Says {
        match self {
            Says::Request(_) => Says::Request(pool),
            Says::Sent(_) => Says::Sent(pool),
            Says::Received(_) => Says::Received(pool),
            Says::Departure(content, Some(_)) => Says::Departure(content, Some(pool)),
            Says::Nothing | Says::Departure(_, None) => self,
        }
    }
}

impl Seen {
    ghost use Rattle.std.specs.Prelude.{◌≡◌};
    ghost use Rattle.audit_seen.specs.Says.{is_arrival, pool_in, answered_pool, departure_content};

    /// The first moment at which it may be placed, in nanoseconds since 1970.
    pub fn first_moment(&self) -> u64
        ensures { result ≡ self.now.first_moment }
    {
        self.first_moment
    }

    /// The last moment at which it may be placed, in nanoseconds since 1970.
    pub fn last_moment(&self) -> u64
        ensures { result ≡ self.now.last_moment }
    {
        self.last_moment
    }

    /// The stamp in the capture, in nanoseconds since 1970.
    pub fn stamp(&self) -> u64
        ensures { result ≡ self.now.stamp }
    {
        self.stamp
    }

    /// Its content.
    pub fn says(&self) -> Says
        ensures { result ≡ self.now.says }
    {
        self.says
    }

    /// The lane of a datagram between a client and its listen address.
    pub fn lane(&self) -> Option<LaneNumber>
        ensures { result ≡ self.now.lane }
    {
        self.lane
    }

    /// Its interface, and its index there.
    pub fn id(&self) -> SightId
        ensures { result ≡ self.now.id }
    {
        self.id
    }

    /// Whether it arrives.
    pub fn arrives(&self) -> bool
        ensures { result ≡ is_arrival self.now.says }
    {
        match self.says {
            Says::Request(_) | Says::Sent(_) | Says::Received(_) | Says::Nothing => true,
            Says::Departure(..) => false,
        }
    }

    /// The pool that an arrival is in.
    pub fn pool(&self) -> Option<PoolNumber>
        ensures { result ≡ pool_in self.now.says }
    {
        match self.says {
            Says::Request(pool) | Says::Sent(pool) | Says::Received(pool) => Some(pool),
            Says::Nothing | Says::Departure(..) => None,
        }
    }

    /// The pool of the requests that a response answers.
    pub fn response_pool(&self) -> Option<PoolNumber>
        ensures { result ≡ answered_pool self.now.says }
    {
        match self.says {
            Says::Departure(_, pool) => pool,
            Says::Request(_) | Says::Sent(_) | Says::Received(_) | Says::Nothing => None,
        }
    }

    /// The content of a departure.
    pub fn content(&self) -> Option<Content>
        ensures { result ≡ departure_content self.now.says }
    {
        match self.says {
            Says::Departure(content, _) => Some(content),
            Says::Request(_) | Says::Sent(_) | Says::Received(_) | Says::Nothing => None,
        }
    }

    /// Whether the other one comes before it on the same interface.
    pub fn is_after(&self, other: &Seen) -> bool {
        self.id.iface == other.id.iface && self.id.index > other.id.index
    }
}

/// The inputs for reading sightings.
#[derive(Clone, Copy)]
struct Reader<'a> {
    policy: &'a Policy,
    lanes: &'a Lanes,
    windows: Windows,
}

/// All sightings, interface by interface, by their numbers.
#[derive(Drop)]
pub struct Sights {
    list: Vec<Seen>,
    /// The number of the first sighting of each interface.
    starts: Vec<u32>,
}

impl Sights {
    ghost use Rattle.std.specs.Prelude.{◌≡◌, ◌<◌, IfSome, vec_len, length};

    /// Reads each sighting. `windows` limits the moments that it may have. It takes n log n, and
    /// for each sighting as many steps as it has bytes.
    pub fn read(
        alloc: Global,
        intake: &Intake,
        lanes: &Lanes,
        windows: Windows,
    ) -> Result<(Sights, PoolNumbers), AllocError> {
        let reader = Reader {
            policy: intake.policy(),
            lanes,
            windows,
        };
        let mut sights = Sights {
            list: Vec::new(alloc),
            starts: Vec::new(alloc),
        };
        let mut keys = Vec::new(alloc);
        for iface in 0..intake.interfaces() {
            sights.read_row(reader, intake.interface(iface), &mut keys)?;
        }
        keys.sort_unstable();
        let mut numbers = PoolNumbers::new(alloc);
        for (key, number) in &keys {
            let pool = numbers.take(*key)?;
            sights.set_pool(*number, pool);
        }
        Ok((sights, numbers))
    }

    /// Reads the sightings of an interface, and collects the key of each. The numbers of pools come
    /// later.
    fn read_row(
        &mut self,
        reader: Reader<'_>,
        row: &[Sighting],
        keys: &mut Vec<(PoolKey, SeenNumber)>,
    ) -> Result<(), AllocError> {
        let start = u32::try_from(self.list.len()).map_err(|_| AllocError)?;
        self.starts.push(start)?;
        for sighting in row {
            self.read_one(reader, sighting, keys)?;
        }
        Ok(())
    }

    fn read_one(
        &mut self,
        reader: Reader<'_>,
        sighting: &Sighting,
        keys: &mut Vec<(PoolKey, SeenNumber)>,
    ) -> Result<(), AllocError> {
        let number = u32::try_from(self.list.len()).map_err(|_| AllocError)?;
        let reading = read_sighting(reader.policy, sighting, reader.lanes);
        if let Some(key) = reading.key() {
            keys.push((key, SeenNumber::new(number)))?;
        }
        self.list.push(Seen {
            first_moment: reader.windows.first(sighting),
            last_moment: reader.windows.last(sighting),
            stamp: sighting.stamp,
            says: reading.says(),
            lane: reading.lane(),
            id: sighting.id,
        })?;
        Ok(())
    }

    /// Sets the pool of a sighting.
    fn set_pool(&mut self, number: SeenNumber, pool: PoolNumber) {
        if let Some(seen) = self.list.get_mut(number.index()) {
            seen.says = seen.says.with_pool(pool);
        }
    }

    /// A sighting by its number.
    pub fn get(&self, number: SeenNumber) -> Option<&Seen> {
        self.list.get(number.index())
    }

    /// All sightings, in the order of their numbers.
    pub fn as_slice(&self) -> &[Seen]
        ensures { length result.now ≡ vec_len self.now.list }
    {
        self.list.as_slice()
    }

    /// The number of interfaces.
    pub fn interfaces(&self) -> usize
        ensures { result ≡ vec_len self.now.starts }
    {
        self.starts.len()
    }

    /// The number of the sighting at an index of an interface; `None` after its last one.
    pub fn at(&self, iface: usize, place: u32) -> Option<SeenNumber>
        ensures { IfSome result (λ number. number.0 < vec_len self.now.list) }
    {
        let number = self.starts.get(iface)?.checked_add(place)?;
        match self.starts.get(iface.saturating_add(1)) {
            Some(end) if number >= *end => None,
            _ if number as usize >= self.list.len() => None,
            _ => Some(SeenNumber::new(number)),
        }
    }
}
