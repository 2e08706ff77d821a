//! Queues of items by digest, each in the order of insertion.

use crate::digests::Digests;
use std::alloc::{AllocError, Global};
use std::collections::BTreeMap;

/// How many queues may be added before finished ones are removed.
const NEW: usize = 1_024;

/// The number of a queue, valid until the queues are tidied.
#[derive(Clone, Copy, Debug, PartialEq, Eq)]
pub struct QueueNumber(u32);

/// The ends of one queue.
#[derive(Clone, Copy)]
struct Queue {
    digest: u64,
    first: Option<u32>,
    last: u32,
    /// The item that was taken out last.
    previous: Option<u32>,
}

/// An item.
#[derive(Clone, Copy)]
struct Item {
    /// The next item in its queue.
    behind: Option<u32>,
    /// The moment until which it is needed.
    until: u64,
}

/// The last items of finished queues, by digest.
#[derive(Drop)]
struct Done {
    /// Those that were added after the last look-up.
    noted: Vec<(u64, u32)>,
    found: BTreeMap<u64, u32>,
}

impl Done {
    fn new(alloc: Global) -> Done {
        Done {
            noted: Vec::new(alloc),
            found: BTreeMap::new(alloc),
        }
    }

    /// The last item of a finished queue. Most captures never need one.
    fn get(&mut self, alloc: Global, digest: u64) -> Result<Option<u32>, AllocError> {
        let noted = std::mem::replace(&mut self.noted, Vec::new(alloc));
        for (digest, last) in noted {
            self.found.insert(digest, last)?;
        }
        Ok(self.found.get(&digest).copied())
    }
}

/// Numbers of items, from 0 in the order of insertion, each in the queue of its digest if it has
/// one.
///
/// Queues of which no item is needed are removed from time to time, so that the others are close
/// together in memory. To find a queue, or to add an item, takes at most logarithmic time in the
/// number of digests, and mostly constant time.
#[derive(Drop)]
pub struct Queues {
    /// The number of the queue of each digest.
    numbers: Digests,
    queues: Vec<Queue>,
    /// How many queues there were after the last `tidy`.
    kept: usize,
    items: Vec<Item>,
    done: Done,
    /// The queues that were finished before the last `renew`.
    done_before: Done,
    alloc: Global,
}

impl Queues {
    pub fn new(alloc: Global) -> Queues {
        Queues {
            numbers: Digests::new(alloc),
            queues: Vec::new(alloc),
            kept: 0,
            items: Vec::new(alloc),
            done: Done::new(alloc),
            done_before: Done::new(alloc),
            alloc,
        }
    }

    /// Adds an item that is needed, and returns its number.
    pub fn add(&mut self, digest: Option<u64>) -> Result<u32, AllocError> {
        let Ok(number) = u32::try_from(self.items.len()) else {
            return Err(AllocError);
        };
        self.items.push(Item {
            behind: None,
            until: u64::MAX,
        })?;
        if let Some(digest) = digest {
            self.join(digest, number)?;
        }
        Ok(number)
    }

    /// Adds an item at the end of its queue.
    fn join(&mut self, digest: u64, number: u32) -> Result<(), AllocError> {
        let Some(queue) = self.numbers.get(digest) else {
            return self.begin(Queue {
                digest,
                first: Some(number),
                last: number,
                previous: None,
            });
        };
        if let Some(queue) = self.queues.get_mut(queue as usize) {
            if let Some(last) = self.items.get_mut(queue.last as usize) {
                last.behind = Some(number);
            }
            queue.first = queue.first.or(Some(number));
            queue.last = number;
        }
        Ok(())
    }

    /// Adds a queue of a digest that has none.
    fn begin(&mut self, queue: Queue) -> Result<(), AllocError> {
        let Ok(number) = u32::try_from(self.queues.len()) else {
            return Err(AllocError);
        };
        self.numbers.insert(queue.digest, number)?;
        self.queues.push(queue)?;
        Ok(())
    }

    /// The queue of a digest, if there is one.
    pub fn queue_of(&self, digest: u64) -> Option<QueueNumber> {
        Some(QueueNumber(self.numbers.get(digest)?))
    }

    fn get(&self, queue: QueueNumber) -> Option<&Queue> {
        self.queues.get(queue.0 as usize)
    }

    /// The first item of a queue.
    pub fn first(&self, queue: QueueNumber) -> Option<u32> {
        self.get(queue)?.first
    }

    /// The item that was added to a queue last.
    pub fn last(&self, queue: QueueNumber) -> Option<u32> {
        Some(self.get(queue)?.last)
    }

    /// The item that was taken out of the queue of a digest last.
    pub fn previous(&mut self, digest: u64) -> Result<Option<u32>, AllocError> {
        let previous = match self.queue_of(digest).and_then(|queue| self.get(queue)) {
            Some(queue) => queue.previous,
            None => None,
        };
        if previous.is_some() {
            return Ok(previous);
        }
        let previous = self.done.get(self.alloc, digest)?;
        if previous.is_some() {
            return Ok(previous);
        }
        self.done_before.get(self.alloc, digest)
    }

    /// The item after an item in its queue.
    pub fn behind(&self, number: u32) -> Option<u32> {
        self.items.get(number as usize)?.behind
    }

    /// Takes the first item out of a queue.
    pub fn skip(&mut self, queue: QueueNumber) {
        let Some(first) = self.first(queue) else {
            return;
        };
        let behind = self.behind(first);
        if let Some(queue) = self.queues.get_mut(queue.0 as usize) {
            queue.previous = Some(first);
            queue.first = behind;
        }
    }

    /// Notes until when an item is needed.
    pub fn wait_until(&mut self, number: u32, until: u64) {
        if let Some(item) = self.items.get_mut(number as usize) {
            item.until = until;
        }
    }

    /// Whether an item is no longer needed at a moment.
    fn is_over(&self, number: u32, moment: u64) -> bool {
        match self.items.get(number as usize) {
            Some(item) => item.until < moment,
            None => true,
        }
    }

    /// Removes the queues of which no item is needed at a moment, if many queues are new.
    pub fn tidy(&mut self, moment: u64) -> Result<(), AllocError> {
        if self.queues.len() < self.kept.saturating_mul(2).saturating_add(NEW) {
            return Ok(());
        }
        let queues = std::mem::replace(&mut self.queues, Vec::new(self.alloc));
        self.numbers = Digests::new(self.alloc);
        for queue in queues {
            self.keep_waiting(queue, moment)?;
        }
        self.kept = self.queues.len();
        Ok(())
    }

    /// Keeps a queue, if an item of it is needed at a moment.
    fn keep_waiting(&mut self, queue: Queue, moment: u64) -> Result<(), AllocError> {
        let mut queue = queue;
        for _ in 0..self.items.len() {
            match queue.first {
                Some(first) if self.is_over(first, moment) => {
                    queue.previous = Some(first);
                    queue.first = self.behind(first);
                }
                _ => break,
            }
        }
        if queue.first.is_some() {
            return self.begin(queue);
        }
        if let Some(previous) = queue.previous {
            self.done.noted.push((queue.digest, previous))?;
        }
        Ok(())
    }

    /// Forgets the queues that were finished before the last call.
    pub fn renew(&mut self) {
        self.done_before = std::mem::replace(&mut self.done, Done::new(self.alloc));
    }
}
