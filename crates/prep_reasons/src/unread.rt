//! Data that clients over TCP, TLS, DTLS or IPv6 may have sent, which isn't read.

use crate::carriers::{Carried, Carriers, Load};
use crate::inner::wanted_of;
use crate::origin::Origin;
use crate::peer_data::PeerData;
use crate::pool::Group;
use crate::responses::Shown;
use crate::sheet::Sheet;
use crate::speech::{Speech, add_records, speech_of};
use prep_records::{CarrierKind, Record};
use std::alloc::{AllocError, Global};
use std::mem;

/// The least number of bytes before data in a carrier: the header of ChannelData.
const HEADER: u32 = 4;

/// The carriers of data of clients that aren't judged.
const ALL: [CarrierKind; 3] = [
    CarrierKind::TcpOrIpv6,
    CarrierKind::DtlsData,
    CarrierKind::Dtls,
];

/// The carriers, with the departures that took them.
#[derive(Drop)]
pub(crate) struct Carrying {
    /// TCP, IPv6 and DTLS.
    pub(crate) carriers: Carriers,
    /// Data at relayed addresses, for departures over DTLS.
    pub(crate) relayed: Option<Carriers>,
}

impl Carrying {
    /// The departures with carriers, in order.
    pub(crate) fn departures(&self, alloc: Global) -> Result<Vec<u32>, AllocError> {
        let mut departures = Vec::new(alloc);
        add_departures(&mut departures, self.carriers.carried())?;
        if let Some(relayed) = &self.relayed {
            add_departures(&mut departures, relayed.carried())?;
        }
        departures.sort_unstable();
        Ok(departures)
    }
}

fn add_departures(all: &mut Vec<u32>, carried: &[Carried]) -> Result<(), AllocError> {
    for one in carried {
        all.push(one.departure)?;
    }
    Ok(())
}

/// The packets that may carry data of such clients, and the data of other clients.
#[derive(Drop)]
pub(crate) struct Unread {
    pub(crate) carrying: Carrying,
    /// The protocol of each client; empty if the operator states that no client uses DTLS.
    pub(crate) speech: Vec<Speech>,
    /// Made when it is first needed: most captures have no data that isn't read.
    peer_data: Option<PeerData>,
}

impl Unread {
    /// Takes the carriers out of a sheet.
    pub(crate) fn new(sheet: &mut Sheet<'_>) -> Result<Self, AllocError> {
        let mut carriers = mem::replace(&mut sheet.carriers, Vec::new(sheet.alloc));
        let mut speech = Vec::new(sheet.alloc);
        if sheet.stated.has_no_tcp {
            carriers = Vec::new(sheet.alloc);
        } else {
            speech = speech_of(sheet)?;
            add_records(sheet, speech.as_slice(), &mut carriers)?;
        }
        Ok(Unread {
            carrying: Carrying {
                carriers: Carriers::new(sheet.alloc, carriers)?,
                relayed: None,
            },
            speech,
            peer_data: None,
        })
    }

    /// Starts again with the first departure.
    pub(crate) fn rewind(&mut self) {
        self.carrying.carriers.rewind();
    }

    /// Whether a DTLS record may have caused a departure over DTLS, which then takes it. Departures
    /// come in the order of time.
    pub(crate) fn takes_record(&mut self, load: Load) -> Result<bool, AllocError> {
        let taken = self.carrying.carriers.take(load, &[CarrierKind::DtlsData])?;
        Ok(taken.is_some())
    }

    /// The same for a packet over TCP or IPv6, which may carry more.
    pub(crate) fn takes_packet(&mut self, load: Load) -> Result<bool, AllocError> {
        let load = Load {
            bytes: load.bytes.saturating_add(HEADER),
            takes_all: false,
            ..load
        };
        let taken = self
            .carrying
            .carriers
            .take(load, &[CarrierKind::TcpOrIpv6])?;
        Ok(taken.is_some())
    }

    /// The origin of a departure's data that isn't a judged client's: such a client may have sent
    /// it in a packet within the hold before, which it then takes, or it may be from before the
    /// captures. Departures come in the order of time.
    pub(crate) fn origin(
        &mut self,
        sheet: &Sheet<'_>,
        shown: &Shown,
        at: usize,
    ) -> Result<Origin, AllocError> {
        let Some(record) = sheet.record(at) else {
            return Ok(Origin::Missing);
        };
        if self.is_judged(sheet, shown, &record)? {
            return Ok(Origin::Missing);
        }
        let wanted = wanted_of(sheet, &record, Group::All);
        let load = Load {
            departure: u32::try_from(at).unwrap_or(u32::MAX),
            moment: record.stamp,
            from: wanted.from,
            to: wanted.to,
            bytes: u32::from(record.least).saturating_add(HEADER),
            most: u32::MAX,
            takes_all: false,
        };
        if self.carrying.carriers.take(load, &ALL)?.is_some() {
            Ok(Origin::Shown)
        } else if sheet.is_early(record.stamp) {
            Ok(Origin::Early)
        } else {
            Ok(Origin::Missing)
        }
    }

    /// Whether a departure carries the data of a judged client, or of its peer.
    fn is_judged(
        &mut self,
        sheet: &Sheet<'_>,
        shown: &Shown,
        record: &Record,
    ) -> Result<bool, AllocError> {
        let arrivals = match mem::replace(&mut self.peer_data, None) {
            Some(arrivals) => arrivals,
            None => PeerData::new(sheet, shown)?,
        };
        let is_judged = arrivals.has_judged(sheet, record);
        self.peer_data = Some(arrivals);
        Ok(is_judged)
    }
}
