//! An Allocate, by its transaction.

ghost use Rattle.std.specs.Prelude.{◌≡◌};
ghost use Rattle.prep_cut.specs.Identifying.{id_of, transaction_of};

use audit_model::Addr;

/// An Allocate of a client, by its transaction id (RFC 8489, section 5).
#[derive(Clone, Copy, Debug, PartialEq, Eq, PartialOrd, Ord)]
pub struct Transaction {
    pub client: Addr,
    pub listen: Addr,
    pub tid: [u8; 12],
}

impl Transaction {
    /// The transaction of an Allocate with this id, if a listen address sends or gets it.
    pub(crate) fn of(
        is_asked: bool,
        client: Addr,
        listen: Addr,
        id: Option<[u8; 12]>,
    ) -> Option<Transaction>
        ensures { result ≡ transaction_of is_asked client listen id }
    {
        match id {
            Some(tid) if is_asked => Some(Transaction {
                client,
                listen,
                tid,
            }),
            _ => None,
        }
    }
}

/// The size of a message's header in bytes (RFC 8489, section 5).
const HEADER: usize = 20;

/// The transaction id of a payload that begins like a message of this type.
pub(crate) fn id_in(kind: u16, payload: &[u8]) -> Option<[u8; 12]>
    ensures { result ≡ id_of kind payload.now }
{
    if payload.len() < HEADER || u16::from_be_bytes([payload[0], payload[1]]) != kind {
        return None;
    }
    let mut tid = [0; 12];
    tid.copy_from_slice(&payload[8..20]);
    Some(tid)
}
