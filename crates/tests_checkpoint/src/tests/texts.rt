//! Checkpoints written and read, and what is refused.

use audit_cuts::{Came, Carried, Client, Interface};
use audit_expiry::Lease;
use audit_model::{Addr, Listed, Pair, SightId};
use audit_rules::Channel;
use std::alloc::{AllocError, Global};
use std::test::*;
use watch_checkpoint::{Checkpoint, CheckpointFault, Header, LineKind, read, write};
use watch_ring::RingFile;

/// The grace of the policy, in nanoseconds.
const GRACE: u64 = 5_000_000_000;

/// The digests of the policy and of the users.
const POLICY: &str = "00000000000000000000000000000000000000000000000000000000000000ff";

const USERS: &str = "0a0a0a0a0a0a0a0a0a0a0a0a0a0a0a0a0a0a0a0a0a0a0a0a0a0a0a0a0a0a0a0a";

/// The end of the header, the moment, and a client with a permission and a channel, an arrival that
/// waits and a departure that is owed.
const LINES: &str = " begin 1000000000 file 41 opened 20260714093000
moment 2000000000
interface 0 base 12 placed 5
interface 1 base 0 placed 0
client 198.51.100.7:40000 listen 192.0.2.1:3478 relayed 192.0.2.15:50000 \
user 616c696365 id 0102030405060708090a0b0c until 602000000000
permission 203.0.113.9 302000000000
channel 16384 203.0.113.9:9000 602000000000
waits 0.4 1999000000
owed 1.0 1998000000
";

/// The SHA-256 of the lines before it, by sha256sum.
const DIGEST: &str = "a475f757c4fb8f181a2625d1ff76de329bb09d9a62c6d8149d71c8ed15509bba";

/// The same with version 2 in the first line.
const DIGEST_OF_VERSION_2: &str =
    "35d83e2f49d8f167df8c541b5f97eeb1a81af6df78d5e5ecccaff1efed023fa9";

/// A text with these lines and this digest.
fn text_with(alloc: Global, version: u32, lines: &str, digest: &str) -> Result<String, AllocError> {
    format!(in alloc;
        "turnwatch-checkpoint {version}\nclaim policy {POLICY} users {USERS}{lines}digest {digest}\n"
    )
}

/// The text with one part of its lines in place of another.
fn text_but(alloc: Global, old: &str, new: &str, digest: &str) -> Result<String, AllocError> {
    let Some((before, after)) = LINES.split_once(old) else {
        return String::from_str(alloc, "");
    };
    let lines = format!(in alloc; "{before}{new}{after}")?;
    text_with(alloc, 1, lines.as_str(), digest)
}

fn ip(last: u8) -> u32 {
    u32::from_be_bytes([203, 0, 113, last])
}

fn client(alloc: Global) -> Result<Client, AllocError> {
    let lease = Lease {
        until: 602_000_000_000,
    };
    let permission = Lease {
        until: 302_000_000_000,
    };
    let peer = Addr {
        ip: ip(9),
        port: 9000,
    };
    let service = u32::from_be_bytes([192, 0, 2, 1]);
    Ok(Client {
        pair: Pair {
            client: Addr {
                ip: u32::from_be_bytes([198, 51, 100, 7]),
                port: 40000,
            },
            listen: Addr {
                ip: service,
                port: 3478,
            },
        },
        relayed: Addr {
            ip: u32::from_be_bytes([192, 0, 2, 15]),
            port: 50000,
        },
        user: Listed::from(Vec::from_slice(alloc, b"alice")?),
        id: [1, 2, 3, 4, 5, 6, 7, 8, 9, 10, 11, 12],
        lease,
        permissions: vec![in alloc; (ip(9), permission)]?,
        channels: vec![in alloc; (16384, Channel { lease, peer })]?,
    })
}

fn checkpoint(alloc: Global) -> Result<Checkpoint, AllocError> {
    let mut policy = [0; 32];
    policy[31] = 255;
    let waits = Came {
        sight: SightId { iface: 0, index: 4 },
        moment: 1_999_000_000,
    };
    let owed = Came {
        sight: SightId { iface: 1, index: 0 },
        moment: 1_998_000_000,
    };
    let first = Interface {
        base: 12,
        placed: 5,
    };
    let second = Interface { base: 0, placed: 0 };
    Ok(Checkpoint {
        header: Header {
            policy,
            users: [10; 32],
            begin: 1_000_000_000,
            file: RingFile {
                opened: 20_260_714_093_000,
                number: 41,
            },
        },
        carried: Carried {
            moment: 2_000_000_000,
            clients: vec![in alloc; client(alloc)?]?,
            waiting: vec![in alloc; waits]?,
            owed: vec![in alloc; owed]?,
            interfaces: vec![in alloc; first, second]?,
        },
    })
}

#[test]
fn a_checkpoint_has_this_text(rt: HostRuntime) -> Result<(), Fail> {
    let alloc = rt.alloc();
    let text = write(alloc, &checkpoint(alloc)?)?;
    let expected = text_with(alloc, 1, LINES, DIGEST)?;
    assert_eq!(rt; text.as_slice(), expected.as_bytes());
    Ok(())
}

#[test]
fn a_text_is_read_and_written_again(rt: HostRuntime) -> Result<(), Fail> {
    let alloc = rt.alloc();
    let text = text_with(alloc, 1, LINES, DIGEST)?;
    let found = read(alloc, GRACE, text.as_bytes()).ok();
    assert!(rt; found.is_some());
    let Some(found) = found else {
        return Ok(());
    };
    let again = write(alloc, &found)?;
    assert_eq!(rt; again.as_slice(), text.as_bytes());
    Ok(())
}

/// The fault of a text.
fn fault_of(alloc: Global, text: &str) -> Option<CheckpointFault> {
    read(alloc, GRACE, text.as_bytes()).err()
}

#[test]
fn a_foreign_or_damaged_text_is_refused(rt: HostRuntime) -> Result<(), Fail> {
    let alloc = rt.alloc();
    let next = text_with(alloc, 2, LINES, DIGEST_OF_VERSION_2)?;
    assert_eq!(rt;
        fault_of(alloc, next.as_str()),
        Some(CheckpointFault::Heading)
    );
    let cut = text_with(alloc, 1, LINES, "a475f757c4fb8f18")?;
    assert_eq!(rt;
        fault_of(alloc, cut.as_str()),
        Some(CheckpointFault::Digest)
    );
    let other = text_but(alloc, "placed 5", "placed 6", DIGEST)?;
    assert_eq!(rt;
        fault_of(alloc, other.as_str()),
        Some(CheckpointFault::Digest)
    );
    Ok(())
}

/// A part of the lines, what stands in its place, the digest of that text, and its first fault.
struct Case {
    old: &'static str,
    new: &'static str,
    digest: &'static str,
    line: u64,
    kind: LineKind,
}

/// A header without a file, with a word too many, with another label, with a file's number past
/// 99,999, with a leading zero, and with a second of 15 digits; two clients with one relayed
/// address, one client twice, a leading zero, digits in upper case, and an arrival that waits and
/// isn't placed.
const CASES: [Case; 11] = [
    Case {
        old: " file 41 opened 20260714093000",
        new: "",
        digest: "6c52487b2796658aafa3c0fa4aa7a8e8a925a53ed14784b798fed7eff32ac925",
        line: 2,
        kind: LineKind::Line,
    },
    Case {
        old: "20260714093000",
        new: "20260714093000 0",
        digest: "6b46a58000fa888d864177b15f2a5c0075492a01bc3cd4c699d54ea1fa9ad216",
        line: 2,
        kind: LineKind::Line,
    },
    Case {
        old: "file 41",
        new: "number 41",
        digest: "df10637e05c884e03d2322474f5aa355de96b8bc678638dff02d649d138dd71f",
        line: 2,
        kind: LineKind::Line,
    },
    Case {
        old: "file 41",
        new: "file 100000",
        digest: "cda31c9c85741ebd4c24786f1769957398a22ff11474b50ceaa88834f2bdea8a",
        line: 2,
        kind: LineKind::Number,
    },
    Case {
        old: "file 41",
        new: "file 041",
        digest: "2931352701d5dac8fc5d7d87b156f14665d54b9a86783807492e5eb6533e935e",
        line: 2,
        kind: LineKind::Number,
    },
    Case {
        old: "20260714093000",
        new: "120260714093000",
        digest: "e92f16ba37c4e9a721f05eccf117e6ccda0534c118673c138e8feaada242c184",
        line: 2,
        kind: LineKind::Number,
    },
    Case {
        old: "waits 0.4",
        new: "client 198.51.100.8:40000 listen 192.0.2.1:3478 relayed 192.0.2.15:50000 \
user  id 0102030405060708090a0b0d until 602000000000
waits 0.4",
        digest: "0236e8039b768cfc079b43552023f2aba0c8e6952b41b84a07a87a43b820d12a",
        line: 9,
        kind: LineKind::AddressHeld,
    },
    Case {
        old: "waits 0.4",
        new: "client 198.51.100.7:40000 listen 192.0.2.1:3478 relayed 192.0.2.15:50001 \
user 616c696365 id 0102030405060708090a0b0c until 602000000000
waits 0.4",
        digest: "937673a99dd1d571f6eff5d6c62ced9d7c5c951aff5d6a13f0e867eb434d3867",
        line: 9,
        kind: LineKind::ClientDouble,
    },
    Case {
        old: "moment 2",
        new: "moment 02",
        digest: "cba64a1dbcb5699fed0e3e58b4873cc4bf02990d2ce5f21457fc973f067afbae",
        line: 3,
        kind: LineKind::Number,
    },
    Case {
        old: "090a0b0c",
        new: "090A0B0C",
        digest: "b1da31efca5ea692b0939e6e5a172b823fd34c5d6c74c38d38fa1ae8924a75c8",
        line: 6,
        kind: LineKind::Line,
    },
    Case {
        old: "waits 0.4",
        new: "waits 0.5",
        digest: "8442cf27703ad8b06431230299571e685f54296f6295c92462d415b0a825aa81",
        line: 9,
        kind: LineKind::Placement,
    },
];

#[test]
fn the_first_fault_is_reported(rt: HostRuntime) -> Result<(), Fail> {
    let alloc = rt.alloc();
    for case in &CASES {
        let text = text_but(alloc, case.old, case.new, case.digest)?;
        let fault = CheckpointFault::Line(case.line, case.kind);
        assert_eq!(rt; fault_of(alloc, text.as_str()), Some(fault));
    }
    Ok(())
}
