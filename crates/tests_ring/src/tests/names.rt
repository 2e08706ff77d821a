//! Names by dumpcap, and other names of a folder.

use std::test::*;
use watch_ring::{Ring, RingFile};

/// The names in dumpcap's manual page, for `-w outfile.pcapng`, with their files.
const NAMES: [(&str, u32, u64); 2] = [
    ("outfile_00001_20240714120117.pcapng", 1, 20_240_714_120_117),
    ("outfile_00002_20240714120523.pcapng", 2, 20_240_714_120_523),
];

/// Names that are of no file of that ring. The second is by `-b nametimenum:2`, the third by
/// `--compress-type gzip`, and the fourth has what dumpcap writes in place of a time it can't read.
const FOREIGN: [&str; 16] = [
    "outfile.pcapng",
    "outfile_20240714120117_00001.pcapng",
    "outfile_00001_20240714120117.pcapng.gz",
    "outfile_00001_196912312359.pcapng",
    "outfile_00001_20240714120117.pcapng.tmp",
    "outfile_00001_20240714120117.pcap",
    "outfile_00001_20240714120117",
    "outfile_0001_20240714120117.pcapng",
    "outfile_000001_20240714120117.pcapng",
    "outfile_00001_2024071412011.pcapng",
    "outfile_00001_202407141201170.pcapng",
    "outfile_+0001_20240714120117.pcapng",
    "outfile_0000a_20240714120117.pcapng",
    "outfile-00001-20240714120117.pcapng",
    "infile_00001_20240714120117.pcapng",
    "",
];

#[test]
fn names_by_dumpcap_are_read_and_written(rt: HostRuntime) -> Result<(), Fail> {
    let ring = Ring::new("outfile.pcapng");
    for (name, number, opened) in &NAMES {
        let file = RingFile {
            opened: *opened,
            number: *number,
        };
        assert_eq!(rt; ring.parse(name), Some(file));
        let written = ring.file_name(rt.alloc(), &file)?;
        assert_eq!(rt; written.as_str(), *name);
    }
    Ok(())
}

#[test]
fn other_names_are_not_of_the_ring(rt: HostRuntime) -> Result<(), Fail> {
    let ring = Ring::new("outfile.pcapng");
    for name in &FOREIGN {
        assert_eq!(rt; ring.parse(name), None);
    }
    Ok(())
}

#[test]
fn the_extension_begins_at_the_last_dot(rt: HostRuntime) -> Result<(), Fail> {
    let dotted = Ring::new("turn.eth0.pcapng");
    assert_eq!(rt; dotted.prefix, "turn.eth0");
    assert_eq!(rt; dotted.extension, ".pcapng");
    let name = "turn.eth0_00001_20240714120117.pcapng";
    assert!(rt; dotted.parse(name).is_some());
    let bare = Ring::new("turn");
    assert_eq!(rt; bare.extension, "");
    assert!(rt; bare.parse("turn_00001_20240714120117").is_some());
    assert!(rt; bare.parse("turn_00001_20240714120117.pcapng").is_none());
    Ok(())
}

#[test]
fn a_prefix_may_look_like_a_number(rt: HostRuntime) -> Result<(), Fail> {
    let ring = Ring::new("turn_00001_20240714120117.pcapng");
    let name = "turn_00001_20240714120117_00002_20240714120523.pcapng";
    let file = RingFile {
        opened: 20_240_714_120_523,
        number: 2,
    };
    assert_eq!(rt; ring.parse(name), Some(file));
    assert_eq!(rt; ring.parse("turn_00001_20240714120117.pcapng"), None);
    Ok(())
}
