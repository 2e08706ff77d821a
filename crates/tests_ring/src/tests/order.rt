//! Which file is next, from the names in a folder.

use std::alloc::{AllocError, Global};
use std::test::*;
use watch_ring::{Next, Ring, RingFile, after, first, is_past};

/// The files of the ring `r` with these names.
fn files_of(alloc: Global, names: &[&str]) -> Result<Vec<RingFile>, AllocError> {
    let ring = Ring::new("r");
    let mut files = Vec::new(alloc);
    for name in names {
        if let Some(file) = ring.parse(name) {
            files.push(file)?;
        }
    }
    Ok(files)
}

/// The name of the next file, after a word that says how it follows the current one.
fn next_after(alloc: Global, current: &str, names: &[&str]) -> Result<String, AllocError> {
    let ring = Ring::new("r");
    let files = files_of(alloc, names)?;
    let Some(current) = ring.parse(current) else {
        return String::from_str(alloc, "none");
    };
    match after(files.as_slice(), &current) {
        Next::Wait => String::from_str(alloc, "wait"),
        Next::File(file) => {
            let name = ring.file_name(alloc, &file)?;
            format!(in alloc; "file {name}")
        }
        Next::Gap(file) => {
            let name = ring.file_name(alloc, &file)?;
            format!(in alloc; "gap {name}")
        }
    }
}

/// A current file, the names in the folder, and what comes next.
struct Case {
    current: &'static str,
    names: [&'static str; 4],
    next: &'static str,
}

/// The next file in any order of names, none yet, a deleted file, a restart, files of one second,
/// numbers that wrap within a second, in a later second and before the current file, and a restart
/// that in its first second writes more files than the run before it.
const CASES: [Case; 9] = [
    Case {
        current: "r_00001_20240714120117",
        names: [
            "r_00003_20240714120523",
            "r_00002_20240714120317",
            "r_00001_20240714120117",
            "r_00001_20240714120117.tmp",
        ],
        next: "file r_00002_20240714120317",
    },
    Case {
        current: "r_00003_20240714120523",
        names: [
            "r_00001_20240714120117",
            "r_00002_20240714120317",
            "r_00003_20240714120523",
            "s_00004_20240714120729",
        ],
        next: "wait",
    },
    Case {
        current: "r_00001_20240714120117",
        names: [
            "r_00001_20240714120117",
            "r_00003_20240714120523",
            "r_00004_20240714120729",
            "r_0002_20240714120317",
        ],
        next: "gap r_00003_20240714120523",
    },
    Case {
        current: "r_00003_20240714120523",
        names: [
            "r_00002_20240714120317",
            "r_00003_20240714120523",
            "r_00001_20240714120800",
            "r_00002_20240714120900",
        ],
        next: "gap r_00001_20240714120800",
    },
    Case {
        current: "r_00001_20240714120117",
        names: [
            "r_00004_20240714120118",
            "r_00003_20240714120117",
            "r_00002_20240714120117",
            "r_00001_20240714120117",
        ],
        next: "file r_00002_20240714120117",
    },
    Case {
        current: "r_99999_20240714120117",
        names: [
            "r_00001_20240714120117",
            "r_99998_20240714120117",
            "r_00000_20240714120117",
            "r_99999_20240714120117",
        ],
        next: "file r_00000_20240714120117",
    },
    Case {
        current: "r_99998_20240714120117",
        names: [
            "r_00000_20240714120118",
            "r_00001_20240714120118",
            "r_99999_20240714120118",
            "r_99998_20240714120117",
        ],
        next: "file r_99999_20240714120118",
    },
    Case {
        current: "r_00000_20240714120117",
        names: [
            "r_99999_20240714120117",
            "r_00000_20240714120117",
            "r_99998_20240714120117",
            "r_99997_20240714120116",
        ],
        next: "wait",
    },
    Case {
        current: "r_00002_20240714120117",
        names: [
            "r_00003_20240714120800",
            "r_00002_20240714120800",
            "r_00001_20240714120800",
            "r_00002_20240714120117",
        ],
        next: "gap r_00001_20240714120800",
    },
];

#[test]
fn the_next_file_follows_from_the_names(rt: HostRuntime) -> Result<(), Fail> {
    for case in &CASES {
        let next = next_after(rt.alloc(), case.current, &case.names)?;
        assert_eq!(rt; next.as_str(), case.next);
    }
    Ok(())
}

#[test]
fn the_first_file_is_the_earliest(rt: HostRuntime) -> Result<(), Fail> {
    let names = [
        "r_00001_20240714120800",
        "r_00003_20240714120117",
        "r_00002_20240714120117",
    ];
    let files = files_of(rt.alloc(), &names)?;
    assert_eq!(rt;
        first(files.as_slice()),
        Ring::new("r").parse("r_00002_20240714120117")
    );
    assert_eq!(rt; first(&files.as_slice()[..0]), None);
    Ok(())
}

#[test]
fn files_before_the_current_one_are_past(rt: HostRuntime) -> Result<(), Fail> {
    let names = [
        "r_99999_20240714120117",
        "r_00000_20240714120117",
        "r_00001_20240714120117",
        "r_00001_20240714120800",
    ];
    let files = files_of(rt.alloc(), &names)?;
    let current = Ring::new("r")
        .parse("r_00000_20240714120117")
        .expect(&rt, "a name of the ring");
    let mut past = Vec::new(rt.alloc());
    for file in files.as_slice() {
        past.push(is_past(file, &current))?;
    }
    assert_eq!(rt; past.as_slice(), [true, false, false, false].as_slice());
    Ok(())
}
