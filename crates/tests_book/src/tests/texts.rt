//! The text of each refusal of a book.

use audit_book::{Astray, BookFault, CloseFault, EnterFault};
use std::test::Fail;

#[test]
fn refusals_have_their_codes(rt: HostRuntime) -> Result<(), Fail> {
    let alloc = rt.alloc();
    let opened = [BookFault::Seats, BookFault::Memory];
    let entered = [
        EnterFault::Stranger,
        EnterFault::Taken(3),
        EnterFault::Memory,
    ];
    let closed = [CloseFault::SeatMissing, CloseFault::Astray];
    let mut text = String::new(alloc);
    for fault in opened {
        text.push_str(format!(in alloc; "{fault}, ")?.as_str())?;
    }
    for fault in entered {
        text.push_str(format!(in alloc; "{fault}, ")?.as_str())?;
    }
    for fault in closed {
        text.push_str(format!(in alloc; "{fault}, ")?.as_str())?;
    }
    let astray = Astray;
    text.push_str(format!(in alloc; "{astray}")?.as_str())?;
    assert_eq!(rt;
        text.as_str(),
        "O1 seats, O2 memory, E2 stranger, E1 taken at 3, E4 memory, L2 seat missing, L1 astray, L1 astray"
    );
    Ok(())
}
