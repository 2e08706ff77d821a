//! The explanation of a verdict, in lines: the datagrams, the expected behaviour, the leases, the
//! rule.
#![tactic(auto)]

mod case;
mod causes;
mod content;
mod deletion;
mod expected;
mod held_twice;
mod ladder;
mod lane_lines;
mod leases;
mod line;
mod nearest;
mod order;
mod others;
mod place;
mod placement;
mod printer;
mod rungs;
mod scene;
mod signed;
mod verdict;

pub use case::{Case, Lanes, lanes_of};
pub use ladder::{Lasting, Rung, Span, Step, request_span, rungs_of, span_of};
pub use lane_lines::{
    Sums, allocations, is_broken, lane_line, request_breaches, sum_lines, sums_of,
};
pub use line::{Account, ClientOf, Line, Story};
pub use place::{FrameNumber, Printer};
pub use rungs::ladder_lines;
pub use scene::Way;
pub use verdict::{InEveryOrder, story_of};
