//! The whole program as a function of the arguments, a source of files, a maker of new files, and
//! two output sinks. It returns the exit status.
#![tactic(auto)]

mod checksum;
mod collected;
mod command_line;
mod cut_comment;
mod cutting;
mod folder;
mod folders;
mod hashing;
mod joining;
mod list;
mod list_head;
mod list_totals;
mod looking;
mod maker;
mod page_of;
mod pages;
mod planning;
mod policy;
mod ready;
mod reason;
mod reassembling;
mod recording;
mod ring_name;
mod running;
mod set_aside;
mod source;
mod stop;
mod surveying;
mod text;
mod text_check;
mod text_fault;
mod translating;
mod users;

pub use cutting::{AllCut, ToCut, cut_capture, cut_captures};
pub use folders::Folders;
pub use hashing::{Hashed, hash_captures};
pub use joining::join_captures;
pub use looking::LookRequest;
pub use maker::{MakeFault, Maker};
pub use ready::{PolicySource, ReadyRequest};
pub use reassembling::{ReassembleRequest, reassemble_capture};
pub use recording::record_captures;
pub use ring_name::{RingName, gap_in};
pub use running::run;
pub use source::{ReadFailed, Source};
pub use stop::Stop;
pub use text_fault::{TextFault, TextFaultKind};
pub use translating::{TranslateRequest, translate_capture};
pub use users::{UsersRequest, UsersSource};
