//! Sessions that conform and sessions that violate a rule, judged by the machine and by `check`.

mod carrying;
mod judging;
mod rest;
mod resuming;
mod sessions;
mod steps;
mod walks;
