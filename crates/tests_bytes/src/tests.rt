//! Bytes of the standards and of stored runs, and the values that they are parsed to.

mod capture_faults;
mod captures;
mod credentials;
mod frames;
mod keys;
mod messages;
mod signed;
mod vectors;
