//! What each part answers to what comes from outside.

mod certificates;
mod leases;
mod sights;
mod tenancies;
