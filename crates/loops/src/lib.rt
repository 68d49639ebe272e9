//! The tables of the loops: region loops, contract loops, and the places of a site that hold them.
//!
//! Every table is lawful by its type, and only loading a record makes one.
#![tactic(auto)]

pub mod contract_loop;
pub mod load_fault;
pub mod place;
pub mod region;
pub mod region_loop;
