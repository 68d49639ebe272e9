//! A site: four places in file order, filled only by loading a file.
#![tactic(auto)]

pub mod site;
