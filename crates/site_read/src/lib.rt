//! The reader of site files: from bytes to the records of the loops, each lent as a part of the file.
//!
//! A file is a header and a record for each loop. A fault rises from the field that has it, through the record, to
//! the file, with its number, its loop and its byte offset. `docs/SITE-FILES.md` has the format.
#![tactic(auto)]

pub mod extent;
pub mod fault;
pub mod field;
pub mod header;
pub mod kind;
pub mod limits;
pub mod records;
