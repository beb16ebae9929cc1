//! Lines, events, and the tables of a unit's processors.
#![tactic(auto)]

pub mod draft;
pub mod event;
pub mod line;
pub mod line_id;
pub mod table;
pub mod tables;

/// How many processors there are.
pub const PROCESSORS: usize = 4;
/// How many lines a table has at most.
pub const LINES: usize = 32;
/// How many barriers a table has at most.
pub const BARRIERS: u8 = 31;
/// The highest cell.
pub const LAST_CELL: u8 = 63;
/// How many lines there are at most in all; so many places has a sheet.
pub const PLACES: usize = 128;
/// How many events there are at most.
pub const EVENTS: usize = 256;
