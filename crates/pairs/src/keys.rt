// The thirteen keys of a payload by their rows in specs/Table.antt, and what a value is read as.

// Numbers, since they index the rows; an enum would be cast at each use.
// Each key by its row.
pub const TYPE: usize = 0;

pub const SIZE: usize = 1;

pub const DOMAIN: usize = 2;

pub const ROUTE: usize = 3;

pub const DATA: usize = 4;

pub const OFFSET: usize = 5;

pub const ERROR: usize = 6;

pub const LEN: usize = 7;

pub const PORT: usize = 8;

pub const CONFIG: usize = 9;

pub const SEQ: usize = 10;

pub const UNPLUG: usize = 11;

pub const DROPPED: usize = 12;

// The row of every key that is none of ours, behind the last.
pub const OTHER: usize = 13;

// The rows, with that one.
pub const ROWS: usize = 14;

// What a value is read as: a text, a number in a base up to the largest of its width, or dwords in brackets.
#[derive(Clone, Copy)]
pub enum Form {
    Text,
    Decimal(u64),
    Hex(u64),
    Dwords,
}
