// Which edit a row is: its word 0. Numbers and no enum, which is no plainer: the word of a row may be any, and every other
// is a word moved (edit_of of specs/Rows).
pub const INSERT_VERTEX: u32 = 1;

pub const REMOVE_VERTEX: u32 = 2;

pub const INSERT_EDGE: u32 = 3;

pub const REMOVE_EDGE: u32 = 4;

pub const SET_VERTEX: u32 = 5;

pub const SET_EDGE: u32 = 6;

pub const MOVE_VERTEX: u32 = 7;

pub const MOVE_EDGE: u32 = 8;

pub const MOVE_WORD: u32 = 9;
