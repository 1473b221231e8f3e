// The numbers that stand for something else than themselves.
#![tactic(auto)]

// Links are 0 to 31, so that the count of them stands for no link.
pub const LINKS: u8 = 32;

pub const NO_LINK: u8 = 32;

// A link's state.
pub const OUT: u8 = 0;

pub const WAITING: u8 = 1;

pub const OPEN: u8 = 2;

pub const CHANGING: u8 = 3;

// Two of them as they stand in the word of an area.
pub const OUT_WORD: u32 = 0;

pub const OPEN_WORD: u32 = 2;

// The rings behind those of the links: messages held apart, free user places, free management places.
pub const HELD_APART: u8 = 32;

pub const FREE_USER: u8 = 33;

pub const FREE_MANAGEMENT: u8 = 34;

// The words of a destination's flags behind the marks of its four routes.
pub const T6: usize = 4;

pub const T8: usize = 5;
