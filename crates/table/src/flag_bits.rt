// "Flags, bit 0 up": the bits of a row's flags by name.
pub const COMPLETE: u32 = 0;

pub const WALL_H: u32 = 1;

pub const WALL_V: u32 = 2;

pub const BDY_POINT: u32 = 3;

pub const BDY_WALL_H: u32 = 4;

pub const BDY_WALL_V: u32 = 5;

pub const BDY_CELL: u32 = 6;

pub const GRN_POINT: u32 = 7;

pub const GRN_WALL_H: u32 = 8;

pub const GRN_WALL_V: u32 = 9;

pub const GRN_CELL: u32 = 10;

pub const PREGNANT: u32 = 11;

pub const SENTENCED: u32 = 12;

pub const DEAD: u32 = 13;

// The flags of a free row, Dead alone.
pub const FREE: u32 = 8192;
