// Where a store's fields stand, as `specs/Layout.antt` says: i is a place, j a piece.

// Places, and the pieces that a place has room for.
pub const PLACES: usize = 32;

pub const PIECES: usize = 16;

// Floats: a place's kernel from KERNEL + KERNEL_SIZE * i, the three floats of its centre first, then its sigma.
pub const KERNEL: usize = 1;

pub const KERNEL_SIZE: usize = 7;

// Its weight as entered, at WEIGHT + KERNEL_SIZE * i.
pub const WEIGHT: usize = 5;

// Its exponent as entered, at ALPHA + KERNEL_SIZE * i.
pub const ALPHA: usize = 6;

// The peak error of its fit, at ERROR + KERNEL_SIZE * i.
pub const ERROR: usize = 7;

// The pieces of a place, three floats each, from PIECE + PIECES_SIZE * i + 3 * j: first the piece's sigma.
pub const PIECE: usize = 225;

pub const PIECES_SIZE: usize = 48;

// What the place's weight is multiplied by to give the piece's: so many floats behind the sigma.
pub const COEFFICIENT: usize = 1;

// The piece's volume as far as it is summed: so many floats behind the sigma.
pub const VOLUME: usize = 2;

// The coordinates, after the pieces of all places.
pub const COORDS: usize = 1761;

// Layers, from 0 to 15.
pub const LAYERS: u32 = 16;

// Words: a place's state from STATE + WIDTH * i, its status first: 0 empty, else 1 + pieces.
pub const STATE: usize = 2;

pub const WIDTH: usize = 4;

// Its pieces that are finished, at FINISHED + WIDTH * i.
pub const FINISHED: usize = 3;

// The faces done in its current piece, at DONE + WIDTH * i.
pub const DONE: usize = 4;

// Its layer, at LAYER + WIDTH * i.
pub const LAYER: usize = 5;

// The corners, after the states of all places.
pub const CORNERS: usize = 130;
