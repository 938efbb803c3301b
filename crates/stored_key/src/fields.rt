// Where the fields of a stored key stand in a frame's bytes, in their order, each behind the one before it. The kind is byte 0.
pub const CHAINS_AT: usize = 1;

pub const WIDTH_AT: usize = CHAINS_AT + 1;

pub const HEIGHT_AT: usize = WIDTH_AT + 1;

pub const SUM_AT: usize = HEIGHT_AT + 1;

pub const SEED_AT: usize = SUM_AT + 2;

pub const SECRET_AT: usize = SEED_AT + 16;

pub const NEXT_AT: usize = SECRET_AT + 16;

pub const MARK_AT: usize = NEXT_AT + 4;

// How many bytes a frame has in edition 1. In edition 2 it has one more, the edition's.
pub const FRAME_BYTES: usize = MARK_AT + 1;

// How many of them stand behind the seeds.
pub const LAST_BYTES: usize = FRAME_BYTES - NEXT_AT;

// How long its line is: one of n bytes has 2 n + 1 characters.
pub const LINE_LENGTH: usize = 2 * FRAME_BYTES + 1;
