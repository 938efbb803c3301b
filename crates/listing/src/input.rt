// A line that is read byte by byte.
ghost use Rattle.std.specs.Prelude.{◌≤◌};

// The first `long` bytes were read, and whether a read found the end of the input. A line grows here without a heap, so the
// bytes have their number beside them. That the input has ended is no part of the number: the line may be short of its end.
#[derive(Clone, Copy)]
pub struct Input {
    pub bytes: [u8; 11],
    pub long: usize,
    pub ended: bool,
    ghost fits: { long ≤ 11 },
}
