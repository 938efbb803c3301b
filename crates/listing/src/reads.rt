// What the program reads: one line, byte by byte.
ghost use Rattle.std.specs.Prelude.{◌≡◌, false, [], ◌++◌, ◌≤◌, ◌<◌, eqb, length};
ghost use Rattle.listing.specs.Input.{to_read, line_read, left_of};

use super::input::Input;

impl Input {
    pub fn start() -> Input
        ensures { (line_read result ≡ []) × (result.ended ≡ false) }
    {
        Input {
            bytes: [0; 11],
            long: 0,
            ended: false,
        }
    }

    // How many bytes are still to be read.
    #[tactic(auto, unfolding(crate::specs::Input::left_of))]
    pub fn left(self) -> usize
        ensures { result ≡ left_of self }
    {
        if self.ended {
            0
        } else {
            to_read(&self.bytes[..self.long])
        }
    }

    // Takes what a read of one byte found, which is nothing at the end of the input.
    pub fn take(&mut self, found: &[u8])
        requires { (0 < left_of self.old) × (length found.now ≤ 1) }
        ensures { (line_read self.new ≡ line_read self.old ++ found.now) × (self.new.ended ≡ eqb (length found.now) 0) }
    {
        match found.first() {
            None => self.ended = true,
            Some(byte) => {
                self.bytes[self.long] = *byte;
                self.long += 1;
            }
        }
    }
}

// How many bytes of a line are still to be read behind these.
#[tactic(auto, unfolding(crate::specs::Input::to_read), using(crate::proofs::Reading::ending_contained))]
fn to_read(line: &[u8]) -> usize
    ensures { result ≡ to_read line.now }
{
    if line.contains(&b'\n') {
        return 0;
    }
    11usize.saturating_sub(line.len())
}
