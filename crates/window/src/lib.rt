// The window over the leaves: which ones a cabinet still takes, and what it keeps of those that it took.
#![tactic(auto)]

ghost use Rattle.std.specs.Prelude.{◌≡◌, false, ◌<◌};
ghost use Rattle.window.specs.Window as spec;

// The highest accepted leaf, and 32 marks: bit i says that the leaf i below the highest was accepted.
// Where none was, no mark is set. No `Option` says so, since C keeps these two numbers.
#[derive(Clone, Copy)]
pub struct Window {
    pub highest: u32,
    pub marks: u32,
}

// Whether mark i is set.
#[tactic(auto, unfolding(crate::specs::Window::marked))]
fn marked(marks: u32, i: u32) -> bool
    requires { i < 32 }
    ensures { result ≡ spec.marked marks i }
{
    (marks >> i) % 2 == 1
}

impl Window {
    // Whether a leaf is 32 or more below the highest, or already accepted. Where no mark is set, none is.
    #[tactic(auto, unfolding(crate::specs::Window::passed))]
    pub fn passed(self, leaf: u32) -> bool
        ensures { result ≡ spec.passed self leaf }
    {
        self.marks != 0
            && leaf <= self.highest
            && (32 <= self.highest - leaf || marked(self.marks, self.highest - leaf))
    }

    // The window once a leaf that is not passed was taken. Marks moved up to 32 or more fall away.
    #[tactic(auto, unfolding(crate::specs::Window::taken))]
    pub fn take(self, leaf: u32) -> Window
        requires { spec.passed self leaf ≡ false }
        ensures { result ≡ spec.taken self leaf }
    {
        if self.marks == 0 {
            Window {
                highest: leaf,
                marks: 1,
            }
        } else if self.highest < leaf {
            Window {
                highest: leaf,
                marks: self.marks.unbounded_shl(leaf - self.highest) + 1,
            }
        } else {
            Window {
                marks: self.marks + (1 << (self.highest - leaf)),
                ..self
            }
        }
    }
}
