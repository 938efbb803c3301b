// A profile whose sizes keep their limits.
ghost use Rattle.frames.specs.Frames.{SizesInLimits};

use profile::Profile;

// A profile whose sizes are within their limits, which the fixed bytes of its frames need; its edition may be any number.
#[derive(Clone, Copy)]
pub struct LimitedProfile {
    pub profile: Profile,
    ghost sizes: { SizesInLimits profile },
}
