// A shape that keeps its limits.
ghost use Rattle.profile.specs.Checks.{InLimits};

use super::Shape;

// A shape within its limits.
#[derive(Clone, Copy)]
pub struct LimitedShape {
    pub shape: Shape,
    ghost limits: { InLimits shape },
}
