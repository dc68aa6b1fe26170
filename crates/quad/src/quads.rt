// A quad within reach.
#![tactic(auto)]

ghost use Rattle.line.specs.Range.{Reach};

use fixed::FixedPoint;

// From a to b, with the control point c.
#[derive(Clone, Copy, Debug, PartialEq, Eq)]
pub struct Quad {
    pub a: FixedPoint,
    pub c: FixedPoint,
    pub b: FixedPoint,
    pub ghost reach_a: { Reach a },
    pub ghost reach_c: { Reach c },
    pub ghost reach_b: { Reach b },
}
