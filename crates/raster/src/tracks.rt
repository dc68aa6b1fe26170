// Where a drawing is between two strokes.
#![tactic(auto)]

ghost use Rattle.line.specs.Range.{Reach};

use fixed::FixedPoint;
use pen::Pen;

// The pen, the pen point `at`, and the point `start` of the subpath, both points within reach. That the pen's cells are within the
// pool's `cap` stands in the contracts: a track knows no board.
#[derive(Clone, Copy, Debug, PartialEq, Eq)]
pub struct Track {
    pub pen: Pen,
    pub at: FixedPoint,
    pub start: FixedPoint,
    pub ghost reach_at: { Reach at },
    pub ghost reach_start: { Reach start },
}
