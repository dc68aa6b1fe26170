// What a drawing draws on, beside the words it is lent.
#![tactic(auto)]

ghost use Rattle.std.specs.Prelude.{◌+◌, ◌≤◌};
ghost use Rattle.storage.specs.Answers.{most_rows, most_cells};

use crate::Frame;

// The drawing's edges, and how many cells its pool has.
#[derive(Clone, Copy, Debug, PartialEq, Eq)]
pub struct Board {
    pub frame: Frame,
    pub cap: usize,
    pub ghost right: { 8192 ≤ frame.wide },
    pub ghost narrow: { frame.wide ≤ 8192 + most_rows },
    pub ghost ordered: { frame.first ≤ frame.end },
    pub ghost few: { frame.end ≤ frame.first + most_rows },
    pub ghost small: { cap ≤ most_cells },
}
