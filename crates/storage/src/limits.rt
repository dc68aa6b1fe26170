// How large a pool is, in words of any content.
#![tactic(auto)]

ghost use Rattle.std.specs.Prelude.{◌≤◌};
ghost use Rattle.storage.specs.Answers.{most_rows, most_cells};

// A head for each row, and room for so many cells, of which count are in use.
#[derive(Clone, Copy, Debug, PartialEq, Eq)]
pub struct Sizes {
    pub rows: usize,
    pub cap: usize,
    pub count: usize,
    pub ghost used: { count ≤ cap },
    pub ghost few_rows: { rows ≤ most_rows },
    pub ghost few_cells: { cap ≤ most_cells },
}
