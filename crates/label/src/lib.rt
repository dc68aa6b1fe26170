// The public face: a label drawn from a path list into lent memory.
// `draw` answers whatever it is lent; a refusal leaves the mask as it was.
#![tactic(auto)]

ghost use Rattle.std.specs.Prelude.{◌≡◌, ◌&&◌, ◌+◌, ◌*◌, ◌-◌, ◌≤◌, ltb, length, Ok, Err, MatchResult};
ghost use Rattle.path.specs.Inputs.{most_bytes};
ghost use Rattle.path.specs.Storing.{Within};
ghost use Rattle.label.specs.Checks.{view_of, sizes_of, checked_of};
ghost use Rattle.label.specs.Draw.{numbers_of, outcome, ran_out, draw_of};
ghost use Rattle.label.specs.Inking.{Lent, accepted_of, most_told, told_of, Inked, Celled};

use geometry::{Point, Transform};
use path::{Overfull, Records, Refusal, Refused, View};
use sweep::Fill;

mod checked;

pub use checked::Checked;

// What a drawing takes besides list, mask and workspace. The band is the rows from first up to end.
#[derive(Clone, Copy, Debug, PartialEq)]
pub struct Label {
    pub transform: Transform,
    pub offset: Point,
    pub fill: Fill,
    pub up: bool,
    pub width: usize,
    pub height: usize,
    pub pitch: usize,
    pub first: usize,
    pub end: usize,
}

impl Label {
    // What its list is drawn under.
    pub fn view(self) -> View
        ensures { result ≡ view_of self }
    {
        View {
            transform: self.transform,
            offset: self.offset,
        }
    }
}

// A label that was drawn: how many records its list has, how many cells there were, and how many coordinates are cut.
#[derive(Clone, Copy, Debug, PartialEq, Eq)]
pub struct Drawn {
    pub records: u32,
    pub cells: u32,
    pub cut: u32,
}

// What a drawing answers.
pub type Answer = Result<Drawn, Refused>;

// An answer in the rules' numbers; the C face hands it out.
#[repr(C)]
#[derive(Clone, Copy, Debug, PartialEq, Eq)]
pub struct Numbers {
    pub number: u32,
    pub index: u32,
    pub records: u32,
    pub cells: u32,
    pub cut: u32,
}

const MOST_PIXELS: usize = 4096;

const MOST_PITCH: usize = 65536;

impl From<Answer> for Numbers {
    ghost from_gives = { λ a n. n ≡ numbers_of a };

    fn from(a: Answer) -> Numbers {
        match a {
            Ok(drawn) => Numbers {
                number: 0,
                index: 0,
                records: drawn.records,
                cells: drawn.cells,
                cut: drawn.cut,
            },
            Err(refused) => Numbers {
                number: refused.why.into(),
                index: refused.record,
                records: 0,
                cells: 0,
                cut: 0,
            },
        }
    }
}

// Whether the mask is too short for so many rows.
fn short_mask(rows: usize, pitch: usize, width: usize, mask: usize) -> bool
    requires { (rows ≤ 65536) × (pitch ≤ 65536) × (width ≤ 65536) }
    ensures { result ≡ (ltb 0 rows && ltb mask (pitch * (rows - 1) + width)) }
{
    0 < rows && mask < pitch * (rows - 1) + width
}

// Checks 1 to 5.
#[tactic(auto, unfolding(crate::specs::Checks::sizes_of))]
fn check_sizes(l: Label, mask: usize, words: usize) -> Result<(), Refusal>
    ensures { result ≡ sizes_of l mask words }
{
    if MOST_PIXELS < l.width || MOST_PIXELS < l.height {
        return Err(Refusal::Size);
    }
    if l.end < l.first || l.height < l.end {
        return Err(Refusal::Band);
    }
    if l.pitch < l.width || MOST_PITCH < l.pitch {
        return Err(Refusal::Pitch);
    }
    let rows = l.end - l.first;
    if short_mask(rows, l.pitch, l.width, mask) {
        return Err(Refusal::Mask);
    }
    if words < rows {
        return Err(Refusal::Workspace);
    }
    Ok(())
}

// Checks 1 to 7.
#[tactic(auto, unfolding(crate::specs::Checks::checked_of))]
pub fn check(l: Label, list: usize, mask: usize, words: usize) -> Result<(), Refusal>
    ensures { result ≡ checked_of l list mask words }
{
    check_sizes(l, mask, words)?;
    path::check_inputs(l.view(), list)
}

// Checks 1 to 12 and 18: the label, which then has the sizes of one that is drawn, and what its list holds. Inlined, since it would be handed the
// label in memory and hand it back.
#[inline(always)]
pub fn accept(
    list: &[u8],
    l: Label,
    mask: usize,
    words: usize,
) -> Result<(Checked, Records), Refused>
    ensures { MatchResult result (λ a. (a.0.label ≡ l) × (accepted_of l list.now mask words ≡ Ok a.1)) (λ refused. accepted_of l list.now mask words ≡ Err refused) }
{
    check(l, list.len(), mask, words)?;
    let records = path::judge(list, l.view())?;
    Ok((Checked { label: l }, records))
}

// What is told of an accepted list: its counts, or 13 at the record for which the pool had no room.
pub fn told(cells: Result<usize, Overfull>, records: Records) -> Answer
    requires { Within most_told most_told cells }
    ensures { result ≡ told_of cells records }
{
    match cells {
        Ok(n) => Ok(Drawn {
            records: records.count,
            cells: n as u32,
            cut: records.cut,
        }),
        Err(full) => Err(Refused {
            why: Refusal::Full,
            record: full.record as u32,
        }),
    }
}

// Draws an accepted list.
// That the mask and the words are long enough stays a clause: it speaks of what is lent for the call, not of the label.
fn ink(
    list: &[u8],
    checked: Checked,
    records: Records,
    mask: &mut [u8],
    words: &mut [u32],
) -> Answer
    requires lent { Lent checked.label (length mask.old) (length words.old) }
    requires few_bytes { length list.now ≤ most_bytes }
    ensures { Inked (ran_out checked.label (length words.old)) checked.label records.count records.cut list.now mask.old words.old (outcome result mask.new words.new) }
{
    let cells = checked.pour(list, words);
    if let Ok(n) = cells {
        checked.sweep(words, n, mask);
    }
    storage::wipe(words);
    told(cells, records)
}

// Draws a label's band.
pub fn draw(list: &[u8], l: Label, mask: &mut [u8], words: &mut [u32]) -> Answer
    ensures { outcome result mask.new words.new ≡ draw_of l list.now mask.old words.old }
{
    let (checked, records) = accept(list, l, mask.len(), words.len())?;
    ink(list, checked, records, mask, words)
}

// For tests: draws as for a mask of so many bytes, and where it is accepted leaves the cells in the words, not swept and
// not wiped.
pub fn cells(list: &[u8], l: Label, mask: usize, words: &mut [u32]) -> Answer
    ensures { Celled l list.now mask words.old words.new result }
{
    let (checked, records) = accept(list, l, mask, words.len())?;
    let stored = checked.pour(list, words);
    if stored.is_err() {
        storage::wipe(words);
    }
    told(stored, records)
}
