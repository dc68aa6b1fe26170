// A label drawn band by band, into one mask: a pool that would not hold the cells of the whole label holds those of each band.
// The mask, the counts and the words are those of the label drawn at once.
#![tactic(auto)]

ghost use Rattle.std.specs.Prelude.{◌≡◌, ◌+◌, ◌*◌, ◌-◌, ◌≤◌, max, length};
ghost use Rattle.std.specs.Iterator.{at_most};
ghost use Rattle.std.specs.NonZero.{non_zero_usize_get};
ghost use Rattle.path.specs.Inputs.{most_bytes};
ghost use Rattle.label.specs.Checks.{rows};
ghost use Rattle.label.specs.Draw.{outcome, draw_of};
ghost use Rattle.label.specs.Inking.{Lent, Inked};
ghost use Rattle.bands.specs.InBands.{ran_out_in_band, draw_in_bands_of, AsAtOnce};
ghost use Rattle.bands.specs.Steps.{line_of, Counted, BandPainted, Painted};

use label::{Answer, Checked, Label};
use path::{Overfull, Records};
use std::num::NonZeroUsize;

// A band has a row at least.
fn rows_of(step: usize) -> NonZeroUsize
    ensures { non_zero_usize_get result ≡ max 1 step }
{
    NonZeroUsize::new(step).unwrap_or(NonZeroUsize::MIN)
}

// A label's bands of so many rows, from the first on; the last may be shorter.
#[derive(Clone, Copy)]
struct Bands {
    whole: Checked,
    at: usize,
    step: NonZeroUsize,
}

impl Iterator for Bands {
    ghost use Rattle.bands.specs.Cutting.{Cut};

    type Item = Checked;

    ghost next_gives = { Cut };

    ghost remaining = { λ s. at_most (s.whole.label.end - s.at) };

    fn next(&mut self) -> Option<Checked> {
        let whole = self.whole.label;
        let first = self.at;
        if whole.end <= first {
            return None;
        }
        let end = first + self.step.get().min(whole.end - first);
        self.at = end;
        Some(Checked {
            label: Label {
                first,
                end,
                ..whole
            },
        })
    }
}

// The bands of a label.
fn bands_of(l: Checked, step: NonZeroUsize) -> Bands
    ensures whole { result.whole ≡ l }
    ensures start { result.at ≡ l.label.first }
    ensures steps { result.step ≡ step }
{
    Bands {
        whole: l,
        at: l.label.first,
        step,
    }
}

// The line of the mask on which the band from first up to end begins.
fn line_of(l: Label, first: usize, end: usize) -> usize
    requires { (l.first ≤ first) × (end ≤ l.end) }
    ensures { result ≡ line_of l first end }
{
    if l.up { l.end - end } else { first - l.first }
}

// The cells of the bands together, or that one of them is too many for its pool, and at which record. Nothing is painted.
fn count(list: &[u8], l: Checked, step: NonZeroUsize, words: &mut [u32]) -> Result<usize, Overfull>
    requires enough_words { rows l.label ≤ length words.old }
    ensures { Counted l.label (non_zero_usize_get step) list.now (length words.old) result }
{
    let mut total: usize = 0;
    for band in bands_of(l, step) {
        total += band.pour(list, words)?;
    }
    Ok(total)
}

// Paints one band into its part of the mask.
fn paint_band(list: &[u8], b: Checked, mask: &mut [u8], words: &mut [u32])
    requires lent { Lent b.label (length mask.old) (length words.old) }
    ensures { BandPainted b.label list.now (length words.old) mask.old mask.new }
{
    if let Ok(n) = b.pour(list, words) {
        b.sweep(words, n, mask);
    }
}

// Paints the bands one after the other.
fn paint(list: &[u8], l: Checked, step: NonZeroUsize, mask: &mut [u8], words: &mut [u32])
    requires lent { Lent l.label (length mask.old) (length words.old) }
    ensures { Painted l.label (non_zero_usize_get step) list.now (length words.old) mask.old mask.new }
{
    let pitch = l.label.pitch;
    for band in bands_of(l, step) {
        let part = band.label;
        let from = pitch * line_of(l.label, part.first, part.end);
        let to = from + pitch * (part.end - part.first - 1) + l.label.width;
        paint_band(list, band, &mut mask[from..to], words);
    }
}

// Draws an accepted list: counted first, so that nothing is painted where a band has no room.
// That the mask and the words are long enough stays a clause, as in label's own drawing.
fn ink(
    list: &[u8],
    l: Checked,
    step: NonZeroUsize,
    records: Records,
    mask: &mut [u8],
    words: &mut [u32],
) -> Answer
    requires lent { Lent l.label (length mask.old) (length words.old) }
    requires few_bytes { length list.now ≤ most_bytes }
    ensures { Inked (ran_out_in_band (non_zero_usize_get step) l.label (length words.old)) l.label records.count records.cut list.now mask.old words.old (outcome result mask.new words.new) }
{
    let cells = count(list, l, step, words);
    if cells.is_ok() {
        paint(list, l, step, mask, words);
    }
    storage::wipe(words);
    label::told(cells, records)
}

// Draws a label's band in bands of so many rows; 0 counts as 1.
pub fn draw_in_bands(
    list: &[u8],
    l: Label,
    step: usize,
    mask: &mut [u8],
    words: &mut [u32],
) -> Answer
    ensures told { outcome result mask.new words.new ≡ draw_in_bands_of step l list.now mask.old words.old }
    ensures as_at_once { AsAtOnce (draw_of l list.now mask.old words.old) (outcome result mask.new words.new) }
{
    let (checked, records) = label::accept(list, l, mask.len(), words.len())?;
    ink(list, checked, rows_of(step), records, mask, words)
}
