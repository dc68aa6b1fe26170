// A label that was checked: what a drawing knows of it.
#![tactic(auto)]

ghost use Rattle.std.specs.Prelude.{◌≤◌, length};
ghost use Rattle.sweep.specs.Masks.{Fits, Swept};
ghost use Rattle.label.specs.Checks.{rows};
ghost use Rattle.label.specs.Inking.{Sized, Poured};

use crate::Label;
use path::Overfull;

// A label that passes 1 to 3.
#[derive(Clone, Copy, Debug, PartialEq)]
pub struct Checked {
    pub label: Label,
    pub ghost sized: { Sized label },
}

impl Checked {
    // The list's strokes drawn into words that held anything.
    pub fn pour(self, list: &[u8], words: &mut [u32]) -> Result<usize, Overfull>
        requires { rows self.label ≤ length words.old }
        ensures { Poured self.label list.now words.old words.new result }
    {
        let l = self.label;
        path::pour(list, l.view(), l.width, l.first, l.end, words)
    }

    // So many cells of the words painted into the mask.
    pub fn sweep(self, words: &[u32], n: usize, mask: &mut [u8])
        requires { Fits words.now mask.old (rows self.label) n self.label.width self.label.pitch }
        ensures { Swept words.now mask.old mask.new (rows self.label) n self.label.width self.label.fill self.label.up self.label.pitch }
    {
        let l = self.label;
        let rows = l.end - l.first;
        sweep::sweep(words, rows, n, l.width, l.fill, l.up, l.pitch, mask);
    }
}
