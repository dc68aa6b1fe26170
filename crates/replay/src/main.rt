// Replays the answers that `compare fixture` stored in the file `answers`, draws and places each of its cases, and writes how many differ.
// Number 0 and what goes with it is the Rust's answer, but for the cut coordinates, which compare's own reading of docs/RULES.md counts. The Rust
// refuses nothing: every other number is that reading's, which for 13 counts the Rust's cells.
// It writes 0 exactly where each case is answered as the definitions of `paper`, the rules, have it: `drawings` and `placements` promise that.
// The file starts with MZREPLAY, then the count of drawings, the drawings, the count of placements, the placements; all numbers are little-endian.
#![tactic(auto)]

ghost use Rattle.std.specs.Prelude.{◌≡◌, ◌↔◌, ℕ, List, ◌+◌, ◌*◌, ◌%◌, ◌^◌, ◌<◌, ◌≤◌, if◌then◌else◌, pos, ◌+ℤ◌, length, replicate, slice_index, take, All, IfOk, IsTrue};
ghost use Rattle.std.specs.Io.KnownBytes.{Consumes, IsAtEnd};
ghost use Rattle.std.specs.Slice.{IsGetRangeResult};
ghost use Rattle.paper.specs.Drawing.{draw};
ghost use Rattle.replay.specs.Reading.{onward, number_of, word_at, wide_at, float_at, point_at, transform_at, fill_of, origin_of, label_at, list_end, fnv1a, bits_of};
ghost use Rattle.replay.specs.Agreeing.{SameBytes, MaskAgrees, numbers_at, word_after, Agrees, DrawingAgrees, EachDrawingAgrees, SignedAgrees, PlaceAgrees, PlacementAgrees, EachPlacementAgrees, accepted_of, nth, answered, after_drawing, nth_drawing, drawing_number, after_placement, nth_placement, placement_number};

use geometry::{Origin, Point, Transform};
use label::{Label, Numbers};
use path::Refusal;
use placing::PlaceNumbers;
use std::fs::File;
use std::io;
use std::io::Read;
use sweep::Fill;

// Where the next case starts, how many of those before it the file says are accepted and how many refused, and how many differ.
#[derive(Drop)]
struct Tally {
    at: usize,
    accepted: usize,
    refused: usize,
    differ: usize,
}

const OLD_BYTE: u8 = 7;

const OLD_WORD: u32 = 9;

// An index may come from the file, so it wraps in place of being too large.
fn add(a: usize, b: usize) -> usize
    ensures { result ≡ onward a b }
{
    a.wrapping_add(b)
}

// A place in the bytes of a file.
#[derive(Clone, Copy)]
struct Cursor<'a> {
    bytes: &'a [u8],
    at: usize,
}

impl<'a> Cursor<'a> {
    // The place so many bytes behind.
    fn skip(self, n: usize) -> Cursor<'a>
        ensures bytes { result.bytes.now ≡ self.entry.bytes.now }
        ensures at { result.at ≡ onward self.entry.at n }
    {
        Cursor {
            bytes: self.bytes,
            at: add(self.at, n),
        }
    }

    // The byte there, or 0 behind the end.
    fn byte(self) -> u8
        ensures { result ≡ slice_index self.entry.bytes.now self.entry.at }
    {
        if self.at < self.bytes.len() {
            return self.bytes[self.at];
        }
        0
    }

    // The number of four bytes, the first one lowest.
    #[tactic(auto, unfolding(crate::specs::Reading::word_at))]
    fn word(self) -> usize
        ensures value { result ≡ word_at self.entry.bytes.now self.entry.at }
        ensures fits { result < 2 ^ 32 }
    {
        u32::from_le_bytes([
            self.byte(),
            self.skip(1).byte(),
            self.skip(2).byte(),
            self.skip(3).byte(),
        ]) as usize
    }

    #[tactic(auto, unfolding(crate::specs::Reading::float_at))]
    fn float(self) -> f32
        ensures { result ≡ float_at self.entry.bytes.now self.entry.at }
    {
        float::from_bytes(
            self.byte(),
            self.skip(1).byte(),
            self.skip(2).byte(),
            self.skip(3).byte(),
        )
    }

    fn point(self) -> Point
        ensures { result ≡ point_at self.entry.bytes.now self.entry.at }
    {
        Point {
            x: self.float(),
            y: self.skip(4).float(),
        }
    }

    #[tactic(auto, unfolding(crate::specs::Reading::transform_at))]
    fn transform(self) -> Transform
        ensures { result ≡ transform_at self.entry.bytes.now self.entry.at }
    {
        Transform {
            xx: self.float(),
            xy: self.skip(4).float(),
            yx: self.skip(8).float(),
            yy: self.skip(12).float(),
            x: self.skip(16).float(),
            y: self.skip(20).float(),
        }
    }

    // What stands behind a drawing's list.
    #[tactic(auto, unfolding(crate::specs::Reading::label_at))]
    fn label(self) -> Label
        ensures { result ≡ label_at self.entry.bytes.now self.entry.at }
    {
        Label {
            transform: self.transform(),
            offset: self.skip(24).point(),
            fill: fill_of(self.skip(32).byte()),
            up: self.skip(33).byte() == 1,
            width: self.skip(34).word(),
            height: self.skip(38).word(),
            pitch: self.skip(42).word(),
            first: self.skip(46).word(),
            end: self.skip(50).word(),
        }
    }

    // The numbers that stand behind a label.
    #[tactic(auto, unfolding(crate::specs::Agreeing::numbers_at))]
    fn numbers(self) -> Numbers
        ensures { result ≡ numbers_at self.entry.bytes.now self.entry.at }
    {
        Numbers {
            number: self.skip(58).word() as u32,
            index: self.skip(62).word() as u32,
            records: self.skip(66).word() as u32,
            cells: self.skip(70).word() as u32,
            cut: self.skip(74).word() as u32,
        }
    }

    // Where the list ends that starts with its length.
    fn behind_list(self) -> Cursor<'a>
        ensures bytes { result.bytes.now ≡ self.entry.bytes.now }
        ensures at { result.at ≡ list_end self.entry.bytes.now self.entry.at }
    {
        self.skip(4).skip(self.word())
    }

    // The list that starts with its length, where the file has it.
    fn list(self) -> Option<&'a [u8]>
        ensures { IsGetRangeResult self.entry.bytes.now (onward self.entry.at 4) (list_end self.entry.bytes.now self.entry.at) result }
    {
        self.bytes.get(self.skip(4).at..self.behind_list().at)
    }

    // Whether the mask's bytes stand there.
    fn has_bytes(self, mask: &[u8]) -> bool
        ensures { IsTrue result ↔ SameBytes self.entry.bytes.now self.entry.at mask.now }
    {
        for (i, b) in mask.iter().enumerate() {
            if *b != self.skip(i).byte() {
                return false;
            }
        }
        true
    }

    // Whether the eight bytes there are a checksum's.
    fn has_checksum(self, h: u64) -> bool
        ensures { IsTrue result ↔ (h ≡ wide_at self.entry.bytes.now self.entry.at) }
    {
        (h % 0x1_0000_0000) as usize == self.word()
            && (h / 0x1_0000_0000) as usize == self.skip(4).word()
    }

    // Whether a mask is the one behind the numbers.
    fn has_mask(self, mask: &[u8]) -> bool
        ensures { IsTrue result ↔ MaskAgrees self.entry.bytes.now self.entry.at mask.now }
    {
        if self.skip(82).byte() == 1 {
            return self.skip(83).has_bytes(mask);
        }
        self.skip(83).has_checksum(checksum(mask))
    }
}

// No `From<u8>` here or for the origin: u8 and Fill are both of other crates, and that any byte but 1 is nonzero is this file's rule.
fn fill_of(b: u8) -> Fill
    ensures { result ≡ fill_of b }
{
    if b == 1 {
        return Fill::EvenOdd;
    }
    Fill::NonZero
}

fn origin_of(b: u8) -> Origin
    ensures { result ≡ origin_of b }
{
    if b == 1 {
        return Origin::BottomLeft;
    }
    Origin::TopLeft
}

fn all_words(words: &[u32], v: u32) -> bool
    ensures { IsTrue result ↔ All (λ w. w ≡ v) words.now }
{
    words.iter().all(|w| *w == v)
}

// 2^40 + 435.
const FNV_PRIME: u64 = 0x100_0000_01b3;

const FNV_START: u64 = 0xcbf2_9ce4_8422_2325;

// The 64-bit FNV-1a of the bytes.
fn checksum(mask: &[u8]) -> u64
    ensures { result ≡ fnv1a mask.now }
{
    mask.iter().fold(
        FNV_START,
        |h, b| (h ^ u64::from(*b)).wrapping_mul(FNV_PRIME),
    )
}

// All words are zero after 0 and 13, and as they were after every other number.
fn words_agree(words: &[u32], number: u32) -> bool
    ensures { IsTrue result ↔ All (λ w. w ≡ word_after number) words.now }
{
    if number == 0 || number == u32::from(Refusal::Full) {
        return all_words(words, 0);
    }
    all_words(words, OLD_WORD)
}

// Draws into the lent memory, and answers whether all is as the file says behind the list.
fn draw_agrees(behind: Cursor, list: &[u8], mask: &mut [u8], words: &mut [u32]) -> bool
    ensures { let lent = replicate (length mask.old) OLD_BYTE in let kept = replicate (length words.old) OLD_WORD in
        IsTrue result ↔ Agrees behind.entry.bytes.now behind.entry.at (draw (label_at behind.entry.bytes.now behind.entry.at) list.now lent kept) }
{
    mask.fill(OLD_BYTE);
    words.fill(OLD_WORD);
    let n = paper::draw(list, behind.label(), mask, words);
    n == behind.numbers() && words_agree(words, n.number) && behind.has_mask(mask)
}

fn replay_drawing(case: Cursor, mask: &mut [u8], words: &mut [u32]) -> bool
    ensures { IsTrue result ↔ DrawingAgrees case.entry.bytes.now case.entry.at (length mask.old) (length words.old) }
{
    let behind = case.behind_list();
    let Some(list) = case.list() else {
        return false;
    };
    let m = behind.skip(78).word();
    if mask.len() < m {
        return false;
    }
    let w = behind.skip(54).word();
    if words.len() < w {
        return false;
    }
    draw_agrees(behind, list, &mut mask[..m], &mut words[..w])
}

// A kind of case, by where it starts in the file.
trait Case {
    ghost number_of: { List ℕ → ℕ → ℕ };

    ghost next_of: { List ℕ → ℕ → ℕ };

    ghost Agrees: { List ℕ → ℕ → ℕ → ℕ → Type 0 };

    // The number that the file says it answers.
    fn number(case: Cursor) -> usize
        ensures { result ≡ number_of case.entry.bytes.now case.entry.at };

    // Where the next one starts.
    fn next(case: Cursor) -> usize
        ensures { result ≡ next_of case.entry.bytes.now case.entry.at };

    // Whether it is answered as the rules have it; it may use the lent memory.
    fn agrees(case: Cursor, mask: &mut [u8], words: &mut [u32]) -> bool
        ensures { IsTrue result ↔ Agrees case.entry.bytes.now case.entry.at (length mask.old) (length words.old) };
}

// Replays so many cases, one behind the other.
fn replay_cases<C: Case>(first: Cursor, count: usize, mask: &mut [u8], words: &mut [u32]) -> Tally
    ensures end { result.at ≡ nth (C.next_of first.entry.bytes.now) first.entry.at count }
    ensures accepted { result.accepted ≡ accepted_of (answered (C.number_of first.entry.bytes.now) (C.next_of first.entry.bytes.now) first.entry.at) count }
    ensures refused { result.accepted + result.refused ≡ count }
    ensures differ { result.differ ≤ count }
    ensures none_differs { (result.differ ≡ 0) ↔ ((k : ℕ) → k < count → C.Agrees first.entry.bytes.now (nth (C.next_of first.entry.bytes.now) first.entry.at k) (length mask.old) (length words.old)) }
{
    let bytes = first.bytes;
    let mut at = first.at;
    let mut accepted: usize = 0;
    let mut refused: usize = 0;
    let mut differ: usize = 0;
    for _case in 0..count {
        let case = Cursor { bytes, at };
        let number = C::number(case);
        accepted += usize::from(number == 0);
        refused += usize::from(number != 0);
        differ += usize::from(!C::agrees(case, mask, words));
        at = C::next(case);
    }
    Tally {
        at,
        accepted,
        refused,
        differ,
    }
}

// A drawing: a list with its length before it, and behind it a label, an answer and a mask or its checksum.
struct Drawing;

impl Case for Drawing {
    ghost number_of = { λ s at. word_at s (onward (list_end s at) 58) };

    ghost next_of = { after_drawing };

    ghost Agrees = { DrawingAgrees };

    fn number(case: Cursor) -> usize {
        case.behind_list().skip(58).word()
    }

    fn next(case: Cursor) -> usize {
        let behind = case.behind_list();
        if behind.skip(82).byte() == 1 {
            return behind.skip(83).skip(behind.skip(78).word()).at;
        }
        behind.skip(91).at
    }

    fn agrees(case: Cursor, mask: &mut [u8], words: &mut [u32]) -> bool {
        replay_drawing(case, mask, words)
    }
}

fn drawings(first: Cursor, count: usize, mask: &mut [u8], words: &mut [u32]) -> Tally
    ensures end { result.at ≡ nth_drawing first.entry.bytes.now first.entry.at count }
    ensures accepted { result.accepted ≡ accepted_of (drawing_number first.entry.bytes.now first.entry.at) count }
    ensures refused { result.accepted + result.refused ≡ count }
    ensures differ { result.differ ≤ count }
    ensures none_differs { (result.differ ≡ 0) ↔ EachDrawingAgrees first.entry.bytes.now first.entry.at count (length mask.old) (length words.old) }
{
    replay_cases::<Drawing>(first, count, mask, words)
}

// A float's bits; those of a NaN are fixed.
fn bits_of(x: f32) -> u32
    ensures { result ≡ bits_of x }
{
    if x != x {
        return 0x7fc0_0000;
    }
    x.to_bits()
}

// The signed number that lies 2^24 below n: a cast, since `i32` has no `From<u32>`.
fn below(n: u32) -> i32
    requires { n ≤ 2 ^ 30 }
    ensures { result +ℤ pos (2 ^ 24) ≡ pos n }
{
    (n as i32) - 0x100_0000
}

// Whether x is the signed number of so many bits; those near zero only.
fn same_signed(x: i32, bits: usize) -> bool
    ensures { IsTrue result ↔ SignedAgrees x bits }
{
    let n = add(bits, 0x100_0000) % 0x1_0000_0000;
    n <= 0x4000_0000 && x == below(n as u32)
}

// Whether the numbers are those that stand at a place. Field by field: floats are the same by their bits, a NaN too, which `==` does not say.
fn place_agrees(told: Cursor, n: PlaceNumbers) -> bool
    ensures { IsTrue result ↔ PlaceAgrees told.entry.bytes.now told.entry.at n }
{
    let number = n.number as usize == told.word();
    let index = n.index as usize == told.skip(4).word();
    let offset_x = bits_of(n.offset_x) as usize == told.skip(8).word();
    let offset_y = bits_of(n.offset_y) as usize == told.skip(12).word();
    let left = same_signed(n.left, told.skip(16).word());
    let top = same_signed(n.top, told.skip(20).word());
    let width = n.width as usize == told.skip(24).word();
    let height = n.height as usize == told.skip(28).word();
    let cut = n.cut as usize == told.skip(32).word();
    number && index && offset_x && offset_y && left && top && width && height && cut
}

fn replay_placement(case: Cursor) -> bool
    ensures { IsTrue result ↔ PlacementAgrees case.entry.bytes.now case.entry.at }
{
    let behind = case.behind_list();
    let Some(list) = case.list() else {
        return false;
    };
    let t = behind.transform();
    let o = behind.skip(24).point();
    let origin = origin_of(behind.skip(32).byte());
    let n = paper::placement(list, t, o, origin);
    place_agrees(behind.skip(33), n)
}

// A placement: a list with its length before it, and behind it where it was placed and an answer.
struct Placement;

impl Case for Placement {
    ghost number_of = { λ s at. word_at s (onward (list_end s at) 33) };

    ghost next_of = { after_placement };

    ghost Agrees = { λ s at _ _. PlacementAgrees s at };

    fn number(case: Cursor) -> usize {
        case.behind_list().skip(33).word()
    }

    fn next(case: Cursor) -> usize {
        case.behind_list().skip(69).at
    }

    fn agrees(case: Cursor, _mask: &mut [u8], _words: &mut [u32]) -> bool {
        replay_placement(case)
    }
}

fn placements(first: Cursor, count: usize) -> Tally
    ensures end { result.at ≡ nth_placement first.entry.bytes.now first.entry.at count }
    ensures accepted { result.accepted ≡ accepted_of (placement_number first.entry.bytes.now first.entry.at) count }
    ensures refused { result.accepted + result.refused ≡ count }
    ensures differ { result.differ ≤ count }
    ensures none_differs { (result.differ ≡ 0) ↔ EachPlacementAgrees first.entry.bytes.now first.entry.at count }
{
    replay_cases::<Placement>(first, count, &mut [], &mut [])
}

// What the cases are, and whose answers were stored for them.
fn report(rt: &impl Print, d: Tally, p: Tally) -> io::Result<()> {
    let drawings = add(d.accepted, d.refused);
    let placements = add(p.accepted, p.refused);
    let accepted = add(d.accepted, p.accepted);
    let refused = add(d.refused, p.refused);
    let differ = add(d.differ, p.differ);
    print!(rt;
        "{drawings} drawings and {placements} placements replayed; answers stored by compare: "
    )?;
    println!(rt;
        "{accepted} of the Rust, {refused} refusals by its reading of the rules; {differ} differ"
    )
}

// Replays a whole file, and says so where it is not one.
fn replay(rt: &impl Print, bytes: &[u8], mask: &mut [u8], words: &mut [u32]) -> io::Result<()> {
    let file = Cursor { bytes, at: 0 };
    if !file.has_bytes(b"MZREPLAY") {
        return println!(rt; "not a file of answers");
    }
    let d = drawings(file.skip(12), file.skip(8).word(), mask, words);
    let behind = file.skip(d.at);
    let p = placements(behind.skip(4), behind.word());
    let end = p.at;
    report(rt, d, p)?;
    if end != bytes.len() {
        println!(rt; "the file does not end there")?;
    }
    Ok(())
}

// Reads until the buffer is full or the input ends, and answers how many bytes it put at the buffer's start. By hand: what the library has for it
// fails at an early end or allocates.
fn read_full<R: Read>(file: &mut R, buf: &mut [u8]) -> io::Result<usize>
    ensures bound { IfOk result (λ n. n ≤ length buf.new) }
    ensures bytes { IfOk result (λ n. Consumes (R.remaining file.old) (R.remaining file.new) (take n buf.new)) }
    ensures end { IfOk result (λ n. n < length buf.new → IsAtEnd (R.remaining file.new)) }
{
    let mut done = 0;
    while done < buf.len() {
        let n = file.read(&mut buf[done..])?;
        if n == 0 {
            return Ok(done);
        }
        done += n;
    }
    Ok(done)
}

// Memory of one value. Its length is all that its callers need: a proof that looks into a million zeros runs out of stack.
fn filled<T: Copy, const N: usize>(value: T) -> [T; N]
    ensures { length result ≡ N }
{
    [value; N]
}

fn replay_file<R: Read>(rt: &impl Print, file: &mut R) -> io::Result<()> {
    let mut space: [u8; 1048576] = filled(0);
    let mut mask: [u8; 65536] = filled(0);
    let mut words: [u32; 69632] = filled(0);
    let n = read_full(file, &mut space)?;
    replay(rt, &space[..n], &mut mask, &mut words)
}

// Writes a line to standard error: what could not be opened, a colon and the system's words for why, without their number.
fn fail(rt: &(impl Eprint + Alloc), what: &str, why: io::Error) -> io::Result<()> {
    let text = why.to_string(rt.alloc())?;
    match text.as_str().split_once(" (os error ") {
        Some((words, _)) => eprintln!(rt; "{what}: {words}"),
        None => eprintln!(rt; "{what}: {text}"),
    }
}

const ANSWERS: &str = "answers";

fn main(rt: HostRuntime) -> io::Result<()> {
    match File::open(&rt, ANSWERS) {
        Ok(mut file) => replay_file(&rt, &mut file),
        Err(why) => fail(&rt, ANSWERS, why),
    }
}
