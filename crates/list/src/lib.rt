// One record of a path list: a command with the place of the next record, the end, or a reason to refuse.
// A record has two bytes of length, two of kind and four of each coordinate, the lowest byte first.
#![tactic(auto)]

ghost use Rattle.std.specs.Prelude.{◌≡◌, ◌+◌, ◌-◌, ◌≤◌, ◌<◌, length};
ghost use Rattle.std.specs.Iterator.{at_most};
ghost use Rattle.command.specs.Kinds.{kind_of};
ghost use Rattle.list.specs.declared.Reason.TheVariants.{Kind};
ghost use Rattle.list.specs.Records.{le16, float_at, point_at, body_of, length_of, record_of, step_at, number_of};

use command::{Command, UnknownKind, Verb};
use geometry::Point;

// Why a record is refused.
#[derive(Clone, Copy, Debug, PartialEq, Eq)]
pub enum Reason {
    // The header or the body passes the end of the list.
    Cut,
    // The kind is not 1 to 5.
    Kind,
    // The length is not the kind's.
    Length,
}

// The number of a reason.
impl From<Reason> for u32 {
    ghost from_gives = { λ why n. n ≡ number_of why };

    fn from(why: Reason) -> u32 {
        match why {
            Reason::Cut => 8,
            Reason::Kind => 9,
            Reason::Length => 10,
        }
    }
}

// The reason of a record whose kind no command has.
impl From<UnknownKind> for Reason {
    ghost from_gives = { λ _ why. why ≡ Kind };

    fn from(_: UnknownKind) -> Self {
        Self::Kind
    }
}

// A command, and the place behind its record.
#[derive(Clone, Copy, Debug, PartialEq)]
pub struct Record {
    pub command: Command,
    pub next: usize,
}

// Two bytes as a number, the low one first. This and those below take a place of any bytes, and no `Commands`: a body is a slice of its own.
fn half_at(s: &[u8], at: usize) -> u16
    requires { at + 2 ≤ length s.now }
    ensures { result ≡ le16 s.now at }
{
    u16::from_le_bytes([s[at], s[at + 1]])
}

// Four bytes as a float. Not by `f32::from_le_bytes`: that asks that the bits are no NaN's, and a list may hold any.
fn float_at(s: &[u8], at: usize) -> f32
    requires { at + 4 ≤ length s.now }
    ensures { result ≡ float_at s.now at }
{
    float::from_bytes(s[at], s[at + 1], s[at + 2], s[at + 3])
}

// Eight bytes as a point, x before y.
#[tactic(auto, unfolding(crate::specs::Records::point_at))]
fn point_at(s: &[u8], at: usize) -> Point
    requires { at + 8 ≤ length s.now }
    ensures { result ≡ point_at s.now at }
{
    Point {
        x: float_at(s, at),
        y: float_at(s, at + 4),
    }
}

// The length that a verb's record has.
#[tactic(auto, unfolding(crate::specs::Records::length_of))]
fn length_of(verb: Verb) -> u16
    ensures value { result ≡ length_of (kind_of verb) }
    ensures short { result < 27 }
{
    match verb {
        Verb::MoveTo | Verb::LineTo => 10,
        Verb::QuadTo => 18,
        Verb::CurveTo => 26,
        Verb::Close => 2,
    }
}

// The command of a verb, from the slice behind the header.
#[tactic(auto, unfolding(crate::specs::Records::length_of, crate::specs::Records::body_of))]
fn body_of(verb: Verb, body: &[u8]) -> Command
    requires { length_of (kind_of verb) ≤ length body.now + 2 }
    ensures { result ≡ body_of (kind_of verb) body.now }
{
    match verb {
        Verb::MoveTo => Command::MoveTo(point_at(body, 0)),
        Verb::LineTo => Command::LineTo(point_at(body, 0)),
        Verb::QuadTo => Command::QuadTo(point_at(body, 0), point_at(body, 8)),
        Verb::CurveTo => {
            Command::CurveTo(point_at(body, 0), point_at(body, 8), point_at(body, 16))
        }
        Verb::Close => Command::Close,
    }
}

// The record whose header says this length and this kind. Inlined, as `step_at` is.
#[inline(always)]
fn record_of(size: u16, kind: u16, list: &[u8], at: usize) -> Result<Record, Reason>
    requires { at + 4 ≤ length list.now }
    ensures { result ≡ record_of size kind list.now at }
{
    let verb = Verb::try_from(kind)?;
    let whole = usize::from(size) + 2;
    if size != length_of(verb) {
        return Err(Reason::Length);
    }
    if list.len() - at < whole {
        return Err(Reason::Cut);
    }
    let body = &list[at + 4..];
    Ok(Record {
        command: body_of(verb, body),
        next: at + whole,
    })
}

// What stands at a place of a list: a record, the end, or a reason to refuse. Inlined, since a caller would be handed it in memory.
#[inline(always)]
pub fn step_at(list: &[u8], at: usize) -> Result<Option<Record>, Reason>
    ensures { result ≡ step_at list.now at }
{
    if list.len() <= at {
        return Ok(None);
    }
    if list.len() - at < 4 {
        return Err(Reason::Cut);
    }
    let size = half_at(list, at);
    let kind = half_at(list, at + 2);
    Ok(Some(record_of(size, kind, list, at)?))
}

// The commands of a list, front to back, up to a reason to refuse, behind which nothing is read.
#[derive(Clone, Copy)]
pub struct Commands<'a> {
    pub list: &'a [u8],
    pub at: usize,
}

impl<'a> Commands<'a> {
    // From the list's beginning on.
    pub fn new(list: &'a [u8]) -> Commands<'a>
        ensures whole { result.list.now ≡ list.now }
        ensures start { result.at ≡ 0 }
    {
        Commands { list, at: 0 }
    }
}

impl<'a> Iterator for Commands<'a> {
    ghost use Rattle.list.specs.Commands.{Stepped};

    type Item = Result<Command, Reason>;

    ghost next_gives = { Stepped };

    ghost remaining = { λ s. at_most (length s.list.now - s.at) };

    fn next(&mut self) -> Option<Result<Command, Reason>> {
        match step_at(self.list, self.at) {
            Ok(None) => None,
            Ok(Some(record)) => {
                self.at = record.next;
                Some(Ok(record.command))
            }
            Err(why) => {
                self.at = self.list.len();
                Some(Err(why))
            }
        }
    }
}
