// The five commands of a path, with their verbs and their transform.
// Each command carries its coordinates as points of 32-bit floats.
#![tactic(auto)]

ghost use Rattle.std.specs.Prelude.{◌≡◌};
ghost use Rattle.command.specs.Commands.{verb_of, moved_all, is_move, is_close, draws};
ghost use Rattle.command.specs.Kinds.{Decodes};

use geometry::{Point, Transform};

#[derive(Clone, Copy, Debug, PartialEq)]
pub enum Command {
    // Begins a new subpath at the point.
    MoveTo(Point),
    // A straight line from the previous point to the point.
    LineTo(Point),
    // A quadratic curve from the previous point to the last one, with one control point.
    QuadTo(Point, Point),
    // A cubic curve from the previous point to the last one, with two control points.
    CurveTo(Point, Point, Point),
    // Closes a subpath, connecting the final point to the initial one.
    Close,
}

// What a command does.
#[derive(Clone, Copy, Debug, PartialEq, Eq)]
pub enum Verb {
    MoveTo,
    LineTo,
    QuadTo,
    CurveTo,
    Close,
}

// The kind of a record that no command has.
#[derive(Clone, Copy, Debug, PartialEq, Eq)]
pub struct UnknownKind(pub u16);

// The verb of a record's kind.
impl TryFrom<u16> for Verb {
    type Error = UnknownKind;

    ghost try_from_gives = { Decodes };

    fn try_from(kind: u16) -> Result<Self, UnknownKind> {
        match kind {
            1 => Ok(Verb::MoveTo),
            2 => Ok(Verb::LineTo),
            3 => Ok(Verb::QuadTo),
            4 => Ok(Verb::CurveTo),
            5 => Ok(Verb::Close),
            _ => Err(UnknownKind(kind)),
        }
    }
}

impl Command {
    // The verb of the command.
    pub fn verb(self) -> Verb
        ensures { result ≡ verb_of self }
    {
        match self {
            Command::MoveTo(_) => Verb::MoveTo,
            Command::LineTo(_) => Verb::LineTo,
            Command::QuadTo(_, _) => Verb::QuadTo,
            Command::CurveTo(_, _, _) => Verb::CurveTo,
            Command::Close => Verb::Close,
        }
    }

    // Whether the command is a MoveTo.
    pub fn is_move(self) -> bool
        ensures { result ≡ is_move self }
    {
        matches!(self, Command::MoveTo(_))
    }

    // Whether the command is a Close.
    pub fn is_close(self) -> bool
        ensures { result ≡ is_close self }
    {
        matches!(self, Command::Close)
    }

    // Whether the command draws: a LineTo, a QuadTo or a CurveTo.
    pub fn draws(self) -> bool
        ensures { result ≡ draws self }
    {
        matches!(
            self,
            Command::LineTo(_) | Command::QuadTo(_, _) | Command::CurveTo(_, _, _)
        )
    }

    // The command with each of its points transformed.
    #[tactic(auto, unfolding(crate::specs::Commands::moved_all))]
    pub fn transform(self, t: Transform) -> Command
        ensures { result ≡ moved_all t self }
    {
        match self {
            Command::MoveTo(p) => Command::MoveTo(t.transform_point(p)),
            Command::LineTo(p) => Command::LineTo(t.transform_point(p)),
            Command::QuadTo(c, p) => Command::QuadTo(t.transform_point(c), t.transform_point(p)),
            Command::CurveTo(c1, c2, p) => Command::CurveTo(
                t.transform_point(c1),
                t.transform_point(c2),
                t.transform_point(p),
            ),
            Command::Close => Command::Close,
        }
    }
}
