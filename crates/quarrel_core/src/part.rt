//! An interval of a list, and what it is after the list's split.

ghost use Rattle.std.specs.Prelude.{◌<◌};
ghost use Rattle.collide.specs.After.{IsFollowing};

// An interval of a list, and whether its hash is known.
#[derive(Clone, Copy)]
pub(crate) struct Part {
    pub(crate) start: u64,
    pub(crate) end: u64,
    pub(crate) known: bool,
}

// What an interval that ends after a split is there, counted from the split.
pub(crate) fn after(middle: u64, part: Part) -> Part
    requires { middle < part.end }
    ensures { IsFollowing middle part.start part.end part.known
        result.start result.end result.known }
{
    if middle <= part.start {
        Part {
            start: part.start - middle,
            end: part.end - middle,
            known: part.known,
        }
    } else {
        Part {
            start: 0,
            end: part.end - middle,
            known: false,
        }
    }
}
