//! Where a thread is, between marks.
ghost use Rattle.std.specs.Prelude.{◌≡◌};
ghost use Rattle.loom_walk.specs.FilterWalk.{begin_place, beginning_line};

/// The mark, or the trap, directly behind which the thread is.
#[derive(Clone, Copy, Debug, Drop)]
pub enum Spot {
    /// It made an entry behind the last one, or passed a back edge.
    Elsewhere,
    /// The statement of this line has begun. The place is its in place.
    Beginning(u32, u16),
    /// A frame has begun, at this entry place.
    Entered(u16),
    /// The statement of this line is complete.
    Complete(u32),
    /// A frame of the function of this number has ended.
    Left(u8),
    /// It trapped on this line.
    Trapped(u32),
}

/// The place where a statement or a frame has begun, if one has.
pub(crate) fn begin_place(spot: Spot) -> Option<u16>
    ensures { result ≡ begin_place spot }
{
    match spot {
        Spot::Elsewhere => None,
        Spot::Beginning(_, place) => Some(place),
        Spot::Entered(place) => Some(place),
        Spot::Complete(_) => None,
        Spot::Left(_) => None,
        Spot::Trapped(_) => None,
    }
}

/// The line of the statement that has begun, if one has.
pub(crate) fn beginning_line(spot: Spot) -> Option<u32>
    ensures { result ≡ beginning_line spot }
{
    match spot {
        Spot::Elsewhere => None,
        Spot::Beginning(line, _) => Some(line),
        Spot::Entered(_) => None,
        Spot::Complete(_) => None,
        Spot::Left(_) => None,
        Spot::Trapped(_) => None,
    }
}
