ghost use Rattle.std.specs.Prelude.{◌≡◌};
ghost use Rattle.op_join.specs.Joining.{keeps_left, keeps_right};

/// Whose rows are kept where the other input has none of their key value.
#[derive(Clone, Copy, Debug, PartialEq, Eq)]
pub enum JoinKind {
    Inner,
    Left,
    Right,
    Full,
}

impl JoinKind {
    pub(crate) fn keeps_left(self) -> bool
        ensures { result ≡ keeps_left self }
    {
        match self {
            JoinKind::Left | JoinKind::Full => true,
            JoinKind::Inner | JoinKind::Right => false,
        }
    }

    pub(crate) fn keeps_right(self) -> bool
        ensures { result ≡ keeps_right self }
    {
        match self {
            JoinKind::Right | JoinKind::Full => true,
            JoinKind::Inner | JoinKind::Left => false,
        }
    }
}
