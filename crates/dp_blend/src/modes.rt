//! The modes of blending, and the numbers that name them in messages.
//!
//! The rule: docs/protocol.md, "Numbers and blending".

ghost use Rattle.std.specs.Prelude.{◌≡◌, IfSome};
ghost use Rattle.dp_blend.specs.Blending.{mode_numbered, number_of};

/// How a source is blended with a destination.
#[derive(Clone, Copy, Debug, PartialEq, Eq)]
pub enum Mode {
    /// The source's alpha takes the destination away.
    Erase,
    /// The source lies over the destination.
    Normal,
    /// The channels are multiplied.
    Multiply,
    /// The channels are added, up to the alpha.
    Add,
    /// The source lies over the destination, whose alpha stays.
    Recolor,
    /// The source takes the destination's place.
    Replace,
}

impl Mode {
    /// The mode that a number names in a message. `None` for a number that isn't listed.
    #[inline]
    pub fn from_u8(n: u8) -> Option<Mode>
        ensures value { result ≡ mode_numbered n }
        ensures number { IfSome result (λ mode. number_of mode ≡ n) }
    {
        match n {
            0 => Some(Mode::Erase),
            1 => Some(Mode::Normal),
            2 => Some(Mode::Multiply),
            9 => Some(Mode::Add),
            10 => Some(Mode::Recolor),
            255 => Some(Mode::Replace),
            _ => None,
        }
    }

    /// The number that names this mode in a message.
    pub fn number(self) -> u8
        ensures value { result ≡ number_of self }
        ensures listed { mode_numbered result ≡ Some self }
    {
        match self {
            Mode::Erase => 0,
            Mode::Normal => 1,
            Mode::Multiply => 2,
            Mode::Add => 9,
            Mode::Recolor => 10,
            Mode::Replace => 255,
        }
    }
}
