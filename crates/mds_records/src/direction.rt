//! The direction of metered energy.

ghost use Rattle.std.specs.Prelude.{◌≡◌, ◌↔◌, IsTrue};
ghost use Rattle.mds_records.specs.Layouts.{direction_of, direction_text};

/// Which way a register counts energy (MDFF Specification, DirectionIndicator).
#[derive(Clone, Copy, PartialEq, Eq)]
pub enum Direction {
    /// Import to the grid.
    Import,
    /// Export from the grid.
    Export,
}

impl Direction {
    ghost use Rattle.mds_records.specs.declared.direction.Direction.{Direction as ADirection};

    /// Reads a direction from its letter. `None` for any other text.
    pub fn read(text: &[u8]) -> Option<Direction>
        ensures { result ≡ direction_of text.now }
    {
        match text {
            b"I" => Some(Direction::Import),
            b"E" => Some(Direction::Export),
            _ => None,
        }
    }

    /// Its letter: `I` or `E`.
    pub fn text(self) -> &'static str
        ensures value { result.now ≡ direction_text self }
        ensures equal { (other : ADirection) →
            IsTrue (⟦<Direction as PartialEq>⟧.eq self other) ↔ (self ≡ other) }
    {
        match self {
            Direction::Import => "I",
            Direction::Export => "E",
        }
    }
}
