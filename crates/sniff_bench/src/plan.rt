ghost use Rattle.std.specs.Prelude.{◌<◌};

/// What is to be fed: so many bodies of each shape, of so many bytes each, in pieces of so many.
#[derive(Clone, Copy)]
pub struct Plan {
    pub bodies: usize,
    pub bytes: usize,
    pub piece: usize,
    ghost cut: { 0 < piece },
}

impl Plan {
    /// The plan that the three words give, where each is a number and a piece has a byte.
    pub fn of(
        bodies: Option<String>,
        bytes: Option<String>,
        piece: Option<String>,
    ) -> Option<Plan> {
        let bodies = bodies?.as_str().parse().ok()?;
        let bytes = bytes?.as_str().parse().ok()?;
        let piece = piece?.as_str().parse().ok()?;
        if piece == 0 {
            return None;
        }
        Some(Plan {
            bodies,
            bytes,
            piece,
        })
    }
}
