/// What is to be done: a text of so many lines is read so often, and printed so often.
#[derive(Clone, Copy)]
pub struct Plan {
    pub lines: usize,
    pub readings: usize,
    pub printings: usize,
}

impl Plan {
    /// The plan that the three words give, where each is a number.
    pub fn of(
        lines: Option<String>,
        readings: Option<String>,
        printings: Option<String>,
    ) -> Option<Plan> {
        let lines = lines?.as_str().parse().ok()?;
        let readings = readings?.as_str().parse().ok()?;
        let printings = printings?.as_str().parse().ok()?;
        Some(Plan {
            lines,
            readings,
            printings,
        })
    }
}
