//! What the answers of steps mean for the whole response, the contract of a function without a body.

ghost use Rattle.loader.specs.Whole.{StepsSayOfWhole};

/// What a step of a load tells early is so of the whole response: where it may be read, the verdict on all bytes that its wire
/// ever gives allows it by the same rule; the pieces handed out are its pieces in order; and a fault or an end is the wire's own.
pub fn steps_say_of_the_whole()
    ensures { StepsSayOfWhole }
{}
