//! What follows from the spelling of steps.
ghost use Rattle.run_steps.specs.Steps.{OneStepALine};

/// A line spells one step at most.
pub fn a_line_is_one_step()
    ensures { OneStepALine }
{}
