// Worked examples, as statements that are proved.
ghost use Rattle.registers.specs.Examples.{Examples};

// The examples of naming and of the stacked cells' end hold.
pub fn examples_hold()
    ensures { Examples }
{}
