// Which branches are under a qualifying predicate.
ghost use Rattle.std.specs.Prelude.{◌≡◌};
ghost use Rattle.instruction_b.specs.Formats.{predicated};

use crate::record::Branch;

impl Branch {
    // Whether the format has a qualifying predicate.
    pub fn predicated(self) -> bool
        ensures { result ≡ predicated self }
    {
        match self {
            Branch::Counted { .. } | Branch::Predict { .. } | Branch::PredictIndirect { .. } =>
                false,
            Branch::Clrrrb | Branch::ClrrrbPr => false,
            _ => true,
        }
    }
}
