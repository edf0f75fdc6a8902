// Compare relations.
ghost use Rattle.std.specs.Prelude.{◌≡◌, ◌%◌, ◌^◌};
ghost use Rattle.integer.specs.Relations.{relates};

// A relation between two words. All but `Ltu` read them as signed numbers.
#[derive(Clone, Copy, PartialEq, Eq, Debug)]
pub enum Relation {
    Eq,
    Lt,
    Ltu,
    Le,
    Gt,
    Ge,
}

impl Relation {
    // Whether it holds between two words.
    pub fn holds(self, a: u64, b: u64) -> bool
        ensures { result ≡ relates 64 self a b }
    {
        match self {
            Relation::Eq => a == b,
            Relation::Lt => a.cast_signed() < b.cast_signed(),
            Relation::Ltu => a < b,
            Relation::Le => a.cast_signed() <= b.cast_signed(),
            Relation::Gt => b.cast_signed() < a.cast_signed(),
            Relation::Ge => b.cast_signed() <= a.cast_signed(),
        }
    }

    // Whether it holds between the low halves of two words: at the top of a word they compare as words do.
    pub fn holds4(self, a: u64, b: u64) -> bool
        ensures { result ≡ relates 32 self (a % 2 ^ 32) (b % 2 ^ 32) }
    {
        self.holds(a << 32, b << 32)
    }
}
