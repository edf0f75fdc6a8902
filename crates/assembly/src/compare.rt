// The completers of compares and of the tests of a bit.
use encoding::Parallel;
use instruction_a::{Compare, Relation, ZeroRelation};
use instruction_i::Test;
use std::fmt;

// A relation and a type, each with its dot; the type none has no text.
#[derive(Clone, Copy)]
pub(crate) struct Completers {
    relation: &'static str,
    kind: &'static str,
}

// Functions and no `Display`: the enums are another crate's, where they have no text.
fn relation_text(relation: Relation) -> &'static str {
    match relation {
        Relation::Lt => ".lt",
        Relation::Ltu => ".ltu",
        Relation::Eq => ".eq",
    }
}

fn parallel_text(parallel: Parallel) -> &'static str {
    match parallel {
        Parallel::And => ".and",
        Parallel::Or => ".or",
        Parallel::OrAndcm => ".or.andcm",
    }
}

impl From<Compare> for Completers {
    fn from(compare: Compare) -> Completers {
        let (relation, kind) = match compare {
            Compare::Normal(relation) => (relation_text(relation), ""),
            Compare::Unc(relation) => (relation_text(relation), ".unc"),
            Compare::Eq(parallel) => (".eq", parallel_text(parallel)),
            Compare::Ne(parallel) => (".ne", parallel_text(parallel)),
        };
        Completers { relation, kind }
    }
}

impl From<Test> for Completers {
    fn from(test: Test) -> Completers {
        let (relation, kind) = match test {
            Test::Normal => (".z", ""),
            Test::Unc => (".z", ".unc"),
            Test::Zero(parallel) => (".z", parallel_text(parallel)),
            Test::Nonzero(parallel) => (".nz", parallel_text(parallel)),
        };
        Completers { relation, kind }
    }
}

impl Completers {
    // Of two values, so no `From`.
    pub(crate) fn of_zero(relation: ZeroRelation, parallel: Parallel) -> Completers {
        let relation = match relation {
            ZeroRelation::Gt => ".gt",
            ZeroRelation::Le => ".le",
            ZeroRelation::Ge => ".ge",
            ZeroRelation::Lt => ".lt",
        };
        let kind = parallel_text(parallel);
        Completers { relation, kind }
    }
}

impl fmt::Display for Completers {
    fn fmt<W: fmt::Write>(&self, f: &mut fmt::Formatter<W>) -> fmt::Result {
        f.write_str(self.relation)?;
        f.write_str(self.kind)
    }
}
