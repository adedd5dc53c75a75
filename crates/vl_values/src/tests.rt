ghost use Rattle.std.specs.Prelude.{◌≡◌, List};

use crate::test::Test;
use std::marker::Model;

/// The tests of a predicate, which contracts see as their list.
#[derive(Debug, Drop)]
pub struct Tests {
    tests: Vec<Test>,
}

impl Model for Tests {
    ghost use Rattle.std.specs.Prelude.{List};
    ghost use Rattle.vl_values.specs.declared.test.Test.{Test as ATest};

    ghost Value = { List ATest };

    ghost view = { λ t. t.tests.items };
}

impl Tests {
    /// Takes the vector over, with no copy.
    pub fn from_vec(tests: Vec<Test>) -> Tests
        ensures { result ≡ tests.items }
    {
        Tests { tests }
    }

    pub fn as_slice(&self) -> &[Test]
        ensures { result.now ≡ self.now }
    {
        self.tests.as_slice()
    }
}
