ghost use Rattle.std.specs.Prelude.{◌≡◌, ℕ, false, List, map};
ghost use Rattle.vl_ddl.specs.Fault.{words_in};
ghost use Rattle.vl_ddl.specs.Grammar.{Table, IsSchema};
ghost use Rattle.vl_ddl.specs.Meaning.{meaning};

/// A text has one meaning at most.
pub fn one_meaning()
    ensures { (text : List ℕ) (ss qs : List Table) → IsSchema false ss (words_in text) → IsSchema false qs (words_in text) → map meaning ss ≡ map meaning qs }
{}
