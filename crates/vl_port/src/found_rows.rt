use std::marker::Model;
use vl_values::key::Key;
use vl_values::row::Row;

/// The rows that a read gave, with their keys.
#[derive(Drop)]
pub struct FoundRows {
    rows: Vec<(Key, Row)>,
}

impl Model for FoundRows {
    ghost use Rattle.std.specs.Prelude.{List};
    ghost use Rattle.vl_values.specs.declared.key.Key.{Key as AKey};
    ghost use Rattle.vl_values.specs.declared.value.Value.{Value as AValue};

    ghost Value = { List (AKey × List AValue) };

    ghost view = { λ f. f.rows.items };
}

impl FoundRows {
    ghost use Rattle.std.specs.Prelude.{◌≡◌};

    /// These rows, moved.
    pub fn from_vec(rows: Vec<(Key, Row)>) -> FoundRows
        ensures { result ≡ rows.items }
    {
        FoundRows { rows }
    }

    /// The rows, moved out.
    pub fn into_vec(self) -> Vec<(Key, Row)>
        ensures { result.items ≡ self }
    {
        let FoundRows { rows } = self;
        rows
    }

    /// The rows, with their keys.
    pub fn as_slice(&self) -> &[(Key, Row)]
        ensures { result.now ≡ self.now }
    {
        self.rows.as_slice()
    }
}
