/// A rule that a VSchema file keeps, and of which a catalog file has the first. A refusal prints it as `V`
/// and its number, and names the least.
#[derive(Clone, Copy, Debug, PartialEq, Eq)]
pub enum VschemaRule {
    /// V1: each member has its JSON kind; in a catalog file no member is missing, and no two keyspaces have
    /// one name. Printed as `V1`.
    MemberKind,
    /// V2: each vindex has a `type`, which is one of the four. Printed as `V2`.
    VindexType,
    /// V3: a lookup has `owner` and `params`, and these have `table`, `from` and `to`. Printed as `V3`.
    LookupMembers,
    /// V4: a column vindex has either `column` or `columns`, and the `name` of a vindex. Printed as `V4`.
    ColumnVindex,
    /// V5: a table has no `type` but the empty text, and no `pinned`. Printed as `V5`.
    PlainTable,
    /// V6: `ignore_nulls` and `write_only` of a lookup are `"true"` or `"false"`. Printed as `V6`.
    LookupFlag,
}

impl VschemaRule {
    ghost use Rattle.std.specs.Prelude.{◌≡◌};
    ghost use Rattle.vl_vschema.specs.RuleNumber.{number_of};

    /// The number by which it is printed: 4 of V4.
    pub fn number(&self) -> u8
        ensures { result ≡ number_of self.now }
    {
        match self {
            VschemaRule::MemberKind => 1,
            VschemaRule::VindexType => 2,
            VschemaRule::LookupMembers => 3,
            VschemaRule::ColumnVindex => 4,
            VschemaRule::PlainTable => 5,
            VschemaRule::LookupFlag => 6,
        }
    }
}
