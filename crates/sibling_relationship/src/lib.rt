// Which child of its parent a tile is.
#![tactic(auto)]

ghost use Rattle.std.specs.Prelude.{◌≡◌};
ghost use Rattle.sibling_relationship.specs.Relation.{relation_number, relation_at};

// The numbers are those that the Rust gives each.
#[derive(Clone, Copy, Debug, PartialEq, Eq)]
pub enum SiblingRelationship {
    UpperLeft = 0,
    UpperRight = 1,
    LowerLeft = 2,
    LowerRight = 3,
}

impl SiblingRelationship {
    // The relation of a column and a row, whether or not they name a tile.
    pub fn from(x: u32, y: u32) -> Self
        ensures { relation_number result ≡ relation_at x y }
    {
        match (x % 2, y % 2) {
            (0, 0) => SiblingRelationship::UpperLeft,
            (_, 0) => SiblingRelationship::UpperRight,
            (0, _) => SiblingRelationship::LowerLeft,
            (_, _) => SiblingRelationship::LowerRight,
        }
    }

    pub fn number(self) -> u8
        ensures { result ≡ relation_number self }
    {
        self as u8
    }
}
