// Which child of its parent a tile is: the call of sibling_relationship.rs.
ghost use Rattle.std.specs.Prelude.{◌≡◌};
ghost use Rattle.c_give.specs.Exported.{answered, never};
ghost use Rattle.sibling_relationship.specs.Relation.{relation_at};

// Of any column and row: upper left 0, upper right 1, lower left 2, lower right 3.
// Never refused.
#[unsafe(no_mangle)]
pub extern "C" fn nori_sibling_relationship(x: u32, y: u32, relation: &mut u8) -> u8
    ensures { answered result relation.new ≡ never (relation_at x y) }
{
    c_parent::sibling_relationship(x, y, relation)
}
