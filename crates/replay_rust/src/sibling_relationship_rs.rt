// Replays the calls of sibling_relationship.rs.
use replay::answers;
use replay::parse::Call;
use sibling_relationship::SiblingRelationship;

// Whether the call answers what the list says; None where it is no call of this file.
pub fn replayed(call: Call<'_>) -> Option<bool> {
    let Call { name, given, want } = call;
    let (b"from", &[x, y]) = (name, given) else {
        return None;
    };
    let relation = SiblingRelationship::from(u32::try_from(x).ok()?, u32::try_from(y).ok()?);
    Some(answers::accepted(&[u64::from(relation.number())], want))
}
