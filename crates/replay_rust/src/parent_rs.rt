// Replays the calls of parent.rs.
use parent::Parents;
use replay::parse::Call;
use replay::{answers, args};

// Whether the call answers what the list says; None where it is no call of this file.
pub fn replayed(call: Call<'_>) -> Option<bool> {
    let Call { name, given, want } = call;
    let (b"iter_parents", &[x, y, z]) = (name, given) else {
        return None;
    };
    let t = args::tile(x, y, z)?;
    let same = match parent::iter_parents(t.x, t.y, t.z) {
        // A tile that is refused is refused here already, and not at the first step of a cursor.
        Ok(parents) => matches!(want, [0, ..]) && answers::same_walk(parents, Parents::next, want),
        Err(why) => answers::refused(why, 1, want),
    };
    Some(same)
}
