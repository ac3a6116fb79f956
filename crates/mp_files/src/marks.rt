// A set of places, a bit each in lanes of eight.
ghost use Rattle.std.specs.Prelude.{◌≡◌, ◌+◌, ◌*◌, ◌≤◌, ◌<◌, ◌/◌, ◌&&◌, ◌||◌, ◌==◌, nat_le, nat_lt, length, ℕ};
ghost use Rattle.mp_files.specs.Stored.{is_marked};

// Whether a place is marked; one past the last lane is not.
pub(crate) fn is_marked(marks: &[u8], at: usize) -> bool
    ensures { result ≡ is_marked marks.now at }
{
    match marks.get(at / 8) {
        Some(lane) => (*lane >> (at % 8)) & 1 == 1,
        None => false,
    }
}

// Marks a place, for which there is a lane.
fn mark(marks: &mut [u8], at: usize)
    requires { at / 8 < length marks.old }
    ensures { (k : ℕ) → is_marked marks.new k ≡ (k == at || is_marked marks.old k) }
{
    marks[at / 8] |= 1 << (at % 8);
}

// Marks the places from one on up to another, for which there are lanes.
pub(crate) fn mark_range(marks: &mut [u8], from: usize, to: usize)
    requires order { from ≤ to }
    requires lanes { to ≤ 8 * length marks.old }
    ensures { (k : ℕ) → is_marked marks.new k ≡ (nat_le from k && nat_lt k to || is_marked marks.old k) }
{
    'places: for at in from..to {
        mark(marks, at);
    }
}
