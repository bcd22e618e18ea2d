// How often a value stands in a row of words.
ghost use Rattle.std.specs.Prelude.{◌≡◌, ◌≢◌, ℕ, ◌<◌, ◌≤◌, ◌==◌, IfSome, ◌↔◌, IsTrue, IfNone, count_by};

fn count_of(found: &[u32], value: u32) -> usize
    ensures { result ≡ count_by (λ y. y == value) found.now }
{
    found.iter().filter(|y| **y == value).count()
}

fn is_frequent(found: &[u32], value: u32, need: usize) -> bool
    ensures { IsTrue result ↔ ((value ≢ 0) × (need ≤ count_by (λ y. y == value) found.now)) }
{
    value != 0 && count_of(found, value) >= need
}

// A value other than 0 that stands so often, none where there is none.
pub(crate) fn frequent(found: &[u32], need: usize) -> Option<u32>
    requires { 0 < need }
    ensures full { IfSome result (λ x. x ≢ 0) }
    ensures often { IfSome result (λ x. need ≤ count_by (λ y. y == x) found.now) }
    ensures none { IfNone result ((x : ℕ) → x ≢ 0 → count_by (λ y. y == x) found.now < need) }
{
    for value in found {
        if is_frequent(found, *value, need) {
            return Some(*value);
        }
    }
    None
}
