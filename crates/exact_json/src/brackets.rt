//! Brackets that are open at once, counted without reading the text.

ghost use Rattle.std.specs.Prelude.{◌≡◌, ℕ, ◌+◌, ◌-◌, ◌<◌, ◌≤◌, ◌^◌, ◌∷◌, List, IfSome};
ghost use Rattle.exact_json.specs.Brackets.{is_too_deep, outside};
ghost use Rattle.exact_json.specs.Counting.{scan, scan_on};

// The first count of open brackets that is too many.
const TOO_MANY: u64 = 65;

// Where a byte stands: outside of quoted stretches, inside of one, or there after a backslash.
#[derive(Clone, Copy)]
pub(crate) enum Place {
    Outside,
    Inside,
    Escaped,
}

/// Whether a line opens more than 64 brackets at once, those in quoted stretches aside.
pub(crate) fn is_too_deep(line: &[u8]) -> bool
    ensures { result ≡ is_too_deep line.now }
{
    let mut place = Place::Outside;
    let mut left = TOO_MANY;
    for byte in line {
        match step(place, left, *byte) {
            Some(next) => (place, left) = next,
            None => return true,
        }
    }
    false
}

// The place after a byte, and how far the count may rise from there. None where the byte opens too many.
fn step(place: Place, left: u64, byte: u8) -> Option<(Place, u64)>
    requires { left < 2 ^ 64 - 1 }
    ensures scan { (xs : List ℕ) → scan place (byte ∷ xs) left ≡ scan_on result xs }
    ensures left { IfSome result (λ next. next.1 ≤ left + 1) }
{
    match place {
        Place::Outside => step_outside(left, byte),
        Place::Inside => match byte {
            b'"' => Some((Place::Outside, left)),
            b'\\' => Some((Place::Escaped, left)),
            _ => Some((Place::Inside, left)),
        },
        Place::Escaped => Some((Place::Inside, left)),
    }
}

fn step_outside(left: u64, byte: u8) -> Option<(Place, u64)>
    requires { left < 2 ^ 64 - 1 }
    ensures scan { (xs : List ℕ) → outside (byte ∷ xs) left ≡ scan_on result xs }
    ensures left { IfSome result (λ next. next.1 ≤ left + 1) }
{
    match byte {
        b'"' => Some((Place::Inside, left)),
        b'[' | b'{' => {
            if left <= 1 {
                return None;
            }
            Some((Place::Outside, left - 1))
        }
        b']' | b'}' => Some((Place::Outside, left + 1)),
        _ => Some((Place::Outside, left)),
    }
}
