// A unit at the front of a text.
ghost use Rattle.std.specs.Prelude.{◌≢◌, ◌≡◌, ◌∷◌, ℕ, List, MatchOption};

/// What stands behind a unit at the front, or `None` where it doesn't stand there.
pub(crate) fn behind_unit(text: &[u16], unit: u16) -> Option<&[u16]>
    ensures { MatchOption result ((rest : List ℕ) → text.now ≢ unit ∷ rest) (λ rest. text.now ≡ unit ∷ rest.now) }
{
    match text {
        [first, rest @ ..] if *first == unit => Some(rest),
        _ => None,
    }
}
