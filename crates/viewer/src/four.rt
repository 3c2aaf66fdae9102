// The four words of a position or of a writer's state.
ghost use Rattle.std.specs.Prelude.{◌≡◌, [], ◌∷◌, ◌++◌, ◌≤◌, length, drop};

// Four words at the start; those behind them stay.
pub(crate) fn put_four(words: &mut [u64], a: u64, b: u64, c: u64, d: u64)
    requires { 4 ≤ length words.old }
    ensures { words.new ≡ (a ∷ b ∷ c ∷ d ∷ []) ++ drop 4 words.old }
{
    words[0] = a;
    words[1] = b;
    words[2] = c;
    words[3] = d;
}
