// Lent runs: the writes that the store's calls are made of, and numbers to count with.
// Internal: a function with a `requires` is called by proved code alone.
ghost use Rattle.std.specs.Prelude.{◌≡◌, ◌+◌, ◌≤◌, ◌<◌, length, get_or, replicate};
ghost use Rattle.layout.specs.Runs.{write};

// x in the n words from `at`.
#[tactic(auto, using(crate::specs::RunLaws::fills))]
pub fn fill<T: Copy>(run: &mut [T], at: usize, n: usize, x: T)
    requires { at + n ≤ length run.old }
    ensures { run.new ≡ write run.old at (replicate n x) }
{
    for word in &mut run[at..at + n] {
        *word = x;
    }
}

// All words of a run, from `at`.
#[tactic(auto, using(crate::specs::RunLaws::write_part))]
pub fn copy<T: Copy>(run: &mut [T], at: usize, from: &[T])
    requires { at + length from.now ≤ length run.old }
    ensures { run.new ≡ write run.old at from.now }
{
    run[at..at + from.len()].copy_from_slice(from);
}

// A word, as a number to count with.
pub fn word(words: &[u32], i: usize) -> usize
    requires { i < length words.now }
    ensures { result ≡ get_or words.now i 0 }
{
    words[i] as usize
}
