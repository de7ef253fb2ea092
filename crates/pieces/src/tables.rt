// Tables that are filled place by place.
// Internal: a function with a `requires` is called by proved code alone.
ghost use Rattle.std.specs.Prelude.{ℕ, ◌≤◌, ◌<◌, length};
ghost use Rattle.pieces.specs.Tables.{Tabled};

// Writes the first `count` places of a table, each by its index, of which its value is made. The count stands beside the
// table, as in the definitions of the callers, which are of the whole array: with a table that is cut each caller's
// clause would have to speak of its beginning and of what is left.
pub fn fill_table<T: Copy, F: Fn(usize) -> T>(table: &mut [T], count: usize, value: F)
    requires room { count ≤ length table.old }
    requires callable { (i : ℕ) → i < count → F.pre value i }
    ensures { Tabled (F.post value) count table.old table.new }
{
    for i in 0..count {
        table[i] = value(i);
    }
}
