// Bytes copied into lent memory, and zeros written over it.
ghost use Rattle.std.specs.Prelude.{◌≡◌, ◌-◌, length, take, replicate};
ghost use Rattle.lists.specs.Parts.{put};

// Copies a part into lent memory from `at` on, as much of it as there is room for.
pub fn copy_into(out: &mut [u8], at: usize, part: &[u8])
    ensures { out.new ≡ put at (take (length out.old - at) part.now) out.old }
{
    if at < out.len() {
        let n = part.len().min(out.len() - at);
        for i in 0..n {
            out[at + i] = part[i];
        }
    }
}

// Writes zeros everywhere.
pub fn clear(out: &mut [u8])
    ensures { out.new ≡ replicate (length out.old) 0 }
{
    out.fill(0);
}
