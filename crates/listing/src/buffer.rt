//! The buffer in which a listing is gathered.
ghost use Rattle.std.specs.Prelude.{◌≡◌, ◌+◌, ◌≤◌, length};
ghost use Rattle.std.proofs.Math.Seq.{paste};

/// Writes a line into the buffer, where the caller has room for it.
pub fn put(out: &mut [u8], at: usize, line: &[u8])
    requires { at + length line.now ≤ length out.old }
    ensures { out.new
        ≡ paste out.old at line.now (length line.now) }
{
    out[at..at + line.len()].copy_from_slice(line);
}
