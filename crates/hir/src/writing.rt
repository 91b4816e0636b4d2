ghost use Rattle.std.specs.Prelude.{◌≡◌, ◌+◌, ◌≤◌, length};
ghost use Rattle.std.proofs.Math.Seq.{paste};

// Rows written over those from `first` on, in whatever table.
pub fn write_rows<T: Copy>(table: &mut [T], first: u32, rows: &[T])
    requires { first + length rows.now ≤ length table.old }
    ensures { table.new ≡ paste table.old first rows.now (length rows.now) }
{
    let at = first as usize;
    let end = at + rows.len();
    table[at..end].copy_from_slice(rows);
}
