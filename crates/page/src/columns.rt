// A page's columns, read as the parts of the body that hold them. This is the one place where a refusal is given its column.
ghost use Rattle.std.specs.Prelude.{◌≡◌, ◌+◌, ◌≤◌, length};
ghost use Rattle.answer.specs.Limits.{vertex_limit};
ghost use Rattle.page.specs.Contents.{column_of};
ghost use Rattle.page.specs.Scratched.{Scratched};
ghost use Rattle.page.specs.Loaded.{Columns};

use answer::{Refusal, axis, in_column};
use frame::head::Head;

// As many values of a page's column, x or y, as the scratch holds.
pub(crate) fn column_into(s: &[u8], column: u8, out: &mut [u64]) -> Result<(), Refusal>
    requires { length out.old ≤ vertex_limit }
    ensures { Scratched (column_of column s.now (length out.old)) result out.new }
{
    let n = out.len();
    in_column(column::read::decode(s, n, out), column)?;
    Ok(())
}

// The x column and the y column of a page, each as the part of the body that holds it.
pub(crate) fn columns(b: &[u8], h: Head, xs: &mut [u64], ys: &mut [u64]) -> Result<(), Refusal>
    requires b_len { length b.now ≡ h.layout.columns + h.cx + h.cy }
    requires v_le_most_vertices { h.v ≤ vertex_limit }
    requires xs_len { (length xs.old ≡ h.v) × (length ys.old ≡ h.v) }
    ensures { Columns h b.now result xs.new ys.new }
{
    let x = h.layout.columns;
    let y = x + h.cx;
    let end = y + h.cy;
    column_into(&b[x..y], axis::X, xs)?;
    column_into(&b[y..end], axis::Y, ys)
}
