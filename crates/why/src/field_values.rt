// A field's value, by row and position.
ghost use Rattle.std.specs.Prelude.{◌≡◌, get_or};
ghost use Rattle.account.specs.Judge.{record_row, values_of};
ghost use Rattle.why.specs.Inner.{Sized};

// The value i, counted from 0, of a record of that row.
pub(crate) fn value_at(r: &[u8], row: u8, i: usize) -> u64
    requires { Sized r.now × (row ≡ record_row r.now) }
    ensures { result ≡ get_or (values_of r.now) i 0 }
{
    let v = by_row::read(row as u64, r, 4);
    if i < 12 { v[i] } else { 0 }
}
