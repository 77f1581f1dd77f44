//! The keys of a table that have a row.

ghost use Rattle.std.specs.Prelude.{◌≡◌, IfOk, OnOk};
ghost use Rattle.std.specs.Cmp.{eq_by_cmp_equiv, partial_equiv_from_equiv};
ghost use Rattle.std.specs.Cmp.Lexicographic.{slice_cmp};
ghost use Rattle.std.specs.Ordering.{is_eq};
ghost use Rattle.indexmap.specs.IndexSet.{contains, Updates};
ghost use Rattle.run_text.specs.KeyOrder.{keys_total};
ghost use Rattle.run_text.specs.Report.{cell_cmp};
ghost use Rattle.run_text.specs.RowHash.{cells_fed, same_cells_fed};
ghost use Rattle.run_text.specs.RowKeys.{is_equal_key};

use crate::row_lines::hash_cells;
use crate::rows::cmp_cells;
use indexmap::IndexSet;
use ksql_types::Value;
use std::alloc::AllocError;
use std::hash::{Hash, Hasher};

/// A key, borrowed.
#[derive(Clone, Copy, Drop)]
pub struct LentKey<'a> {
    pub cells: &'a [Value],
}

/// Keys that have a row.
pub type RowKeys<'a> = IndexSet<LentKey<'a>>;

/// Records whether a key has a row from now on, and returns whether it had one.
pub fn turn<'a>(rows: &mut RowKeys<'a>, key: LentKey<'a>, stays: bool) -> Result<bool, AllocError>
    ensures had { IfOk result (λ had. had ≡ contains is_equal_key rows.old key.entry) }
    ensures turned { OnOk result (Updates is_equal_key rows.old rows.new key.entry stays) }
{
    if stays {
        Ok(!rows.insert(key)?)
    } else {
        Ok(rows.swap_remove(&key))
    }
}

impl PartialEq for LentKey<'_> {
    ghost eq = { λ a b. is_eq (slice_cmp cell_cmp a.cells.now b.cells.now) };

    ghost laws = { partial_equiv_from_equiv (eq_by_cmp_equiv (keys_total (λ k. k.cells.now))) };

    fn eq(&self, other: &Self) -> bool {
        cmp_cells(self.cells, other.cells).is_eq()
    }
}

impl Eq for LentKey<'_> {
    ghost laws = { eq_by_cmp_equiv (keys_total (λ k. k.cells.now)) };
}

impl Hash for LentKey<'_> {
    ghost hash_input = { λ k. cells_fed k.cells.now };

    ghost respects_eq = { λ a b same. same_cells_fed a.cells.now b.cells.now same };

    fn hash<H: Hasher>(&self, state: &mut H) {
        hash_cells(self.cells, state);
    }
}
