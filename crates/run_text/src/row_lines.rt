//! Lines compared by row: two are equal if key and window are.

ghost use Rattle.std.specs.Prelude.{◌≡◌, fold};
ghost use Rattle.std.specs.Cmp.{eq_by_cmp_equiv, partial_equiv_from_equiv};
ghost use Rattle.std.specs.Ordering.{is_eq};
ghost use Rattle.run_text.specs.Lines.{shown_of};
ghost use Rattle.run_text.specs.Report.{row_cmp};
ghost use Rattle.run_text.specs.RowOrder.{lines_total};
ghost use Rattle.run_text.specs.RowHash.{cell_fed, cells_fed, row_fed, span_fed, same_fed};

use crate::line::Line;
use crate::rows::cmp_row;
use ksql_types::{Span, Value};
use std::hash::{Hash, Hasher};

impl PartialEq for Line<'_> {
    ghost eq = { λ a b. is_eq (row_cmp (shown_of a) (shown_of b)) };

    ghost laws = { partial_equiv_from_equiv (eq_by_cmp_equiv lines_total) };

    fn eq(&self, other: &Self) -> bool {
        cmp_row(self, other).is_eq()
    }
}

impl Eq for Line<'_> {
    ghost laws = { eq_by_cmp_equiv lines_total };
}

impl Hash for Line<'_> {
    ghost hash_input = { λ line. row_fed (shown_of line) };

    ghost respects_eq = { λ a b same. same_fed (shown_of a) (shown_of b) same };

    fn hash<H: Hasher>(&self, state: &mut H) {
        hash_cells(self.told.key(), state);
        hash_span(self.told.span(), state);
    }
}

/// Feeds a key to a hasher.
pub fn hash_cells<H: Hasher>(cells: &[Value], state: &mut H)
    ensures { state.new ≡ fold H.write state.old (cells_fed cells.now) }
{
    for cell in cells {
        hash_cell(cell, state);
    }
}

/// Feeds a value of a key to a hasher.
fn hash_cell<H: Hasher>(cell: &Value, state: &mut H)
    ensures { state.new ≡ fold H.write state.old (cell_fed cell.now) }
{
    match cell {
        Value::Null => {}
        Value::Int(number) => state.write_i32(*number),
        Value::Big(number) => state.write_i64(*number),
        Value::Txt(text) => state.write(text.items().as_bytes()),
        Value::Bool(truth) => state.write_u8(*truth as u8),
    }
}

/// Feeds the start of a window to a hasher: windows of the same length with the same start are the same.
fn hash_span<H: Hasher>(span: Option<Span>, state: &mut H)
    ensures { state.new ≡ fold H.write state.old (span_fed span) }
{
    if let Some(span) = span {
        state.write_u64(span.start);
    }
}
