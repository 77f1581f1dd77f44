ghost use Rattle.std.specs.Prelude.{◌≡◌};
ghost use Rattle.reference.specs.Windowless.{have_no_window, is_windowless, is_windowless_shape};

use ksql_program::{Item, Program, Shape};
use ksql_types::Kind;

/// Whether no item of a program has a window, as `slow_meaning` requires.
pub fn have_no_window(program: &Program) -> bool
    ensures { result ≡ have_no_window program.now.items }
{
    for item in program.items.items() {
        if !is_windowless(item) {
            return false;
        }
    }
    true
}

/// Whether an item has no window.
fn is_windowless(item: &Item) -> bool
    ensures { result ≡ is_windowless item.now }
{
    match item {
        Item::Declared(relation) => relation.kind != Kind::Windowed,
        Item::Started(query) => is_windowless_shape(&query.shape),
    }
}

/// Whether a shape has no window.
fn is_windowless_shape(shape: &Shape) -> bool
    ensures { result ≡ is_windowless_shape shape.now }
{
    match shape {
        Shape::Plain { .. } => true,
        Shape::Group { window, .. } => window.is_none(),
    }
}
