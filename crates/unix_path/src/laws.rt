//! Laws of components and walks: each function does nothing, and its contract is the law.
ghost use Rattle.std.specs.Prelude.{◌≡◌, ◌↔◌, IsTrue};
ghost use Rattle.unix_path.specs.Order.{value_cmp};
ghost use Rattle.unix_path.specs.Views.{value_of};
ghost use Rattle.unix_path.specs.declared.cursor.component.Component.{Component};

mod walks;

use crate::cursor::Component;
pub use walks::{ends_meet, walks_in_order};

/// Components are equal if and only if their values are, and are ordered like their values. The
/// value of a component is its kind and, for a name, its bytes.
///
/// The clause `equal` describes `==` of `Component`, and the clause `order` describes `cmp`.
///
/// The root comes first, then `.`, then `..`, and then the names, ordered by their bytes.
pub fn components_ordered()
    ensures equal { (x y : Component) →
        IsTrue (⟦<Component<'static> as PartialEq>⟧.eq x y) ↔ (value_of x ≡ value_of y) }
    ensures order { (x y : Component) →
        ⟦<Component<'static> as Ord>⟧.cmp x y ≡ value_cmp (value_of x) (value_of y) }
{}
