//! Laws of the definitions.

ghost use Rattle.std.specs.Prelude.{◌≡◌, ◌↔◌, ℕ, List, Some};
ghost use Rattle.filter_expr.specs.declared.selectors.Shape.{Shape};
ghost use Rattle.filter_expr.specs.Expressions.{Expression};
ghost use Rattle.filter_expr.specs.Grammar.{filter_of};
ghost use Rattle.filter_expr.specs.Phrases.{IsFilter};

/// What is read from a text is what the table of the grammar makes of it, and nothing is read only where the table makes
/// nothing of it.
pub fn grammar_law()
    ensures { (s : Shape) (text : List ℕ) (e : Expression) → (filter_of s text ≡ Some e) ↔ IsFilter s text e }
{}
