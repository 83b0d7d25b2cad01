//! Which declarators may stand at a place.

ghost use Rattle.std.specs.Prelude.{◌≡◌};
ghost use Rattle.dm_pexpr.specs.Parsing.{takes_name as meant_name, encloses as meant_encloses};
ghost use Rattle.dm_pexpr.specs.Shapes.{shape_of};

use dm_syn::Symbol;

/// Which declarators may stand at a place.
#[derive(Clone, Copy, Debug, PartialEq, Eq)]
pub enum Shape {
    /// Those with a name (6.7.6).
    Named,
    /// Abstract ones, and none (6.7.7).
    Abstract,
    /// All of these, as in a parameter (6.7.6.3).
    OfParameter,
}

impl Shape {
    ghost use Rattle.dm_pexpr.specs.Parsing.{takes_name as meant_name, encloses as meant_encloses};
    ghost use Rattle.dm_pexpr.specs.Shapes.{shape_of};

    // Whether the declared name may stand there.
    pub(crate) fn takes_name(self) -> bool
        ensures { result ≡ meant_name (shape_of self) }
    {
        match self {
            Shape::Named | Shape::OfParameter => true,
            Shape::Abstract => false,
        }
    }

    // Whether a `(` that this symbol follows encloses a declarator, and doesn't begin a parameter list (6.7.6.3p11).
    pub(crate) fn encloses(self, next: Symbol) -> bool
        ensures { result ≡ meant_encloses (shape_of self) next }
    {
        match self {
            Shape::Named => true,
            Shape::Abstract | Shape::OfParameter => {
                !(next.is(Symbol::RightParen) || next.begins_specifiers())
            }
        }
    }
}
