//! The type specifiers that have come (6.7.2).

ghost use Rattle.std.specs.Prelude.{◌≡◌};
ghost use Rattle.dm_syn.specs.Grammar.{types_behind as meant_behind, types_behind_word};
ghost use Rattle.dm_syn.specs.Views as view;
ghost use Rattle.dm_pexpr.specs.Parsing.{is_one_more, word_kind};
ghost use Rattle.dm_pexpr.specs.Parts.{source_of};
ghost use Rattle.dm_pexpr.specs.Shapes.{types_of};

use crate::reader::Reader;
use dm_syn::{Specifier, Symbol};

/// The type specifiers so far: none, those that stand together, or a typedef name.
#[derive(Clone, Copy, Debug, PartialEq, Eq)]
pub(crate) enum Types {
    NoType,
    TypeWords,
    OneName,
}

impl Types {
    ghost use Rattle.dm_syn.specs.Grammar.{types_behind_word};
    ghost use Rattle.dm_pexpr.specs.Parsing.{is_one_more, word_kind};
    ghost use Rattle.dm_pexpr.specs.Shapes.{types_of};

    // Whether a symbol is one more specifier behind these.
    pub(crate) fn takes(self, symbol: Symbol) -> bool
        ensures { result ≡ is_one_more (types_of self) (word_kind symbol) }
    {
        match symbol {
            Symbol::Const | Symbol::Typedef | Symbol::Storage => true,
            Symbol::TypeWord | Symbol::Struct | Symbol::Enum => !matches!(self, Types::OneName),
            Symbol::TypedefName => matches!(self, Types::NoType),
            _ => false,
        }
    }

    // The type specifiers behind a keyword.
    fn behind_word(self, word: Symbol) -> Types
        ensures { types_of result ≡ types_behind_word word (types_of self) }
    {
        match word {
            Symbol::TypeWord => Types::TypeWords,
            _ => self,
        }
    }
}

impl Reader<'_> {
    // The type specifiers behind a specifier.
    pub(crate) fn types_behind(&self, specifier: &Specifier, types: Types, at: u32) -> Types
        ensures { types_of result ≡ meant_behind (source_of self.now) at (view.specifier specifier.now) (types_of types) }
    {
        match specifier {
            Specifier::Word(_) => types.behind_word(self.plain_symbol(at)),
            Specifier::Typedef(_) => Types::OneName,
            Specifier::Struct(_) | Specifier::Enum(_) => Types::TypeWords,
        }
    }
}
