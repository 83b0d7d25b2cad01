//! Type names and specifiers (6.7.2, 6.7.7), read from left to right.

ghost use Rattle.std.specs.Prelude.{◌≡◌, ◌+◌, ◌<◌, ◌≤◌, ℕ, List, Option, Some, IfOk, length, map};
ghost use Rattle.dm_syn.specs.declared.declared.Declared.{Declared};
ghost use Rattle.dm_syn.specs.Sources.{symbol_in};
ghost use Rattle.dm_syn.specs.Grammar.{no_type};
ghost use Rattle.dm_syn.specs.Trees as tree;
ghost use Rattle.dm_syn.specs.Views as view;
ghost use Rattle.dm_pexpr.specs.Parsing.{lower, type_name_of, words_of, specifier_of, word_kind, struct_of, enum_of, members_of, member_of, more_declarators as meant_declarators, enumerator_of, more_enumerators as meant_enumerators, all_turns, prepend_declarator, prepend_enumerator};
ghost use Rattle.dm_pexpr.specs.Parts.{source_of, Gives, IsPart, a_type_name, the_specifiers, a_specifier, a_member, an_enumerator, words_from, members_from, enumerators_from, declarators_from, behind_all};

use crate::part::{Part, begun, joined};
use crate::reader::Reader;
use crate::scope::Scope;
use crate::shape::Shape;
use crate::typenodes::{tagged_enum, tagged_struct};
use crate::types::Types;
use dm_syn::{Declarator, EnumItem, MemberForm, Specifier, Specifiers, Symbol, TypeName};
use dm_token::{List, Memory};

impl Reader<'_> {
    /// The type name at a position, if there is one whose parts nest no deeper. What it declares is in scope behind it.
    #[cycle(reading)]
    pub fn type_name(
        &self,
        scope: &mut Scope,
        at: u32,
        depth: u32,
    ) -> Result<Option<Part<TypeName>>, Memory>
        ensures { IfOk result (λ found. Gives (a_type_name (source_of self.now)) (source_of self.now) scope.old scope.new found (type_name_of (source_of self.now) (lower (source_of self.now) depth) scope.old at)) }
    {
        let Some(specifiers) = self.specifiers(scope, at, depth)? else {
            return Ok(None);
        };
        let declarator = self.declarator(scope, specifiers.after, Shape::Abstract, depth)?;
        Ok(self.name_node(scope, at, specifiers, declarator))
    }

    /// The specifiers at a position, if there are some whose parts nest no deeper.
    #[cycle(reading)]
    pub fn specifiers(
        &self,
        scope: &mut Scope,
        at: u32,
        depth: u32,
    ) -> Result<Option<Part<Specifiers>>, Memory>
        ensures { IfOk result (λ found. Gives (the_specifiers (source_of self.now)) (source_of self.now) scope.old scope.new found ((lower (source_of self.now) depth).specifiers scope.old at)) }
    {
        if depth == 0 {
            return Ok(None);
        }
        if self.symbol(scope, at).begins_specifiers() {
            let words = self.words(scope, at, depth - 1)?;
            Ok(self.specifiers_node(scope, at, words))
        } else {
            Ok(None)
        }
    }

    // One specifier behind another, as far as they go.
    #[cycle(reading)]
    fn words(
        &self,
        scope: &mut Scope,
        at: u32,
        depth: u32,
    ) -> Result<Option<Part<List<Specifier>>>, Memory>
        requires { at ≤ length self.now.tokens.now }
        ensures { IfOk result (λ found. Gives (words_from (source_of self.now) at) (source_of self.now) scope.old scope.new found (words_of (source_of self.now) (lower (source_of self.now) depth) (all_turns (source_of self.now)) scope.old at no_type)) }
    {
        let mut words = self.none_yet(at);
        let mut types = Types::NoType;
        let mut turns = self.tokens.len() + 1;
        while types.takes(self.symbol(scope, words.after)) {
            if turns == 0 {
                return Ok(None);
            }
            turns -= 1;
            let Some(word) = self.specifier(scope, words.after, depth)? else {
                return Ok(None);
            };
            types = self.types_behind(&word.tree, types, words.after);
            words = joined(words, word)?;
        }
        Ok(Some(words))
    }

    // One specifier.
    #[cycle(reading)]
    fn specifier(
        &self,
        scope: &mut Scope,
        at: u32,
        depth: u32,
    ) -> Result<Option<Part<Specifier>>, Memory>
        ensures { IfOk result (λ found. Gives (a_specifier (source_of self.now) at) (source_of self.now) scope.old scope.new found (specifier_of (source_of self.now) (lower (source_of self.now) depth) scope.old at (word_kind (symbol_in (source_of self.now) scope.old at)))) }
    {
        match self.symbol(scope, at) {
            Symbol::Const | Symbol::Typedef | Symbol::Storage | Symbol::TypeWord => {
                Ok(Some(word(Specifier::Word(at), at + 1)))
            }
            Symbol::TypedefName => Ok(Some(word(Specifier::Typedef(at), at + 1))),
            Symbol::Struct => self.structure(scope, at, depth),
            Symbol::Enum => self.enumeration(scope, at, depth),
            _ => Ok(None),
        }
    }

    // `struct` with a tag, members or both.
    #[cycle(reading)]
    fn structure(
        &self,
        scope: &mut Scope,
        at: u32,
        depth: u32,
    ) -> Result<Option<Part<Specifier>>, Memory>
        requires { at < length self.now.tokens.now }
        ensures { IfOk result (λ found. Gives (a_specifier (source_of self.now) at) (source_of self.now) scope.old scope.new found (struct_of (source_of self.now) (lower (source_of self.now) depth) scope.old at)) }
    {
        let (tag, behind) = self.tag(scope, at + 1);
        let Some(inside) = self.behind(scope, behind, Symbol::LeftBrace) else {
            return Ok(tagged_struct(at, tag, behind));
        };
        let members = self.members(scope, inside, depth)?;
        Ok(self.struct_node(scope, at, tag, members))
    }

    // Members up to the closing brace.
    #[cycle(reading)]
    fn members(
        &self,
        scope: &mut Scope,
        at: u32,
        depth: u32,
    ) -> Result<Option<Part<List<MemberForm>>>, Memory>
        requires { at ≤ length self.now.tokens.now }
        ensures { IfOk result (λ found. Gives (members_from (source_of self.now) at) (source_of self.now) scope.old scope.new found (members_of (source_of self.now) (lower (source_of self.now) depth) (all_turns (source_of self.now)) scope.old at)) }
    {
        let mut members = self.none_yet(at);
        let mut turns = self.tokens.len() + 1;
        while turns > 0 {
            if self.symbol(scope, members.after).is(Symbol::RightBrace) {
                return Ok(Some(members));
            }
            let Some(member) = self.member_at(scope, members.after, depth)? else {
                return Ok(None);
            };
            members = joined(members, member)?;
            turns -= 1;
        }
        Ok(None)
    }

    // A declaration of members.
    #[cycle(reading)]
    fn member_at(
        &self,
        scope: &mut Scope,
        at: u32,
        depth: u32,
    ) -> Result<Option<Part<MemberForm>>, Memory>
        ensures { IfOk result (λ found. Gives (a_member (source_of self.now)) (source_of self.now) scope.old scope.new found (member_of (source_of self.now) (lower (source_of self.now) depth) scope.old at)) }
    {
        let Some(specifiers) = self.specifiers(scope, at, depth)? else {
            return Ok(None);
        };
        let Some(first) = self.declarator(scope, specifiers.after, Shape::Named, depth)? else {
            return Ok(None);
        };
        let first = begun(self.alloc, first)?;
        let declarators = self.more_declarators(scope, first, depth)?;
        Ok(self.member_node(scope, at, specifiers, declarators))
    }

    // More declarators, each behind a comma.
    #[cycle(reading)]
    fn more_declarators(
        &self,
        scope: &mut Scope,
        declarators: Part<List<Declarator>>,
        depth: u32,
    ) -> Result<Option<Part<List<Declarator>>>, Memory>
        ensures { (before : List Declared) (start : ℕ) (read : Option tree.Declarators) → IsPart (declarators_from (source_of self.now) start) (source_of self.now) before scope.old declarators read
            → IfOk result (λ found. Gives (declarators_from (source_of self.now) start) (source_of self.now) before scope.new found (behind_all prepend_declarator (map view.declarator declarators.tree) (meant_declarators (source_of self.now) (lower (source_of self.now) depth) (all_turns (source_of self.now)) scope.old declarators.after))) }
    {
        let mut declarators = declarators;
        let mut turns = self.tokens.len() + 1;
        while turns > 0 {
            let Some(next) = self.behind(scope, declarators.after, Symbol::Comma) else {
                return Ok(Some(declarators));
            };
            let Some(declarator) = self.declarator(scope, next, Shape::Named, depth)? else {
                return Ok(None);
            };
            declarators = joined(declarators, declarator)?;
            turns -= 1;
        }
        Ok(Some(declarators))
    }

    // `enum` with a tag, enumerators or both.
    #[cycle(reading)]
    fn enumeration(
        &self,
        scope: &mut Scope,
        at: u32,
        depth: u32,
    ) -> Result<Option<Part<Specifier>>, Memory>
        requires { at < length self.now.tokens.now }
        ensures { IfOk result (λ found. Gives (a_specifier (source_of self.now) at) (source_of self.now) scope.old scope.new found (enum_of (source_of self.now) (lower (source_of self.now) depth) scope.old at)) }
    {
        let (tag, behind) = self.tag(scope, at + 1);
        let Some(inside) = self.behind(scope, behind, Symbol::LeftBrace) else {
            return Ok(tagged_enum(at, tag, behind));
        };
        let Some(first) = self.enumerator(scope, inside, depth)? else {
            return Ok(None);
        };
        let first = begun(self.alloc, first)?;
        let enumerators = self.more_enumerators(scope, first, depth)?;
        Ok(self.enum_node(scope, at, tag, enumerators))
    }

    // An enumerator and its value. It is declared behind them.
    #[cycle(reading)]
    fn enumerator(
        &self,
        scope: &mut Scope,
        at: u32,
        depth: u32,
    ) -> Result<Option<Part<EnumItem>>, Memory>
        ensures { IfOk result (λ found. Gives (an_enumerator (source_of self.now)) (source_of self.now) scope.old scope.new found (enumerator_of (source_of self.now) (lower (source_of self.now) depth) scope.old at)) }
    {
        let Some(behind) = self.behind_identifier(scope, at) else {
            return Ok(None);
        };
        let Some(next) = self.behind(scope, behind, Symbol::Equals) else {
            return Ok(Some(self.bare_enumerator(scope, at, behind)?));
        };
        let value = self.expr(scope, next, 2, depth)?;
        self.valued_enumerator(scope, at, value)
    }

    // More enumerators, each behind a comma that no closing brace follows.
    #[cycle(reading)]
    fn more_enumerators(
        &self,
        scope: &mut Scope,
        enumerators: Part<List<EnumItem>>,
        depth: u32,
    ) -> Result<Option<Part<List<EnumItem>>>, Memory>
        ensures { (before : List Declared) (start : ℕ) (read : Option tree.Enumerators) → IsPart (enumerators_from (source_of self.now) start) (source_of self.now) before scope.old enumerators read
            → IfOk result (λ found. Gives (enumerators_from (source_of self.now) start) (source_of self.now) before scope.new found (behind_all prepend_enumerator (map view.enum_item enumerators.tree) (meant_enumerators (source_of self.now) (lower (source_of self.now) depth) (all_turns (source_of self.now)) scope.old enumerators.after))) }
    {
        let mut enumerators = enumerators;
        let mut turns = self.tokens.len() + 1;
        while turns > 0 {
            let Some(next) = self.behind_separator(scope, enumerators.after) else {
                return Ok(Some(enumerators));
            };
            let Some(enumerator) = self.enumerator(scope, next, depth)? else {
                return Ok(None);
            };
            enumerators = joined(enumerators, enumerator)?;
            turns -= 1;
        }
        Ok(Some(enumerators))
    }
}

// A specifier of one token.
fn word(tree: Specifier, after: u32) -> Part<Specifier>
    ensures { result ≡ record { tree = tree; height = 1; after = after } }
{
    Part {
        tree,
        height: 1,
        after,
    }
}
