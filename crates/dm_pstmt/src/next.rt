//! The next external declaration of a unit.

ghost use Rattle.std.specs.Prelude.{◌≡◌, ◌≤◌, ◌<◌, [], length, IfOk, IfErr};
ghost use Rattle.dm_token.specs.Refusals.{syntax};
ghost use Rattle.dm_token.specs.declared.stop.Stop.TheVariants.{Refused};
ghost use Rattle.dm_syn.specs.Scopes.{external_declares};
ghost use Rattle.dm_syn.specs.Trees as tree;
ghost use Rattle.dm_syn.specs.Views as view;
ghost use Rattle.dm_pexpr.specs.Answers.{source_with};
ghost use Rattle.dm_pexpr.specs.Parts.{IsPart};
ghost use Rattle.dm_pexpr.specs.Scoping.{known_with};
ghost use Rattle.dm_pstmt.specs.Answers.{IsExternalFound, Refuses, Keeps};
ghost use Rattle.dm_pstmt.specs.Kinds.{an_external};
ghost use Rattle.dm_pstmt.specs.Readings.{IsExternalAt, external_at};

use crate::external::external;
use crate::nodes::boxed_external;
use dm_pexpr::{Names, Part, Reader, Scope};
use dm_syn::External;
use dm_token::{Boxed, CToken, GREATEST_HEIGHT, Refusal, Stop, refusals};
use std::alloc::Global;

/// The external declaration that begins at a position (6.9), with a height of at most [`GREATEST_HEIGHT`], and the
/// position behind it; the refusal of syntax at the token there exactly where there is none. Behind it the names have what
/// it declares in file scope, each with whether it names a type, the latest declaration of a name counting. A refusal
/// leaves them as they were; what they are after want of memory is left open.
pub fn next_external(
    alloc: Global,
    tokens: &[CToken],
    at: u32,
    typedefs: &mut Names,
) -> Result<(External, u32), Stop>
    requires few { length tokens.now ≤ 4294967295 }
    requires within { at < length tokens.now }
    ensures found { IfOk result (IsExternalFound (source_with tokens.now typedefs.old) at) }
    ensures only { IfOk result (λ found. (it : tree.External) → IsExternalAt (source_with tokens.now typedefs.old) [] at it → view.external found.0 ≡ it) }
    ensures names { IfOk result (λ found. typedefs.new ≡ known_with typedefs.old (external_declares (source_with tokens.now typedefs.old) (view.external found.0))) }
    ensures stop { IfErr result (Refuses (source_with tokens.now typedefs.old) at) }
    ensures kept { IfErr result (Keeps typedefs.old typedefs.new) }
{
    let mut scope = Scope::new(alloc);
    let found = settled(alloc, tokens, at, typedefs, &mut scope)?;
    Ok((found.tree.into_inner(), found.after))
}

// The external declaration at a position, behind which the names have what it declares in file scope, or the refusal.
fn settled(
    alloc: Global,
    tokens: &[CToken],
    at: u32,
    typedefs: &mut Names,
    scope: &mut Scope,
) -> Result<Part<Boxed<External>>, Stop>
    requires few { length tokens.now ≤ 4294967295 }
    requires within { at < length tokens.now }
    requires fresh { scope.old ≡ [] }
    ensures found { IfOk result (λ found. IsPart (an_external (source_with tokens.now typedefs.old)) (source_with tokens.now typedefs.old) [] scope.new found (external_at (source_with tokens.now typedefs.old) [] at)) }
    ensures names { IfOk result (λ found. typedefs.new ≡ known_with typedefs.old scope.new) }
    ensures stop { IfErr result (Refuses (source_with tokens.now typedefs.old) at) }
    ensures kept { IfErr result (Keeps typedefs.old typedefs.new) }
{
    let found = read(alloc, tokens, at, typedefs, scope)?;
    let found = boxed_external(alloc, found)?;
    scope.settle(typedefs)?;
    Ok(found)
}

// The external declaration at a position, behind which what it declares in file scope is in scope, or the refusal.
fn read(
    alloc: Global,
    tokens: &[CToken],
    at: u32,
    typedefs: &Names,
    scope: &mut Scope,
) -> Result<Part<External>, Stop>
    requires few { length tokens.now ≤ 4294967295 }
    requires within { at < length tokens.now }
    requires fresh { scope.old ≡ [] }
    ensures found { IfOk result (λ found. IsPart (an_external (source_with tokens.now typedefs.now)) (source_with tokens.now typedefs.now) [] scope.new found (external_at (source_with tokens.now typedefs.now) [] at)) }
    ensures stop { IfErr result (Refuses (source_with tokens.now typedefs.now) at) }
{
    let reader = Reader {
        alloc,
        tokens,
        typedefs,
    };
    let start = at as usize;
    match external(&reader, scope, at, GREATEST_HEIGHT)? {
        Some(found) => Ok(found),
        None => Err(refused(&tokens[start])),
    }
}

// The refusal of what isn't the syntax of C, at a token.
fn refused(token: &CToken) -> Stop
    ensures { result ≡ Refused (record { number = syntax; detail = 0; place = token.now.place }) }
{
    Stop::Refused(Refusal {
        number: refusals::SYNTAX,
        detail: 0,
        place: token.place,
    })
}
