//! What holds of the defines of a lawful unit.

ghost use Rattle.dm_token.specs.declared.unit.Unit.{Unit as Source};
ghost use Rattle.dm_manifest.specs.Units.{IsLawful};
ghost use Rattle.dm_defines.specs.Readable.{HasReadableDefines};

/// The text of each define of a lawful unit is one of tokens: phases 1 and 2 leave it as it is, and no comment is open in it. That holds
/// for any name, since `#define N BODY` is such a text.
pub fn lawful_defines_are_tokens()
    ensures { (unit : Source) → IsLawful unit → HasReadableDefines unit }
{}
