ghost use Rattle.std.specs.Prelude.{◌≡◌, ◌≤◌, length, IfOk, IfErr};
ghost use Rattle.dm_token.specs.Limits.{source_length_limit};
ghost use Rattle.dm_search.specs.Readable.{AreTokensOf, StopsReading};

use dm_lex::tokens;
use dm_phase::flatten;
use dm_token::{List, PpToken, Stop};
use std::alloc::Global;

/// The bytes of a file, and their preprocessing tokens.
#[derive(Drop)]
pub struct Content {
    pub bytes: List<u8>,
    pub tokens: List<PpToken>,
}

impl Content {
    /// Reads the bytes of the file of a number.
    pub fn read(alloc: Global, file: u32, bytes: List<u8>) -> Result<Content, Stop>
        requires { length bytes ≤ source_length_limit }
        ensures bytes { IfOk result (λ content. content.bytes ≡ bytes) }
        ensures tokens { IfOk result (λ content. AreTokensOf file bytes content.tokens) }
        ensures stop { IfErr result (StopsReading file bytes) }
    {
        let flat = flatten(alloc, file, bytes.items())?;
        let tokens = tokens(alloc, file, &flat, bytes.items())?;
        Ok(Content { bytes, tokens })
    }
}
