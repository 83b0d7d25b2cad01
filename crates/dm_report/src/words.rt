ghost use Rattle.std.specs.Prelude.{◌≡◌};
ghost use Rattle.dm_report.specs.Words.{file_name, kind_word};

use dm_edit::As;
use dm_token::Text;

/// The word for a kind of declaration.
pub fn kind_word(kind: As) -> &'static str
    ensures { result.now ≡ kind_word kind }
{
    match kind {
        As::Function => "function",
        As::Enumerator => "enumerator",
        As::Constant => "constant",
    }
}

/// The name of the file of a number, which is empty where there is none.
pub fn file_name(names: &[Text], file: u32) -> &[u8]
    ensures { result.now ≡ file_name names.now file }
{
    match names.get(file as usize) {
        Some(name) => name.bytes(),
        None => &[],
    }
}
