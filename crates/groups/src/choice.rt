//! Which group a word and a size name.
ghost use Rattle.std.specs.Prelude.{◌≡◌, MatchResult};
ghost use Rattle.groups.specs.Choice.{Names};

use crate::Kind;
use crate::bitwise::Xor;
use crate::modular::Mod;
use refusals::Refusal;

/// The kind of group that `word` names, or `Refusal::Group` if it names none or none of `size` codes.
pub fn group(word: &str, size: u32) -> Result<Kind, Refusal>
    ensures { MatchResult result (λ k. Names word.now size k) (λ e. (e ≡ Refusal.Group) × ((k : Kind) → Names word.now size k → ⊥)) }
{
    // There are two words, and a match against them is a form that the project asks for.
    match word {
        "xor" => {
            Xor::new(size)?;
            Ok(Kind::Xor)
        }
        "mod" => {
            Mod::new(size)?;
            Ok(Kind::Mod)
        }
        _ => Err(Refusal::Group),
    }
}
