//! A whole text.

ghost use Rattle.std.specs.Prelude.{◌≤◌, length, IfOk};
ghost use Rattle.std.specs.List.{All};
ghost use Rattle.nr_rule_syntax.specs.Nesting.{IsNested};
ghost use Rattle.nr_rule_syntax.specs.Reading.{file_of};
ghost use Rattle.nr_rule_syntax.specs.Views.{Answers};
ghost use Rattle.nr_rule_syntax.specs.Written.{IsWritten};

use crate::declaration::declarations;
use crate::fault::ParseError;
use crate::tree::File;
use nr_rule_tokens::Tokens;
use std::alloc::Global;

/// The file that a text of promises is. `At` names the offset of the first token that the grammar refuses;
/// what begins no token is such a token, and so is the end of a text that ends too early.
#[tactic(auto, unfolding(crate::specs::Reading::file_of))]
pub fn parse(alloc: Global, text: &[u8]) -> Result<File, ParseError>
    requires { length text.now ≤ 1048576 }
    ensures value { Answers result (file_of text.now) }
    // Each formula nests at most 64 levels.
    ensures nests { IfOk result (λ file. All IsNested file.decls) }
    // Names are written as names, numbers have 32 bits, prefixes are masked, a list that is written has a
    // member, and an `and` or `or` has two or more.
    ensures written { IfOk result (λ file. All IsWritten file.decls) }
{
    let mut tokens = Tokens::new(text);
    let decls = declarations(alloc, &mut tokens)?;
    Ok(File {
        decls,
        end: tokens.place(),
    })
}
