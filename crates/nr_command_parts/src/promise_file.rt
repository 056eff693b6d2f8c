//! Promise files.

ghost use Rattle.std.specs.Prelude.{◌≤◌, length};
ghost use Rattle.std.specs.List.{All};
ghost use Rattle.std.proofs.Props.{props};
ghost use Rattle.nr_rule_syntax.specs.Nesting.{IsNested};
ghost use Rattle.nr_command_parts.specs.Nested.{nested_is_one};

use nr_chain::Digest;
use nr_rule_syntax::File;
use nr_rule_types::Typed;

/// A promise file: its text of at most 1,048,576 bytes, the SHA-256 of that, its tree, whose formulas nest at most
/// 64 levels, and what it says with its names resolved.
#[derive(Drop)]
pub struct PromiseFile {
    pub text: Vec<u8>,
    pub digest: Digest,
    pub file: File,
    pub says: Typed,
    ghost fits: { length text.items ≤ 1048576 },
    ghost nests: { All IsNested file.decls } by { Prim.hlevel (nested_is_one, props) },
}
