//! The values that words give.

ghost use Rattle.std.specs.Prelude.{◌≡◌, option_map};
ghost use Rattle.nr_words.specs.Views.{given_by};
ghost use Rattle.nr_spec_commands.specs.Words.{value_at};

use nr_words::Values;

/// The value of the option at a place of the grammar.
pub fn value_of<'a>(values: &Values<'a>, at: usize) -> Option<&'a str>
    ensures { option_map (λ value. value.now) result ≡ value_at (given_by values.now) at }
{
    match values.options.get(at) {
        Some(value) => *value,
        None => None,
    }
}
