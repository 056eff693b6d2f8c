//! What is asked of a route is asked of its bytes.

ghost use Rattle.std.specs.Prelude.{◌≡◌, List};
ghost use Rattle.nr_spec_typing.specs.declared.text.Neighbour.{Neighbour};
ghost use Rattle.nr_spec_typing.specs.declared.tree.Typing.{Typing};
ghost use Rattle.nr_spec_typing.specs.Meaning.{Scene, Thing, IsScene, holds_where};
ghost use Rattle.nr_laws_meaning.specs.Blocks.{SameScene};

/// Where each route is what its bytes read as, scenes of the same bytes have the same truth values, so that the
/// bytes may be read in place of the lists.
pub fn meaning_is_of_the_bytes()
    ensures { (neighbours : List Neighbour) (one other : Scene) (form : Typing) (things : List Thing)
        → IsScene one → IsScene other → SameScene one other
        → holds_where neighbours one form things ≡ holds_where neighbours other form things }
{}
