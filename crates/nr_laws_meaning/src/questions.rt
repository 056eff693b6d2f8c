//! What is asked of a route.

ghost use Rattle.nr_laws_meaning.specs.Questions.{Numbers, Ends, Counts, Absent};

/// Each question is of the attribute of its type, and of the path's numbers.
pub fn questions_are_of_their_attributes()
    ensures numbers { Numbers }
    ensures ends { Ends }
    ensures counts { Counts }
    ensures absent { Absent }
{}
