//! The examples of the document on promises, judged.

ghost use Rattle.nr_laws_meaning.specs.Samples.{NoExport, PreferCustomer, OnlyOwn, Reachable, Short, OtherRouter, RoutesRead, ScenesStand};

/// Each example holds and fails in the scenes where a reader expects it.
pub fn examples_are_judged()
    ensures no_export { NoExport }
    ensures prefer_customer { PreferCustomer }
    ensures only_own { OnlyOwn }
    ensures reachable { Reachable }
    ensures short { Short }
    ensures other_router { OtherRouter }
    ensures routes { RoutesRead }
    ensures prefixes { ScenesStand }
{}
