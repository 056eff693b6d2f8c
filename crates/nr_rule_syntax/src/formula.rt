//! Formulas, by how tightly their words bind. The rules that hold formulas take the parser of those as a
//! parameter, so that each is proved by itself. A call goes deeper only where a level of nesting is opened.

ghost use Rattle.std.specs.Prelude.{◌≡◌, ◌<◌, ◌≤◌, map, true, IfOk};
ghost use Rattle.nr_spec_rules.specs.declared.kind.Kind.TheVariants as k;
ghost use Rattle.nr_spec_rules.specs.Tokens.{goes_on, kind_of};
ghost use Rattle.nr_spec_rules.specs.Parsing.{following};
ghost use Rattle.nr_rule_syntax.specs.Reading as spec;
ghost use Rattle.nr_rule_syntax.specs.Views.{Reads, AreNoMore};
ghost use Rattle.nr_rule_syntax.specs.Nests.{Nests};
ghost use Rattle.nr_rule_syntax.specs.Nesting.{measured, depth, depth_within, most_within, IsInside};

use crate::fault::ParseError;
use crate::step::{followed, name, refused, sees};
use crate::term::{about, compared, in_set, route};
use crate::tree::{Form, Name, Side};
use nr_rule_tokens::Tokens;
use nr_spec_rules::Kind;
use sqlite_items::{Boxed, Items};
use std::alloc::Global;

/// How many levels of nesting may be open at a place.
const MOST_LEVELS: usize = 64;

/// What stands after a token that opens a level of nesting.
#[derive(Clone, Copy, Debug)]
pub enum Level {
    /// A formula.
    Whole,
    /// A member of a chain, as stands after `not`.
    Member,
}

/// The rules of formulas, for a place where some levels of nesting may still be opened.
#[derive(Clone, Copy)]
struct Grammar<F> {
    alloc: Global,
    levels: usize,
    inside: F,
}

impl<F: Fn(Global, &mut Tokens<'_>, usize, Level) -> Result<Form, ParseError>> Grammar<F> {
    fn inside(&self, tokens: &mut Tokens<'_>, level: Level) -> Result<Form, ParseError>
        requires { Nests self.now.levels (F.pre self.now.inside) (F.post self.now.inside) }
        ensures value { Reads result tokens.new (spec.inside self.now.levels level tokens.old) }
        ensures nests { IfOk result (IsInside self.now.levels level) }
        ensures onward { AreNoMore tokens.old tokens.new }
    {
        (self.inside)(self.alloc, tokens, self.levels, level)
    }

    // The same, in a box of its own.
    fn held(&self, tokens: &mut Tokens<'_>, level: Level) -> Result<Boxed<Form>, ParseError>
        requires { Nests self.now.levels (F.pre self.now.inside) (F.post self.now.inside) }
        ensures value { Reads result tokens.new (spec.inside self.now.levels level tokens.old) }
        ensures nests { IfOk result (IsInside self.now.levels level) }
        ensures onward { AreNoMore tokens.old tokens.new }
    {
        Ok(Boxed::new(self.alloc, self.inside(tokens, level)?)?)
    }

    // The next token, which opens a level.
    fn open(&self, tokens: &mut Tokens<'_>) -> Result<(), ParseError>
        requires { goes_on (kind_of tokens.old) ≡ true }
        ensures value { Reads result tokens.new (spec.opens self.now.levels tokens.old) }
        ensures onward { AreNoMore tokens.old tokens.new }
    {
        if self.levels == 0 {
            return Err(refused(tokens));
        }
        tokens.pass();
        Ok(())
    }

    #[tactic(auto, unfolding(crate::specs::Reading::parenthesized))]
    fn parenthesized(&self, tokens: &mut Tokens<'_>) -> Result<Form, ParseError>
        requires nests { Nests self.now.levels (F.pre self.now.inside) (F.post self.now.inside) }
        requires more { goes_on (kind_of tokens.old) ≡ true }
        ensures value { Reads result tokens.new
            (spec.parenthesized self.now.levels (spec.inside self.now.levels) tokens.old) }
        ensures nests { IfOk result (λ form. depth_within 3 form ≤ self.now.levels) }
        ensures onward { AreNoMore tokens.old tokens.new }
    {
        self.open(tokens)?;
        followed(self.inside(tokens, Level::Whole)?, tokens, Kind::CloseParen)
    }

    // The two names of `all` or `some`, and what is held.
    #[tactic(auto, unfolding(crate::specs::Reading::over_group))]
    fn over_group(&self, tokens: &mut Tokens<'_>) -> Result<(Name, Name, Boxed<Form>), ParseError>
        requires nests { Nests self.now.levels (F.pre self.now.inside) (F.post self.now.inside) }
        requires more { goes_on (kind_of tokens.old) ≡ true }
        ensures value { Reads result tokens.new
            (spec.over_group self.now.levels (spec.inside self.now.levels) tokens.old) }
        ensures nests { IfOk result (λ x. depth x.2 < self.now.levels) }
        ensures onward { AreNoMore tokens.old tokens.new }
    {
        self.open(tokens)?;
        let var = followed(name(self.alloc, tokens)?, tokens, Kind::In)?;
        let group = followed(name(self.alloc, tokens)?, tokens, Kind::OpenBrace)?;
        let held = self.held(tokens, Level::Whole)?;
        followed((var, group, held), tokens, Kind::CloseBrace)
    }

    // After `if`: the variable, and the route that it stands for.
    #[tactic(auto, unfolding(crate::specs::Reading::bound))]
    fn bound(&self, tokens: &mut Tokens<'_>) -> Result<(Name, (Side, Name)), ParseError>
        requires { goes_on (kind_of tokens.old) ≡ true }
        ensures value { Reads result tokens.new (spec.bound self.now.levels tokens.old) }
        ensures onward { AreNoMore tokens.old tokens.new }
    {
        self.open(tokens)?;
        let var = followed(name(self.alloc, tokens)?, tokens, Kind::Equal)?;
        let from = route(self.alloc, tokens)?;
        followed((var, from), tokens, Kind::Then)
    }

    // The part after `then`, and that after `else`.
    #[tactic(auto, unfolding(crate::specs::Reading::branches))]
    fn branches(&self, tokens: &mut Tokens<'_>) -> Result<(Boxed<Form>, Boxed<Form>), ParseError>
        requires { Nests self.now.levels (F.pre self.now.inside) (F.post self.now.inside) }
        ensures value { Reads result tokens.new (spec.branches (spec.inside self.now.levels) tokens.old) }
        ensures nests { IfOk result (λ x. (depth x.0 < self.now.levels) × (depth x.1 < self.now.levels)) }
        ensures onward { AreNoMore tokens.old tokens.new }
    {
        let yes = followed(self.held(tokens, Level::Whole)?, tokens, Kind::Else)?;
        let no = self.held(tokens, Level::Whole)?;
        followed((yes, no), tokens, Kind::EndWord)
    }

    #[tactic(auto, unfolding(crate::specs::Reading::conditional))]
    fn conditional(&self, tokens: &mut Tokens<'_>) -> Result<Form, ParseError>
        requires nests { Nests self.now.levels (F.pre self.now.inside) (F.post self.now.inside) }
        requires more { goes_on (kind_of tokens.old) ≡ true }
        ensures value { Reads result tokens.new
            (spec.conditional self.now.levels (spec.inside self.now.levels) tokens.old) }
        ensures nests { IfOk result (λ form. depth_within 3 form ≤ self.now.levels) }
        ensures onward { AreNoMore tokens.old tokens.new }
    {
        let (var, (side, of)) = self.bound(tokens)?;
        let (yes, no) = self.branches(tokens)?;
        Ok(Form::If {
            var,
            side,
            of,
            yes,
            no,
        })
    }

    #[tactic(auto, unfolding(crate::specs::Reading::atom))]
    fn atom(&self, tokens: &mut Tokens<'_>) -> Result<Form, ParseError>
        requires { Nests self.now.levels (F.pre self.now.inside) (F.post self.now.inside) }
        ensures value { Reads result tokens.new (spec.atom self.now.levels (spec.inside self.now.levels) tokens.old) }
        ensures nests { IfOk result (λ form. depth_within 3 form ≤ self.now.levels) }
        ensures onward { AreNoMore tokens.old tokens.new }
    {
        match tokens.kind() {
            Kind::True => {
                tokens.pass();
                Ok(Form::True)
            }
            Kind::False => {
                tokens.pass();
                Ok(Form::False)
            }
            Kind::OpenParen => self.parenthesized(tokens),
            Kind::All => {
                let (var, group, form) = self.over_group(tokens)?;
                Ok(Form::All { var, group, form })
            }
            Kind::Some => {
                let (var, group, form) = self.over_group(tokens)?;
                Ok(Form::Some { var, group, form })
            }
            Kind::If => self.conditional(tokens),
            Kind::Sent | Kind::Received => {
                let (side, of) = route(self.alloc, tokens)?;
                Ok(Form::Stands { side, of })
            }
            Kind::Name => {
                let var = name(self.alloc, tokens)?;
                about(self.alloc, tokens, var)
            }
            Kind::PrefixWord => in_set(self.alloc, tokens),
            _ => compared(self.alloc, tokens),
        }
    }

    #[tactic(auto, unfolding(crate::specs::Reading::negation))]
    fn negation(&self, tokens: &mut Tokens<'_>) -> Result<Form, ParseError>
        requires { Nests self.now.levels (F.pre self.now.inside) (F.post self.now.inside) }
        ensures value { Reads result tokens.new
            (spec.negation self.now.levels (spec.inside self.now.levels) tokens.old) }
        ensures nests { IfOk result (λ form. depth_within 3 form ≤ self.now.levels) }
        ensures onward { AreNoMore tokens.old tokens.new }
    {
        if !sees(tokens, Kind::Not) {
            return self.atom(tokens);
        }
        self.open(tokens)?;
        Ok(Form::Not(self.held(tokens, Level::Member)?))
    }

    // The members of an `and`, of which the first was read.
    fn conjuncts(&self, tokens: &mut Tokens<'_>, first: Form) -> Result<Items<Form>, ParseError>
        requires inside { Nests self.now.levels (F.pre self.now.inside) (F.post self.now.inside) }
        requires fits { depth_within 3 first ≤ self.now.levels }
        ensures nests { IfOk result (λ members. most_within 3 (map measured members) ≤ self.now.levels) }
        ensures value { Reads result tokens.new
            (following first k.And (spec.negation self.now.levels (spec.inside self.now.levels)) tokens.old) }
        ensures onward { AreNoMore tokens.old tokens.new }
    {
        let mut members = Items::new(self.alloc);
        members.push(first)?;
        'more: while sees(tokens, Kind::And) {
            tokens.pass();
            members.push(self.negation(tokens)?)?;
        }
        Ok(members)
    }

    #[tactic(auto, unfolding(nr_spec_rules::specs::Parsing::chain, crate::specs::Reading::conjunction))]
    fn conjunction(&self, tokens: &mut Tokens<'_>) -> Result<Form, ParseError>
        requires { Nests self.now.levels (F.pre self.now.inside) (F.post self.now.inside) }
        ensures value { Reads result tokens.new
            (spec.conjunction self.now.levels (spec.inside self.now.levels) tokens.old) }
        ensures nests { IfOk result (λ form. depth_within 2 form ≤ self.now.levels) }
        ensures onward { AreNoMore tokens.old tokens.new }
    {
        let first = self.negation(tokens)?;
        if !sees(tokens, Kind::And) {
            return Ok(first);
        }
        Ok(Form::And(self.conjuncts(tokens, first)?))
    }

    // The members of an `or`, of which the first was read.
    fn disjuncts(&self, tokens: &mut Tokens<'_>, first: Form) -> Result<Items<Form>, ParseError>
        requires inside { Nests self.now.levels (F.pre self.now.inside) (F.post self.now.inside) }
        requires fits { depth_within 2 first ≤ self.now.levels }
        ensures nests { IfOk result (λ members. most_within 2 (map measured members) ≤ self.now.levels) }
        ensures value { Reads result tokens.new
            (following first k.Or (spec.conjunction self.now.levels (spec.inside self.now.levels)) tokens.old) }
        ensures onward { AreNoMore tokens.old tokens.new }
    {
        let mut members = Items::new(self.alloc);
        members.push(first)?;
        'more: while sees(tokens, Kind::Or) {
            tokens.pass();
            members.push(self.conjunction(tokens)?)?;
        }
        Ok(members)
    }

    #[tactic(auto, unfolding(nr_spec_rules::specs::Parsing::chain, crate::specs::Reading::disjunction))]
    fn disjunction(&self, tokens: &mut Tokens<'_>) -> Result<Form, ParseError>
        requires { Nests self.now.levels (F.pre self.now.inside) (F.post self.now.inside) }
        ensures value { Reads result tokens.new
            (spec.disjunction self.now.levels (spec.inside self.now.levels) tokens.old) }
        ensures nests { IfOk result (λ form. depth_within 1 form ≤ self.now.levels) }
        ensures onward { AreNoMore tokens.old tokens.new }
    {
        let first = self.conjunction(tokens)?;
        if !sees(tokens, Kind::Or) {
            return Ok(first);
        }
        Ok(Form::Or(self.disjuncts(tokens, first)?))
    }

    #[tactic(auto, unfolding(crate::specs::Reading::formula))]
    fn formula(&self, tokens: &mut Tokens<'_>) -> Result<Form, ParseError>
        requires { Nests self.now.levels (F.pre self.now.inside) (F.post self.now.inside) }
        ensures value { Reads result tokens.new
            (spec.formula self.now.levels (spec.inside self.now.levels) tokens.old) }
        ensures nests { IfOk result (λ form. depth form ≤ self.now.levels) }
        ensures onward { AreNoMore tokens.old tokens.new }
    {
        let left = self.disjunction(tokens)?;
        if !sees(tokens, Kind::Implies) {
            return Ok(left);
        }
        let left = Boxed::new(self.alloc, left)?;
        self.open(tokens)?;
        Ok(Form::Implies(left, self.held(tokens, Level::Whole)?))
    }
}

// What stands inside a level of nesting, where one level less than these may be opened in it; none at 0.
fn inside(
    alloc: Global,
    tokens: &mut Tokens<'_>,
    levels: usize,
    level: Level,
) -> Result<Form, ParseError>
    ensures value { Reads result tokens.new (spec.inside levels level tokens.old) }
    ensures nests { IfOk result (IsInside levels level) }
    ensures onward { AreNoMore tokens.old tokens.new }
{
    if levels == 0 {
        return Err(refused(tokens));
    }
    let grammar = Grammar {
        alloc,
        levels: levels - 1,
        inside,
    };
    match level {
        Level::Whole => grammar.formula(tokens),
        Level::Member => grammar.negation(tokens),
    }
}

/// A formula that nests at most 64 levels.
pub fn whole_formula(alloc: Global, tokens: &mut Tokens<'_>) -> Result<Form, ParseError>
    ensures value { Reads result tokens.new (spec.whole_formula tokens.old) }
    ensures nests { IfOk result (λ form. depth form ≤ 64) }
    ensures onward { AreNoMore tokens.old tokens.new }
{
    inside(alloc, tokens, MOST_LEVELS + 1, Level::Whole)
}
