//! What the names in a formula stand for.

ghost use Rattle.std.specs.Prelude.{◌≡◌, ◌<◌, ◌≤◌, [], length, take, IfSome, OnOk};
ghost use Rattle.std.specs.List.{list_any};
ghost use Rattle.std.specs.Str.{bytes_eq};
ghost use Rattle.nr_spec_typing.specs.Scopes as spec;
ghost use Rattle.nr_rule_types.specs.Views.{Answers, Gives};

use crate::fault::{TypeError, at};
use crate::names::Names;
use nr_prefix::Pattern;
use nr_rule_syntax::{Name, Word};
use nr_spec_typing::{Bound, Named, Shared, Variable, Who};
use std::alloc::{AllocError, Global};
use std::marker::Model;

/// The names that were declared, and the variables that are bound at a place, the outermost first.
#[derive(Drop)]
pub struct Scope<'n, 'a> {
    names: &'n Names<'a>,
    variables: Vec<Variable>,
}

impl<'n, 'a> Model for Scope<'n, 'a> {
    ghost use Rattle.std.specs.Prelude.{◌≤◌, length};
    ghost use Rattle.nr_spec_typing.specs.Scopes.{Scope};

    ghost Value = { Scope };

    ghost view = { λ s. record { names = s.names.now; variables = s.variables.items } };

    ghost invariant = { λ s. length s.variables.items ≤ 64 };
}

// Whether a variable has this name.
fn is_named(variable: &Variable, word: &[u8]) -> bool
    ensures { result ≡ bytes_eq variable.now.word word.now }
{
    variable.word.bytes() == word
}

// The same, and whether it stands for this.
fn is_called(variable: &Variable, bound: Bound, word: &[u8]) -> bool
    ensures { result ≡ spec.is_called bound word.now variable.now }
{
    is_named(variable, word) && variable.bound == bound
}

// Where the variable with this name stands, which stands for this.
fn place_of(variables: &[Variable], bound: Bound, word: &[u8]) -> Option<usize>
    ensures value { result ≡ spec.variable bound variables.now word.now }
    ensures within { IfSome result (λ n. n < length variables.now) }
{
    variables.iter().position(|v| is_called(v, bound, word))
}

impl<'n, 'a> Scope<'n, 'a> {
    /// A place where no variable is bound.
    pub fn new(alloc: Global, names: &'n Names<'a>) -> Scope<'n, 'a>
        ensures { result ≡ record { names = names.now; variables = [] } }
    {
        Scope {
            names,
            variables: Vec::new(alloc),
        }
    }

    /// How many variables are bound.
    pub fn depth(&self) -> u8
        ensures value { result ≡ length self.now.variables }
        ensures bound { result ≤ 64 }
    {
        self.variables.len() as u8
    }

    // The number of the variable with this name, which stands for this.
    fn variable(&self, bound: Bound, name: &Name) -> Option<u8>
        ensures { result ≡ spec.variable bound self.now.variables name.now.word }
    {
        let place = place_of(self.variables.as_slice(), bound, name.word.bytes())?;
        Some(place as u8)
    }

    /// A neighbour: a variable that stands for one, or its name.
    #[tactic(auto, unfolding(nr_spec_typing::specs::Scopes::who))]
    pub fn who(&self, name: &Name) -> Result<Who, TypeError>
        ensures { Answers result (spec.who self.now name.now) }
    {
        if let Some(var) = self.variable(Bound::Neighbour, name) {
            return Ok(Who::Var(var));
        }
        match self.names.find(name.word.bytes()) {
            Some(Named::Neighbour(n)) => Ok(Who::Named(*n)),
            _ => Err(at(name.span)),
        }
    }

    /// A route: a variable that stands for one.
    #[tactic(auto, unfolding(nr_spec_typing::specs::Scopes::route))]
    pub fn route(&self, name: &Name) -> Result<u8, TypeError>
        ensures { Answers result (spec.route self.now name.now) }
    {
        self.variable(Bound::Route, name).ok_or(at(name.span))
    }

    /// The numbers of a group's neighbours.
    #[tactic(auto, unfolding(nr_spec_typing::specs::Scopes::group))]
    pub fn group(&self, name: &Name) -> Result<Shared<u16>, TypeError>
        ensures { Answers result (spec.group self.now name.now) }
    {
        match self.names.find(name.word.bytes()) {
            Some(Named::Group(members)) => Ok(members.share()?),
            _ => Err(at(name.span)),
        }
    }

    /// The patterns of a set of prefixes.
    #[tactic(auto, unfolding(nr_spec_typing::specs::Scopes::set))]
    pub fn set(&self, name: &Name) -> Result<Shared<Pattern>, TypeError>
        ensures { Answers result (spec.set self.now name.now) }
    {
        match self.names.find(name.word.bytes()) {
            Some(Named::Define(patterns)) => Ok(patterns.share()?),
            _ => Err(at(name.span)),
        }
    }

    // Whether a variable around has this name.
    fn is_bound(&self, word: &[u8]) -> bool
        ensures { result ≡ list_any (λ v. bytes_eq v.word word.now) self.now.variables }
    {
        self.variables.iter().any(|v| is_named(v, word))
    }

    /// A variable has to have a name that no declaration before it and no variable around has.
    #[tactic(auto, unfolding(nr_spec_typing::specs::Scopes::new_variable))]
    pub fn check_new(&self, name: &Name) -> Result<(), TypeError>
        ensures { Gives result name.now (spec.new_variable self.now name.now) }
    {
        if !self.names.is_new(name) || self.is_bound(name.word.bytes()) {
            return Err(at(name.span));
        }
        Ok(())
    }

    /// Binds a variable, which stands for this.
    pub fn bind(&mut self, alloc: Global, bound: Bound, name: &Name) -> Result<(), AllocError>
        requires { length self.old.variables < 64 }
        ensures { OnOk result (self.new ≡ spec.bind self.old bound name.now) }
    {
        let word = Word::from_slice(alloc, name.word.bytes())?;
        self.variables.push(Variable { word, bound })?;
        Ok(())
    }

    /// Leaves the scopes of all variables but the first so many.
    pub fn leave(&mut self, depth: u8)
        ensures { self.new ≡ record self.old { variables = take depth self.old.variables } }
    {
        self.variables.truncate(usize::from(depth));
    }
}
