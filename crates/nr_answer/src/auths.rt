//! Files of authenticators.

ghost use Rattle.std.specs.Prelude.{◌≡◌, option_map};
ghost use Rattle.std.specs.Result.{result_err};
ghost use Rattle.std.specs.Iterator.{YieldsFirstBy, item_count};
ghost use Rattle.nr_spec_wire.specs.Reading.{Answers, fault, all_rows_at};
ghost use Rattle.nr_spec_log.specs.Authenticator.{auths_of, authenticator_at};
ghost use Rattle.nr_bytes.specs.Views.{offset_of};
ghost use Rattle.nr_answer.specs.Views.{auth_of};

use crate::auth::Auth;
use crate::fields::read_magic;
use nr_bytes::{Cursor, Place};
use std::marker::Model;

/// An authenticator file: `NRT1`, and authenticators to its end.
#[derive(Drop)]
pub struct Auths<'a> {
    auths: AuthIter<'a>,
}

impl<'a> Model for Auths<'a> {
    ghost use Rattle.std.specs.Prelude.{List};
    ghost use Rattle.nr_spec_log.specs.Authenticator.{Authenticator};

    ghost Value = { List Authenticator };

    ghost view = { λ a. a.auths };
}

/// The authenticators of a file, in file order.
#[derive(Drop)]
pub struct AuthIter<'a> {
    cursor: Cursor<'a>,
    // Bounds how many authenticators are left, so that the walk ends.
    fuel: u64,
}

impl<'a> Model for AuthIter<'a> {
    ghost use Rattle.std.specs.Prelude.{List, None, ◌≡◌};
    ghost use Rattle.nr_spec_wire.specs.Reading.{rows, fault, rows_at};
    ghost use Rattle.nr_spec_log.specs.Authenticator.{Authenticator, authenticator_at};

    ghost Value = { List Authenticator };

    ghost view = { λ i. rows (rows_at authenticator_at i.fuel i.cursor) };

    ghost invariant = { λ i. fault (rows_at authenticator_at i.fuel i.cursor) ≡ None };
}

impl<'a> AuthIter<'a> {
    fn fork(&self) -> AuthIter<'a>
        ensures { result ≡ self.now }
    {
        AuthIter {
            cursor: self.cursor.fork(),
            fuel: self.fuel,
        }
    }
}

impl<'a> Iterator for AuthIter<'a> {
    type Item = Auth<'a>;

    ghost next_gives = { YieldsFirstBy auth_of (λ i. i) };

    ghost remaining = { item_count (λ i. i) };

    fn next(&mut self) -> Option<Auth<'a>> {
        if self.fuel == 0 || self.cursor.left() == 0 {
            return None;
        }
        match Auth::read(&mut self.cursor) {
            Ok(auth) => {
                self.fuel -= 1;
                Some(auth)
            }
            Err(_) => unreachable!(),
        }
    }
}

// Reads authenticators to the end of the file, and keeps only whether each reads.
fn check_auths(cursor: &Cursor<'_>) -> Result<(), Place>
    ensures { fault (all_rows_at authenticator_at cursor.now) ≡ option_map offset_of (result_err result) }
{
    let mut ahead = cursor.fork();
    for _ in 0..cursor.left() {
        if ahead.left() == 0 {
            break;
        }
        Auth::read(&mut ahead)?;
    }
    Ok(())
}

impl<'a> Auths<'a> {
    /// Reads an authenticator file, or names its first malformed field.
    #[tactic(auto, unfolding(nr_spec_log::specs::Authenticator::auths_of))]
    pub fn read(bytes: &'a [u8]) -> Result<Auths<'a>, Place>
        ensures { Answers (λ auths. auths) offset_of result (auths_of bytes.now) }
    {
        let mut cursor = Cursor::new(bytes);
        read_magic(&mut cursor, b"NRT1")?;
        check_auths(&cursor)?;
        let fuel = cursor.left();
        Ok(Auths {
            auths: AuthIter { cursor, fuel },
        })
    }

    /// The authenticators, in file order.
    pub fn iter(&self) -> AuthIter<'a>
        ensures { result ≡ self.now }
    {
        self.auths.fork()
    }
}
