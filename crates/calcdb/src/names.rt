//! The procedures of a script, by their names.

ghost use Rattle.std.specs.Prelude.{◌≡◌, ◌<◌, ◌+◌, OnOk, option_copied};
ghost use Rattle.std.specs.FinMap as map;
ghost use Rattle.calcdb.specs.Commands as spec;
ghost use Rattle.calcdb.specs.Lines.{all_pass};
ghost use Rattle.calcdb.specs.declared.names.TheConstants.{MARKS};

use crate::instructions::is_word;
use procedure::{Key, KeyMap, NoMemory};
use std::alloc::Allocator;
use std::marker::Model;

/// A procedure that is defined, seen by contracts as its number.
#[derive(Drop)]
pub(crate) struct Defined {
    number: u16,
    /// How many arguments it takes.
    arity: u8,
}

impl Model for Defined {
    ghost use Rattle.std.specs.Prelude.{ℕ};
    ghost use Rattle.std.specs.Coded.{coded_ℕ};

    ghost Value = { ℕ };

    ghost coded = { coded_ℕ };

    ghost view = { λ p. p.number };
}

impl Defined {
    pub(crate) fn new(number: u16, arity: u8) -> Self
        ensures { result ≡ number }
    {
        Defined { number, arity }
    }

    pub(crate) fn number(&self) -> u16
        ensures { result ≡ self.now }
    {
        self.number
    }

    pub(crate) fn arity(&self) -> u8 {
        self.arity
    }
}

fn is_letter_or_digit(word: &[u8]) -> bool
    ensures { result ≡ all_pass spec.is_letter_or_digit word.now }
{
    for byte in word {
        if !matches!(*byte, b'a'..=b'z' | b'0'..=b'9') {
            return false;
        }
    }
    true
}

/// Whether a word may be a procedure's name.
pub(crate) fn is_name(word: &[u8]) -> bool
    ensures { result ≡ spec.is_name word.now }
{
    match word {
        [first, ..] => word.len() <= 32
            && matches!(*first, b'a'..=b'z')
            && is_letter_or_digit(word),
        [] => false,
    }
}

/// How many marks words have.
const MARKS: usize = 64;

/// A mark of a word, which two names seldom share.
#[inline(always)]
fn mark_of(word: &[u8]) -> usize
    ensures { result < MARKS }
{
    match word {
        [first, .., last] => (usize::from(*first) + usize::from(*last) * 7) % MARKS,
        _ => 0,
    }
}

/// Each procedure that is defined, by its name.
///
/// Names stand in a list too, one behind another. Where a word that is looked up may stand in it is guessed
/// by the word's mark, so that most are found without a hash.
#[derive(Drop)]
pub(crate) struct Names<A: Allocator> {
    procedures: KeyMap<Defined, A>,
    /// Some of the names, each with its procedure.
    list: Vec<(Key, Defined), A>,
    /// At each mark, the place in the list of the last name that has it.
    places: [u8; MARKS],
}

impl<A: Allocator> Model for Names<A> {
    ghost use Rattle.std.specs.List.{All};
    ghost use Rattle.calcdb.specs.Commands.{Names, names_code};
    ghost use Rattle.calcdb.specs.inside.Listings.{IsListed};

    ghost Value = { Names };

    ghost coded = { names_code };

    ghost view = { λ n. n.procedures };

    ghost invariant = { λ n. All (IsListed n.procedures) n.list.items };
}

impl<A: Allocator + Copy> Names<A> {
    /// No names.
    pub(crate) fn new(alloc: A) -> Self
        ensures { result ≡ map.empty }
    {
        Names {
            procedures: KeyMap::new(alloc),
            list: Vec::new(alloc),
            places: [0; MARKS],
        }
    }
}

impl<A: Allocator> Names<A> {
    /// One name more, or another procedure of a name.
    pub(crate) fn insert(&mut self, name: Key, procedure: Defined) -> Result<(), NoMemory>
        ensures { OnOk result (self.new ≡ map.insert self.old name procedure) }
    {
        self.list.reserve(1)?;
        let listed = Defined::new(procedure.number(), procedure.arity());
        if self.procedures.insert(name, procedure)?.is_some() {
            // It may be listed with the procedure that it had.
            self.list.clear();
        } else if is_name(name.as_bytes()) {
            self.places[mark_of(name.as_bytes())] = (self.list.len() % 256) as u8;
            self.list.push_reserved((name, listed));
        }
        Ok(())
    }

    /// The procedure with this name, which isn't guessed.
    fn look_up(&self, word: &[u8]) -> Option<&Defined>
        ensures { option_copied result ≡ spec.procedure_of self.now word.now }
    {
        if !is_name(word) {
            return None;
        }
        match Key::new(word) {
            Some(key) => self.procedures.get(&key),
            None => None,
        }
    }

    /// The procedure with this name.
    #[inline(always)]
    pub(crate) fn procedure_of(&self, word: &[u8]) -> Option<&Defined>
        ensures { option_copied result ≡ spec.procedure_of self.now word.now }
    {
        let place = usize::from(self.places[mark_of(word)]);
        match self.list.get(place) {
            Some((name, procedure)) if is_word(word, name.as_bytes()) => Some(procedure),
            _ => self.look_up(word),
        }
    }
}
