//! The reader: a place in the form, and the groups that are open.
#![tactic(auto)]

ghost use Rattle.std.specs.Prelude.{◌≡◌, ◌++◌, ◌∷◌, [], reverse, IfErr, IfOk, Ok};
ghost use Rattle.gs_drive.specs.Machine.{StepFails};
ghost use Rattle.gs_libtree.specs.Machine.{at, end_of, in_group, limit, start, step, with_item};
ghost use Rattle.gs_libtree.specs.Reading.{state_of};
ghost use Rattle.gs_libtree.specs.Token.{closes, colon, comma, enters, leaves, opens, quoted, semicolon, token, word};

use crate::error::{Rule, Stop, bad};
use crate::token::Class;
use crate::tree::{Item, Node};
use gs_drive::{Fault, StepErr};
use gs_text::{Name, Names};
use sqlite_items::Items;
use std::alloc::Global;
use std::mem;

/// How many groups may be open; contracts call it `max_depth`.
const DEPTH: usize = 64;

/// A place in the form, named after what was read last.
#[derive(Clone, Copy, Debug, PartialEq, Eq)]
pub enum Place {
    /// Nothing yet.
    Start,
    /// The name of a group or an attribute.
    Named,
    /// An opening parenthesis.
    FirstArg,
    /// A word or a string between parentheses.
    Arg,
    /// A comma between parentheses.
    NextArg,
    /// A closing parenthesis.
    Closed,
    /// A group's opening brace, or an item of the group.
    Body,
    /// An attribute's colon.
    FirstValue,
    /// The value of an attribute, or what follows it.
    Values,
    /// The root group's closing brace.
    Done,
}

/// A reader of tokens.
#[derive(Drop)]
pub struct Reader {
    pub place: Place,
    /// The name that was read last, until it is an item's or a group's.
    pub name: Name,
    /// The words and strings that were read between parentheses, until they are an item's or a group's.
    pub values: Vec<Name>,
    /// The open groups, the innermost last.
    pub groups: Vec<Node>,
}

/// Puts an item to the innermost group.
fn put_item(groups: &mut Vec<Node>, item: Item) -> Result<(), Stop>
    ensures ok { IfOk result (λ _. reverse groups.new.items ≡ with_item (reverse groups.old.items) item) }
    ensures err { IfErr result (λ e. e ≡ StepErr.Full) }
{
    let count = groups.len();
    if count > 0 {
        let last = &mut groups[count - 1];
        last.items.push(item)?;
        return Ok(());
    }
    Ok(())
}

impl Reader {
    /// A reader before the first token.
    pub fn new(alloc: Global) -> Reader
        ensures { state_of result ≡ start }
    {
        Reader {
            place: Place::Start,
            name: Name::empty(alloc),
            values: Vec::new(alloc),
            groups: Vec::new(alloc),
        }
    }

    /// Takes the name that was read last.
    fn take_name(&mut self, alloc: Global) -> Name
        ensures name { result ≡ self.old.name }
        ensures left { state_of self.new ≡ record (state_of self.old) { name = [] } }
    {
        mem::replace(&mut self.name, Name::empty(alloc))
    }

    /// Takes the values that were read.
    fn take_values(&mut self, alloc: Global) -> Names
        ensures values { result ≡ self.old.values.items }
        ensures left { state_of self.new ≡ record (state_of self.old) { values = [] } }
    {
        Names::from_vec(mem::replace(&mut self.values, Vec::new(alloc)))
    }

    /// Takes a word or a string between parentheses.
    fn take_arg(&mut self, alloc: Global, text: &[u8]) -> Result<(), Stop>
        ensures ok { IfOk result (λ _. state_of self.new ≡ record (state_of self.old) { place = Place.Arg; values = self.old.values.items ++ text.now ∷ [] }) }
        ensures err { IfErr result (λ e. e ≡ StepErr.Full) }
    {
        let value = Name::copy_of(alloc, text)?;
        if self.values.is_empty() {
            // most lists have one value, and a tree has many of them
            self.values.reserve_exact(1)?;
        }
        self.values.push(value)?;
        self.place = Place::Arg;
        Ok(())
    }

    /// Takes the value of an attribute.
    fn take_first(&mut self, alloc: Global, text: &[u8]) -> Result<(), Stop>
        ensures ok { IfOk result (λ _. state_of self.new ≡ at Place.Values [] self.old.values.items (with_item (reverse self.old.groups.items) (Item.Simple self.old.name text.now))) }
        ensures err { IfErr result (λ e. e ≡ StepErr.Full) }
    {
        let value = Name::copy_of(alloc, text)?;
        let name = self.take_name(alloc);
        put_item(&mut self.groups, Item::Simple { name, value })?;
        self.place = Place::Values;
        Ok(())
    }

    /// Takes a word or a string where a value may stand.
    fn take_value(&mut self, alloc: Global, text: &[u8]) -> Result<(), Stop>
        ensures ok { IfOk result (λ _. step limit (state_of self.old) (quoted text.now) ≡ Ok (state_of self.new)) }
        ensures err { IfErr result (λ e. StepFails e (step limit (state_of self.old) (quoted text.now))) }
    {
        match self.place {
            Place::FirstArg | Place::Arg | Place::NextArg => {
                self.take_arg(alloc, text)?;
                Ok(())
            }
            Place::FirstValue => {
                self.take_first(alloc, text)?;
                Ok(())
            }
            Place::Values => Ok(()),
            Place::Start | Place::Named | Place::Closed | Place::Body | Place::Done => Err(bad()),
        }
    }

    /// Takes a word.
    fn take_word(&mut self, alloc: Global, text: &[u8]) -> Result<(), Stop>
        ensures ok { IfOk result (λ _. step limit (state_of self.old) (word text.now) ≡ Ok (state_of self.new)) }
        ensures err { IfErr result (λ e. StepFails e (step limit (state_of self.old) (word text.now))) }
    {
        match self.place {
            Place::Start | Place::Body => {
                self.name = Name::copy_of(alloc, text)?;
                self.place = Place::Named;
                Ok(())
            }
            Place::Named
            | Place::FirstArg
            | Place::Arg
            | Place::NextArg
            | Place::Closed
            | Place::FirstValue
            | Place::Values
            | Place::Done => self.take_value(alloc, text),
        }
    }

    /// Takes an opening parenthesis.
    fn take_opening(&mut self, alloc: Global) -> Result<(), Stop>
        ensures ok { IfOk result (λ _. step limit (state_of self.old) opens ≡ Ok (state_of self.new)) }
        ensures err { IfErr result (λ e. StepFails e (step limit (state_of self.old) opens)) }
    {
        if self.place == Place::Named {
            self.values = Vec::new(alloc);
            self.place = Place::FirstArg;
            return Ok(());
        }
        Err(bad())
    }

    /// Takes a closing parenthesis.
    fn take_closing(&mut self) -> Result<(), Stop>
        ensures ok { IfOk result (λ _. step limit (state_of self.old) closes ≡ Ok (state_of self.new)) }
        ensures err { IfErr result (λ e. StepFails e (step limit (state_of self.old) closes)) }
    {
        if self.place == Place::FirstArg || self.place == Place::Arg {
            self.place = Place::Closed;
            return Ok(());
        }
        Err(bad())
    }

    /// Takes an opening brace.
    fn enter(&mut self, alloc: Global) -> Result<(), Stop>
        ensures ok { IfOk result (λ _. step limit (state_of self.old) enters ≡ Ok (state_of self.new)) }
        ensures err { IfErr result (λ e. StepFails e (step limit (state_of self.old) enters)) }
    {
        if self.place != Place::Closed {
            return Err(bad());
        }
        if self.groups.len() >= DEPTH {
            return Err(StepErr::Refused(Fault::Broken(Rule::TooDeep)));
        }
        let name = self.take_name(alloc);
        let args = self.take_values(alloc);
        // most groups are tables, of one item
        let items = Items::from_vec(Vec::with_capacity(alloc, 1)?);
        self.groups.push(Node { name, args, items })?;
        self.place = Place::Body;
        Ok(())
    }

    /// Takes a closing brace.
    fn leave(&mut self) -> Result<(), Stop>
        ensures ok { IfOk result (λ _. step limit (state_of self.old) leaves ≡ Ok (state_of self.new)) }
        ensures err { IfErr result (λ e. StepFails e (step limit (state_of self.old) leaves)) }
    {
        if self.place != Place::Body {
            return Err(bad());
        }
        if self.groups.len() == 1 {
            self.place = Place::Done;
            return Ok(());
        }
        match self.groups.pop() {
            None => Err(bad()),
            Some(group) => {
                put_item(&mut self.groups, Item::Sub(group))?;
                Ok(())
            }
        }
    }

    /// Takes a comma.
    fn take_comma(&mut self) -> Result<(), Stop>
        ensures ok { IfOk result (λ _. step limit (state_of self.old) comma ≡ Ok (state_of self.new)) }
        ensures err { IfErr result (λ e. StepFails e (step limit (state_of self.old) comma)) }
    {
        if self.place == Place::Arg {
            self.place = Place::NextArg;
            return Ok(());
        }
        Err(bad())
    }

    /// Takes the semicolon that ends a complex attribute.
    fn end_complex(&mut self, alloc: Global) -> Result<(), Stop>
        ensures ok { IfOk result (λ _. in_group (reverse self.old.groups.items) (at Place.Body [] [] (with_item (reverse self.old.groups.items) (Item.Complex self.old.name self.old.values.items))) ≡ Ok (state_of self.new)) }
        ensures err { IfErr result (λ e. StepFails e (in_group (reverse self.old.groups.items) (at Place.Body [] [] (with_item (reverse self.old.groups.items) (Item.Complex self.old.name self.old.values.items))))) }
    {
        if self.groups.is_empty() {
            return Err(bad());
        }
        let name = self.take_name(alloc);
        let values = self.take_values(alloc);
        put_item(&mut self.groups, Item::Complex { name, values })?;
        self.place = Place::Body;
        Ok(())
    }

    /// Takes a semicolon.
    fn take_semicolon(&mut self, alloc: Global) -> Result<(), Stop>
        ensures ok { IfOk result (λ _. step limit (state_of self.old) semicolon ≡ Ok (state_of self.new)) }
        ensures err { IfErr result (λ e. StepFails e (step limit (state_of self.old) semicolon)) }
    {
        match self.place {
            Place::Body => Ok(()),
            Place::Values => {
                self.place = Place::Body;
                Ok(())
            }
            Place::Closed => self.end_complex(alloc),
            Place::Start
            | Place::Named
            | Place::FirstArg
            | Place::Arg
            | Place::NextArg
            | Place::FirstValue
            | Place::Done => Err(bad()),
        }
    }

    /// Takes a colon.
    fn take_colon(&mut self) -> Result<(), Stop>
        ensures ok { IfOk result (λ _. step limit (state_of self.old) colon ≡ Ok (state_of self.new)) }
        ensures err { IfErr result (λ e. StepFails e (step limit (state_of self.old) colon)) }
    {
        if self.place != Place::Named {
            return Err(bad());
        }
        if self.groups.is_empty() {
            return Err(bad());
        }
        self.place = Place::FirstValue;
        Ok(())
    }

    /// Takes a token.
    pub fn enter_token(&mut self, alloc: Global, class: Class, text: &[u8]) -> Result<(), Stop>
        ensures ok { IfOk result (λ _. step limit (state_of self.old) (token class text.now) ≡ Ok (state_of self.new)) }
        ensures err { IfErr result (λ e. StepFails e (step limit (state_of self.old) (token class text.now))) }
    {
        match class {
            Class::Word => self.take_word(alloc, text),
            Class::Quoted => self.take_value(alloc, text),
            Class::Opens => self.take_opening(alloc),
            Class::Closes => self.take_closing(),
            Class::Enters => self.enter(alloc),
            Class::Leaves => self.leave(),
            Class::Comma => self.take_comma(),
            Class::Semicolon => self.take_semicolon(alloc),
            Class::Colon => self.take_colon(),
            Class::Other => Err(bad()),
        }
    }

    /// The group, where the tokens so far are a whole text.
    pub fn into_group(self) -> Option<Node>
        ensures { result ≡ end_of (state_of self) }
    {
        let Reader {
            place,
            mut groups,
            ..
        } = self;
        if place != Place::Done {
            return None;
        }
        groups.pop()
    }
}
