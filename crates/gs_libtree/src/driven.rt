//! The reader as the machine that the driver hands tokens to.
#![tactic(auto)]

use crate::error::{Rule, Stop};
use crate::reader::Reader;
use crate::token::class_of;
use crate::tree::Node;
use gs_drive::Machine;
use gs_text::Kind;
use std::alloc::{AllocError, Global};

impl<'a> Machine<'a> for Reader {
    ghost use Rattle.gs_libtree.specs.Machine.{State as TreeState, end_of, limit, no_limit, start, step as step_by};
    ghost use Rattle.gs_libtree.specs.Reading.{state_of};
    ghost use Rattle.gs_libtree.specs.Text.{LibText};
    ghost use Rattle.gs_libtree.specs.Token.{Token as TreeToken, token_of};
    ghost use Rattle.gs_libtree.specs.Tree.{IsForm};

    type Out = Node;

    type Rule = Rule;

    ghost State = { TreeState };

    ghost Token = { TreeToken };

    ghost token = { token_of };

    ghost begin = { start };

    ghost step = { step_by limit };

    ghost end = { end_of };

    ghost loose = { step_by no_limit };

    ghost Form = { IsForm };

    ghost Text = { LibText };

    ghost Breaks = { λ _ _. Unit {0} };

    ghost state = { state_of };

    ghost Keeps = { λ _. Unit {0} };

    fn start(alloc: Global, _len: usize) -> Result<Reader, AllocError> {
        Ok(Reader::new(alloc))
    }

    fn take(&mut self, alloc: Global, kind: Kind, text: &'a [u8], _line: u32) -> Result<(), Stop> {
        self.enter_token(alloc, class_of(kind, text), text)
    }

    fn finish(self, _alloc: Global) -> Result<Option<Node>, AllocError> {
        Ok(self.into_group())
    }
}
