//! A token that is completed some turns later.

ghost use Rattle.std.specs.Prelude.{◌≡◌, None, Some, is_some};
ghost use Rattle.sk_async.specs.Completer.{due, turned};

use crate::token::{Completion, StepToken};
use std::marker::Model;

/// Completes a token at its turn of a given number. Contracts see this number, the number of the
/// token that it holds, and the turns since it was handed that one.
///
/// It holds at most one token, and abandons it when it is dropped.
#[derive(Debug)]
pub struct Completer {
    turns: u32,
    /// Fewer than `turns`, or 0.
    turned: u32,
    token: Option<StepToken>,
}

impl Model for Completer {
    ghost use Rattle.std.specs.Prelude.{◌≡◌, ◌<◌, ◌⊎◌};
    ghost use Rattle.sk_async.specs.Completer as seen;

    ghost Value = { seen.Completer };

    ghost view = { λ c. record { turns = c.turns; turned = c.turned; held = c.token } };

    ghost invariant = { λ c. (c.turned ≡ 0) ⊎ (c.turned < c.turns) };
}

impl Completer {
    /// Holds no token. A token will be completed at its turn of this number; 0 is as 1.
    pub fn new(turns: u32) -> Completer
        ensures { result ≡ record { turns = turns; turned = 0; held = None } }
    {
        Completer {
            turns,
            turned: 0,
            token: None,
        }
    }

    /// Whether it holds a token.
    pub fn is_holding(&self) -> bool
        ensures { result ≡ is_some self.now.held }
    {
        self.token.is_some()
    }

    /// Takes a token, and counts its turns from now on.
    pub fn hold(&mut self, token: StepToken)
        requires { self.old.held ≡ None }
        ensures { self.new ≡ record self.old { turned = 0; held = Some token } }
    {
        self.turned = 0;
        if let Some(former) = self.token.replace(token) {
            former.abandon();
        }
    }

    /// One turn: the completion of the token, None where it holds none, or where this turn's number
    /// is too small.
    pub fn turn(&mut self) -> Option<Completion>
        ensures answer { result ≡ due self.old self.old.held }
        ensures left { self.new ≡ turned self.old self.old.held }
    {
        if self.token.is_some() && self.turned + 1 < self.turns {
            self.turned += 1;
            return None;
        }
        let token = self.token.take()?;
        self.turned = 0;
        Some(token.complete())
    }

    /// Hands out the token that it holds.
    pub fn close(self) -> Option<StepToken>
        ensures { result ≡ self.held }
    {
        let Completer {
            turns: _,
            turned: _,
            token,
        } = self;
        token
    }
}

impl Drop for Completer {
    fn drop(self) {
        if let Some(token) = self.close() {
            token.abandon();
        }
    }
}
