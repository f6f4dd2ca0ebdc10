//! What a miner saw of a run.
ghost use Rattle.std.specs.Prelude.{◌≡◌, ℕ, List};
ghost use Rattle.view_text.specs.View.{InputShare as AnInputShare, Received as AReceived, View as AView};

use proto_core::{Link, Number};
use sc_text::{Elements, End, Name};
use std::marker::Model;

/// A miner's share of a private input.
#[derive(Drop)]
pub struct InputShare {
    pub(crate) name: Name,
    pub(crate) words: Vec<u64>,
}

impl Model for InputShare {
    ghost Value = { AnInputShare };

    ghost view = { λ s. record { name = s.name; words = s.words.items } };
}

impl InputShare {
    /// The input's name.
    pub fn name(&self) -> &Name
        ensures { result.now ≡ self.now.name }
    {
        &self.name
    }

    /// The words of the share.
    pub fn words(&self) -> &[u64]
        ensures { result.now ≡ self.now.words }
    {
        &self.words
    }

    /// The share of the input of this name.
    pub fn new(name: Name, words: Vec<u64>) -> InputShare
        ensures { result ≡ record { name = name; words = words.items } }
    {
        InputShare { name, words }
    }
}

/// A message that came, and its link.
#[derive(Drop)]
pub struct Received {
    pub(crate) link: Link,
    pub(crate) message: Vec<u64>,
}

impl Model for Received {
    ghost Value = { AReceived };

    ghost view = { λ r. record { link = r.link; message = r.message.items } };
}

impl Received {
    /// The link on which it came.
    pub fn link(&self) -> Link
        ensures { result ≡ self.now.link }
    {
        self.link
    }

    /// Its words.
    pub fn message(&self) -> &[u64]
        ensures { result.now ≡ self.now.message }
    {
        &self.message
    }

    /// This message on this link.
    pub fn new(link: Link, message: Vec<u64>) -> Received
        ensures { result ≡ record { link = link; message = message.items } }
    {
        Received { link, message }
    }
}

/// What a miner saw of a run: its shares of the private inputs, the words that it drew, the messages that came, in order of
/// arrival, what was opened, and how the run ended.
#[derive(Drop)]
pub struct View {
    pub(crate) miner: Number,
    pub(crate) inputs: Vec<InputShare>,
    pub(crate) drew: Vec<u64>,
    pub(crate) got: Vec<Received>,
    pub(crate) opened: Vec<Elements>,
    pub(crate) end: End,
}

impl Model for View {
    ghost Value = { AView };

    ghost view = { λ v. record { miner = v.miner; inputs = v.inputs.items; drew = v.drew.items; got = v.got.items; opened = v.opened.items; end = v.end } };
}

impl View {
    /// Whose view it is.
    pub fn miner(&self) -> Number
        ensures { result ≡ self.now.miner }
    {
        self.miner
    }

    /// The miner's shares of the private inputs.
    pub fn inputs(&self) -> &[InputShare]
        ensures { result.now ≡ self.now.inputs }
    {
        &self.inputs
    }

    /// The words that it drew.
    pub fn drew(&self) -> &[u64]
        ensures { result.now ≡ self.now.drew }
    {
        &self.drew
    }

    /// The messages that came, in order of arrival.
    pub fn got(&self) -> &[Received]
        ensures { result.now ≡ self.now.got }
    {
        &self.got
    }

    /// What was opened, opening by opening.
    pub fn opened(&self) -> &[Elements]
        ensures { result.now ≡ self.now.opened }
    {
        &self.opened
    }

    /// How the run ended.
    pub fn end(&self) -> End
        ensures { result ≡ self.now.end }
    {
        self.end
    }

    /// The view of these parts.
    pub fn new(
        miner: Number,
        inputs: Vec<InputShare>,
        drew: Vec<u64>,
        got: Vec<Received>,
        opened: Vec<Elements>,
        end: End,
    ) -> View
        ensures { result ≡ record { miner = miner; inputs = inputs.items; drew = drew.items; got = got.items; opened = opened.items; end = end } }
    {
        View {
            miner,
            inputs,
            drew,
            got,
            opened,
            end,
        }
    }
}
