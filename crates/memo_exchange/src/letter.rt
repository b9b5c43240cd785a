//! A payload on its way.
ghost use Rattle.std.specs.Prelude.{◌≡◌};
ghost use Rattle.memo_exchange.specs.Letters.{Sent};

use std::marker::Model;

/// A payload from one host to another.
#[derive(Drop)]
pub(crate) struct Letter {
    from: u16,
    to: u16,
    bytes: Vec<u8>,
}

impl Model for Letter {
    ghost Value = { Sent };

    ghost view = { λ letter. record { from = letter.from; to = letter.to; bytes = letter.bytes.items } };
}

impl Letter {
    /// The letter with this payload.
    pub(crate) fn new(from: u16, to: u16, bytes: Vec<u8>) -> Letter
        ensures { result ≡ record { from = from; to = to; bytes = bytes.items } }
    {
        Letter { from, to, bytes }
    }

    /// The host that sends it.
    pub(crate) fn from(&self) -> u16
        ensures { result ≡ self.now.from }
    {
        self.from
    }

    /// The host to which it goes.
    pub(crate) fn to(&self) -> u16
        ensures { result ≡ self.now.to }
    {
        self.to
    }

    /// The payload.
    pub(crate) fn bytes(&self) -> &[u8]
        ensures { result.now ≡ self.now.bytes }
    {
        &self.bytes
    }
}
