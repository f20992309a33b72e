use std::marker::Model;

/// What a seat of the table knows. No value of it is made.
pub struct Seen {
    nothing: u8,
}

impl Model for Seen {
    ghost use Rattle.tk_locks.specs.View.{View, nobody};

    ghost Value = { View };

    ghost view = { λ s. nobody };
}
