// The words that a trial is made on: an array with a part in its middle that is lent, and guard words before and behind it. The slice lent for a list has
// another such array.
//
//     word                   means
//     0 .. FROM              guards, never lent
//     FROM .. FROM + NEED    what a graph of IDS ids and PLACES child places needs
//     FROM + NEED .. TO      lent as well, and past the need
//     TO .. SIZE             guards, never lent
//
// What is drawn comes from a linear congruential generator, so that every run is the same.
pub use drawing::{draw, draw_word, next};

pub const SIZE: usize = 640;

pub const FROM: usize = 64;

pub const NEED: usize = 464;

pub const TO: usize = 576;

pub const IDS: usize = 12;

pub const PLACES: usize = 24;
