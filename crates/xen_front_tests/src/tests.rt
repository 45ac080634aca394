//! Fronts before honest and hostile backs.

mod answers;
mod buffers;
mod example;
mod extras;
mod fixtures;
mod growth;
mod hostile;
mod model;
mod random;
mod sends;
mod steps;
mod wired;
mod words;
