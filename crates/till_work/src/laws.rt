//! A law, on a function with nothing to do.

ghost use Rattle.till_work.specs.Laws.{TillsBookActsOnce};

/// From the key press to the disk, once. What is entered by `enter_command` and recorded by `deliver` has become in the
/// chain's books what the till's book says of it. That holds over any number of stops.
pub fn a_tills_book_acts_once()
    ensures { TillsBookActsOnce }
{}
