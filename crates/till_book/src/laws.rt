//! Laws of the drawer, each on a function with nothing to do.

ghost use Rattle.till_book.specs.Drawer.{DrawerIsTheDifference};

/// What the drawer counts since a closing is worth the difference between the whole book then and the whole book now. So
/// the counted payments are the accepted payments of the book now, less the accepted payments at the closing.
pub fn a_drawer_is_the_difference()
    ensures { DrawerIsTheDifference }
{}
