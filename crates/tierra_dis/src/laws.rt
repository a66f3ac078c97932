//! Laws of the definitions: functions that do nothing, each with its law as its contract.

ghost use Rattle.tierra_dis.specs.Laws.{ListingsReadBack};

/// Does nothing: its contract is the law that the listing of a code assembles to the code.
pub fn listings_read_back()
    ensures { ListingsReadBack }
{}
