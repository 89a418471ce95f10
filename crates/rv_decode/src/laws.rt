//! What the table and the fields say together.

ghost use Rattle.std.specs.Prelude.{All};
ghost use Rattle.rv_decode.specs.Table.{table};
ghost use Rattle.rv_decode.specs.Laws.{DecodesItsWords};

/// Each row's own word, with its fields at the places of its format, decodes to it.
pub fn rows_decode_to_themselves()
    ensures { All DecodesItsWords table }
{}
