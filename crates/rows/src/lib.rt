// The worked examples follow from the definitions.
#![tactic(auto)]

ghost use Rattle.rows.specs.Payment.{Payment};
ghost use Rattle.rows.specs.Signing.{Signing};
ghost use Rattle.rows.specs.Table.{Table};

pub fn rows_hold()
    ensures table { Table }
    ensures payment { Payment }
    ensures signing { Signing }
{}
