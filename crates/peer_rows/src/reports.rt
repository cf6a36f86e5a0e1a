ghost use Rattle.peer_rows.specs.Reports.{RowsByNumber, ValueIsReported, OwnRowsInTheirPlace, FixedValuesStay};

pub fn rows_by_number()
    ensures { RowsByNumber }
{}

pub fn value_is_reported()
    ensures { ValueIsReported }
{}

pub fn own_rows_in_their_place()
    ensures { OwnRowsInTheirPlace }
{}

pub fn fixed_values_stay()
    ensures { FixedValuesStay }
{}
