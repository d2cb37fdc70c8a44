//! Laws over the definitions: each function does nothing, and its contract is the law.

ghost use Rattle.std.specs.Cmp.{IsTotalOrder};
ghost use Rattle.ds_value.specs.Values.{value_cmp};
ghost use Rattle.ds_value.specs.Laws.{TextSpellsOneValue, WrittenTextSpells, DaysHaveDates, DatesHaveDays, CanonicalBytesDiffer, FittingValuesAreHeld, EqualValuesAreOne};

pub fn spellings_are_exact()
    ensures one { TextSpellsOneValue }
    ensures written { WrittenTextSpells }
{}

pub fn days_and_dates_agree()
    ensures dates { DaysHaveDates }
    ensures days { DatesHaveDays }
{}

pub fn canonical_bytes_differ()
    ensures differ { CanonicalBytesDiffer }
    ensures held { FittingValuesAreHeld }
{}

pub fn value_order_is_total()
    ensures total { IsTotalOrder value_cmp }
    ensures exact { EqualValuesAreOne }
{}
