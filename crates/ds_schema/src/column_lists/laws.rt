//! Laws that tie the reading and the printing of lists to their grammar.

ghost use Rattle.ds_schema.specs.ColumnLaws.{KeysReadBack, KeysStand, NamesReadBack, NamesStand, OneKeys, OneNames, StandingKeysAreRead, StandingNamesAreRead};

/// What is read at the front of some tokens is a list that stands there, whatever the cause that
/// stops a reader, and a list that stands there is read where it doesn't go on behind itself.
pub fn lists_are_read<W>()
    ensures names { NamesStand W }
    ensures standing_names { StandingNamesAreRead W }
    ensures keys { KeysStand W }
    ensures standing_keys { StandingKeysAreRead W }
{}

/// Bytes spell at most one list.
pub fn one_list_is_spelled()
    ensures names { OneNames }
    ensures keys { OneKeys }
{}

/// A printed list of words spells the same list.
pub fn printed_lists_read_back()
    ensures names { NamesReadBack }
    ensures keys { KeysReadBack }
{}
