//! Laws that tie the reading of schemas to their grammar.

ghost use Rattle.ds_schema.specs.SchemaLaws.{PrintedReadsBack, ReadIsSpelled, RefusedAtFault, RefusedIsNone, SpelledIsRead};

/// A text is read as a schema where it spells it, and only there.
pub fn schemas_are_read()
    ensures read { ReadIsSpelled }
    ensures spelled { SpelledIsRead }
{}

/// A refused text spells no schema, and the place that is answered is the first with which none goes on.
pub fn first_fault()
    ensures none { RefusedIsNone }
    ensures place { RefusedAtFault }
{}

/// A printed schema is read as the same schema.
pub fn printed_reads_back()
    ensures { PrintedReadsBack }
{}
