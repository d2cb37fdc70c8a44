//! Packed rows stand for one row each, and their bytes hold them.
ghost use Rattle.ds_pack.specs.Packed.{PackedRowsDiffer};
ghost use Rattle.ds_pack.specs.Batches.{PackedRowsAreRead, FittingRowsArePackable};

/// Of two different rows that fit one schema neither packed row begins the other.
pub fn packed_rows_differ()
    ensures { PackedRowsDiffer }
{}

/// What is read of the packed bytes of some rows is these rows.
pub fn packed_rows_are_read()
    ensures { PackedRowsAreRead }
{}

/// Rows that fit a schema are packable.
pub fn fitting_rows_are_packable()
    ensures { FittingRowsArePackable }
{}
